ghost use Rattle.std.specs.Prelude.{◌≡◌, ◌++◌, map, string_bytes, IfOk, OnOk};
ghost use Rattle.allocator.specs.CanWords.{node_words, turns_and_ids};

use std::alloc::{AllocError, Global};

/// The words of `node` that ask for what these words of `can` do (`node_words`).
pub fn words_of_node(alloc: Global, words: &[String]) -> Result<Vec<String>, AllocError>
    ensures { IfOk result (λ of_node. map string_bytes of_node.items ≡ node_words (map string_bytes words.now)) }
{
    let mut of_node = Vec::new(alloc);
    of_node.push(String::from_str(alloc, "node")?)?;
    let [_, members, others @ ..] = words else {
        return Ok(of_node);
    };
    of_node.push(members.clone()?)?;
    of_node.push(String::from_str(alloc, "1024")?)?;
    push_turns_and_ids(alloc, &mut of_node, others)?;
    Ok(of_node)
}

/// Puts the turns and the members that run here behind the base. One word alone is a member that takes the most turns.
#[tactic(auto, using(crate::proofs::CanWords::of_several))]
fn push_turns_and_ids(
    alloc: Global,
    of_node: &mut Vec<String>,
    others: &[String],
) -> Result<(), AllocError>
    ensures { OnOk result (map string_bytes of_node.new.items
        ≡ map string_bytes of_node.old.items ++ turns_and_ids (map string_bytes others.now)) }
{
    match others {
        [id] => {
            of_node.push(String::from_str(alloc, "1000000000")?)?;
            of_node.push(id.clone()?)?;
            Ok(())
        }
        _ => push_all(of_node, others),
    }
}

/// Puts these words behind the others.
fn push_all(all: &mut Vec<String>, words: &[String]) -> Result<(), AllocError>
    ensures { OnOk result (map string_bytes all.new.items
        ≡ map string_bytes all.old.items ++ map string_bytes words.now) }
{
    for word in words {
        all.push(word.clone()?)?;
    }
    Ok(())
}
