//! Laws of the definitions, each the contract of a function that does nothing.

ghost use Rattle.std.specs.Prelude.{◌≡◌, ◌≤◌, ◌∷◌, ℕ, List, []};
ghost use Rattle.std.specs.Int.{to_le_bytes, w32};
ghost use Rattle.cmd_new.specs.Found.{IsFound};
ghost use Rattle.cmd_new.specs.Marked.{IsMarked};
ghost use Rattle.cmd_new.specs.NewImage.{IsNewImage, highest_start, image_above as store_above, made_image as made_store, new_image as new_store};
ghost use Rattle.cmd_new.specs.declared.found.Found.{Found};
ghost use Rattle.cmd_new.specs.declared.found.Found.TheVariants.{NewStore, UsedStore};
ghost use Rattle.disk_model.specs.Contents.{Contents};
ghost use Rattle.kv_store.specs.Image.{StandsFor, put_in};

/// The image of a new store stands for the map in which the version is 2 and no other key has a value: the map of a
/// store of zeros after the put of its first opening.
pub fn a_new_store_has_its_version_alone()
    ensures { StandsFor new_store (put_in (λ (key : ℕ). []) 0 (2 ∷ [])) }
{}

/// The image of a store that is made above a term stands for the map in which the version is 2, the term is this one,
/// the vote is for this node, and no other key has a value.
pub fn a_store_above_a_term_has_term_and_vote()
    ensures { (term node : ℕ) → StandsFor (store_above term node)
        (put_in (put_in (put_in (λ (key : ℕ). []) 0 (2 ∷ [])) 1 (to_le_bytes w32 term)) 2 (node ∷ [])) }
{}

/// What is made for a member, above a term that stores are made above, is found as a new store.
pub fn a_made_store_is_a_new_one()
    ensures { (term node : ℕ) → term ≤ highest_start → 1 ≤ node → node ≤ 125 →
        IsFound (made_store term node) NewStore }
{}

/// A new store that was marked is found as a used one.
pub fn a_marked_store_is_a_used_one()
    ensures { (old new : Contents) → IsNewImage old.seen → IsMarked old new →
        IsFound new.seen UsedStore }
{}

/// An image is found in one way.
pub fn an_image_is_found_one_way()
    ensures { (image : List ℕ) (a b : Found) → IsFound image a → IsFound image b → a ≡ b }
{}
