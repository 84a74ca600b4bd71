//! The bytes of a log entry.

ghost use Rattle.std.specs.Prelude.{◌≡◌, ◌≤◌, ◌<◌, ◌+◌, ◌++◌, Some, IfSome, Option};
ghost use Rattle.arrayvec.specs.ArrayVec.{array_vec_len};
ghost use Rattle.can_frame.specs.declared.entry.Entry.{Entry};
ghost use Rattle.can_frame.specs.Sizes.{longest_payload};
ghost use Rattle.dsdl_codec.specs.Entry.{SpellsEntry, SpellsOptionalEntry, entry_bytes, entry_of, optional_entry_of};

use crate::payload::{Payload, append};
use can_frame::{Entry, Uid};

/// The entry of 21 bytes.
pub fn read_entry(bytes: &[u8]) -> Option<Entry>
    ensures value { result ≡ entry_of bytes.now }
    ensures found { IfSome result (λ entry. SpellsEntry entry bytes.now) }
    ensures only { (entry : Entry) → SpellsEntry entry bytes.now → result ≡ Some entry }
{
    let [a, b, c, d, rest @ ..] = bytes else {
        return None;
    };
    let [uid @ .., node] = rest else {
        return None;
    };
    Some(Entry {
        term: u32::from_le_bytes([*a, *b, *c, *d]),
        uid: Uid::try_from(uid).ok()?,
        node: *node % 128,
    })
}

/// The entry of 21 bytes, or none where there are no bytes.
pub fn read_optional_entry(bytes: &[u8]) -> Option<Option<Entry>>
    ensures value { result ≡ optional_entry_of bytes.now }
    ensures found { IfSome result (λ entry. SpellsOptionalEntry entry bytes.now) }
    ensures only { (entry : Option Entry) → SpellsOptionalEntry entry bytes.now →
        result ≡ Some entry }
{
    if bytes.is_empty() {
        return Some(None);
    }
    Some(Some(read_entry(bytes)?))
}

/// Appends the 21 bytes of an entry.
pub fn append_entry(payload: &mut Payload, entry: &Entry)
    requires room { array_vec_len payload.old + 21 ≤ longest_payload }
    requires node { entry.now.node < 128 }
    ensures items { payload.new.items ≡ payload.old.items ++ entry_bytes entry.now 0 }
    ensures spelled { SpellsEntry entry.now (entry_bytes entry.now 0) }
    ensures len { array_vec_len payload.new ≡ array_vec_len payload.old + 21 }
{
    append(payload, &entry.term.to_le_bytes());
    append(payload, &entry.uid);
    payload.push(entry.node);
}
