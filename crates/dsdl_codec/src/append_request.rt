ghost use Rattle.std.specs.Prelude.{◌≡◌, ◌<◌, Some, IfSome, IsNone, MatchOption};
ghost use Rattle.arrayvec.specs.ArrayVec.{array_vec_len};

use crate::entry::{append_entry, read_optional_entry};
use crate::numbers::{Numbers, append_optional_entry};
use crate::payload::{Payload, append};
use can_frame::Entry;

/// A leader tells a member to append an entry, or that it still leads
/// (the request of `uavcan.protocol.dynamic_node_id.server.AppendEntries`).
#[derive(Clone, Copy, Debug, PartialEq, Eq)]
pub struct AppendRequest {
    /// The leader's term.
    pub term: u32,

    /// The term of the entry before the new one, 0 where there is none.
    pub prev_term: u32,

    /// The place of that entry, counted from 1; 0 where there is none.
    pub prev_index: u8,

    /// The place up to which the leader's log is committed.
    pub commit: u8,

    /// The new entry. Its node ID is below 128.
    pub entry: Option<Entry>,
}

impl AppendRequest {
    ghost use Rattle.dsdl_codec.specs.AppendRequest.{SpellsAppendRequest, append_request_bytes, append_request_of};
    ghost use Rattle.dsdl_codec.specs.Numbers.{append_request_numbers};

    /// The value of a payload; `None` where it has neither 10 bytes nor 31.
    pub fn read(payload: &[u8]) -> Option<AppendRequest>
        ensures value { result ≡ append_request_of payload.now }
        ensures found { IfSome result (λ request. SpellsAppendRequest request payload.now) }
        ensures none { IsNone result → (request : AppendRequest) →
            SpellsAppendRequest request payload.now → ⊥ }
        ensures only { (request : AppendRequest) → SpellsAppendRequest request payload.now →
            result ≡ Some request }
    {
        let [a, b, c, d, e, f, g, h, prev_index, commit, rest @ ..] = payload else {
            return None;
        };
        let entry = read_optional_entry(rest)?;
        Some(AppendRequest {
            term: u32::from_le_bytes([*a, *b, *c, *d]),
            prev_term: u32::from_le_bytes([*e, *f, *g, *h]),
            prev_index: *prev_index,
            commit: *commit,
            entry,
        })
    }

    /// The payload of 10 bytes, or of 31 with an entry.
    pub fn write(&self) -> Payload
        requires { IfSome self.now.entry (λ entry. entry.node < 128) }
        ensures bytes { result.items ≡ append_request_bytes self.now 0 }
        ensures spelled { SpellsAppendRequest self.now result.items }
        ensures length { MatchOption self.now.entry (array_vec_len result ≡ 10)
            (λ _. array_vec_len result ≡ 31) }
    {
        let mut payload = Payload::new();
        append(&mut payload, &self.term.to_le_bytes());
        append(&mut payload, &self.prev_term.to_le_bytes());
        payload.push(self.prev_index);
        payload.push(self.commit);
        if let Some(entry) = &self.entry {
            append_entry(&mut payload, entry);
        }
        payload
    }

    /// The numbers of the value.
    pub fn numbers(&self) -> Numbers
        ensures { result.items ≡ append_request_numbers self.now }
    {
        let mut numbers = Numbers::new();
        numbers.push(u64::from(self.term));
        numbers.push(u64::from(self.prev_term));
        numbers.push(u64::from(self.prev_index));
        numbers.push(u64::from(self.commit));
        append_optional_entry(&mut numbers, &self.entry);
        numbers
    }
}
