ghost use Rattle.std.specs.Prelude.{◌≡◌, Some, IfSome, IsNone};
ghost use Rattle.arrayvec.specs.ArrayVec.{array_vec_len};

use crate::numbers::Numbers;
use crate::payload::{Payload, append};

/// A candidate asks for a vote
/// (the request of `uavcan.protocol.dynamic_node_id.server.RequestVote`).
#[derive(Clone, Copy, Debug, PartialEq, Eq)]
pub struct VoteRequest {
    /// The candidate's term.
    pub term: u32,

    /// The term of the last entry of the candidate's log, 0 where it is empty.
    pub last_term: u32,

    /// The place of that entry, counted from 1; 0 where the log is empty.
    pub last_index: u8,
}

impl VoteRequest {
    ghost use Rattle.dsdl_codec.specs.VoteRequest.{SpellsVoteRequest, vote_request_bytes, vote_request_of};
    ghost use Rattle.dsdl_codec.specs.Numbers.{vote_request_numbers};

    /// The value of a payload; `None` where it has not 9 bytes.
    pub fn read(payload: &[u8]) -> Option<VoteRequest>
        ensures value { result ≡ vote_request_of payload.now }
        ensures found { IfSome result (λ request. SpellsVoteRequest request payload.now) }
        ensures none { IsNone result → (request : VoteRequest) →
            SpellsVoteRequest request payload.now → ⊥ }
        ensures only { (request : VoteRequest) → SpellsVoteRequest request payload.now →
            result ≡ Some request }
    {
        let [a, b, c, d, e, f, g, h, last_index] = payload else {
            return None;
        };
        Some(VoteRequest {
            term: u32::from_le_bytes([*a, *b, *c, *d]),
            last_term: u32::from_le_bytes([*e, *f, *g, *h]),
            last_index: *last_index,
        })
    }

    /// The payload of 9 bytes.
    pub fn write(&self) -> Payload
        ensures bytes { result.items ≡ vote_request_bytes self.now }
        ensures spelled { SpellsVoteRequest self.now result.items }
        ensures length { array_vec_len result ≡ 9 }
    {
        let mut payload = Payload::new();
        append(&mut payload, &self.term.to_le_bytes());
        append(&mut payload, &self.last_term.to_le_bytes());
        payload.push(self.last_index);
        payload
    }

    /// The numbers of the value.
    pub fn numbers(&self) -> Numbers
        ensures { result.items ≡ vote_request_numbers self.now }
    {
        let mut numbers = Numbers::new();
        numbers.push(u64::from(self.term));
        numbers.push(u64::from(self.last_term));
        numbers.push(u64::from(self.last_index));
        numbers
    }
}
