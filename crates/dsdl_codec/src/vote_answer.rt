ghost use Rattle.std.specs.Prelude.{◌≡◌, Some, IfSome, IsNone};
ghost use Rattle.arrayvec.specs.ArrayVec.{array_vec_len};

use crate::numbers::{self, Numbers};
use crate::payload::Payload;
use crate::verdict;

/// What a member answers to a candidate's [`VoteRequest`](crate::VoteRequest)
/// (the response of `uavcan.protocol.dynamic_node_id.server.RequestVote`).
#[derive(Clone, Copy, Debug, PartialEq, Eq)]
pub struct VoteAnswer {
    /// The term of the member that answers.
    pub term: u32,

    /// Whether the candidate has its vote in this term.
    pub granted: bool,
}

impl VoteAnswer {
    ghost use Rattle.dsdl_codec.specs.VoteAnswer.{SpellsVoteAnswer, vote_answer_bytes, vote_answer_of};
    ghost use Rattle.dsdl_codec.specs.Numbers.{vote_answer_numbers};

    /// The value of a payload; `None` where it has not 5 bytes.
    pub fn read(payload: &[u8]) -> Option<VoteAnswer>
        ensures value { result ≡ vote_answer_of payload.now }
        ensures found { IfSome result (λ answer. SpellsVoteAnswer answer payload.now) }
        ensures none { IsNone result → (answer : VoteAnswer) →
            SpellsVoteAnswer answer payload.now → ⊥ }
        ensures only { (answer : VoteAnswer) → SpellsVoteAnswer answer payload.now →
            result ≡ Some answer }
    {
        let (term, granted) = verdict::read(payload)?;
        Some(VoteAnswer { term, granted })
    }

    /// The payload of 5 bytes.
    pub fn write(&self) -> Payload
        ensures bytes { result.items ≡ vote_answer_bytes self.now 0 }
        ensures spelled { SpellsVoteAnswer self.now result.items }
        ensures length { array_vec_len result ≡ 5 }
    {
        verdict::write(self.term, self.granted)
    }

    /// The numbers of the value.
    pub fn numbers(&self) -> Numbers
        ensures { result.items ≡ vote_answer_numbers self.now }
    {
        numbers::of_verdict(self.term, self.granted)
    }
}
