ghost use Rattle.std.specs.Prelude.{◌≡◌, Some, IfSome, IsNone};
ghost use Rattle.arrayvec.specs.ArrayVec.{array_vec_len};

use crate::numbers::{self, Numbers};
use crate::payload::Payload;
use crate::verdict;

/// What a member answers to a leader's [`AppendRequest`](crate::AppendRequest)
/// (the response of `uavcan.protocol.dynamic_node_id.server.AppendEntries`).
#[derive(Clone, Copy, Debug, PartialEq, Eq)]
pub struct AppendAnswer {
    /// The term of the member that answers.
    pub term: u32,

    /// Whether its log now agrees with the leader's as far as the request goes.
    pub success: bool,
}

impl AppendAnswer {
    ghost use Rattle.dsdl_codec.specs.AppendAnswer.{SpellsAppendAnswer, append_answer_bytes, append_answer_of};
    ghost use Rattle.dsdl_codec.specs.Numbers.{append_answer_numbers};

    /// The value of a payload; `None` where it has not 5 bytes.
    pub fn read(payload: &[u8]) -> Option<AppendAnswer>
        ensures value { result ≡ append_answer_of payload.now }
        ensures found { IfSome result (λ answer. SpellsAppendAnswer answer payload.now) }
        ensures none { IsNone result → (answer : AppendAnswer) →
            SpellsAppendAnswer answer payload.now → ⊥ }
        ensures only { (answer : AppendAnswer) → SpellsAppendAnswer answer payload.now →
            result ≡ Some answer }
    {
        let (term, success) = verdict::read(payload)?;
        Some(AppendAnswer { term, success })
    }

    /// The payload of 5 bytes.
    pub fn write(&self) -> Payload
        ensures bytes { result.items ≡ append_answer_bytes self.now 0 }
        ensures spelled { SpellsAppendAnswer self.now result.items }
        ensures length { array_vec_len result ≡ 5 }
    {
        verdict::write(self.term, self.success)
    }

    /// The numbers of the value.
    pub fn numbers(&self) -> Numbers
        ensures { result.items ≡ append_answer_numbers self.now }
    {
        numbers::of_verdict(self.term, self.success)
    }
}
