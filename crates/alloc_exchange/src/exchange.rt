ghost use Rattle.std.specs.Prelude.{◌≡◌, ◌≤◌, ◌+◌, List, [], ◌++◌, length};
ghost use Rattle.arrayvec.specs.ArrayVec.{array_vec_len};

use crate::heard::{Heard, Ignore};
use crate::stage::Stage;
use arrayvec::ArrayVec;
use can_frame::timing::STAGE_TIMEOUT;
use dsdl_codec::Allocation;

/// What an allocator has heard of the unique ID of a node without an ID.
#[derive(Debug, Drop, PartialEq, Eq)]
pub struct Exchange {
    collected: ArrayVec<u8, 16>,

    /// When the last request was accepted (in ms), 0 where none is kept.
    last: u64,

    ghost short: { array_vec_len collected ≤ 12 },
}

impl Exchange {
    ghost use Rattle.alloc_exchange.specs.Exchange.{Accepted, answer, after, recent_requests, with_request, response, left_over, HasItsSize, IsEndOfStage};
    ghost use Rattle.alloc_exchange.specs.Stands.{StandsFor};

    /// An exchange that has accepted nothing.
    pub fn new() -> Exchange
        ensures { StandsFor result [] }
    {
        Exchange {
            collected: ArrayVec::new(),
            last: 0,
        }
    }

    /// Takes a request that is heard at `now` (in ms). `may_follow` says whether a follow-up may be
    /// given now.
    ///
    /// First, bytes are forgotten where the last accepted request is more than 500 ms old. Then a
    /// request is ignored where it has not as many bytes as its stage brings, and else where another
    /// stage is expected; it changes nothing. Any other is accepted: it gives the whole unique ID, or
    /// else the bytes so far where `may_follow`, or else is denied. Only a follow-up keeps the bytes.
    #[tactic(auto, unfolding(crate::specs::Exchange::answer, crate::specs::Exchange::after))]
    pub fn heard(&mut self, message: &Allocation, now: u64, may_follow: bool) -> Heard
        ensures answer { (accepted : List Accepted) → StandsFor self.old accepted →
            result ≡ answer accepted message.now now may_follow }
        ensures after { (accepted : List Accepted) → StandsFor self.old accepted →
            StandsFor self.new (after accepted message.now now may_follow) }
        ensures size { HasItsSize result }
    {
        self.forget_where_late(now);
        let stage = Stage::of(message);
        if message.uid.len() != stage.length() {
            return Heard::Ignored(Ignore::Length);
        }
        if self.collected.len() != stage.bytes_before() {
            return Heard::Ignored(Ignore::Stage);
        }
        self.accept(message, now, may_follow)
    }

    fn forget_where_late(&mut self, now: u64)
        ensures { (accepted : List Accepted) → StandsFor self.old accepted →
            StandsFor self.new (recent_requests accepted now) }
    {
        if now > self.last.saturating_add(STAGE_TIMEOUT) {
            *self = Exchange::new();
        }
    }

    fn accept(&mut self, message: &Allocation, now: u64, may_follow: bool) -> Heard
        requires { IsEndOfStage (array_vec_len self.old.collected + array_vec_len message.now.uid) }
        ensures answer { (accepted : List Accepted) → StandsFor self.old accepted →
            result ≡ response (with_request accepted message.now now) message.now.node may_follow }
        ensures after { (accepted : List Accepted) → StandsFor self.old accepted →
            StandsFor self.new (left_over (with_request accepted message.now now) may_follow) }
        ensures size { HasItsSize result }
    {
        let collected = joined(&self.collected, &message.uid);
        if may_follow && !collected.is_full() {
            self.collected = joined(&self.collected, &message.uid);
            self.last = now;
            return Heard::FollowUp(collected);
        }
        *self = Exchange::new();
        match collected.into_inner() {
            Ok(uid) => Heard::Whole(uid, message.node),
            Err(_) => Heard::Denied,
        }
    }
}

/// The bytes of two lists, one behind the other.
fn joined(front: &[u8], back: &[u8]) -> ArrayVec<u8, 16>
    requires { length front.now + length back.now ≤ 16 }
    ensures { result.items ≡ front.now ++ back.now }
{
    let mut bytes = ArrayVec::new();
    bytes.try_extend_from_slice(front).unwrap();
    bytes.try_extend_from_slice(back).unwrap();
    bytes
}
