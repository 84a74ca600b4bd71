//! Whether a frame may be given to a server in a cluster under test.

ghost use Rattle.std.specs.Prelude.{◌≡◌, ◌&&◌, ℕ, List, true, false, Some, IsSome, nat_eq, not, if◌then◌else◌};
ghost use Rattle.can_frame.specs.declared.identifier.Ident.{Ident as IdentValue};
ghost use Rattle.can_frame.specs.Identifier.{identifier_of};
ghost use Rattle.raft_core.specs.Calls.{IsPending};
ghost use Rattle.raft_core.specs.Times.{Sending};
ghost use Rattle.raft_model.specs.Messages.{Request};
ghost use Rattle.transfer_rx.specs.Heard.{delivery_with};
ghost use Rattle.can_frame.specs.declared.step.Judged.TheVariants.{Fine, Stale, Torn};
ghost use Rattle.can_frame.specs.Kinds.{is_response};
ghost use Rattle.transfer_rx.specs.Acceptance.{AnswersByRows};
ghost use Rattle.transfer_rx.specs.Reassembly.{arrival_of};
ghost use Rattle.alloc_spec.specs.Accepted as accepted;
ghost use Rattle.alloc_spec.specs.Accepted.{AllocatorReceiverFitsInMemory};
ghost use Rattle.alloc_spec.specs.Judging.{is_stale, arrival_judgement, misses};
ghost use Rattle.alloc_spec.specs.AllocatorState.{AllocatorState};

use crate::server::Server;
use can_frame::timing::CALL_TIMEOUT;
use can_frame::{Frame, Ident, Judged, Kind, Mark};
use disk_model::Disk;
use raft_core::Pending;
use transfer_rx::Heading;

impl<D: Disk, F: Fn(Kind, u16) -> Option<u64> + Copy> Server<D, F> {
    ghost use Rattle.alloc_server.specs.Server.{StandsFor, accepts, fault_of};

    /// What the frame would deliver in a step at this moment: `Torn` where it is a transfer whose
    /// frames were not made together, one from outside excepted, and else `Stale` where it is a
    /// response that a pending call would take, and answers another call. A server that has failed
    /// delivers nothing. Nothing changes.
    pub fn judge(&self, frame: &Frame, mark: Mark, now: u64) -> Judged
        requires memory { AllocatorReceiverFitsInMemory F.row }
        requires callable { F.IsAlwaysCallable (accepts self.now) }
        requires answers { AnswersByRows (F.post (accepts self.now)) accepted.rows }
        ensures judged { (t : AllocatorState) → StandsFor self.now t →
            result ≡ arrival_judgement t (arrival_of frame.now mark now) }
        ensures failed { IsSome (fault_of self.now) → result ≡ Fine }
    {
        if self.failed() {
            return Judged::Fine;
        }
        if !frame.tail().end {
            return Judged::Fine;
        }
        self.judge_last(frame, mark, now)
    }

    /// Judges the last frame of a transfer. A frame that is fine whatever it delivers is not to pay for
    /// what the receiver foretells.
    fn judge_last(&self, frame: &Frame, mark: Mark, now: u64) -> Judged
        requires memory { AllocatorReceiverFitsInMemory F.row }
        requires callable { F.IsAlwaysCallable (accepts self.now) }
        requires answers { AnswersByRows (F.post (accepts self.now)) accepted.rows }
        ensures { (t : AllocatorState) → StandsFor self.now t →
            result ≡ arrival_judgement t (arrival_of frame.now mark now) }
    {
        if is_fine(frame, mark) {
            return Judged::Fine;
        }
        let now = self.member.latest.max(now);
        let Some(heading) = self.receiver.foretell(frame, mark, now) else {
            return Judged::Fine;
        };
        verdict(heading.whole, mark.step, self.is_stale(&heading, now))
    }

    /// A pending call that is not given up yet would take the response, and was made in another
    /// step than the request that it answers.
    fn is_stale(&self, heading: &Heading, now: u64) -> bool
        ensures { (t : AllocatorState) → StandsFor self.now t → (payload : List ℕ) →
            result ≡ is_stale t (delivery_with heading.now payload) now }
    {
        if !heading.ident.kind.is_response() {
            return false;
        }
        if heading.ident.source > 125 {
            return false;
        }
        match self.member.raft.pending(heading.ident.source) {
            Some(call) => misses(&call, heading, now),
            None => false,
        }
    }
}

/// Whether a frame is from outside, where nothing is torn, and of no response, where nothing is stale.
fn is_fine(frame: &Frame, mark: Mark) -> bool
    ensures outside { result ≡ true → mark.step ≡ 0 }
    ensures other { result ≡ true → (ident : IdentValue) →
        identifier_of frame.now.id ≡ Some ident → is_response ident.kind ≡ false }
{
    mark.step == 0 && !is_of_response(frame)
}

/// Whether a frame has the identifier of a response.
fn is_of_response(frame: &Frame) -> bool
    ensures { result ≡ false → (ident : IdentValue) →
        identifier_of frame.now.id ≡ Some ident → is_response ident.kind ≡ false }
{
    match Ident::read(frame.id) {
        Some(ident) => ident.kind.is_response(),
        None => false,
    }
}

/// The call would take the response, and was made in another step than the request that it answers.
fn misses(call: &Pending, heading: &Heading, now: u64) -> bool
    ensures { (request : Request) (sending : Sending) → IsPending call.now request sending →
        (payload : List ℕ) →
        result ≡ misses (delivery_with heading.now payload) now (Some request) (Some sending) }
{
    u16::from(call.service) == heading.ident.number
        && call.id == heading.id
        && now.saturating_sub(call.sent) < CALL_TIMEOUT
        && call.step != heading.mark.re
}

fn verdict(whole: bool, step: u64, stale: bool) -> Judged
    ensures { result ≡ (if not whole && not (nat_eq step 0) then Torn else
        (if stale then Stale else Fine)) }
{
    if !whole && step != 0 {
        Judged::Torn
    } else if stale {
        Judged::Stale
    } else {
        Judged::Fine
    }
}
