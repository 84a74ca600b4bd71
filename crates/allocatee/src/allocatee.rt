ghost use Rattle.std.specs.Prelude.{◌≡◌, ◌<◌, ◌↔◌, ◌&&◌, [], IsNone, length, nat_eq, not, option_map, if◌then◌else◌};
ghost use Rattle.can_frame.specs.declared.step.Judged.TheVariants.{Fine, Torn};
ghost use Rattle.can_frame.specs.Kinds.{is_anonymous};
ghost use Rattle.dsdl_codec.specs.Allocation.{allocation_of};
ghost use Rattle.transfer_rx.specs.Acceptance.{AnswersByRows};
ghost use Rattle.transfer_rx.specs.Memory.{ReceiverFitsInMemory};
ghost use Rattle.transfer_rx.specs.Reassembly.{arrival_of};
ghost use Rattle.transfer_rx.specs.Heard.{told_with};
ghost use Rattle.transfer_rx.specs.Views.{setting_of};
ghost use Rattle.transfer_tx.specs.Queue.{next_out};
ghost use Rattle.transfer_tx.specs.Views.{queued_of};
ghost use Rattle.allocatee.specs.Accepted as accepted;
ghost use Rattle.allocatee.specs.Allocatee as device;
ghost use Rattle.allocatee.specs.Allocatee.{Device, opening, after_pop};
ghost use Rattle.allocatee.specs.Judging.{arrival_judgement};

use crate::applicant::Applicant;
use crate::event::{AEvent, AOutcome};
use arrayvec::ArrayVec;
use can_frame::{Frame, Judged, Kind, Mark, NodeId, Seen, Uid};
use dsdl_codec::Allocation;
use transfer_rx::{AcceptRow, Heard, Receiver, Transfer};
use transfer_tx::Marked;

/// A device that asks for a node ID.
///
/// The receiver of an allocatee has 8 sessions and 8 blocks; `memory` owes that it fits in memory. `callable` and
/// `answers` owe that the closure may be called, and that it answers as the rows.
#[derive(Drop)]
pub struct Allocatee<G> {
    pub(crate) applicant: Applicant,

    /// With 8 sessions, and 8 blocks of 28 bytes.
    pub(crate) receiver: Receiver<G, 8, 8>,
    ghost setting: { setting_of receiver ≡ accepted.setting },
}

impl<G: Fn(Kind, u16) -> Option<u64> + Copy> Allocatee<G> {
    ghost use Rattle.allocatee.specs.Stands.{StandsFor, accepts, event_of, held_by, queued};

    /// A device with a unique ID, which prefers a node ID, or has no preference where that is 0. Its request
    /// timer starts at this moment; its length comes from the word.
    pub fn new(
        uid: Uid,
        preferred: u8,
        rows: ArrayVec<AcceptRow, 16>,
        accept: G,
        now: u64,
        word: u32,
    ) -> Allocatee<G>
        requires preferred { preferred < 128 }
        requires rows { rows.items ≡ accepted.rows }
        requires memory { ReceiverFitsInMemory G.row 8 8 }
        requires callable { G.IsAlwaysCallable accept }
        requires answers { AnswersByRows (G.post accept) rows.items }
        ensures stands { StandsFor result (opening uid preferred now word) }
        ensures accepts { accepts result ≡ accept }
    {
        Allocatee {
            applicant: Applicant::new(uid, preferred, now, word),
            receiver: Receiver::new(0, rows, accept),
        }
    }

    /// Takes an event. The frame that it may offer is marked with the number of the step.
    #[tactic(auto, unfolding(crate::specs::Allocatee::step))]
    pub fn step(&mut self, event: AEvent, step: u64) -> AOutcome
        requires memory { ReceiverFitsInMemory G.row 8 8 }
        requires callable { G.IsAlwaysCallable (accepts self.old) }
        requires answers { AnswersByRows (G.post (accepts self.old)) accepted.rows }
        ensures seen { (d : Device) → StandsFor self.old d →
            result.seen ≡ (device.step d step (event_of event)).seen }
        ensures sent { (d : Device) → StandsFor self.old d →
            result.sent.items ≡ (device.step d step (event_of event)).sent }
        ensures stands { (d : Device) → StandsFor self.old d →
            StandsFor self.new (device.step d step (event_of event)).device }
        ensures accepts { accepts self.new ≡ accepts self.old }
    {
        match event {
            AEvent::Tick { now, word } => {
                self.applicant.begin(now);
                let sent = self.applicant.tick(word, step);
                AOutcome {
                    seen: Seen::Ticked,
                    sent,
                }
            }
            AEvent::Rx {
                frame,
                mark,
                now,
                word,
            } => {
                self.applicant.begin(now);
                let heard = self.receiver.hear(&frame, mark, self.applicant.moment());
                let seen = take(&mut self.applicant, heard, self.receiver.delivered(), word);
                AOutcome {
                    seen,
                    sent: ArrayVec::new(),
                }
            }
        }
    }

    /// The next frame for the bus.
    pub fn pop(&mut self) -> Option<Marked>
        ensures next { option_map queued_of result ≡ next_out (queued self.old) }
        ensures rest { (d : Device) → StandsFor self.old d → StandsFor self.new (after_pop d) }
        ensures none { IsNone result ↔ (queued self.old ≡ []) }
        ensures unchanged { IsNone result → self.new ≡ self.old }
        ensures holds { held_by self.new ≡ held_by self.old }
        ensures accepts { accepts self.new ≡ accepts self.old }
    {
        self.applicant.pop()
    }

    /// The node ID that it holds, if any.
    pub fn holds(&self) -> Option<NodeId>
        ensures held { result ≡ held_by self.now }
        ensures stands { (d : Device) → StandsFor self.now d → result ≡ d.asking.holds }
    {
        self.applicant.holds()
    }

    /// How many frames wait for the bus.
    pub fn queued(&self) -> u8
        ensures count { result ≡ length (queued self.now) }
        ensures stands { (d : Device) → StandsFor self.now d → result ≡ length d.asking.queue }
    {
        self.applicant.queued()
    }

    /// Whether a frame may be given to it at this moment: `Torn` where the frame would complete a transfer of
    /// frames that were not made together, unless it came from outside. Nothing changes.
    #[tactic(auto, unfolding(crate::specs::Judging::arrival_judgement))]
    pub fn judge(&self, frame: &Frame, mark: Mark, now: u64) -> Judged
        requires memory { ReceiverFitsInMemory G.row 8 8 }
        requires callable { G.IsAlwaysCallable (accepts self.now) }
        requires answers { AnswersByRows (G.post (accepts self.now)) accepted.rows }
        ensures { (d : Device) → StandsFor self.now d →
            result ≡ arrival_judgement d (arrival_of frame.now mark now) }
    {
        let now = self.applicant.moment().max(now);
        match self.receiver.foretell(frame, mark, now) {
            Some(heading) => verdict(heading.whole, mark.step),
            None => Judged::Fine,
        }
    }
}

fn verdict(whole: bool, step: u64) -> Judged
    ensures { result ≡ (if not whole && not (nat_eq step 0) then Torn else Fine) }
{
    if !whole && step != 0 {
        Judged::Torn
    } else {
        Judged::Fine
    }
}

/// What its receiver made of a frame. `transfer` is the one that was delivered last.
fn take(applicant: &mut Applicant, heard: Heard, transfer: &Transfer, word: u32) -> Seen
    ensures seen { result ≡ device.seen_of (told_with transfer.now heard) }
    ensures asking { applicant.new ≡
        device.after_receiver_answer word (told_with transfer.now heard) applicant.old }
{
    match heard {
        Heard::Delivered => hear(applicant, transfer, word),
        Heard::Part => Seen::Part,
        Heard::Dropped(why) => Seen::Dropped(why),
    }
}

/// A transfer was delivered. A payload that reads as no Allocation does nothing.
fn hear(applicant: &mut Applicant, transfer: &Transfer, word: u32) -> Seen
    ensures seen { result ≡ device.seen_of_reading
        (allocation_of transfer.now.payload.items) }
    ensures asking { applicant.new ≡ device.after_reading word (is_anonymous transfer.now.ident.kind)
        (allocation_of transfer.now.payload.items) applicant.old }
{
    let Some(message) = Allocation::read(&transfer.payload) else {
        return Seen::Bad;
    };
    applicant.hear(transfer.ident.kind.is_anonymous(), &message, word);
    Seen::Took
}
