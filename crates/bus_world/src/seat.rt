ghost use Rattle.std.specs.Prelude.{◌≡◌, ◌<◌, None, Some, Option, IsNone, is_some, option_map};
ghost use Rattle.transfer_rx.specs.Reassembly.{arrival_of};
ghost use Rattle.transfer_tx.specs.Views.{queued_of};
ghost use Rattle.allocatee.specs.Accepted as accepted;
ghost use Rattle.allocatee.specs.Allocatee.{Device, opening};
ghost use Rattle.allocatee.specs.Stands.{event_of};
ghost use Rattle.bus_spec.specs.Allocatees.{after_sending_from, next_from, device_after_step};
ghost use Rattle.bus_spec.specs.Lawful.{arrival_refusal_at, cause_of_judgement};
ghost use Rattle.bus_spec.specs.Receivers.{AllocateeReceives};
ghost use Rattle.bus_spec.specs.Report.{line_of_step_at};
ghost use Rattle.bus_rows.specs.ReportLine.{report_line_of};
ghost use Rattle.bus_rows.specs.ReportLine.ReportLine.{HasCome, HasLeft};

use allocatee::{AEvent, Allocatee};
use arrayvec::ArrayVec;
use bus_rows::Told;
use can_frame::{Frame, Judged, Kind, Mark, Uid};
use transfer_rx::AcceptRow;
use transfer_tx::Marked;

/// A place for an allocatee, and the one that is there, if any.
#[derive(Drop)]
pub(crate) struct Seat<G> {
    pub(crate) device: Option<Allocatee<G>>,
}

impl<G: Fn(Kind, u16) -> Option<u64> + Copy> Seat<G> {
    ghost use Rattle.bus_world.specs.Seats.{Accepts, Serves, StandsFor};

    /// An empty place.
    pub fn new() -> Seat<G>
        ensures stands { StandsFor result None }
        ensures accepts { (accept : G) → Accepts result accept }
    {
        Seat { device: None }
    }

    pub fn is_taken(&self) -> bool
        ensures { (x : Option Device) → StandsFor self.now x → result ≡ is_some x }
    {
        self.device.is_some()
    }

    /// An allocatee comes.
    pub fn open(
        &mut self,
        a: u8,
        uid: Uid,
        preferred: u8,
        moment: u64,
        word: u32,
        rows: ArrayVec<AcceptRow, 16>,
        accept: G,
    ) -> Told
        requires preferred { preferred < 128 }
        requires rows { rows.items ≡ accepted.rows }
        requires receives { AllocateeReceives G.row G.IsAlwaysCallable G.post accept }
        ensures told { report_line_of result ≡ HasCome a }
        ensures stands { StandsFor self.new (Some (opening uid preferred moment word)) }
        ensures accepts { Accepts self.new accept }
    {
        self.device = Some(Allocatee::new(uid, preferred, rows, accept, moment, word));
        Told::AOpened { a }
    }

    /// The allocatee takes an event, in the step with this number; what that tells.
    pub fn step(&mut self, a: u8, event: AEvent, number: u64) -> Told
        requires receives { Serves (AllocateeReceives G.row G.IsAlwaysCallable G.post) self.old }
        ensures told { (x : Option Device) → StandsFor self.old x →
            report_line_of result ≡ line_of_step_at a number (event_of event) x }
        ensures stands { (x : Option Device) → StandsFor self.old x →
            StandsFor self.new (device_after_step number (event_of event) x) }
        ensures accepts { (accept : G) → Accepts self.old accept → Accepts self.new accept }
    {
        match &mut self.device {
            Some(device) => {
                let outcome = device.step(event, number);
                Told::AStepped {
                    a,
                    holds: device.holds(),
                    queued: device.queued(),
                    seen: outcome.seen,
                    sent: outcome.sent,
                }
            }
            None => Told::AEnded { a },
        }
    }

    /// Whether a frame may be given to the allocatee. Nothing changes.
    pub fn judge(&self, frame: &Frame, mark: Mark, moment: u64) -> Judged
        requires receives { Serves (AllocateeReceives G.row G.IsAlwaysCallable G.post) self.now }
        ensures { (x : Option Device) → StandsFor self.now x →
            cause_of_judgement result ≡ arrival_refusal_at x (arrival_of frame.now mark moment) }
    {
        match &self.device {
            Some(device) => device.judge(frame, mark, moment),
            None => Judged::Fine,
        }
    }

    /// The allocatee's next frame for the bus.
    pub fn pop(&mut self) -> Option<Marked>
        ensures next { (x : Option Device) → StandsFor self.old x →
            option_map queued_of result ≡ next_from x }
        ensures stands { (x : Option Device) → StandsFor self.old x →
            StandsFor self.new (after_sending_from x) }
        ensures none { IsNone result → self.new ≡ self.old }
        ensures accepts { (accept : G) → Accepts self.old accept → Accepts self.new accept }
    {
        match &mut self.device {
            Some(device) => device.pop(),
            None => None,
        }
    }

    /// The allocatee leaves.
    pub fn end(&mut self, a: u8) -> Told
        ensures told { report_line_of result ≡ HasLeft a }
        ensures stands { StandsFor self.new None }
        ensures accepts { (accept : G) → Accepts self.new accept }
    {
        self.device = None;
        Told::AEnded { a }
    }
}
