ghost use Rattle.std.specs.Prelude.{◌≡◌, ◌≤◌, ◌<◌, ℕ, true, false, length, IsNone, option_map, if◌then◌else◌};
ghost use Rattle.can_frame.specs.Sizes.{blocks, most_members, sessions};
ghost use Rattle.kv_store.specs.KeyDisk.{KeyDisk, restarted_on};
ghost use Rattle.raft_log.specs.Stored.{Stored};
ghost use Rattle.transfer_rx.specs.Memory.{ReceiverFitsInMemory};
ghost use Rattle.transfer_rx.specs.Reassembly.{arrival_of};
ghost use Rattle.transfer_tx.specs.Views.{queued_of};
ghost use Rattle.alloc_spec.specs.Accepted as accepted;
ghost use Rattle.alloc_spec.specs.Rules.{rules_by};
ghost use Rattle.alloc_server.specs.Server.{event_of};
ghost use Rattle.bus_spec.specs.Lawful.{arrival_refusal, cause_of_judgement};
ghost use Rattle.bus_spec.specs.Members.{Member as MemberState, after_sending, with_stop_armed, with_failure_armed, fresh_member, is_running, next_frame, after_opening as opened_member, member_after_step as stepped_member, stopped_with};
ghost use Rattle.bus_spec.specs.Members.MemberStatus.{Down};
ghost use Rattle.bus_spec.specs.Receivers.{MemberReceives};
ghost use Rattle.bus_spec.specs.Report.{line_of_failure, running_entry, running_view, line_of_opening, line_of_step};
ghost use Rattle.bus_rows.specs.ReportLine.{is_stop, report_line_of};
ghost use Rattle.bus_rows.specs.ReportLine.ReportLine.{HasOpened, HasStopped, WasArmed};
ghost use Rattle.bus_world.specs.Patterns.{IsFilled};

use crate::patterns::copy_of;
use crate::place::Place;
use crate::steps::advance;
use alloc_server::{Event, Server, View};
use arrayvec::ArrayVec;
use bus_rows::Told;
use can_frame::{Entry, Frame, Judged, Kind, Mark};
use disk_model::{IMAGE, MemoryDisk};
use outside::Pattern;
use raft_log::laws::{
    a_member_on_the_disk_by_states, an_image_stands_for_one_state, the_disk_by_states,
    zeros_are_the_first_state,
};
use transfer_rx::AcceptRow;
use transfer_tx::Marked;

/// A member of the cluster.
#[derive(Drop)]
pub(crate) struct Member<F> {
    pub(crate) id: u8,
    pub(crate) place: Place<F>,

    /// Of the stop that was armed last.
    pattern: Pattern,
    ghost filled: { IsFilled pattern },
    ghost least: { 1 ≤ id },
    ghost most: { id ≤ 125 },
}

impl<F: Fn(Kind, u16) -> Option<u64> + Copy> Member<F> {
    ghost use Rattle.bus_world.specs.Places.{HasStatus, closure_of};
    ghost use Rattle.bus_world.specs.Stands.{StandsFor};

    /// A member of a cluster of this size. It is stopped, on a disk of zeros.
    pub fn new(id: u8, size: u8, rows: ArrayVec<AcceptRow, 16>, accept: F) -> Member<F>
        requires least { 1 ≤ id }
        requires most { id ≤ 125 }
        requires some { 1 ≤ size }
        requires five { size ≤ most_members }
        requires rows { rows.items ≡ accepted.rows }
        requires receives { MemberReceives F.row F.IsAlwaysCallable F.post accept }
        ensures stands { StandsFor result fresh_member }
        ensures id { result.id ≡ id }
        ensures accepts { closure_of result.place ≡ accept }
    {
        the_disk_by_states();
        zeros_are_the_first_state();
        let disk = MemoryDisk::new(&[0; IMAGE]);
        Member {
            id,
            place: Place {
                server: Server::closed(id, size, disk, rows, accept),
                runs: false,
            },
            pattern: Pattern::Old,
        }
    }

    pub fn is_running(&self) -> bool
        ensures { (x : MemberState) → StandsFor self.now x → result ≡ is_running x.status }
    {
        self.place.runs
    }

    /// Opens a member that is stopped, in a cluster of this size. It is told who the members are, where `told`
    /// has them.
    pub fn open(&mut self, size: u8, told: &[u8], moment: u64, word: u32) -> Told
        requires some { 1 ≤ size }
        requires five { size ≤ most_members }
        requires few { length told.now ≤ most_members }
        requires memory { ReceiverFitsInMemory F.row sessions blocks }
        ensures told { (x : MemberState) → StandsFor self.old x → is_running x.status ≡ false →
            report_line_of result ≡ line_of_opening self.old.id x.disk }
        ensures stands { (x : MemberState) → StandsFor self.old x → is_running x.status ≡ false →
            StandsFor self.new (opened_member self.old.id (rules_by size told.now) moment word x) }
        ensures id { self.new.id ≡ self.old.id }
        ensures accepts { closure_of self.new.place ≡ closure_of self.old.place }
    {
        a_member_on_the_disk_by_states();
        the_disk_by_states();
        an_image_stands_for_one_state();
        let n = self.id;
        match self.place.server.reopen(n, size, moment, word) {
            Ok(()) => {
                self.place.server.learn(told);
                self.place.runs = true;
                opened(n, self.place.server.view())
            }
            Err(_) => self.stay_stopped(),
        }
    }

    /// An opening failed: the member stays stopped. Where its disk stopped, it is started again.
    fn stay_stopped(&mut self) -> Told
        ensures told { (key_disk : KeyDisk Stored) → HasStatus self.old.place Down key_disk →
            report_line_of result ≡ line_of_failure self.old.id key_disk }
        ensures status { (key_disk : KeyDisk Stored) → HasStatus self.old.place Down key_disk →
            HasStatus self.new.place Down
            (if key_disk.calls.stopped then restarted_on self.old.pattern key_disk else key_disk) }
        ensures pattern { self.new.pattern ≡ self.old.pattern }
        ensures id { self.new.id ≡ self.old.id }
        ensures accepts { closure_of self.new.place ≡ closure_of self.old.place }
    {
        if self.place.server.stopped() {
            self.place.restart(&self.pattern);
            return Told::Stopped { n: self.id };
        }
        Told::Failed { n: self.id }
    }

    /// A step with a number. It may end in a stop, and then the member is stopped, or in a failure.
    pub fn step(&mut self, event: Event, number: u64) -> Told
        requires receives { MemberReceives F.row F.IsAlwaysCallable F.post (closure_of self.old.place) }
        ensures told { (x : MemberState) → StandsFor self.old x → is_running x.status ≡ true →
            report_line_of result ≡ line_of_step self.old.id number (event_of event) x.status x }
        ensures stands { (x : MemberState) → StandsFor self.old x → is_running x.status ≡ true →
            StandsFor self.new (stepped_member number (event_of event) x.status x) }
        ensures id { self.new.id ≡ self.old.id }
        ensures accepts { closure_of self.new.place ≡ closure_of self.old.place }
    {
        let told = advance(&mut self.place.server, self.id, event, number);
        if has_stopped(&told) {
            self.place.restart(&self.pattern);
        }
        told
    }

    /// The next frame for the bus.
    pub fn pop(&mut self) -> Option<Marked>
        ensures next { (x : MemberState) → StandsFor self.old x →
            option_map queued_of result ≡ next_frame x.status }
        ensures stands { (x : MemberState) → StandsFor self.old x →
            StandsFor self.new (record x { status = after_sending x.status }) }
        ensures none { IsNone result → self.new ≡ self.old }
        ensures id { self.new.id ≡ self.old.id }
        ensures accepts { closure_of self.new.place ≡ closure_of self.old.place }
    {
        self.place.server.pop()
    }

    /// What a frame would deliver. Nothing changes.
    pub fn judge(&self, frame: &Frame, mark: Mark, moment: u64) -> Judged
        requires receives { MemberReceives F.row F.IsAlwaysCallable F.post (closure_of self.now.place) }
        ensures { (x : MemberState) → StandsFor self.now x →
            cause_of_judgement result ≡ arrival_refusal x.status (arrival_of frame.now mark moment) }
    {
        self.place.server.judge(frame, mark, moment)
    }

    /// Stops a member that runs. Its disk keeps what the pattern says of the bytes that were not
    /// synced.
    pub fn stop(&mut self, pattern: &Pattern) -> Told
        requires { IsFilled pattern.now }
        ensures told { report_line_of result ≡ HasStopped self.old.id }
        ensures stands { (x : MemberState) → StandsFor self.old x → is_running x.status ≡ true →
            StandsFor self.new (stopped_with pattern.now x.disk x) }
        ensures id { self.new.id ≡ self.old.id }
        ensures accepts { closure_of self.new.place ≡ closure_of self.old.place }
    {
        self.pattern = copy_of(pattern);
        self.place.restart(pattern);
        Told::Stopped { n: self.id }
    }

    /// Its disk stops in place of that call of it.
    pub fn stop_at(&mut self, call: u32, pattern: &Pattern) -> Told
        requires { IsFilled pattern.now }
        ensures told { report_line_of result ≡ WasArmed self.old.id }
        ensures stands { (x : MemberState) → StandsFor self.old x →
            StandsFor self.new (with_stop_armed call pattern.now x) }
        ensures id { self.new.id ≡ self.old.id }
        ensures accepts { closure_of self.new.place ≡ closure_of self.old.place }
    {
        self.pattern = copy_of(pattern);
        self.place.stop_at(u64::from(call));
        Told::Armed { n: self.id }
    }

    /// That call of its disk fails.
    pub fn fail_at(&mut self, call: u32) -> Told
        ensures told { report_line_of result ≡ WasArmed self.old.id }
        ensures stands { (x : MemberState) → StandsFor self.old x →
            StandsFor self.new (with_failure_armed call x) }
        ensures id { self.new.id ≡ self.old.id }
        ensures accepts { closure_of self.new.place ≡ closure_of self.old.place }
    {
        self.place.fail_at(u64::from(call));
        Told::Armed { n: self.id }
    }

    /// The numbers of a member that runs and has not failed.
    pub fn view(&self) -> Option<View>
        ensures { (x : MemberState) → StandsFor self.now x → result ≡ running_view x.status }
    {
        let server = &self.place.server;
        if server.failed() {
            return None;
        }
        Some(server.view())
    }

    /// The entry at a place of a member that runs and has not failed, up to its last.
    pub fn entry(&self, place: u8) -> Option<Entry>
        ensures { (x : MemberState) → StandsFor self.now x → result ≡ running_entry x.status place }
    {
        let server = &self.place.server;
        if server.failed() || place > server.view().last {
            return None;
        }
        Some(server.entry(place))
    }
}

/// What an opening tells.
fn opened(n: u8, view: View) -> Told
    ensures { report_line_of result ≡ HasOpened n view.term view.vote view.last view.commit }
{
    Told::Opened {
        n,
        term: view.term,
        vote: view.vote,
        last: view.last,
        commit: view.commit,
    }
}

fn has_stopped(told: &Told) -> bool
    ensures { result ≡ is_stop (report_line_of told.now) }
{
    matches!(told, Told::Stopped { n: _ })
}
