ghost use Rattle.std.specs.Prelude.{◌≡◌, ◌<◌, ◌&&◌, ℕ, List, OnOk, length, true};
ghost use Rattle.std.specs.Result.{result_err};
ghost use Rattle.can_frame.specs.declared.step.Role.TheVariants.{Leader};
ghost use Rattle.can_frame.specs.Log as log;
ghost use Rattle.can_frame.specs.Log.{log_limit};
ghost use Rattle.raft_log.specs.declared.origin.TheConstants.{WIN};
ghost use Rattle.raft_log.specs.DurableViews.{durable_state};
ghost use Rattle.raft_model.specs.Duty.{is_heard, takes_blank};
ghost use Rattle.raft_model.specs.Moves.Elections.{is_leader};
ghost use Rattle.raft_model.specs.Server.{RaftServer};
ghost use Rattle.raft_core.specs.StoredPuts.{CallFaultIsSticky, store_of};
ghost use Rattle.raft_core.specs.Times.{HandedIn, Times};

use crate::laws::puts_in_turn;
use crate::raft::{Cause, Raft};
use can_frame::sizes::LOG_LIMIT;
use can_frame::{Entry, Role};
use disk_model::Disk;
use kv_store::Fault;
use raft_log::{Durable, origin};

impl Raft {
    ghost use Rattle.raft_core.specs.Fits.{Fits};
    ghost use Rattle.raft_core.specs.Handled.{MakesMoves, blank_behind, is_moment};
    ghost use Rattle.raft_core.specs.Stands.{StandsFor, role_of};

    /// A leader whose log is not all committed, and has room, appends a blank when the moment for it has
    /// come. `led` says whether the member led before what was done last.
    pub(crate) fn add_blank_if_due<D: Disk>(
        &self,
        d: &mut Durable<D>,
        led: bool,
    ) -> Result<(), Fault>
        requires fits { Fits self.now (durable_state d.old) }
        ensures moves { (members : List ℕ) (step : ℕ) (server : RaftServer) (times : Times) →
            StandsFor self.now members (durable_state d.old) server times →
            (given : HandedIn) → given.origin ≡ WIN →
            (before : RaftServer) → is_leader before.memory.role ≡ led →
            MakesMoves members self.now.me step given
            (blank_behind (is_moment members self.now.me times before server) server)
            server times d.old d.new self.now (result_err result) }
        ensures fault { CallFaultIsSticky d.old d.new (result_err result) }
        ensures fits { OnOk result (Fits self.now (durable_state d.new)) }
    {
        puts_in_turn::<D>();
        if self.owes_blank(d, led) {
            d.append(blank(d.term()), origin::WIN)?;
        }
        Ok(())
    }

    /// Whether it leads, its log is not all committed and has room, and the moment for a blank has come.
    fn owes_blank<D: Disk>(&self, d: &Durable<D>, led: bool) -> bool
        ensures owes { (members : List ℕ) (server : RaftServer) (times : Times) →
            StandsFor self.now members (durable_state d.now) server times →
            (before : RaftServer) → is_leader before.memory.role ≡ led →
            result ≡ ((is_leader server.memory.role && takes_blank server.store)
            && is_moment members self.now.me times before server) }
        ensures room { result ≡ true → length (durable_state d.now).log < log_limit }
    {
        self.role == Role::Leader && takes_blank(d) && self.is_moment(d, led)
    }

    /// Whether the moment for a leader's blank has come: for a member that waits with it, when a quorum has
    /// its log, for any other as soon as it leads.
    fn is_moment<D: Disk>(&self, d: &Durable<D>, led: bool) -> bool
        requires leads { self.now.role ≡ Leader }
        ensures { (members : List ℕ) (server : RaftServer) (times : Times) →
            StandsFor self.now members (durable_state d.now) server times →
            (before : RaftServer) → is_leader before.memory.role ≡ led →
            result ≡ is_moment members self.now.me times before server }
    {
        if self.waits { self.is_heard(d) } else { !led }
    }

    /// Whether a quorum has its whole log, whose last entry is of an earlier term.
    fn is_heard<D: Disk>(&self, d: &Durable<D>) -> bool
        requires leads { self.now.role ≡ Leader }
        ensures { (members : List ℕ) (server : RaftServer) (times : Times) →
            StandsFor self.now members (durable_state d.now) server times →
            result ≡ is_heard members self.now.me server }
    {
        let last = d.last();
        d.entry(last).term < d.term() && self.has_quorum(Cause::Place(last))
    }
}

/// Whether something is not committed, and the log has room for a blank.
fn takes_blank<D: Disk>(d: &Durable<D>) -> bool
    ensures { result ≡ takes_blank (store_of (durable_state d.now)) }
{
    d.commit() < d.last() && (d.last() as usize) < LOG_LIMIT
}

/// The blank of a term.
fn blank(term: u32) -> Entry
    ensures { result ≡ log.blank term }
{
    Entry {
        term,
        ..Entry::default()
    }
}
