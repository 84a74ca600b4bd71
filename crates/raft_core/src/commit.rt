ghost use Rattle.std.specs.Prelude.{◌≡◌, ◌↔◌, ◌≤◌, ◌<◌, ℕ, List, IsTrue, IsNone, IfSome, OnOk, length};
ghost use Rattle.std.specs.Result.{result_err};
ghost use Rattle.can_frame.specs.declared.step.Role.TheVariants.{Leader};
ghost use Rattle.raft_log.specs.DurableViews.{durable_state};
ghost use Rattle.raft_model.specs.Duty.{commit_phase};
ghost use Rattle.raft_model.specs.Moves.Leading.{CanCommit, IsCommitIndex};
ghost use Rattle.raft_model.specs.Server.{RaftServer};
ghost use Rattle.raft_core.specs.StoredPuts.{CallFaultIsSticky};
ghost use Rattle.raft_core.specs.Times.{HandedIn, Times};

use crate::laws::puts_in_turn;
use crate::raft::{Cause, Raft};
use can_frame::Role;
use disk_model::Disk;
use kv_store::Fault;
use raft_log::Durable;
use raft_model::laws::law_decisions;

impl Raft {
    ghost use Rattle.raft_core.specs.Fits.{Fits};
    ghost use Rattle.raft_core.specs.Handled.{MakesMoves};
    ghost use Rattle.raft_core.specs.RaftViews.{raft_me};
    ghost use Rattle.raft_core.specs.Stands.{StandsFor};

    /// A leader commits the greatest place above its commit index whose entry has the current term and
    /// which a quorum has, itself included. Others, and a leader without such a place, change nothing.
    pub fn commit<D: Disk>(&mut self, d: &mut Durable<D>) -> Result<(), Fault>
        requires fits { Fits self.old (durable_state d.old) }
        ensures moves { (members : List ℕ) (step : ℕ) (server : RaftServer) (times : Times) →
            StandsFor self.old members (durable_state d.old) server times →
            (given : HandedIn) →
            MakesMoves members (raft_me self.old) step given
            (commit_phase members (raft_me self.old) server) server times
            d.old d.new self.new (result_err result) }
        ensures fault { CallFaultIsSticky d.old d.new (result_err result) }
        ensures fits { OnOk result (Fits self.new (durable_state d.new)) }
        ensures same { self.new ≡ self.old }
    {
        puts_in_turn::<D>();
        law_decisions();
        if let Some(place) = self.commit_index(d) {
            d.set_commit(place)?;
        }
        Ok(())
    }

    /// The place that is to be committed.
    fn commit_index<D: Disk>(&self, d: &Durable<D>) -> Option<u8>
        ensures found { IfSome result (λ place. (members : List ℕ)
            (server : RaftServer) (times : Times) →
            StandsFor self.now members (durable_state d.now) server times →
            (self.now.role ≡ Leader) × IsCommitIndex members self.now.me server place) }
        ensures above { IfSome result (λ place. (durable_state d.now).commit < place) }
        ensures inside { IfSome result (λ place. place ≤ length (durable_state d.now).log) }
        ensures none { IsNone result → (members : List ℕ) (server : RaftServer) (times : Times) →
            StandsFor self.now members (durable_state d.now) server times →
            self.now.role ≡ Leader → (place : ℕ) → CanCommit members self.now.me server place → ⊥ }
    {
        if self.role != Role::Leader {
            return None;
        }
        let mut place = d.last();
        while d.commit() < place {
            if self.can_commit(d, place) {
                return Some(place);
            }
            place -= 1;
        }
        None
    }

    /// Whether the entry at a place above the commit index has the current term, and a quorum has it.
    fn can_commit<D: Disk>(&self, d: &Durable<D>, place: u8) -> bool
        requires role { self.now.role ≡ Leader }
        requires above { (durable_state d.now).commit < place }
        requires inside { place ≤ length (durable_state d.now).log }
        ensures { (members : List ℕ) (server : RaftServer) (times : Times) →
            StandsFor self.now members (durable_state d.now) server times → IsTrue result ↔
            CanCommit members self.now.me server place }
    {
        d.entry(place).term == d.term() && self.has_quorum(Cause::Place(place))
    }
}
