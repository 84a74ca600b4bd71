ghost use Rattle.std.specs.Prelude.{◌≡◌, ◌<◌, ◌+◌, ◌∷◌, [], ℕ, List};
ghost use Rattle.raft_log.specs.DurableViews.{durable_state};
ghost use Rattle.raft_log.specs.Stored.{Stored};
ghost use Rattle.raft_model.specs.Handlers.{server_after_all};
ghost use Rattle.raft_model.specs.Moves.{Move};
ghost use Rattle.raft_model.specs.Server.{RaftServer};
ghost use Rattle.raft_core.specs.Times.{HandedIn, Times, times_after_all};

use crate::raft::Raft;
use can_frame::{NodeId, Role, Uid, is_zero};
use disk_model::Disk;
use raft_log::Durable;
use raft_log::laws::a_durable_state_is_kept;

/// What a leader is to tell next of its committed entries.
#[derive(Clone, Copy, Debug, PartialEq, Eq)]
pub enum Telling {
    /// All is told, or it does not lead.
    Nothing,

    /// The entry at this place has no unique ID: it is passed over.
    Skip(u8),

    /// The entry at this place gives the node ID to the device with the unique ID.
    Pair(u8, Uid, NodeId),
}

impl Raft {
    ghost use Rattle.raft_core.specs.Fits.{Fits};
    ghost use Rattle.raft_core.specs.RaftViews.{raft_me, raft_size, raft_told};
    ghost use Rattle.raft_core.specs.Stands.{StandsFor};
    ghost use Rattle.raft_core.specs.Telling.{IsTelling, IsToTell, TellsNext};

    /// What is to be told next: the entry after the last that was told, where it is committed.
    pub fn tell<D: Disk>(&self, d: &Durable<D>) -> Telling
        requires fits { Fits self.now (durable_state d.now) }
        ensures says { (members : List ℕ) (server : RaftServer) (times : Times) →
            StandsFor self.now members (durable_state d.now) server times → IsToTell server result }
        ensures next { TellsNext self.now (durable_state d.now) result }
    {
        a_durable_state_is_kept::<D>();
        if self.role != Role::Leader || self.told >= d.commit() {
            return Telling::Nothing;
        }
        let place = self.told + 1;
        let entry = d.entry(place);
        match NodeId::new(entry.node) {
            Some(node) if !is_zero(&entry.uid) => Telling::Pair(place, entry.uid, node),
            _ => Telling::Skip(place),
        }
    }

    /// The entry at the place after the last was told, or passed over.
    pub fn told(&mut self, place: u8)
        requires { place ≡ raft_told self.old + 1 }
        ensures moves { (members : List ℕ) (step : ℕ) (state : Stored)
            (server : RaftServer) (times : Times) →
            StandsFor self.old members state server times →
            (given : HandedIn) (move : Move) → IsTelling move →
            StandsFor self.new members state
            (server_after_all members (raft_me self.old) step server (move ∷ []))
            (times_after_all members (raft_me self.old) step given server (move ∷ []) times) }
        ensures fits { (state : Stored) → Fits self.old state → raft_told self.old < state.commit →
            Fits self.new state }
        ensures me { raft_me self.new ≡ raft_me self.old }
        ensures size { raft_size self.new ≡ raft_size self.old }
    {
        self.told = place;
    }
}
