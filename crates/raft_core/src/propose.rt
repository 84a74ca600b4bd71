ghost use Rattle.std.specs.Prelude.{◌≡◌, ◌≢◌, ◌↔◌, ◌⊎◌, ◌≤◌, ◌<◌, IsTrue, OnOk, Ok, length};
ghost use Rattle.can_frame.specs.declared.step.Role.TheVariants.{Leader};
ghost use Rattle.can_frame.specs.Log.{HasNodeId, HasUid, log_limit};
ghost use Rattle.can_frame.specs.Zeros.{zeros};
ghost use Rattle.raft_log.specs.declared.origin.TheConstants.{RESERVATION};
ghost use Rattle.raft_log.specs.DurableViews.{durable_state};
ghost use Rattle.raft_core.specs.Taken.{IsTaken};

use crate::laws::puts_in_turn;
use crate::raft::Raft;
use can_frame::laws::logs_stay_injective;
use can_frame::sizes::LOG_LIMIT;
use can_frame::{Entry, NodeId, Role, Uid, has_node_id, has_uid, is_zero};
use disk_model::Disk;
use kv_store::Fault;
use raft_log::laws::a_durable_state_is_kept;
use raft_log::{Durable, origin};

/// What becomes of a proposal, or of a reservation.
#[derive(Clone, Copy, Debug, PartialEq, Eq)]
pub enum Proposed {
    /// The entry stands at the end of the leader's log. Once a quorum has it, it can be committed.
    Added,

    NotLeader,

    /// The log has [`LOG_LIMIT`] entries, and takes no more.
    LogFull,

    /// The unique ID that was to be given a node ID, or the node ID, stands in the log already.
    Taken,
}

impl Raft {
    ghost use Rattle.raft_core.specs.declared.propose.Proposed.TheVariants.{NotLeader, LogFull, Taken};
    ghost use Rattle.raft_core.specs.Fits.{Fits};
    ghost use Rattle.raft_core.specs.Proposing.{Appends};
    ghost use Rattle.raft_core.specs.RaftViews.{raft_role};

    /// A leader appends an entry that gives a node ID of 1 to 125 to a unique ID that is not all zeros. It
    /// stores with the entry how it has the unique ID: `origin` is 1 (`raft_log::origin::EXCHANGE`) where a
    /// device told it in the exchange, and 2 (`NODE_INFO`) where a node told it by GetNodeInfo. Where it
    /// answers `NotLeader`, `LogFull` or `Taken`, nothing changes; the first of these that holds is
    /// answered. A fault is one of the disk.
    pub fn propose<D: Disk>(
        &mut self,
        d: &mut Durable<D>,
        uid: &Uid,
        node: NodeId,
        origin: u8,
    ) -> Result<Proposed, Fault>
        requires uid { uid.now ≢ zeros }
        requires node { node ≤ 125 }
        requires least { 1 ≤ origin }
        requires most { origin ≤ 2 }
        requires fits { Fits self.old (durable_state d.old) }
        ensures appends { Appends self.old uid.now node origin d.old d.new result }
        ensures not_leader { (result ≡ Ok NotLeader) ↔ (raft_role self.old ≢ Leader) }
        ensures full { (result ≡ Ok LogFull) ↔ ((raft_role self.old ≡ Leader) ×
            (length (durable_state d.old).log ≡ log_limit)) }
        ensures taken { (result ≡ Ok Taken) ↔ ((raft_role self.old ≡ Leader) ×
            (length (durable_state d.old).log < log_limit) ×
            (HasUid (durable_state d.old).log uid.now ⊎ HasNodeId (durable_state d.old).log node)) }
        ensures same { self.new ≡ self.old }
        ensures fits { OnOk result (Fits self.new (durable_state d.new)) }
    {
        self.add(d, uid, node, origin)
    }

    /// A leader appends an entry that keeps a node ID of 1 to 125 back: of a node that is on the bus and
    /// tells no unique ID, or one that is recorded for another. No device is given this node ID, and the
    /// entry, which is stored as a reservation, is told to nobody. `Taken` asks for the node ID alone. Where it
    /// answers `NotLeader`, `LogFull` or `Taken`, nothing changes; the first of these that holds is
    /// answered. A fault is one of the disk.
    pub fn reserve<D: Disk>(&mut self, d: &mut Durable<D>, node: NodeId) -> Result<Proposed, Fault>
        requires node { node ≤ 125 }
        requires fits { Fits self.old (durable_state d.old) }
        ensures appends { Appends self.old zeros node RESERVATION d.old d.new result }
        ensures not_leader { (result ≡ Ok NotLeader) ↔ (raft_role self.old ≢ Leader) }
        ensures full { (result ≡ Ok LogFull) ↔ ((raft_role self.old ≡ Leader) ×
            (length (durable_state d.old).log ≡ log_limit)) }
        ensures taken { (result ≡ Ok Taken) ↔ ((raft_role self.old ≡ Leader) ×
            (length (durable_state d.old).log < log_limit) ×
            HasNodeId (durable_state d.old).log node) }
        ensures same { self.new ≡ self.old }
        ensures fits { OnOk result (Fits self.new (durable_state d.new)) }
    {
        self.add(d, &[0; 16], node, origin::RESERVATION)
    }

    /// A leader appends an entry of its term with a node ID, for a unique ID or for none.
    fn add<D: Disk>(
        &self,
        d: &mut Durable<D>,
        uid: &Uid,
        node: NodeId,
        origin: u8,
    ) -> Result<Proposed, Fault>
        requires node { node ≤ 125 }
        requires origin { origin ≤ 4 }
        requires fits { Fits self.now (durable_state d.old) }
        ensures appends { Appends self.now uid.now node origin d.old d.new result }
        ensures not_leader { (result ≡ Ok NotLeader) ↔ (raft_role self.now ≢ Leader) }
        ensures full { (result ≡ Ok LogFull) ↔ ((raft_role self.now ≡ Leader) ×
            (length (durable_state d.old).log ≡ log_limit)) }
        ensures taken { (result ≡ Ok Taken) ↔ ((raft_role self.now ≡ Leader) ×
            (length (durable_state d.old).log < log_limit) ×
            IsTaken (durable_state d.old).log uid.now node) }
        ensures fits { OnOk result (Fits self.now (durable_state d.new)) }
    {
        puts_in_turn::<D>();
        a_durable_state_is_kept::<D>();
        logs_stay_injective();
        if self.role != Role::Leader {
            return Ok(Proposed::NotLeader);
        }
        if d.last() as usize >= LOG_LIMIT {
            return Ok(Proposed::LogFull);
        }
        if is_taken(d.log(), uid, node.get()) {
            return Ok(Proposed::Taken);
        }
        let entry = Entry {
            term: d.term(),
            uid: *uid,
            node: node.get(),
        };
        d.append(entry, origin)?;
        Ok(Proposed::Added)
    }
}

/// Whether the log has this node ID, or this unique ID, where it is not all zeros.
fn is_taken(log: &[Entry], uid: &Uid, node: u8) -> bool
    ensures { IsTrue result ↔ IsTaken log.now uid.now node }
{
    has_node_id(log, node) || !is_zero(uid) && has_uid(log, uid)
}
