//! Which node IDs stand in the log, and which may be given.

ghost use Rattle.std.specs.Prelude.{◌≡◌, ◌<◌, ℕ, Bool, ◌||◌, true, false, length, slice_index_or};
ghost use Rattle.can_frame.specs.Log.{HasNodeId};
ghost use Rattle.can_frame.specs.declared.entry.Entry.{Entry};
ghost use Rattle.can_frame.specs.Sizes.{node_ids};
ghost use Rattle.cluster_discovery.specs.Members.{is_on_list};
ghost use Rattle.cluster_discovery.specs.Views.{member_list};
ghost use Rattle.raft_log.specs.DurableViews.{durable_state};
ghost use Rattle.alloc_spec.specs.AllocatorState as allocator;
ghost use Rattle.alloc_spec.specs.AllocatorState.{AllocatorState, is_recorded};

use crate::member::Member;
use can_frame::Entry;
use can_frame::sizes::NODE_IDS;
use disk_model::Disk;
use raft_log::laws::a_durable_state_is_kept;

impl<D: Disk> Member<D> {
    ghost use Rattle.alloc_handlers.specs.Stands.{StandsFor};

    /// By node ID: the members, and the nodes that stand in the log.
    pub fn known(&self) -> [bool; NODE_IDS]
        ensures known { (t : AllocatorState) → StandsFor self.now t → result ≡ allocator.known t }
        ensures free { (node : ℕ) → node < node_ids → slice_index_or result node true ≡ false →
            HasNodeId (durable_state self.now.durable).log node → ⊥ }
    {
        let mut known = [false; NODE_IDS];
        self.mark_known(&mut known);
        known
    }

    /// By node ID: those that are known, and the nodes that are online.
    pub fn taken(&self) -> [bool; NODE_IDS]
        ensures taken { (t : AllocatorState) → StandsFor self.now t → result ≡ allocator.taken t }
        ensures free { (node : ℕ) → node < node_ids → slice_index_or result node true ≡ false →
            HasNodeId (durable_state self.now.durable).log node → ⊥ }
    {
        let mut taken = self.watch.seen(self.latest);
        self.mark_known(&mut taken);
        taken
    }

    /// Marks the nodes that stand in the log, and the members.
    fn mark_known(&self, marked: &mut [bool; NODE_IDS])
        ensures { (node : ℕ) (d : Bool) → node < node_ids → slice_index_or marked.new node d ≡
            (is_on_list (member_list self.now.cluster) node ||
            (is_recorded (durable_state self.now.durable).log node ||
            slice_index_or marked.old node d)) }
    {
        a_durable_state_is_kept::<D>();
        mark_recorded(self.durable.log(), marked);
        mark_listed(self.cluster.members(), marked);
    }
}

/// Marks the node IDs of the entries.
fn mark_recorded(log: &[Entry], marked: &mut [bool; NODE_IDS])
    requires { (i : ℕ) (d : Entry) → i < length log.now → (slice_index_or log.now i d).node < node_ids }
    ensures { (node : ℕ) (d : Bool) → node < node_ids → slice_index_or marked.new node d ≡
        (is_recorded log.now node || slice_index_or marked.old node d) }
{
    for entry in log {
        marked[usize::from(entry.node)] = true;
    }
}

/// Marks the node IDs of the list.
fn mark_listed(members: &[u8], marked: &mut [bool; NODE_IDS])
    requires { (i : ℕ) → i < length members.now → slice_index_or members.now i 0 < node_ids }
    ensures { (node : ℕ) (d : Bool) → node < node_ids → slice_index_or marked.new node d ≡
        (is_on_list members.now node || slice_index_or marked.old node d) }
{
    for member in members {
        marked[usize::from(*member)] = true;
    }
}
