//! What a member does when it reads its clock.

ghost use Rattle.std.specs.Prelude.{◌≡◌, ◌≢◌, ◌≤◌, ◌<◌, ℕ, true, false, None, Some, IfSome, OnOk, length, slice_index_or};
ghost use Rattle.std.specs.Result.{result_err};
ghost use Rattle.arrayvec.specs.ArrayVec.{array_vec_len};
ghost use Rattle.can_frame.specs.Log.{HasNodeId, HasUid, log_limit};
ghost use Rattle.can_frame.specs.Sizes.{node_ids};
ghost use Rattle.can_frame.specs.Zeros.{zeros};
ghost use Rattle.can_frame.specs.declared.step.Role.TheVariants.{Leader};
ghost use Rattle.raft_core.specs.RaftViews.{raft_role};
ghost use Rattle.raft_log.specs.DurableViews.{durable_state};
ghost use Rattle.raft_core.specs.StoredPuts.{CallFaultIsSticky};
ghost use Rattle.alloc_spec.specs.Tick.{asks, candidate, discovery_phase, election_phase, is_candidate, new_uid, proposes, query_phase, record_phase, records_as, reserves, status_phase, clock_phase};
ghost use Rattle.alloc_spec.specs.AllocatorState.{AllocatorState, is_known};
ghost use Rattle.alloc_handlers.specs.Strangers.{is_stranger};

use crate::member::Member;
use crate::puts::puts_go_on;
use alloc_spec::laws::phases_add_puts;
use arrayvec::ArrayVec;
use can_frame::sizes::NODE_IDS;
use can_frame::timing::STATUS_INTERVAL;
use can_frame::{NodeId, Uid, What, is_zero};
use disk_model::Disk;
use kv_store::Fault;
use raft_log::origin;

impl<D: Disk> Member<D> {
    ghost use Rattle.alloc_handlers.specs.Stands.{GoesOn, GoesUpTo, IsReady, IsReadyFor, Leaves, LeavesUpTo, StandsFor};

    /// In order: Discovery and NodeStatus where they are due, the tick of Raft, the record of a
    /// node that told its unique ID or stays silent, and a query to one that did not tell it.
    pub fn tick(&mut self, word: u32) -> Result<(), Fault>
        requires ready { IsReadyFor 3 0 self.old }
        ensures goes { GoesUpTo self.old self.new
            (clock_phase self.old.offered.step word) (result_err result) }
        ensures leaves { LeavesUpTo 3 0 self.old self.new result }
    {
        phases_add_puts();
        puts_go_on::<D>();
        self.tell_members();
        self.tell_status();
        self.elect(word)?;
        self.identify_nodes()
    }

    /// The member's own Discovery, where it is due. One that finds no room counts as sent.
    fn tell_members(&mut self)
        requires ready { IsReadyFor 1 0 self.old }
        ensures step_state { GoesOn self.old self.new
            (discovery_phase self.old.offered.step) }
        ensures leaves { Leaves 1 0 self.old self.new }
    {
        if !self.cluster.due(self.latest) {
            return;
        }
        let payload = self.cluster.message().write();
        self.send(What::Disc, 0, payload);
        self.cluster.sent(self.latest);
    }

    /// NodeStatus, 1,000 ms after the last one or the opening.
    fn tell_status(&mut self)
        requires ready { IsReadyFor 1 0 self.old }
        ensures step_state { GoesOn self.old self.new
            (status_phase self.old.offered.step) }
        ensures leaves { Leaves 1 0 self.old self.new }
    {
        if self.latest - self.status_at < STATUS_INTERVAL {
            return;
        }
        let payload = self.status().write();
        self.send(What::Stat, 0, payload);
        self.status_at = self.latest;
    }

    /// The tick of Raft: a member that has waited stands for election.
    fn elect(&mut self, word: u32) -> Result<(), Fault>
        requires { IsReady self.old }
        ensures goes { (step : ℕ) →
            GoesUpTo self.old self.new (election_phase step word)
            (result_err result) }
        ensures leaves { LeavesUpTo 0 0 self.old self.new result }
    {
        puts_go_on::<D>();
        let members = self.cluster.members();
        let complete = members.len() == usize::from(self.size);
        self.raft.tick(
            &mut self.durable,
            &members[1..],
            complete,
            self.latest,
            word,
        )
    }

    /// A leader records a node of the bus that is not known, and asks one for its unique ID. Mostly all
    /// are known, and then neither is looked for.
    fn identify_nodes(&mut self) -> Result<(), Fault>
        requires ready { IsReadyFor 1 0 self.old }
        ensures goes { GoesUpTo self.old self.new
            (λ g. query_phase self.old.offered.step (record_phase self.old.offered.step g)) (result_err result) }
        ensures leaves { LeavesUpTo 1 0 self.old self.new result }
    {
        phases_add_puts();
        puts_go_on::<D>();
        if !self.leads() {
            return Ok(());
        }
        if !self.sees_strangers() {
            return Ok(());
        }
        self.record_node()?;
        self.ask_node();
        Ok(())
    }

    /// Whether a device is online that is not known.
    fn sees_strangers(&self) -> bool
        ensures none { result ≡ false → (t : AllocatorState) → StandsFor self.now t →
            (node : ℕ) → 1 ≤ node → node < 126 → is_stranger t node ≡ false }
    {
        let known = self.known();
        for node in self.watch.heard() {
            if self.is_stranger(&known, *node) {
                return true;
            }
        }
        false
    }

    fn is_stranger(&self, known: &[bool; NODE_IDS], node: u8) -> bool
        requires { node < node_ids }
        ensures { (t : AllocatorState) → StandsFor self.now t →
            slice_index_or known.now node true ≡ is_known t node → result ≡ is_stranger t node }
    {
        self.watch.online(node, self.latest) && !known[usize::from(node)]
    }

    /// A leader with room records the least node of the bus that is not known, once it has told its
    /// unique ID or stays silent.
    fn record_node(&mut self) -> Result<(), Fault>
        requires { IsReady self.old }
        ensures goes { (step : ℕ) →
            GoesUpTo self.old self.new (record_phase step) (result_err result) }
        ensures leaves { LeavesUpTo 0 0 self.old self.new result }
    {
        puts_go_on::<D>();
        if !self.may_propose() {
            return Ok(());
        }
        match self.candidate() {
            Some(node) => {
                let uid = self.new_uid(node);
                self.record_as(uid, node)
            }
            None => Ok(()),
        }
    }

    /// The least online node that is not known, of those that told their unique ID or stay silent.
    fn candidate(&self) -> Option<NodeId>
        ensures computed { (t : AllocatorState) → StandsFor self.now t → result ≡ candidate t }
        ensures most { IfSome result (λ node. node ≤ 125) }
        ensures free { IfSome result (λ node. HasNodeId (durable_state self.now.durable).log node →
            ⊥) }
    {
        let known = self.known();
        for node in 1..126 {
            if self.is_candidate(&known, node) {
                return NodeId::new(node);
            }
        }
        None
    }

    fn is_candidate(&self, known: &[bool; NODE_IDS], node: u8) -> bool
        requires { node < node_ids }
        ensures computed { (t : AllocatorState) → StandsFor self.now t →
            slice_index_or known.now node true ≡ is_known t node → result ≡ is_candidate t node }
        ensures unknown { result ≡ true → slice_index_or known.now node true ≡ false }
    {
        !known[usize::from(node)]
            && (self.watch.identified(node, self.latest).is_some()
                || self.watch.silent(node, self.counting, self.latest))
    }

    /// The unique ID that a node told, where it is some device's and is not recorded.
    fn new_uid(&self, node: NodeId) -> Option<Uid>
        ensures computed { (t : AllocatorState) → StandsFor self.now t → result ≡ new_uid t node }
        ensures some { IfSome result (λ uid. uid ≢ zeros) }
        ensures free { IfSome result (λ uid. HasUid (durable_state self.now.durable).log uid → ⊥) }
    {
        let uid = self.watch.identified(node.get(), self.latest)?;
        if is_zero(&uid) || self.recorded_at(&uid).is_some() {
            return None;
        }
        Some(uid)
    }

    /// A node is recorded with its unique ID, and without one its node ID is reserved.
    fn record_as(&mut self, uid: Option<Uid>, node: NodeId) -> Result<(), Fault>
        requires ready { IsReady self.old }
        requires leads { raft_role self.old.raft ≡ Leader }
        requires log_room { length (durable_state self.old.durable).log < log_limit }
        requires node { node ≤ 125 }
        requires some { IfSome uid (λ told. told ≢ zeros) }
        requires free { IfSome uid (λ told. HasUid (durable_state self.old.durable).log told → ⊥) }
        requires free_node { HasNodeId (durable_state self.old.durable).log node → ⊥ }
        ensures goes { (step : ℕ) →
            GoesUpTo self.old self.new (records_as step node uid)
            (result_err result) }
        ensures leaves { LeavesUpTo 0 0 self.old self.new result }
    {
        match uid {
            Some(uid) => self.propose(&uid, node, origin::NODE_INFO),
            None => self.reserve(node),
        }
    }

    /// A leader asks the next node that is due for its unique ID.
    fn ask_node(&mut self)
        requires ready { IsReadyFor 1 0 self.old }
        ensures step_state { GoesOn self.old self.new
            (query_phase self.old.offered.step) }
        ensures leaves { Leaves 1 0 self.old self.new }
    {
        if !self.leads() {
            return;
        }
        let known = self.known();
        if let Some(node) = self.watch.next_query(&known, self.latest) {
            self.ask(node);
        }
    }

    /// The request of GetNodeInfo, which is empty.
    fn ask(&mut self, node: NodeId)
        requires ready { IsReadyFor 1 0 self.old }
        ensures step_state { GoesOn self.old self.new (asks self.old.offered.step
            (Some node)) }
        ensures leaves { Leaves 1 0 self.old self.new }
    {
        let to = node.get();
        let id = self.outbox.next_id(What::InfoQ, to);
        if self.send(What::InfoQ, to, ArrayVec::new()) {
            self.watch.asked(node, id, self.latest);
        }
    }

    /// A leader with room records a pair whose unique ID and node ID are not recorded. The origin says how
    /// it came here.
    pub fn propose(&mut self, uid: &Uid, node: NodeId, origin: u8) -> Result<(), Fault>
        requires ready { IsReady self.old }
        requires leads { raft_role self.old.raft ≡ Leader }
        requires log_room { length (durable_state self.old.durable).log < log_limit }
        requires node { node ≤ 125 }
        requires some { uid.now ≢ zeros }
        requires least { 1 ≤ origin }
        requires most { origin ≤ 2 }
        requires free { HasUid (durable_state self.old.durable).log uid.now → ⊥ }
        requires free_node { HasNodeId (durable_state self.old.durable).log node → ⊥ }
        ensures goes { (step : ℕ) →
            GoesUpTo self.old self.new (proposes step origin uid.now node)
            (result_err result) }
        ensures leaves { LeavesUpTo 0 0 self.old self.new result }
    {
        puts_go_on::<D>();
        self.raft.propose(&mut self.durable, uid, node, origin)?;
        Ok(())
    }

    /// A leader with room keeps back a node ID that is not recorded.
    fn reserve(&mut self, node: NodeId) -> Result<(), Fault>
        requires ready { IsReady self.old }
        requires leads { raft_role self.old.raft ≡ Leader }
        requires log_room { length (durable_state self.old.durable).log < log_limit }
        requires node { node ≤ 125 }
        requires free_node { HasNodeId (durable_state self.old.durable).log node → ⊥ }
        ensures goes { (step : ℕ) →
            GoesUpTo self.old self.new (reserves step node) (result_err result) }
        ensures leaves { LeavesUpTo 0 0 self.old self.new result }
    {
        puts_go_on::<D>();
        self.raft.reserve(&mut self.durable, node)?;
        Ok(())
    }
}
