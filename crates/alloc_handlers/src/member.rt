ghost use Rattle.std.specs.Prelude.{◌≡◌, ◌≤◌, ◌<◌, ℕ, true, List, Option, IfSome, IsNone, length};
ghost use Rattle.arrayvec.specs.ArrayVec.{array_vec_len};
ghost use Rattle.can_frame.specs.Identifier.{IsIdentifier};
ghost use Rattle.can_frame.specs.Log.{HasUid, log_limit};
ghost use Rattle.raft_core.specs.RaftViews.{raft_role};
ghost use Rattle.can_frame.specs.declared.step.Role.TheVariants.{Leader};
ghost use Rattle.can_frame.specs.Sizes.{most_members};
ghost use Rattle.cluster_discovery.specs.Members.{is_on_list};
ghost use Rattle.raft_log.specs.DurableViews.{durable_disk, durable_state};
ghost use Rattle.raft_core.specs.StoredPuts.{store_of};
ghost use Rattle.raft_model.specs.Messages.{Message};
ghost use Rattle.raft_model.specs.Moves.Elections.{is_leader};
ghost use Rattle.alloc_spec.specs.StepState.{with_response_to, with_transfer};
ghost use Rattle.alloc_spec.specs.Step.{at_sessions, begin_phase};
ghost use Rattle.transfer_rx.specs.Sessions.{Session};
ghost use Rattle.alloc_spec.specs.AllocatorState.{AllocatorState, may_propose, members_of, opening, recorded_at, status_of};
ghost use Rattle.alloc_spec.specs.Rules.{with_told};
ghost use Rattle.alloc_spec.specs.Transfers.{pair_in, has_room, ident_of};
ghost use Rattle.transfer_rx.specs.Told.{delivery_of};

use crate::puts::puts_go_on;
use alloc_exchange::Exchange;
use alloc_spec::{Offered, Outbox};
use arrayvec::ArrayVec;
use can_frame::sizes::LOG_LIMIT;
use can_frame::{Role, Uid, What, is_same_uid};
use cluster_discovery::Cluster;
use cluster_discovery::laws::a_complete_list_stays;
use disk_model::Disk;
use dsdl_codec::{Discovery, NodeStatus, Payload};
use node_discovery::{Counting, Watch};
use raft_core::Raft;
use raft_log::Durable;
use transfer_rx::Transfer;

/// No node has this ID, and it joins no list of members.
const NOBODY: u8 = 0;

/// A member of the cluster, without its receiver: what is done with whole transfers and with time.
/// Moments are milliseconds.
///
/// A member is ready (`ready`) where its numbers are in their ranges, its parts are of this member, no moment has
/// fallen, and what it keeps in memory fits what is stored. Each call is a phase of the definition of a step, with its
/// puts. After `Ok` the member is ready again. `Err` comes only where a call on the stored state answered it. `room`
/// and `pairs` owe how many transfers and pairs the call may list yet; `leaves` says how many it lists at most.
#[derive(Drop)]
pub struct Member<D: Disk> {
    pub me: u8,

    /// How many members the cluster has.
    pub size: u8,

    /// What survives stops.
    pub durable: Durable<D>,

    pub raft: Raft,
    pub exchange: Exchange,
    pub watch: Watch,

    /// Which queries count against a node that answers none of them.
    pub counting: Counting,

    pub cluster: Cluster,
    pub outbox: Outbox,
    pub opened_at: u64,

    /// The greatest moment so far.
    pub latest: u64,

    /// When the last NodeStatus was due, or the opening.
    pub status_at: u64,

    /// What its step has offered so far.
    pub offered: Offered,
}

impl<D: Disk> Member<D> {
    ghost use Rattle.alloc_handlers.specs.Stands.{GoesOn, IsInStep, IsReady, IsReadyFor, Leaves, StandsFor};

    /// A member that opens now, with what it has stored. It is not inlined: its caller would take minutes to
    /// compile.
    #[inline(never)]
    pub fn open(me: u8, size: u8, durable: Durable<D>, now: u64, word: u32) -> Member<D>
        requires least { 1 ≤ me }
        requires most { me ≤ 125 }
        requires some { 1 ≤ size }
        requires five { size ≤ most_members }
        ensures stands { StandsFor result (opening me size (store_of
            (durable_state durable)) now word) }
        ensures ready { IsReady result }
        ensures durable { result.durable ≡ durable }
    {
        Member {
            me,
            size,
            durable,
            raft: Raft::new(me, size, now, word),
            exchange: Exchange::new(),
            watch: Watch::new(),
            counting: Counting::OfSpell,
            cluster: Cluster::new(me, size, now),
            outbox: Outbox::new(me),
            opened_at: now,
            latest: now,
            status_at: now,
            offered: Offered::new(0),
        }
    }

    /// Opens again now, with what it has stored. The stored state stays where it is; all else begins anew,
    /// as in `open`.
    pub fn reopen(&mut self, me: u8, size: u8, now: u64, word: u32)
        requires least { 1 ≤ me }
        requires most { me ≤ 125 }
        requires some { 1 ≤ size }
        requires five { size ≤ most_members }
        ensures stands { StandsFor self.new (opening me size (store_of
            (durable_state self.old.durable)) now word) }
        ensures ready { IsReady self.new }
        ensures durable { self.new.durable ≡ self.old.durable }
    {
        self.me = me;
        self.size = size;
        self.raft = Raft::new(me, size, now, word);
        self.exchange = Exchange::new();
        self.watch = Watch::new();
        self.counting = Counting::OfSpell;
        self.cluster = Cluster::new(me, size, now);
        self.outbox = Outbox::new(me);
        self.opened_at = now;
        self.latest = now;
        self.status_at = now;
        self.offered = Offered::new(0);
    }

    /// Tells it the members of its cluster. They are learnt as from a Discovery that nobody sent. From now on the
    /// queries since a node's last answer count against it, and a leader's blank waits until a quorum has the
    /// log. An empty list changes nothing.
    pub fn learn(&mut self, nodes: &[u8])
        requires ready { IsReady self.old }
        requires few { length nodes.now ≤ most_members }
        ensures stands { (t : AllocatorState) → StandsFor self.old t →
            StandsFor self.new (with_told nodes.now t) }
        ensures rest { self.new ≡ record self.old {
          raft = self.new.raft;
          cluster = self.new.cluster;
          counting = self.new.counting;
        } }
        ensures ready { IsReady self.new }
    {
        a_complete_list_stays();
        if nodes.is_empty() {
            return;
        }
        match ArrayVec::try_from(nodes) {
            Ok(known) => {
                let message = Discovery {
                    size: self.size,
                    known,
                };
                self.cluster.heard(NOBODY, &message);
            }
            Err(_) => unreachable!(),
        }
        self.counting = Counting::SinceAnswer;
        self.raft.wait_until_heard();
    }

    /// How each step begins: it has offered nothing yet, time goes on, never back, and old calls are given up.
    pub fn begin(&mut self, now: u64, step: u64)
        requires { IsReady self.old }
        ensures step_state { (t : AllocatorState) → StandsFor self.old t → (sessions : List Session) →
            IsInStep self.old.durable self.new (at_sessions sessions (begin_phase step now t)) }
        ensures step { self.new.offered.step ≡ step }
        ensures durable { self.new.durable ≡ self.old.durable }
        ensures ready { IsReadyFor 12 2 self.new }
    {
        puts_go_on::<D>();
        self.offered = Offered::new(step);
        self.latest = self.latest.max(now);
        self.raft.expire(self.latest);
    }

    /// Whether the node is on the member's list.
    pub fn lists(&self, node: u8) -> bool
        ensures least { result ≡ true → 1 ≤ node }
        ensures most { result ≡ true → node ≤ 125 }
        ensures stands { (t : AllocatorState) → StandsFor self.now t → result ≡ is_on_list (members_of t) node }
    {
        self.cluster.members().contains(&node)
    }

    pub fn leads(&self) -> bool
        ensures leads { result ≡ true → raft_role self.now.raft ≡ Leader }
        ensures stands { (t : AllocatorState) → StandsFor self.now t → result ≡ is_leader t.raft_server.memory.role }
    {
        self.raft.role() == Role::Leader
    }

    /// A leader whose log has room may record a pair.
    pub fn may_propose(&self) -> bool
        ensures leads { result ≡ true → raft_role self.now.raft ≡ Leader }
        ensures room { result ≡ true → length (durable_state self.now.durable).log < log_limit }
        ensures stands { (t : AllocatorState) → StandsFor self.now t → result ≡ may_propose t }
    {
        self.leads() && usize::from(self.durable.last()) < LOG_LIMIT
    }

    /// The place, from 0, at which a unique ID stands in the log.
    pub fn recorded_at(&self, uid: &Uid) -> Option<usize>
        ensures place { result ≡ recorded_at (durable_state self.now.durable).log uid.now }
        ensures within { IfSome result (λ place. place < length
            (durable_state self.now.durable).log) }
        ensures none { IsNone result → HasUid (durable_state self.now.durable).log uid.now → ⊥ }
    {
        self.durable
            .log()
            .iter()
            .position(|entry| is_same_uid(&entry.uid, uid))
    }

    pub fn status(&self) -> NodeStatus
        requires { self.now.opened_at ≤ self.now.latest }
        ensures status { (t : AllocatorState) → StandsFor self.now t → result ≡ status_of t }
        ensures health { result.health ≡ 0 }
        ensures mode { result.mode ≡ 0 }
        ensures sub_mode { result.sub_mode ≡ 0 }
    {
        NodeStatus {
            uptime: ((self.latest - self.opened_at) / 1000).min(u64::from(u32::MAX)) as u32,
            health: 0,
            mode: 0,
            sub_mode: 0,
            vendor: 0,
        }
    }

    /// Offers a message, or a request to a node, and lists it. Whether it fitted.
    pub fn send(&mut self, what: What, to: u8, payload: Payload) -> bool
        requires ready { IsReadyFor 1 0 self.old }
        requires ident { IsIdentifier (ident_of self.old.me what to) }
        ensures fitted { result ≡ has_room self.old.outbox.queue payload.items }
        ensures step_state { pair_in what payload.items ≡ None →
            (says : Option Message) → GoesOn self.old self.new
            (with_transfer self.old.offered.step what to payload.items says) }
        ensures rest { self.new ≡ record self.old { outbox = self.new.outbox; offered = self.new.offered } }
        ensures leaves { Leaves 1 0 self.old self.new }
    {
        let fitted = self.outbox.send(what, to, payload, self.offered.step);
        self.offered.list(what, to, fitted);
        fitted
    }

    /// Offers the response to a request, and lists it.
    pub fn answer(&mut self, what: What, request: &Transfer, payload: Payload)
        requires ready { IsReadyFor 1 0 self.old }
        requires ident { IsIdentifier (ident_of self.old.me what request.now.ident.source) }
        requires id { request.now.id < 32 }
        ensures step_state { pair_in what payload.items ≡ None →
            (says : Option Message) → GoesOn self.old self.new
            (with_response_to self.old.offered.step what (delivery_of request.now) payload.items says) }
        ensures rest { self.new ≡ record self.old { outbox = self.new.outbox; offered = self.new.offered } }
        ensures leaves { Leaves 1 0 self.old self.new }
    {
        let to = request.ident.source;
        let step = self.offered.step;
        let fitted = self
            .outbox
            .answer(what, to, request.id, payload, step, request.mark.step);
        self.offered.list(what, to, fitted);
    }

    /// The disk as it stands.
    pub fn into_disk(self) -> D
        ensures { result ≡ durable_disk self.durable }
    {
        self.durable.into_disk()
    }
}
