//! What a member does with the requests of a node that has no ID.

ghost use Rattle.std.specs.Prelude.{◌≡◌, ◌≢◌, ◌≤◌, ◌<◌, ◌++◌, ◌&&◌, not, true, ℕ, None, OnOk, length};
ghost use Rattle.alloc_exchange.specs.Exchange.{HasItsSize, answer};
ghost use Rattle.std.specs.Result.{result_err};
ghost use Rattle.arrayvec.specs.ArrayVec.{array_vec_len};
ghost use Rattle.can_frame.specs.Log.{HasUid, log_limit};
ghost use Rattle.can_frame.specs.declared.step.Role.TheVariants.{Leader};
ghost use Rattle.node_discovery.specs.Watch.{some_unknown};
ghost use Rattle.raft_core.specs.RaftViews.{raft_role};
ghost use Rattle.can_frame.specs.Zeros.{zeros};
ghost use Rattle.can_frame.specs.declared.step.What.TheVariants.{Alloc};
ghost use Rattle.dsdl_codec.specs.Allocation.{allocation_of};
ghost use Rattle.raft_log.specs.DurableViews.{durable_state};
ghost use Rattle.raft_core.specs.StoredPuts.{CallFaultIsSticky};
ghost use Rattle.alloc_spec.specs.Delivered.{reads};
ghost use Rattle.alloc_spec.specs.Exchange as exchange;
ghost use Rattle.alloc_spec.specs.Exchange.{allocation_payload, answers_again, hears_allocation, hears_whole, records, with_request};
ghost use Rattle.alloc_spec.specs.StepState.{with_transfer};
ghost use Rattle.alloc_spec.specs.AllocatorState.{AllocatorState, known, may_propose};
ghost use Rattle.alloc_spec.specs.Transfers.{has_room};

use crate::member::Member;
use crate::puts::puts_go_on;
use alloc_exchange::Heard;
use arrayvec::ArrayVec;
use can_frame::sizes::LOG_LIMIT;
use can_frame::{Seen, Uid, What, is_zero};
use disk_model::Disk;
use dsdl_codec::{Allocation, Payload};
use id_selector::choose;
use kv_store::Fault;
use raft_log::laws::a_durable_state_is_kept;
use raft_log::origin;
use transfer_rx::Transfer;

impl<D: Disk> Member<D> {
    ghost use Rattle.alloc_handlers.specs.Stands.{GoesOn, GoesUpTo, IsReady, IsReadyFor, Leaves, LeavesUpTo, SeesUpTo, StandsFor};

    /// Takes a request of the exchange: sends a follow-up, answers or proposes a whole unique ID, or
    /// ignores it.
    pub fn hear_allocation(&mut self, transfer: &Transfer) -> Result<Seen, Fault>
        requires ready { IsReadyFor 1 1 self.old }
        ensures sees { SeesUpTo self.old self.new
            (reads (hears_allocation self.old.offered.step) (allocation_of transfer.now.payload.items))
            result }
        ensures leaves { LeavesUpTo 1 1 self.old self.new result }
    {
        puts_go_on::<D>();
        let Some(message) = Allocation::read(&transfer.payload) else {
            return Ok(Seen::Bad);
        };
        self.take_allocation(&message)?;
        Ok(Seen::Took)
    }

    /// Answers a request by its stage.
    fn take_allocation(&mut self, message: &Allocation) -> Result<(), Fault>
        requires ready { IsReadyFor 1 1 self.old }
        ensures goes { GoesUpTo self.old self.new
            (hears_allocation self.old.offered.step message.now) (result_err result) }
        ensures leaves { LeavesUpTo 1 1 self.old self.new result }
    {
        match self.hear(message) {
            Heard::FollowUp(bytes) => {
                self.follow_up(&bytes);
                Ok(())
            }
            Heard::Whole(uid, preference) => self.hear_whole(&uid, preference),
            Heard::Ignored(_) => Ok(()),
            Heard::Denied => Ok(()),
        }
    }

    /// The exchange takes the request.
    fn hear(&mut self, message: &Allocation) -> Heard
        requires ready { IsReady self.old }
        ensures answer { (t : AllocatorState) → StandsFor self.old t →
            result ≡ answer t.accepted message.now t.now (exchange.may_follow t) }
        ensures size { HasItsSize result }
        ensures step_state { GoesOn self.old self.new
            (with_request message.now) }
        ensures leaves { Leaves 0 0 self.old self.new }
    {
        let may_follow = self.may_follow();
        self.exchange.heard(message, self.latest, may_follow)
    }

    /// Follow-ups are given by a leader whose log is committed, or full.
    fn may_follow(&self) -> bool
        ensures { (t : AllocatorState) → StandsFor self.now t → result ≡ exchange.may_follow t }
    {
        let last = self.durable.last();
        self.leads() && (self.durable.commit() == last || usize::from(last) == LOG_LIMIT)
    }

    /// The bytes that were collected go back to the node.
    fn follow_up(&mut self, bytes: &[u8])
        requires ready { IsReadyFor 1 0 self.old }
        requires size { length bytes.now ≤ 16 }
        ensures step_state { GoesOn self.old self.new
            (with_transfer self.old.offered.step Alloc 0 (allocation_payload 0 bytes.now) None) }
        ensures leaves { Leaves 1 0 self.old self.new }
    {
        self.send(What::Alloc, 0, allocation(0, bytes));
    }

    /// Answers a whole unique ID: where it is recorded and committed its pair is sent again, whatever the
    /// role. Any other, but zeros, is proposed if this member leads, has room and knows every online node.
    fn hear_whole(&mut self, uid: &Uid, preference: u8) -> Result<(), Fault>
        requires ready { IsReadyFor 1 1 self.old }
        ensures goes { GoesUpTo self.old self.new
            (hears_whole self.old.offered.step uid.now preference) (result_err result) }
        ensures leaves { LeavesUpTo 1 1 self.old self.new result }
    {
        if is_zero(uid) {
            return Ok(());
        }
        match self.recorded_at(uid) {
            Some(place) => {
                self.answer_again(place);
                Ok(())
            }
            None => self.record(uid, preference),
        }
    }

    /// Offers the pair at an index of the log, counted from 0, if it is committed.
    fn answer_again(&mut self, place: usize)
        requires ready { IsReadyFor 1 1 self.old }
        requires within { place < length (durable_state self.old.durable).log }
        ensures step_state { GoesOn self.old self.new
            (answers_again self.old.offered.step place) }
        ensures leaves { Leaves 1 1 self.old self.new }
    {
        a_durable_state_is_kept::<D>();
        if place >= usize::from(self.durable.commit()) {
            return;
        }
        let entry = self.durable.log()[place];
        self.send_pair(&entry.uid, entry.node);
    }

    /// A leader with room appends a pair with a free node ID to its log; the device is answered once the
    /// pair is committed. Nothing is done while an online node is unknown, or where no ID is free.
    fn record(&mut self, uid: &Uid, preference: u8) -> Result<(), Fault>
        requires ready { IsReady self.old }
        requires some { uid.now ≢ zeros }
        requires free { HasUid (durable_state self.old.durable).log uid.now → ⊥ }
        ensures goes { (step : ℕ) →
            GoesUpTo self.old self.new (records step uid.now preference)
            (result_err result) }
        ensures leaves { LeavesUpTo 0 0 self.old self.new result }
    {
        puts_go_on::<D>();
        if !self.may_record() {
            return Ok(());
        }
        match choose(&self.taken(), preference) {
            Some(node) => self.propose(uid, node, origin::EXCHANGE),
            None => Ok(()),
        }
    }

    /// A leader with room may record a pair where no online node is unknown.
    fn may_record(&self) -> bool
        ensures leads { result ≡ true → raft_role self.now.raft ≡ Leader }
        ensures room { result ≡ true → length (durable_state self.now.durable).log < log_limit }
        ensures stands { (t : AllocatorState) → StandsFor self.now t →
            result ≡ (may_propose t && not (some_unknown t.watch (known t) t.now)) }
    {
        self.may_propose() && !self.watch.unknown(&self.known(), self.latest)
    }

    /// Offers the Allocation of a node ID to a unique ID, and lists it, with the pair if it fitted. Returns
    /// whether it fitted.
    pub fn send_pair(&mut self, uid: &Uid, node: u8) -> bool
        requires ready { IsReadyFor 1 1 self.old }
        requires node { node < 128 }
        ensures fitted { result ≡ has_room self.old.outbox.queue (allocation_payload node uid.now) }
        ensures step_state { GoesOn self.old self.new
            (with_transfer self.old.offered.step Alloc 0 (allocation_payload node uid.now) None) }
        ensures rest { self.new ≡ record self.old { outbox = self.new.outbox; offered = self.new.offered } }
        ensures leaves { Leaves 1 1 self.old self.new }
    {
        let fitted = self
            .outbox
            .send(What::Alloc, 0, allocation(node, uid), self.offered.step);
        self.offered.list_allocation(uid, node, fitted);
        fitted
    }
}

/// The payload of an Allocation by an allocator.
fn allocation(node: u8, uid: &[u8]) -> Payload
    requires node { node < 128 }
    requires size { length uid.now ≤ 16 }
    ensures { result.items ≡ allocation_payload node uid.now }
{
    match ArrayVec::try_from(uid) {
        Ok(uid) => Allocation {
            node,
            first_part: false,
            uid,
        }
        .write(),
        Err(_) => unreachable!(),
    }
}
