//! How each step ends: a leader commits and tells, and the calls that are owed are made.

ghost use Rattle.std.specs.Prelude.{◌≡◌, ◌≤◌, ◌<◌, ◌+◌, ℕ, OnOk, drop, length, slice_index_or};
ghost use Rattle.std.specs.Result.{result_err};
ghost use Rattle.arrayvec.specs.ArrayVec.{array_vec_len};
ghost use Rattle.can_frame.specs.Sizes.{most_members};
ghost use Rattle.alloc_handlers.specs.Calling as calling;
ghost use Rattle.raft_core.specs.Calls.{IsWritable};
ghost use Rattle.raft_core.specs.StoredPuts.{CallFaultIsSticky};
ghost use Rattle.alloc_spec.specs.Ending.{call_phase, calls_all, calls_peer, commit_phase, end_phase, tell_phase};
ghost use Rattle.alloc_spec.specs.AllocatorState.{AllocatorState, members_of};

use crate::member::Member;
use crate::puts::puts_go_on;
use alloc_spec::laws::phases_add_puts;
use arrayvec::ArrayVec;
use can_frame::What;
use can_frame::sizes::MOST_MEMBERS;
use disk_model::Disk;
use dsdl_codec::Payload;
use kv_store::Fault;
use raft_core::{Call, Telling};

impl<D: Disk> Member<D> {
    ghost use Rattle.alloc_handlers.specs.Stands.{GoesOn, GoesUpTo, IsReady, IsReadyFor, Leaves, LeavesUpTo, StandsFor};

    /// A pair is told, and each other member called: at most so many transfers and pairs more are listed.
    ///
    /// In order: a leader commits; one place is told, where what tells it fits; the calls that are owed are sent, in
    /// the order of the list, where they fit.
    pub fn end(&mut self) -> Result<(), Fault>
        requires ready { IsReadyFor (most_members + 1) 1 self.old }
        ensures goes { GoesUpTo self.old self.new (end_phase self.old.offered.step)
            (result_err result) }
        ensures ready { OnOk result (IsReady self.new) }
        ensures faults { CallFaultIsSticky self.old.durable self.new.durable (result_err result) }
    {
        phases_add_puts();
        puts_go_on::<D>();
        self.commit()?;
        self.tell();
        self.call_all();
        Ok(())
    }

    fn commit(&mut self) -> Result<(), Fault>
        requires { IsReady self.old }
        ensures goes { (step : ℕ) →
            GoesUpTo self.old self.new (commit_phase step) (result_err result) }
        ensures leaves { LeavesUpTo 0 0 self.old self.new result }
    {
        puts_go_on::<D>();
        self.raft.commit(&mut self.durable)
    }

    /// A leader tells one committed pair, once it fits; a place without a unique ID is passed over.
    fn tell(&mut self)
        requires ready { IsReadyFor 1 1 self.old }
        ensures step_state { GoesOn self.old self.new
            (tell_phase self.old.offered.step) }
        ensures leaves { Leaves 1 1 self.old self.new }
    {
        match self.raft.tell(&self.durable) {
            Telling::Nothing => {}
            Telling::Skip(place) => self.raft.told(place),
            Telling::Pair(place, uid, node) => {
                if self.send_pair(&uid, node.get()) {
                    self.raft.told(place);
                }
            }
        }
    }

    /// Each other member on the list, in its order, is called where a call is owed.
    fn call_all(&mut self)
        requires ready { IsReadyFor most_members 0 self.old }
        ensures step_state { GoesOn self.old self.new
            (call_phase self.old.offered.step) }
        ensures leaves { Leaves most_members 0 self.old self.new }
    {
        let peers = self.peers();
        self.call_each(peers.as_slice());
    }

    /// The others on the list.
    fn peers(&self) -> ArrayVec<u8, MOST_MEMBERS>
        ensures others { (t : AllocatorState) → StandsFor self.now t → result.items ≡ drop 1 (members_of t) }
        ensures few { array_vec_len result ≤ most_members }
        ensures devices { (i : ℕ) → i < length result.items →
            slice_index_or result.items i 0 ≤ 125 }
        ensures numbered { (i : ℕ) → i < length result.items → 1 ≤ slice_index_or result.items i 0 }
    {
        let members = self.cluster.members();
        match ArrayVec::try_from(&members[1..]) {
            Ok(peers) => peers,
            Err(_) => unreachable!(),
        }
    }

    fn call_each(&mut self, peers: &[u8])
        requires ready { IsReadyFor most_members 0 self.old }
        requires few { length peers.now ≤ most_members }
        requires devices { (i : ℕ) → i < length peers.now → slice_index_or peers.now i 0 ≤ 125 }
        requires numbered { (i : ℕ) → i < length peers.now → 1 ≤ slice_index_or peers.now i 0 }
        ensures step_state { GoesOn self.old self.new
            (calls_all self.old.offered.step peers.now) }
        ensures leaves { Leaves (length peers.now) 0 self.old self.new }
    {
        for peer in peers {
            self.call(*peer);
        }
    }

    /// The call that is owed to a peer is made where it fits.
    fn call(&mut self, peer: u8)
        requires ready { IsReadyFor 1 0 self.old }
        requires least { 1 ≤ peer }
        requires most { peer ≤ 125 }
        ensures step_state { GoesOn self.old self.new
            (calls_peer self.old.offered.step peer) }
        ensures leaves { Leaves 1 0 self.old self.new }
    {
        let Some(call) = self.raft.call(&self.durable, peer, self.latest) else {
            return;
        };
        let what = what_of(&call);
        let id = self.outbox.next_id(what, peer);
        if self.send(what, peer, payload_of(&call)) {
            self.raft.called(
                &self.durable,
                peer,
                &call,
                id,
                self.offered.step,
                self.latest,
            );
        }
    }
}

fn what_of(call: &Call) -> What
    ensures { result ≡ calling.what_of call.now }
{
    match call {
        Call::Vote(_) => What::VoteQ,
        Call::Append(_) => What::AppQ,
    }
}

fn payload_of(call: &Call) -> Payload
    requires { IsWritable call.now }
    ensures { result.items ≡ calling.bytes_of call.now }
{
    match call {
        Call::Vote(request) => request.write(),
        Call::Append(request) => request.write(),
    }
}
