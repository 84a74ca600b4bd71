//! What a member does with a whole transfer.

ghost use Rattle.std.specs.Prelude.{◌≡◌, ◌≤◌, ◌<◌, ℕ, OnOk};
ghost use Rattle.std.specs.Result.{result_err};
ghost use Rattle.arrayvec.specs.ArrayVec.{array_vec_len};
ghost use Rattle.can_frame.specs.Identifier.{IsIdentifier};
ghost use Rattle.can_frame.specs.declared.identifier.Kind.TheVariants.{Request};
ghost use Rattle.dsdl_codec.specs.Discovery.{discovery_of};
ghost use Rattle.dsdl_codec.specs.NodeStatus.{node_status_of};
ghost use Rattle.raft_core.specs.StoredPuts.{CallFaultIsSticky};
ghost use Rattle.alloc_spec.specs.Delivered.{delivery_phase, hears_discovery, hears_status, message, reads, request, response};
ghost use Rattle.transfer_rx.specs.Told.{delivery_of};

use crate::member::Member;
use can_frame::{APPEND_ENTRIES, GET_NODE_INFO, Kind, NODE_STATUS, Seen};
use cluster_discovery::laws::a_complete_list_stays;
use disk_model::Disk;
use dsdl_codec::{Discovery, NodeStatus};
use kv_store::Fault;
use transfer_rx::Transfer;

impl<D: Disk> Member<D> {
    ghost use Rattle.alloc_handlers.specs.Stands.{IsReady, IsReadyFor, Leaves, LeavesUpTo, SeesOn, SeesUpTo};

    /// By the transfer's data type. A payload that is no value of it does nothing.
    pub fn deliver(&mut self, transfer: &Transfer) -> Result<Seen, Fault>
        requires ready { IsReadyFor 1 1 self.old }
        requires ident { IsIdentifier transfer.now.ident }
        requires id { transfer.now.id < 32 }
        ensures sees { SeesUpTo self.old self.new
            (delivery_phase self.old.offered.step (delivery_of transfer.now)) result }
        ensures leaves { LeavesUpTo 1 1 self.old self.new result }
    {
        match transfer.ident.kind {
            Kind::Anonymous => self.hear_allocation(transfer),
            Kind::Message => Ok(self.hear_message(transfer)),
            Kind::Request => self.take_request(transfer),
            Kind::Response => self.take_response(transfer),
        }
    }

    /// Of the messages NodeStatus and Discovery are received.
    fn hear_message(&mut self, transfer: &Transfer) -> Seen
        requires { IsReady self.old }
        ensures sees { SeesOn self.old self.new (message
            (delivery_of transfer.now)) result }
        ensures leaves { Leaves 0 0 self.old self.new }
    {
        if transfer.ident.number == NODE_STATUS.number {
            self.hear_status(transfer)
        } else {
            self.hear_discovery(transfer)
        }
    }

    fn hear_status(&mut self, transfer: &Transfer) -> Seen
        requires { IsReady self.old }
        ensures sees { SeesOn self.old self.new
            (reads (λ status. hears_status (delivery_of transfer.now))
            (node_status_of transfer.now.payload.items)) result }
        ensures leaves { Leaves 0 0 self.old self.new }
    {
        let Some(_) = NodeStatus::read(&transfer.payload) else {
            return Seen::Bad;
        };
        self.watch.status(transfer.ident.source, self.latest);
        Seen::Took
    }

    fn hear_discovery(&mut self, transfer: &Transfer) -> Seen
        requires { IsReady self.old }
        ensures sees { SeesOn self.old self.new
            (reads (hears_discovery (delivery_of transfer.now))
            (discovery_of transfer.now.payload.items)) result }
        ensures leaves { Leaves 0 0 self.old self.new }
    {
        a_complete_list_stays();
        let Some(message) = Discovery::read(&transfer.payload) else {
            return Seen::Bad;
        };
        self.cluster.heard(transfer.ident.source, &message);
        Seen::Took
    }

    /// Of the services GetNodeInfo, AppendEntries and RequestVote.
    fn take_request(&mut self, transfer: &Transfer) -> Result<Seen, Fault>
        requires ready { IsReadyFor 1 0 self.old }
        requires least { 1 ≤ transfer.now.ident.source }
        requires most { transfer.now.ident.source ≤ 127 }
        requires id { transfer.now.id < 32 }
        ensures sees { SeesUpTo self.old self.new (request self.old.offered.step
            (delivery_of transfer.now)) result }
        ensures leaves { LeavesUpTo 1 0 self.old self.new result }
    {
        if transfer.ident.number == GET_NODE_INFO.number {
            Ok(self.tell_info(transfer))
        } else if transfer.ident.number == APPEND_ENTRIES.number {
            self.take_append_request(transfer)
        } else {
            self.take_vote_request(transfer)
        }
    }

    fn take_response(&mut self, transfer: &Transfer) -> Result<Seen, Fault>
        requires { IsReady self.old }
        ensures sees { (step : ℕ) →
            SeesUpTo self.old self.new (response step
            (delivery_of transfer.now)) result }
        ensures leaves { LeavesUpTo 0 0 self.old self.new result }
    {
        if transfer.ident.number == GET_NODE_INFO.number {
            Ok(self.hear_info(transfer))
        } else if transfer.ident.number == APPEND_ENTRIES.number {
            self.take_append_answer(transfer)
        } else {
            self.take_vote_answer(transfer)
        }
    }
}
