//! Requests that are answered, and responses that are taken. Those of Raft count from members of
//! the list alone.

ghost use Rattle.std.specs.Prelude.{◌≡◌, ◌≤◌, ◌<◌, ℕ, None, OnOk};
ghost use Rattle.std.specs.Result.{result_err};
ghost use Rattle.arrayvec.specs.ArrayVec.{array_vec_len};
ghost use Rattle.dsdl_codec.specs.AppendAnswer as append_answer;
ghost use Rattle.dsdl_codec.specs.AppendRequest as append_request;
ghost use Rattle.dsdl_codec.specs.NodeInfo.{node_info_of};
ghost use Rattle.dsdl_codec.specs.VoteAnswer as vote_answer;
ghost use Rattle.dsdl_codec.specs.VoteRequest as vote_request;
ghost use Rattle.raft_core.specs.StoredPuts.{CallFaultIsSticky};
ghost use Rattle.alloc_spec.specs.Delivered.{asks_info, reads};
ghost use Rattle.alloc_spec.specs.Services as services;
ghost use Rattle.alloc_spec.specs.Services.{answers_append_request, answers_vote_request, ends_append_call, ends_vote_call, hears_info, info_of, takes_append_answer, takes_append_request, takes_vote_answer, takes_vote_request};
ghost use Rattle.alloc_spec.specs.AllocatorState.{AllocatorState};
ghost use Rattle.transfer_rx.specs.Told.{delivery_of};

use crate::member::Member;
use crate::puts::puts_go_on;
use arrayvec::ArrayVec;
use can_frame::{Seen, Uid, What};
use disk_model::Disk;
use dsdl_codec::{AppendAnswer, AppendRequest, NodeInfo, VoteAnswer, VoteRequest};
use kv_store::Fault;
use transfer_rx::Transfer;

impl<D: Disk> Member<D> {
    ghost use Rattle.alloc_handlers.specs.Stands.{GoesUpTo, IsReady, IsReadyFor, Leaves, LeavesUpTo, SeesOn, SeesUpTo, StandsFor};

    /// The request of GetNodeInfo, which is empty, is answered.
    pub fn tell_info(&mut self, request: &Transfer) -> Seen
        requires ready { IsReadyFor 1 0 self.old }
        requires least { 1 ≤ request.now.ident.source }
        requires most { request.now.ident.source ≤ 127 }
        requires id { request.now.id < 32 }
        ensures sees { SeesOn self.old self.new
            (asks_info self.old.offered.step (delivery_of request.now) request.now.payload.items) result }
        ensures leaves { Leaves 1 0 self.old self.new }
    {
        if !request.payload.is_empty() {
            return Seen::Bad;
        }
        let payload = self.info().write();
        self.answer(What::Info, request, payload);
        Seen::Took
    }

    /// The unique ID of a node that was asked for it.
    pub fn hear_info(&mut self, response: &Transfer) -> Seen
        requires ready { IsReady self.old }
        ensures sees { SeesOn self.old self.new
            (reads (hears_info (delivery_of response.now))
            (node_info_of response.now.payload.items)) result }
        ensures leaves { Leaves 0 0 self.old self.new }
    {
        let Some(info) = NodeInfo::read(&response.payload) else {
            return Seen::Bad;
        };
        self.watch
            .info(response.ident.source, response.id, &info.uid, self.latest);
        Seen::Took
    }

    /// Takes a vote request, a whole transfer: `Ok(Bad)` where the payload is no value of it.
    pub fn take_vote_request(&mut self, transfer: &Transfer) -> Result<Seen, Fault>
        requires ready { IsReadyFor 1 0 self.old }
        requires id { transfer.now.id < 32 }
        ensures sees { SeesUpTo self.old self.new
            (reads (takes_vote_request self.old.offered.step (delivery_of transfer.now))
            (vote_request.vote_request_of transfer.now.payload.items)) result }
        ensures leaves { LeavesUpTo 1 0 self.old self.new result }
    {
        puts_go_on::<D>();
        let Some(request) = VoteRequest::read(&transfer.payload) else {
            return Ok(Seen::Bad);
        };
        if self.lists(transfer.ident.source) {
            self.answer_vote(transfer, &request)?;
        }
        Ok(Seen::Took)
    }

    /// The vote is given or refused, and the answer offered, whether it fits or not.
    fn answer_vote(&mut self, transfer: &Transfer, request: &VoteRequest) -> Result<(), Fault>
        requires ready { IsReadyFor 1 0 self.old }
        requires least { 1 ≤ transfer.now.ident.source }
        requires most { transfer.now.ident.source ≤ 125 }
        requires id { transfer.now.id < 32 }
        ensures goes { GoesUpTo self.old self.new
            (answers_vote_request self.old.offered.step (delivery_of transfer.now) request.now)
            (result_err result) }
        ensures leaves { LeavesUpTo 1 0 self.old self.new result }
    {
        puts_go_on::<D>();
        let from = transfer.ident.source;
        let answer = self
            .raft
            .on_vote_request(&mut self.durable, from, request, self.latest)?;
        self.answer(What::Vote, transfer, answer.write());
        Ok(())
    }

    /// Takes an append request, a whole transfer: `Ok(Bad)` where the payload is no value of it.
    pub fn take_append_request(&mut self, transfer: &Transfer) -> Result<Seen, Fault>
        requires ready { IsReadyFor 1 0 self.old }
        requires id { transfer.now.id < 32 }
        ensures sees { SeesUpTo self.old self.new
            (reads (takes_append_request self.old.offered.step (delivery_of transfer.now))
            (append_request.append_request_of transfer.now.payload.items)) result }
        ensures leaves { LeavesUpTo 1 0 self.old self.new result }
    {
        puts_go_on::<D>();
        let Some(request) = AppendRequest::read(&transfer.payload) else {
            return Ok(Seen::Bad);
        };
        if self.lists(transfer.ident.source) {
            self.answer_append(transfer, &request)?;
        }
        Ok(Seen::Took)
    }

    /// The entries are accepted or refused, and the answer offered, whether it fits or not.
    fn answer_append(&mut self, transfer: &Transfer, request: &AppendRequest) -> Result<(), Fault>
        requires ready { IsReadyFor 1 0 self.old }
        requires least { 1 ≤ transfer.now.ident.source }
        requires most { transfer.now.ident.source ≤ 125 }
        requires id { transfer.now.id < 32 }
        ensures goes { GoesUpTo self.old self.new
            (answers_append_request self.old.offered.step (delivery_of transfer.now) request.now)
            (result_err result) }
        ensures leaves { LeavesUpTo 1 0 self.old self.new result }
    {
        puts_go_on::<D>();
        let from = transfer.ident.source;
        let answer = self
            .raft
            .on_append_request(&mut self.durable, from, request, self.latest)?;
        self.answer(What::App, transfer, answer.write());
        Ok(())
    }

    /// Takes the answer to a vote request, a whole transfer: `Ok(Bad)` where the payload is no value of it.
    pub fn take_vote_answer(&mut self, transfer: &Transfer) -> Result<Seen, Fault>
        requires { IsReady self.old }
        ensures sees { (step : ℕ) → SeesUpTo self.old self.new
            (reads (takes_vote_answer step (delivery_of transfer.now))
            (vote_answer.vote_answer_of transfer.now.payload.items)) result }
        ensures leaves { LeavesUpTo 0 0 self.old self.new result }
    {
        puts_go_on::<D>();
        let Some(answer) = VoteAnswer::read(&transfer.payload) else {
            return Ok(Seen::Bad);
        };
        if self.lists(transfer.ident.source) {
            self.end_vote_call(transfer, &answer)?;
        }
        Ok(Seen::Took)
    }

    /// The call that waits for the answer takes it.
    fn end_vote_call(&mut self, transfer: &Transfer, answer: &VoteAnswer) -> Result<(), Fault>
        requires ready { IsReady self.old }
        requires most { transfer.now.ident.source ≤ 125 }
        ensures goes { (step : ℕ) → GoesUpTo self.old self.new
            (ends_vote_call step (delivery_of transfer.now) answer.now) (result_err result) }
        ensures leaves { LeavesUpTo 0 0 self.old self.new result }
    {
        puts_go_on::<D>();
        let from = transfer.ident.source;
        let id = transfer.id;
        self.raft
            .on_vote_answer(&mut self.durable, from, id, answer, self.latest)?;
        Ok(())
    }

    /// Takes the answer to an append request, a whole transfer: `Ok(Bad)` where the payload is no value of it.
    pub fn take_append_answer(&mut self, transfer: &Transfer) -> Result<Seen, Fault>
        requires { IsReady self.old }
        ensures sees { (step : ℕ) → SeesUpTo self.old self.new
            (reads (takes_append_answer step (delivery_of transfer.now))
            (append_answer.append_answer_of transfer.now.payload.items)) result }
        ensures leaves { LeavesUpTo 0 0 self.old self.new result }
    {
        puts_go_on::<D>();
        let Some(answer) = AppendAnswer::read(&transfer.payload) else {
            return Ok(Seen::Bad);
        };
        if self.lists(transfer.ident.source) {
            self.end_append_call(transfer, &answer)?;
        }
        Ok(Seen::Took)
    }

    /// The call that waits for the answer takes it.
    fn end_append_call(&mut self, transfer: &Transfer, answer: &AppendAnswer) -> Result<(), Fault>
        requires ready { IsReady self.old }
        requires most { transfer.now.ident.source ≤ 125 }
        ensures goes { (step : ℕ) → GoesUpTo self.old self.new
            (ends_append_call step (delivery_of transfer.now) answer.now) (result_err result) }
        ensures leaves { LeavesUpTo 0 0 self.old self.new result }
    {
        puts_go_on::<D>();
        let from = transfer.ident.source;
        let id = transfer.id;
        self.raft
            .on_append_answer(&mut self.durable, from, id, answer, self.latest)?;
        Ok(())
    }

    fn info(&self) -> NodeInfo
        requires { IsReady self.now }
        ensures health { result.status.health ≡ 0 }
        ensures mode { result.status.mode ≡ 0 }
        ensures sub_mode { result.status.sub_mode ≡ 0 }
        ensures stands { (t : AllocatorState) → StandsFor self.now t → result ≡ info_of t }
    {
        NodeInfo {
            status: self.status(),
            sw_major: 1,
            sw_minor: 0,
            sw_flags: 0,
            sw_commit: 0,
            sw_crc: 0,
            hw_major: 1,
            hw_minor: 0,
            uid: uid_of(self.me),
            certificate: ArrayVec::new(),
            name: name(),
        }
    }
}

/// The unique ID of a member.
fn uid_of(me: u8) -> Uid
    ensures { result ≡ services.uid_of me }
{
    let mut uid = *b"UAVCAN-ALLOC-000";
    uid[15] = me;
    uid
}

fn name() -> ArrayVec<u8, 80>
    ensures { result.items ≡ services.name }
{
    match ArrayVec::try_from(b"uavcan.allocator".as_slice()) {
        Ok(name) => name,
        Err(_) => unreachable!(),
    }
}
