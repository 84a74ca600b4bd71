ghost use Rattle.std.specs.Prelude.{◌≡◌, ◌≤◌, ◌<◌, ◌↔◌, ℕ, [], None, Some, IsTrue, IsNone, IsSome, IsErr, IfOk, IfErr, IfSome, OnOk, OnErr, Err, true, length, option_map};
ghost use Rattle.std.specs.Result.{result_err};
ghost use Rattle.can_frame.specs.Log.{entry_at};
ghost use Rattle.disk_model.specs.Contents.{AddsNoImage};
ghost use Rattle.disk_model.specs.Device.{Makes};
ghost use Rattle.kv_store.specs.Image.{open_calls};
ghost use Rattle.kv_store.specs.declared.fault.Fault.{Fault};
ghost use Rattle.kv_store.specs.declared.fault.OpenFault.TheVariants.{Fault as DiskFault, Damaged};
ghost use Rattle.outside.specs.Faults.{Rose};
ghost use Rattle.raft_log.specs.DurableViews.{durable_copies, durable_fault, durable_state};
ghost use Rattle.raft_log.specs.Opening.{FailsToOpen, OpensTo};
ghost use Rattle.raft_log.specs.Rules.{AlwaysStandsForState, IsDamagedAt};
ghost use Rattle.raft_log.specs.Stored.{first_state};
ghost use Rattle.raft_core.specs.RaftViews.{raft_role};
ghost use Rattle.raft_core.specs.StoredPuts.{store_of};
ghost use Rattle.transfer_rx.specs.Acceptance.{AnswersByRows};
ghost use Rattle.transfer_tx.specs.Queue.{next_out};
ghost use Rattle.transfer_tx.specs.Views.{queued_of};
ghost use Rattle.std.proofs.Props.{props};
ghost use Rattle.can_frame.specs.Sizes.{most_members};
ghost use Rattle.transfer_rx.specs.Views.{setting_of};
ghost use Rattle.raft_core.specs.OneFit.{ReachesUpTo-prop};
ghost use Rattle.alloc_handlers.specs.Stands.{IsReady};
ghost use Rattle.alloc_spec.specs.Accepted as accepted;
ghost use Rattle.alloc_spec.specs.Accepted.{AllocatorReceiverFitsInMemory};
ghost use Rattle.alloc_spec.specs.Step.{after_pop};
ghost use Rattle.alloc_spec.specs.Step as steps;
ghost use Rattle.alloc_spec.specs.AllocatorState.{AllocatorState, entry_of, opening, view_of};
ghost use Rattle.alloc_spec.specs.Rules.{with_told};

use crate::take::take;
use alloc_handlers::Member;
use alloc_spec::{Event, Offered, Outcome, View};
use arrayvec::ArrayVec;
use can_frame::sizes::{BLOCKS, SESSIONS};
use can_frame::{Entry, Kind};
use disk_model::{Disk, MemoryDisk};
use kv_store::{Fault, OpenFault, OpenRefused};
use outside::Pattern;
use raft_log::Durable;
use std::mem;
use transfer_rx::{AcceptRow, Receiver};
use transfer_tx::Marked;

/// One allocator of a cluster, with its disk.
///
/// From its opening on a server stands for an allocator of the definition (`StandsFor`). Its receiver has 160 sessions
/// and 128 blocks; `memory` owes that it fits in memory. `callable` and `answers` owe that the closure may be called,
/// and that it answers as the rows.
#[derive(Drop)]
pub struct Server<D: Disk, F> {
    pub(crate) member: Member<D>,
    pub(crate) receiver: Receiver<F, SESSIONS, BLOCKS>,

    /// What each step answers until the server is opened: the fault of the step that failed, or that of its
    /// stored state, which is closed.
    fault: Option<Fault>,

    ghost rows: { (setting_of receiver).rows ≡ accepted.rows },
    ghost ready: { fault ≡ None → IsReady member } by { Prim.hlevel (props, ReachesUpTo-prop) },
    ghost kept: { durable_fault member.durable ≡ fault } by { Prim.hlevel props },
    ghost silent: { (why : Fault) → fault ≡ Some why → member.outbox.queue ≡ [] },
}

impl<D: Disk, F: Fn(Kind, u16) -> Option<u64> + Copy> Server<D, F> {
    ghost use Rattle.alloc_server.specs.Server.{StandsFor, StepsTo, accepts, disk_of, durable_of, event_of, fault_of, queued};

    /// A server of the node `me`, in a cluster of `size` members, with what its disk has stored, which
    /// is brought to version 2 of the store. `word` is random: it sets how long the server waits before it
    /// stands for election.
    ///
    /// The disk comes back with a refusal.
    #[inline(never)]
    pub fn open(
        me: u8,
        size: u8,
        disk: D,
        rows: ArrayVec<AcceptRow, 16>,
        accept: F,
        now: u64,
        word: u32,
    ) -> Result<Server<D, F>, OpenRefused<D>>
        requires least { 1 ≤ me }
        requires most { me ≤ 125 }
        requires some { 1 ≤ size }
        requires five { size ≤ most_members }
        requires rows { rows.items ≡ accepted.rows }
        requires memory { AllocatorReceiverFitsInMemory F.row }
        requires callable { F.IsAlwaysCallable accept }
        requires answers { AnswersByRows (F.post accept) rows.items }
        ensures stands { IfOk result (λ server. StandsFor server (opening me size (store_of
            (durable_state (durable_of server))) now word)) }
        ensures accepts { IfOk result (λ server. accepts server ≡ accept) }

        // The state is the one that was read, after the puts of the opening; any later stop leaves that state.
        ensures opens { IfOk result (λ server. OpensTo disk (durable_of server)) }
        ensures durable { IfOk result (λ server. D.tells disk ≡ true →
            AlwaysStandsForState (D.contents (disk_of server)) (durable_state (durable_of server))) }
        ensures version { IfOk result (λ server. (durable_state (durable_of server)).version ≡ 2) }
        ensures tells { IfOk result (λ server. D.tells (disk_of server) ≡ D.tells disk) }
        ensures later { IfOk result (λ server. D.faults disk ≤ D.faults (disk_of server)) }

        // It refuses a disk of which a key is damaged, and puts nothing there; and one that fails.
        ensures damaged { IfErr result (λ refused. (key : ℕ) → refused.why ≡ Damaged key →
            D.tells disk ≡ true → IsDamagedAt (D.contents disk).seen key) }
        ensures damaged_made { IfErr result (λ refused. (key : ℕ) → refused.why ≡ Damaged key →
            Makes D.does open_calls true disk refused.disk) }
        ensures damaged_images { IfErr result (λ refused. (key : ℕ) → refused.why ≡ Damaged key →
            D.tells disk ≡ true → AddsNoImage (D.contents disk) (D.contents refused.disk)) }
        ensures fault { IfErr result (λ refused. (fault : Fault) → refused.why ≡ DiskFault fault →
            (fault.count ≡ D.faults refused.disk) × Rose (D.faults disk) (D.faults refused.disk)) }
        ensures failed { IfErr result (λ refused. (fault : Fault) → refused.why ≡ DiskFault fault →
            FailsToOpen D.Disk disk refused.disk) }
        ensures refused_tells { IfErr result (λ refused. D.tells refused.disk ≡ D.tells disk) }
        ensures refused_later { IfErr result (λ refused. D.faults disk ≤ D.faults refused.disk) }
    {
        let mut server = Server::closed(me, size, disk, rows, accept);
        match server.reopen(me, size, now, word) {
            Ok(()) => Ok(server),
            Err(why) => Err(OpenRefused {
                disk: server.stop(),
                why,
            }),
        }
    }

    /// Runs the step with this number on an event. Where the disk fails, the step ends, what waited
    /// for the bus is lost, and the server answers the same fault from then on.
    pub fn step(&mut self, event: Event, step: u64) -> Result<Outcome, Fault>
        requires memory { AllocatorReceiverFitsInMemory F.row }
        requires callable { F.IsAlwaysCallable (accepts self.old) }
        requires answers { AnswersByRows (F.post (accepts self.old)) accepted.rows }

        ensures steps { (t : AllocatorState) → StandsFor self.old t →
            StepsTo self.old self.new (steps.step t step (event_of event)) result }
        ensures accepts { accepts self.new ≡ accepts self.old }

        // A fault is one of the disk in this step. It is kept, and every later step gives it again.
        ensures cause { IsNone (fault_of self.old) → IfErr result (λ fault.
            (fault.count ≡ D.faults (disk_of self.new)) ×
            Rose (D.faults (disk_of self.old)) (D.faults (disk_of self.new))) }
        ensures failed { fault_of self.new ≡ result_err result }
        ensures lost { IfErr result (λ _. queued self.new ≡ []) }
        ensures again { IfSome (fault_of self.old) (λ fault. (result ≡ Err fault) ×
            (self.new ≡ self.old)) }
        ensures later { D.faults (disk_of self.old) ≤ D.faults (disk_of self.new) }
        ensures told { D.tells (disk_of self.new) ≡ D.tells (disk_of self.old) }
    {
        let accept = self.receiver.accept();
        self.step_by(accept, event, step)
    }
}

impl<D: Disk, F: Copy> Server<D, F> {
    ghost use Rattle.alloc_server.specs.Server.{StandsFor as IsAt, StepsTo as MakesStep, accepts as closure_in, disk_of as disk_at, durable_of as durable_at, event_of as event_at, fault_of as fault_at, queued as waiting};

    /// A server of the node `me`, in a cluster of `size` members, that is not open: its disk was not read
    /// yet, its queue is empty, and its steps answer a fault until it is opened. It is not inlined: no caller
    /// is to pay for the place of its parts on the stack.
    #[inline(never)]
    pub fn closed(
        me: u8,
        size: u8,
        disk: D,
        rows: ArrayVec<AcceptRow, 16>,
        accept: F,
    ) -> Server<D, F>
        requires least { 1 ≤ me }
        requires most { me ≤ 125 }
        requires some { 1 ≤ size }
        requires five { size ≤ most_members }
        requires rows { rows.items ≡ accepted.rows }
        requires memory { AllocatorReceiverFitsInMemory F.row }
        ensures disk { disk_at result ≡ disk }
        ensures state { durable_state (durable_at result) ≡ first_state }
        ensures copies { (key : ℕ) → durable_copies (durable_at result) key ≡ 0 }
        ensures closed { IsSome (fault_at result) }
        ensures count { IfSome (fault_at result) (λ fault. fault.count ≡ D.faults disk) }
        ensures queued { waiting result ≡ [] }
        ensures accepts { closure_in result ≡ accept }
    {
        let durable = Durable::closed(disk);
        let fault = durable.fault();
        Server {
            member: Member::open(me, size, durable, 0, 0),
            receiver: Receiver::new(me, rows, accept),
            fault,
        }
    }

    /// Opens again where it is, as `open` does, whatever was known of its disk before. After a refusal it is
    /// closed: its queue is empty, and its steps answer a fault until it is opened. It is not inlined: no
    /// caller is to pay for the place of the image that it reads.
    #[inline(never)]
    pub fn reopen(&mut self, me: u8, size: u8, now: u64, word: u32) -> Result<(), OpenFault>
        requires least { 1 ≤ me }
        requires most { me ≤ 125 }
        requires some { 1 ≤ size }
        requires five { size ≤ most_members }
        requires memory { AllocatorReceiverFitsInMemory F.row }
        ensures stands { OnOk result (IsAt self.new (opening me size (store_of
            (durable_state (durable_at self.new))) now word)) }
        ensures accepts { closure_in self.new ≡ closure_in self.old }

        // The state is the one that was read, after the puts of the opening; any later stop leaves that state.
        ensures opens { OnOk result (OpensTo (disk_at self.old) (durable_at self.new)) }
        ensures durable { OnOk result (D.tells (disk_at self.old) ≡ true →
            AlwaysStandsForState (D.contents (disk_at self.new)) (durable_state (durable_at self.new))) }
        ensures version { OnOk result ((durable_state (durable_at self.new)).version ≡ 2) }

        // It refuses a disk of which a key is damaged, and puts nothing there; and one that fails.
        ensures damaged { IfErr result (λ why. (key : ℕ) → why ≡ Damaged key →
            D.tells (disk_at self.old) ≡ true → IsDamagedAt (D.contents (disk_at self.old)).seen key) }
        ensures damaged_made { IfErr result (λ why. (key : ℕ) → why ≡ Damaged key →
            Makes D.does open_calls true (disk_at self.old) (disk_at self.new)) }
        ensures damaged_images { IfErr result (λ why. (key : ℕ) → why ≡ Damaged key →
            D.tells (disk_at self.old) ≡ true →
            AddsNoImage (D.contents (disk_at self.old)) (D.contents (disk_at self.new))) }
        ensures fault { IfErr result (λ why. (fault : Fault) → why ≡ DiskFault fault →
            (fault.count ≡ D.faults (disk_at self.new))
            × Rose (D.faults (disk_at self.old)) (D.faults (disk_at self.new))) }
        ensures failed { IfErr result (λ why. (fault : Fault) → why ≡ DiskFault fault →
            FailsToOpen D.Disk (disk_at self.old) (disk_at self.new)) }

        ensures closed { IsErr result → IsSome (fault_at self.new) }

        // What it keeps after a refusal is the fault that it answers, and it has the count of the disk.
        ensures kept { IfErr result (λ why. (fault : Fault) → why ≡ DiskFault fault →
            fault_at self.new ≡ Some fault) }
        ensures count { OnErr result (IfSome (fault_at self.new) (λ fault.
            fault.count ≡ D.faults (disk_at self.new))) }
        ensures lost { OnErr result (waiting self.new ≡ []) }
        ensures tells { D.tells (disk_at self.new) ≡ D.tells (disk_at self.old) }
        ensures later { D.faults (disk_at self.old) ≤ D.faults (disk_at self.new) }
    {
        if let Err(why) = self.member.durable.reopen() {
            self.fault = self.member.durable.fault();
            self.member.outbox.clear();
            return Err(why);
        }
        self.member.reopen(me, size, now, word);
        self.receiver.reset(me);
        self.fault = None;
        Ok(())
    }

    /// Tells a server that is open all members of its cluster: so it has heard them before its first step, where
    /// it is told at its opening. An empty list changes nothing, nor does a server that is closed or has failed.
    pub fn learn(&mut self, nodes: &[u8])
        requires few { length nodes.now ≤ most_members }
        ensures stands { (t : AllocatorState) → IsAt self.old t → IsAt self.new (with_told nodes.now t) }
        ensures accepts { closure_in self.new ≡ closure_in self.old }
        ensures durable { durable_at self.new ≡ durable_at self.old }
        ensures fault { fault_at self.new ≡ fault_at self.old }
        ensures queued { waiting self.new ≡ waiting self.old }
    {
        if self.fault.is_none() {
            self.member.learn(nodes);
        }
    }

    /// What `step` does, with a closure that is handed in.
    pub fn step_by<G: Fn(Kind, u16) -> Option<u64> + Copy>(
        &mut self,
        accept: G,
        event: Event,
        step: u64,
    ) -> Result<Outcome, Fault>
        requires memory { AllocatorReceiverFitsInMemory F.row }
        requires callable { G.IsAlwaysCallable accept }
        requires answers { AnswersByRows (G.post accept) accepted.rows }

        ensures steps { (t : AllocatorState) → IsAt self.old t →
            MakesStep self.old self.new (steps.step t step (event_at event)) result }
        ensures accepts { closure_in self.new ≡ closure_in self.old }

        // A fault is one of the disk in this step. It is kept, and every later step gives it again.
        ensures cause { IsNone (fault_at self.old) → IfErr result (λ fault.
            (fault.count ≡ D.faults (disk_at self.new)) ×
            Rose (D.faults (disk_at self.old)) (D.faults (disk_at self.new))) }
        ensures failed { fault_at self.new ≡ result_err result }
        ensures lost { IfErr result (λ _. waiting self.new ≡ []) }
        ensures again { IfSome (fault_at self.old) (λ fault. (result ≡ Err fault) ×
            (self.new ≡ self.old)) }
        ensures later { D.faults (disk_at self.old) ≤ D.faults (disk_at self.new) }
        ensures told { D.tells (disk_at self.new) ≡ D.tells (disk_at self.old) }
    {
        if let Some(fault) = self.fault {
            return Err(fault);
        }
        match take(&mut self.member, &mut self.receiver, accept, event, step) {
            Ok(seen) => {
                let offered = mem::replace(&mut self.member.offered, Offered::new(step));
                Ok(Outcome {
                    seen,
                    sent: offered.sent,
                    answers: offered.answers,
                })
            }
            Err(fault) => {
                self.fault = Some(fault);
                self.member.outbox.clear();
                Err(fault)
            }
        }
    }

    /// Removes and returns the next frame for the bus.
    pub fn pop(&mut self) -> Option<Marked>
        ensures next { option_map queued_of result ≡ next_out (waiting self.old) }
        ensures rest { (t : AllocatorState) → IsAt self.old t → IsAt self.new (after_pop t) }
        ensures none { IsNone result ↔ (waiting self.old ≡ []) }
        ensures unchanged { IsNone result → self.new ≡ self.old }
        ensures closed { IsSome (fault_at self.old) → IsNone result }
        ensures durable { durable_at self.new ≡ durable_at self.old }
        ensures fault { fault_at self.new ≡ fault_at self.old }
        ensures accepts { closure_in self.new ≡ closure_in self.old }
    {
        self.member.outbox.pop()
    }

    /// The role, the numbers of the stored state and the length of the queue. After a fault they are those
    /// of the moment of the fault.
    pub fn view(&self) -> View
        ensures stands { (t : AllocatorState) → IsAt self.now t → result ≡ view_of t }
        ensures role { result.role ≡ raft_role self.now.member.raft }
        ensures term { result.term ≡ (durable_state (durable_at self.now)).term }
        ensures vote { result.vote ≡ (durable_state (durable_at self.now)).vote }
        ensures last { result.last ≡ length (durable_state (durable_at self.now)).log }
        ensures commit { result.commit ≡ (durable_state (durable_at self.now)).commit }
        ensures queued { result.queued ≡ length (waiting self.now) }
    {
        let durable = &self.member.durable;
        View {
            role: self.member.raft.role(),
            term: durable.term(),
            vote: durable.vote(),
            last: durable.last(),
            commit: durable.commit(),
            queued: self.member.outbox.queued(),
        }
    }

    /// The entry at a place of 0 to last. At place 0 stands the blank of term 0.
    pub fn entry(&self, place: u8) -> Entry
        requires { place ≤ length (durable_state (durable_at self.now)).log }
        ensures entry { result ≡ entry_at (durable_state (durable_at self.now)).log place }
        ensures stands { (t : AllocatorState) → IsAt self.now t → result ≡ entry_of t place }
    {
        self.member.durable.entry(place)
    }

    /// Whether a step has failed, or the server is closed.
    pub fn failed(&self) -> bool
        ensures { IsTrue result ↔ IsSome (fault_at self.now) }
    {
        self.fault.is_some()
    }

    /// Lets the server go and returns its disk, unchanged.
    pub fn stop(self) -> D
        ensures { result ≡ disk_at self }
    {
        self.member.into_disk()
    }
}

impl<F: Fn(Kind, u16) -> Option<u64> + Copy> Server<MemoryDisk, F> {
    ghost use Rattle.disk_model.specs.Memory.{Restarts, memory_calls, memory_contents};
    ghost use Rattle.disk_model.specs.Pattern.{IsUsable};
    ghost use Rattle.alloc_server.specs.Server.{StandsFor as StandsForTimed, accepts as accept_of, disk_of as disk_in, durable_of as durable_in, fault_of as fault_in, queued as queued_in};

    /// The process stops, and its disk starts again after it (`MemoryDisk::restart`). The server is closed
    /// then: what waited for the bus is lost, and its steps answer a fault until it is opened again.
    ///
    /// `IsUsable` owes that a pattern of bytes has one byte at least.
    pub fn restart(&mut self, pattern: Pattern)
        requires { IsUsable pattern }
        ensures disk { Restarts pattern (disk_in self.old) (disk_in self.new) }
        ensures state { durable_state (durable_in self.new) ≡ durable_state (durable_in self.old) }
        ensures copies { durable_copies (durable_in self.new) ≡ durable_copies
            (durable_in self.old) }
        ensures closed { IsSome (fault_in self.new) }
        ensures count { IfSome (fault_in self.new) (λ fault.
            fault.count ≡ (memory_calls (disk_in self.old)).faults) }
        ensures lost { queued_in self.new ≡ [] }
        ensures accepts { accept_of self.new ≡ accept_of self.old }
    {
        self.member.durable.restart(pattern);
        self.fault = self.member.durable.fault();
        self.member.outbox.clear();
    }

    /// Calls `MemoryDisk::stop_at` of the disk; nothing else changes.
    pub fn stop_at(&mut self, call: u64)
        ensures calls { memory_calls (disk_in self.new) ≡ record (memory_calls (disk_in self.old))
            { stop_in = call } }
        ensures contents { memory_contents (disk_in self.new) ≡ memory_contents (disk_in self.old) }
        ensures state { durable_state (durable_in self.new) ≡ durable_state (durable_in self.old) }
        ensures copies { durable_copies (durable_in self.new) ≡ durable_copies
            (durable_in self.old) }
        ensures fault { fault_in self.new ≡ fault_in self.old }
        ensures stands { (t : AllocatorState) → StandsForTimed self.old t → StandsForTimed self.new t }
        ensures accepts { accept_of self.new ≡ accept_of self.old }
    {
        self.member.durable.stop_at(call);
    }

    /// Calls `MemoryDisk::fail_at` of the disk; nothing else changes.
    pub fn fail_at(&mut self, call: u64)
        ensures calls { memory_calls (disk_in self.new) ≡ record (memory_calls (disk_in self.old))
            { fail_in = call } }
        ensures contents { memory_contents (disk_in self.new) ≡ memory_contents (disk_in self.old) }
        ensures state { durable_state (durable_in self.new) ≡ durable_state (durable_in self.old) }
        ensures copies { durable_copies (durable_in self.new) ≡ durable_copies
            (durable_in self.old) }
        ensures fault { fault_in self.new ≡ fault_in self.old }
        ensures stands { (t : AllocatorState) → StandsForTimed self.old t → StandsForTimed self.new t }
        ensures accepts { accept_of self.new ≡ accept_of self.old }
    {
        self.member.durable.fail_at(call);
    }

    /// Whether a device call has stopped the disk.
    pub fn stopped(&self) -> bool
        ensures { result ≡ (memory_calls (disk_in self.now)).stopped }
    {
        self.member.durable.stopped()
    }
}
