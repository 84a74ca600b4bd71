//! One allocator that runs.

ghost use Rattle.std.specs.Prelude.{length, ◌≡◌, ◌<◌, ◌≤◌, ◌+◌, ℕ, List, Option, Some, None};
ghost use Rattle.std.specs.Prelude.{IfOk, IfErr, OnOk, OnErr, true};
ghost use Rattle.can_frame.specs.Sizes.{most_members};
ghost use Rattle.disk_model.specs.Contents.{AddsNoImage};
ghost use Rattle.disk_model.specs.Device.{Makes};
ghost use Rattle.outside.specs.Faults.{Rose};
ghost use Rattle.outside.specs.declared.received.RawFrame.{RawFrame};
ghost use Rattle.outside.specs.declared.received.Received.{Received};
ghost use Rattle.kv_store.specs.Image.{open_calls};
ghost use Rattle.kv_store.specs.declared.fault.Fault.{Fault as StoreFault};
ghost use Rattle.kv_store.specs.declared.fault.OpenFault.TheVariants.{Fault as DiskFault, Damaged};
ghost use Rattle.cmd_node.specs.Words.{next_words, own_words, word_of};
ghost use Rattle.raft_core.specs.StoredPuts.{store_of};
ghost use Rattle.raft_log.specs.DurableViews.{durable_state};
ghost use Rattle.raft_log.specs.Opening.{FailsToOpen, OpensTo};
ghost use Rattle.raft_log.specs.Rules.{IsDamagedAt};
ghost use Rattle.alloc_spec.specs.AllocatorState.{AllocatorState};
ghost use Rattle.alloc_spec.specs.Rules.{opening_by, rules_by};
ghost use Rattle.alloc_server.specs.AnotherLog.{another_log};
ghost use Rattle.bus_spec.specs.Receivers.{MemberReceives};
ghost use Rattle.cmd_node.specs.Another.{caller_in_turn, next_caller};
ghost use Rattle.cmd_node.specs.Puts.{IsCutIn, IsHeardIn, step_puts};
ghost use Rattle.cmd_node.specs.Turn.{Turning, turn_after_hearing, turn_after_step, turn_after_sending, turn};
ghost use Rattle.cmd_node.specs.declared.steps.LastSteps.{LastSteps};
ghost use Rattle.cmd_node.specs.declared.fault.Fault.TheVariants.{Link as LinkFailed, Disk as DiskFailed};
ghost use Rattle.cmd_node.specs.declared.fault.Fault.TheVariants.{AnotherLog as IsAnother, Damaged as IsDamaged};

use crate::fault::Fault;
use crate::frames::{event_in, to_raw};
use crate::steps::LastSteps;
use crate::words::Words;
use alloc_server::{Event, Server, accept_rows};
use bus_spec::told_of_step;
use can_frame::Kind;
use disk_model::Disk;
use disk_model::laws::calls_that_succeed_count_no_fault;
use kv_store::OpenRefused;
use outside::{Failed, Link};
use raft_log::laws::a_state_is_durable;

/// A running allocator, with the words for its waits. It is let go by [`Runner::stop`] alone, so
/// that no disk is lost.
pub(crate) struct Runner<D: Disk, F> {
    pub(crate) id: u8,
    pub(crate) server: Server<D, F>,
    pub(crate) words: Words,
}

impl<D: Disk, F: Fn(Kind, u16) -> Option<u64> + Copy> Runner<D, F> {
    ghost use Rattle.alloc_server.specs.Server.{HasPut, LeavesSome, StandsFor};
    ghost use Rattle.alloc_server.specs.Server.{durable_of, event_of};
    ghost use Rattle.cmd_node.specs.Stands.{IsStanding, IsTurning, Works, closure_of, runner_disk};
    ghost use Rattle.cmd_node.specs.Steps.{steps_made};

    /// Opens the server of the node `id`, in a cluster of `size` members, at a moment and with its first
    /// word; it is told who they are, where `told` has them.
    pub fn open(
        id: u8,
        size: u8,
        told: &[u8],
        disk: D,
        accept: F,
        now: u64,
    ) -> Result<Runner<D, F>, OpenRefused<D>>
        requires least { 1 ≤ id }
        requires most { id ≤ 125 }
        requires some { 1 ≤ size }
        requires five { size ≤ most_members }
        requires few { length told.now ≤ most_members }
        requires receives { MemberReceives F.row F.IsAlwaysCallable F.post accept }
        ensures stands { IfOk result (λ runner. StandsFor runner.server (opening_by id (rules_by size told.now)
            (store_of (durable_state (durable_of runner.server))) now
            (word_of (next_words (own_words told.now id))))) }
        ensures id { IfOk result (λ runner. runner.id ≡ id) }
        ensures words { IfOk result (λ runner. runner.words ≡ next_words (own_words told.now id)) }
        ensures accepts { IfOk result (λ runner. closure_of runner ≡ accept) }
        ensures opens { IfOk result (λ runner. OpensTo disk (durable_of runner.server)) }
        ensures works { IfOk result (λ runner. Works runner) }
        ensures later { IfOk result (λ runner. D.faults disk ≤ D.faults (runner_disk runner)) }
        ensures tells { IfOk result (λ runner. D.tells (runner_disk runner) ≡ D.tells disk) }
        ensures damaged { IfErr result (λ refused. (key : ℕ) → refused.why ≡ Damaged key →
            D.tells disk ≡ true → IsDamagedAt (D.contents disk).seen key) }
        ensures damaged_made { IfErr result (λ refused. (key : ℕ) → refused.why ≡ Damaged key →
            Makes D.does open_calls true disk refused.disk) }
        ensures fault { IfErr result (λ refused. (fault : StoreFault) →
            refused.why ≡ DiskFault fault → Rose (D.faults disk) (D.faults refused.disk)) }
        // What the refused disk holds.
        ensures damaged_images { IfErr result (λ refused. (key : ℕ) → refused.why ≡ Damaged key →
            D.tells disk ≡ true → AddsNoImage (D.contents disk) (D.contents refused.disk)) }
        ensures failed { IfErr result (λ refused. (fault : StoreFault) →
            refused.why ≡ DiskFault fault → FailsToOpen D.Disk disk refused.disk) }
        ensures refused_tells { IfErr result (λ refused. D.tells refused.disk ≡ D.tells disk) }
        ensures refused_later { IfErr result (λ refused. D.faults disk ≤ D.faults refused.disk) }
    {
        let mut words = Words::new(told, id);
        let word = words.next();
        match Server::open(id, size, disk, accept_rows(), accept, now, word) {
            Ok(mut server) => {
                server.learn(told);
                Ok(Runner { id, server, words })
            }
            Err(refused) => Err(refused),
        }
    }

    /// A turn, at a reading of the clock. It ends where a call of another log comes, before the step of that call.
    #[tactic(auto, unfolding(crate::specs::Turn::turn))]
    pub fn turn<L: Link>(
        &mut self,
        now: u64,
        link: &mut L,
        steps: &mut LastSteps,
    ) -> Result<(), Fault>
        requires receives { MemberReceives F.row F.IsAlwaysCallable F.post (closure_of self.old) }
        requires few { steps_made steps.old + 2 < 18446744073709551615 }
        ensures turned { OnOk result ((t : Turning) →
            IsTurning self.old (L.coming link.old) (L.sent link.old) steps.old t →
            IsTurning self.new (L.coming link.new) (L.sent link.new) steps.new (turn now t)) }
        ensures uncalled { OnOk result ((t : Turning) →
            IsTurning self.old (L.coming link.old) (L.sent link.old) steps.old t →
            caller_in_turn now t ≡ None) }
        ensures called { (id node : ℕ) → result ≡ Err (IsAnother id node) → (id ≡ self.old.id) ×
            ((t : Turning) → IsTurning self.old (L.coming link.old) (L.sent link.old) steps.old t →
            caller_in_turn now t ≡ Some node) }
        // A turn that fails sends nothing, takes at most one item and has made a prefix of its puts.
        ensures unsent { OnErr result (L.sent link.new ≡ L.sent link.old) }
        ensures cut { (t : Turning) →
            IsTurning self.old (L.coming link.old) (L.sent link.old) steps.old t →
            IsCutIn now t (L.coming link.new) (LeavesSome self.old.server self.new.server) }
        ensures id { self.new.id ≡ self.old.id }
        ensures accepts { closure_of self.new ≡ closure_of self.old }
        ensures works { OnOk result (Works self.new) }
        ensures few { steps_made steps.new ≤ steps_made steps.old + 2 }
        ensures sound { (id key : ℕ) → result ≡ Err (IsDamaged id key) → ⊥ }
        ensures link_failed { (id : ℕ) → result ≡ Err (LinkFailed id) →
            (id ≡ self.old.id) × Rose (L.faults link.old) (L.faults link.new) }
        ensures disk_failed { (id : ℕ) → Works self.old → result ≡ Err (DiskFailed id) →
            (id ≡ self.old.id) ×
            Rose (D.faults (runner_disk self.old)) (D.faults (runner_disk self.new)) }
        ensures link_later { L.faults link.old ≤ L.faults link.new }
        ensures disk_later { D.faults (runner_disk self.old) ≤ D.faults (runner_disk self.new) }
        ensures tells { D.tells (runner_disk self.new) ≡ D.tells (runner_disk self.old) }
        ensures standing { OnOk result (IsStanding self.old → IsStanding self.new) }
        ensures link_quiet { (result ≡ Err (LinkFailed self.old.id) → ⊥) →
            L.faults link.new ≡ L.faults link.old }
        ensures disk_quiet { (result ≡ Err (DiskFailed self.old.id) → ⊥) → IsStanding self.old →
            D.faults (runner_disk self.new) ≡ D.faults (runner_disk self.old) }
    {
        let word = self.words.next();
        self.step(Event::Tick { now, word }, steps)?;
        self.hear(now, link, steps)?;
        self.send(link)
    }

    /// Takes the next item of its link, and makes a step of it where it is a frame, unless that is a call of
    /// another log.
    fn hear<L: Link>(&mut self, now: u64, link: &mut L, steps: &mut LastSteps) -> Result<(), Fault>
        requires receives { MemberReceives F.row F.IsAlwaysCallable F.post (closure_of self.old) }
        requires few { steps_made steps.old < 18446744073709551615 }
        ensures heard { OnOk result ((t : Turning) →
            IsTurning self.old (L.coming link.old) (L.sent link.old) steps.old t →
            IsTurning self.new (L.coming link.new) (L.sent link.new) steps.new (turn_after_hearing now t)) }
        ensures uncalled { OnOk result ((t : Turning) →
            IsTurning self.old (L.coming link.old) (L.sent link.old) steps.old t → next_caller now t ≡ None) }
        ensures called { (id node : ℕ) → result ≡ Err (IsAnother id node) → (id ≡ self.old.id) ×
            ((t : Turning) → IsTurning self.old (L.coming link.old) (L.sent link.old) steps.old t →
            next_caller now t ≡ Some node) }
        ensures sent { L.sent link.new ≡ L.sent link.old }
        ensures cut { (t : Turning) →
            IsTurning self.old (L.coming link.old) (L.sent link.old) steps.old t →
            IsHeardIn now t (L.coming link.new) (LeavesSome self.old.server self.new.server) }
        ensures id { self.new.id ≡ self.old.id }
        ensures accepts { closure_of self.new ≡ closure_of self.old }
        ensures works { OnOk result (Works self.old → Works self.new) }
        ensures few { steps_made steps.new ≤ steps_made steps.old + 1 }
        ensures link_failed { (id : ℕ) → result ≡ Err (LinkFailed id) →
            (id ≡ self.old.id) × Rose (L.faults link.old) (L.faults link.new) }
        ensures disk_failed { (id : ℕ) → result ≡ Err (DiskFailed id) →
            (id ≡ self.old.id) × (Works self.old →
            Rose (D.faults (runner_disk self.old)) (D.faults (runner_disk self.new))) }
        ensures sound { (id key : ℕ) → result ≡ Err (IsDamaged id key) → ⊥ }
        ensures link_later { L.faults link.old ≤ L.faults link.new }
        ensures disk_later { D.faults (runner_disk self.old) ≤ D.faults (runner_disk self.new) }
        ensures tells { D.tells (runner_disk self.new) ≡ D.tells (runner_disk self.old) }
        ensures standing { OnOk result (IsStanding self.old → IsStanding self.new) }
        ensures link_quiet { (result ≡ Err (LinkFailed self.old.id) → ⊥) →
            L.faults link.new ≡ L.faults link.old }
        ensures disk_quiet { (result ≡ Err (DiskFailed self.old.id) → ⊥) → IsStanding self.old →
            D.faults (runner_disk self.new) ≡ D.faults (runner_disk self.old) }
    {
        // The law behind the clause `cut`, where nothing is put.
        a_state_is_durable::<D>();
        match link.recv() {
            Ok(item) => match event_in(&item, now) {
                Some(event) => self.take(event, steps),
                None => Ok(()),
            },
            Err(Failed) => Err(Fault::Link(self.id)),
        }
    }

    /// Makes the next step of what it heard, unless that is a call of another log.
    fn take(&mut self, event: Event, steps: &mut LastSteps) -> Result<(), Fault>
        requires receives { MemberReceives F.row F.IsAlwaysCallable F.post (closure_of self.old) }
        requires few { steps_made steps.old < 18446744073709551615 }
        ensures stepped { OnOk result ((t : Turning) (coming : Option (List Received))
            (sent : Option (List RawFrame)) → IsTurning self.old coming sent steps.old t →
            IsTurning self.new coming sent steps.new (turn_after_step (event_of event) t)) }
        ensures uncalled { OnOk result ((t : AllocatorState) → StandsFor self.old.server t →
            another_log t (event_of event) ≡ None) }
        ensures called { (id node : ℕ) → result ≡ Err (IsAnother id node) → (id ≡ self.old.id) ×
            ((t : AllocatorState) → StandsFor self.old.server t →
            another_log t (event_of event) ≡ Some node) }
        ensures leaves { (t : Turning) (coming : Option (List Received))
            (sent : Option (List RawFrame)) → IsTurning self.old coming sent steps.old t →
            LeavesSome self.old.server self.new.server (step_puts (event_of event) t) }
        ensures id { self.new.id ≡ self.old.id }
        ensures accepts { closure_of self.new ≡ closure_of self.old }
        ensures works { OnOk result (Works self.new) }
        ensures few { steps_made steps.new ≤ steps_made steps.old + 1 }
        ensures no_link { (id : ℕ) → result ≡ Err (LinkFailed id) → ⊥ }
        ensures sound { (id key : ℕ) → result ≡ Err (IsDamaged id key) → ⊥ }
        ensures disk_failed { (id : ℕ) → result ≡ Err (DiskFailed id) →
            (id ≡ self.old.id) × (Works self.old →
            Rose (D.faults (runner_disk self.old)) (D.faults (runner_disk self.new))) }
        ensures disk_later { D.faults (runner_disk self.old) ≤ D.faults (runner_disk self.new) }
        ensures tells { D.tells (runner_disk self.new) ≡ D.tells (runner_disk self.old) }
        ensures standing { OnOk result (IsStanding self.old → IsStanding self.new) }
        ensures disk_quiet { (result ≡ Err (DiskFailed self.old.id) → ⊥) → IsStanding self.old →
            D.faults (runner_disk self.new) ≡ D.faults (runner_disk self.old) }
    {
        // The law behind the clause `leaves`, where nothing is put.
        a_state_is_durable::<D>();
        if let Some(node) = self.server.another_log(&event) {
            return Err(Fault::AnotherLog(self.id, node));
        }
        self.step(event, steps)
    }

    /// Makes the next step.
    fn step(&mut self, event: Event, steps: &mut LastSteps) -> Result<(), Fault>
        requires receives { MemberReceives F.row F.IsAlwaysCallable F.post (closure_of self.old) }
        requires few { steps_made steps.old < 18446744073709551615 }
        ensures stepped { OnOk result ((t : Turning) (coming : Option (List Received))
            (sent : Option (List RawFrame)) → IsTurning self.old coming sent steps.old t →
            IsTurning self.new coming sent steps.new (turn_after_step (event_of event) t)) }
        ensures put { OnOk result ((t : Turning) (coming : Option (List Received))
            (sent : Option (List RawFrame)) → IsTurning self.old coming sent steps.old t →
            HasPut self.old.server self.new.server (step_puts (event_of event) t)) }
        ensures leaves { (t : Turning) (coming : Option (List Received))
            (sent : Option (List RawFrame)) → IsTurning self.old coming sent steps.old t →
            LeavesSome self.old.server self.new.server (step_puts (event_of event) t) }
        ensures id { self.new.id ≡ self.old.id }
        ensures accepts { closure_of self.new ≡ closure_of self.old }
        ensures works { OnOk result (Works self.new) }
        ensures few { steps_made steps.new ≤ steps_made steps.old + 1 }
        ensures failed { IfErr result (λ fault. fault ≡ DiskFailed self.old.id) }
        ensures cause { OnErr result (Works self.old →
            Rose (D.faults (runner_disk self.old)) (D.faults (runner_disk self.new))) }
        ensures disk_later { D.faults (runner_disk self.old) ≤ D.faults (runner_disk self.new) }
        ensures tells { D.tells (runner_disk self.new) ≡ D.tells (runner_disk self.old) }
        ensures standing { OnOk result (IsStanding self.old → IsStanding self.new) }
        ensures quiet { OnOk result (IsStanding self.old →
            D.faults (runner_disk self.new) ≡ D.faults (runner_disk self.old)) }
    {
        calls_that_succeed_count_no_fault::<D>();
        match self.server.step(event, steps.next_number()) {
            Ok(outcome) => {
                steps.push(told_of_step(self.id, self.server.view(), outcome));
                Ok(())
            }
            Err(_) => Err(Fault::Disk(self.id)),
        }
    }

    /// Sends the next frame of its queue, if there is one.
    fn send<L: Link>(&mut self, link: &mut L) -> Result<(), Fault>
        ensures sent { OnOk result ((t : Turning) (steps : LastSteps) →
            IsTurning self.old (L.coming link.old) (L.sent link.old) steps t →
            IsTurning self.new (L.coming link.new) (L.sent link.new) steps (turn_after_sending t)) }
        ensures unsent { OnErr result (L.sent link.new ≡ L.sent link.old) }
        ensures coming { L.coming link.new ≡ L.coming link.old }
        ensures id { self.new.id ≡ self.old.id }
        ensures accepts { closure_of self.new ≡ closure_of self.old }
        ensures works { Works self.old → Works self.new }
        ensures failed { IfErr result (λ fault. fault ≡ LinkFailed self.old.id) }
        ensures cause { OnErr result (Rose (L.faults link.old) (L.faults link.new)) }
        ensures link_later { L.faults link.old ≤ L.faults link.new }
        ensures disk { runner_disk self.new ≡ runner_disk self.old }
        ensures standing { IsStanding self.old → IsStanding self.new }
        ensures quiet { OnOk result (L.faults link.new ≡ L.faults link.old) }
    {
        let Some(next) = self.server.pop() else {
            return Ok(());
        };
        match link.send(&to_raw(&next)) {
            Ok(()) => Ok(()),
            Err(Failed) => Err(Fault::Link(self.id)),
        }
    }

    /// Its disk, as it stands.
    pub fn stop(self) -> D
        ensures { result ≡ runner_disk self }
    {
        let Runner {
            id: _,
            server,
            words: _,
        } = self;
        server.stop()
    }
}
