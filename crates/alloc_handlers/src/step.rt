//! A whole step of a member.

ghost use Rattle.std.specs.Prelude.{◌+◌, OnOk};
ghost use Rattle.std.specs.Result.{result_err};
ghost use Rattle.can_frame.specs.Sizes.{most_members};
ghost use Rattle.raft_core.specs.StoredPuts.{CallFaultIsSticky};
ghost use Rattle.alloc_spec.specs.Step as steps;
ghost use Rattle.alloc_spec.specs.Step.{Tick, takes_answer, with_answer};
ghost use Rattle.alloc_spec.specs.AllocatorState.{AllocatorState};
ghost use Rattle.transfer_rx.specs.Heard.{IfDelivers, told_with};
ghost use Rattle.transfer_rx.specs.Ranges.{IsInRange};

use crate::member::Member;
use crate::puts::puts_go_on;
use alloc_spec::laws::phases_add_puts;
use can_frame::Seen;
use disk_model::Disk;
use kv_store::Fault;
use transfer_rx::{Heard, Transfer};

impl<D: Disk> Member<D> {
    ghost use Rattle.alloc_handlers.specs.Stands.{IsReady, IsReadyFor, LeavesUpTo, SeesTo, SeesUpTo, StandsFor};

    /// The step in which it reads its clock. The word is for its next wait for an election.
    pub fn take_tick(&mut self, now: u64, word: u32, step: u64) -> Result<Seen, Fault>
        requires ready { IsReady self.old }
        ensures sees { (t : AllocatorState) → StandsFor self.old t →
            SeesTo self.old.durable self.new (steps.step t step (Tick now word)) result }
        ensures ready { OnOk result (IsReady self.new) }
        ensures faults { CallFaultIsSticky self.old.durable self.new.durable (result_err result) }
    {
        puts_go_on::<D>();
        phases_add_puts();
        self.begin(now, step);
        self.tick(word)?;
        self.end()?;
        Ok(Seen::Ticked)
    }

    /// What its receiver made of a frame, in a step that has begun; then the step ends. `transfer` is the
    /// one that was delivered last.
    pub fn take_heard(&mut self, heard: Heard, transfer: &Transfer) -> Result<Seen, Fault>
        requires ready { IsReadyFor (most_members + 2) 2 self.old }
        requires ranges { IfDelivers heard (IsInRange transfer.now) }
        ensures sees { SeesUpTo self.old self.new
            (takes_answer self.old.offered.step (told_with transfer.now heard)) result }
        ensures ready { OnOk result (IsReady self.new) }
        ensures faults { CallFaultIsSticky self.old.durable self.new.durable (result_err result) }
    {
        puts_go_on::<D>();
        phases_add_puts();
        let seen = self.take_delivery(heard, transfer)?;
        self.end()?;
        Ok(seen)
    }

    /// A transfer that was delivered is taken; of any other frame it is told what it led to.
    fn take_delivery(&mut self, heard: Heard, transfer: &Transfer) -> Result<Seen, Fault>
        requires ready { IsReadyFor 1 1 self.old }
        requires ranges { IfDelivers heard (IsInRange transfer.now) }
        ensures sees { SeesUpTo self.old self.new
            (with_answer self.old.offered.step (told_with transfer.now heard)) result }
        ensures leaves { LeavesUpTo 1 1 self.old self.new result }
    {
        match heard {
            Heard::Delivered => self.deliver(transfer),
            Heard::Part => Ok(Seen::Part),
            Heard::Dropped(why) => Ok(Seen::Dropped(why)),
        }
    }
}
