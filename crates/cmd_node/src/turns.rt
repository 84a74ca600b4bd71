//! A turn of each allocator.

ghost use Rattle.std.specs.Prelude.{◌≡◌, ◌<◌, ◌≤◌, ◌+◌, ℕ, IfErr, OnOk, length, slice_index_or};
ghost use Rattle.can_frame.specs.Sizes.{most_members};
ghost use Rattle.bus_spec.specs.Receivers.{MemberReceives};
ghost use Rattle.cmd_node.specs.Another.{NoneCalls};
ghost use Rattle.cmd_node.specs.Cut.{IsCutTurn};
ghost use Rattle.cmd_node.specs.Quiet.{StayQuiet};
ghost use Rattle.cmd_node.specs.Stands.{AreStanding, Stand, closure_of};
ghost use Rattle.cmd_node.specs.Steps.{steps_made};
ghost use Rattle.cmd_node.specs.Taking.{AreWorking, EndsTurn, KeepsLinks, KeepsNodes};
ghost use Rattle.cmd_node.specs.Turns.{Together, first_turns};
ghost use Rattle.cmd_node.specs.declared.runner.Runner.{Runner};

use crate::fault::Fault;
use crate::runner::Runner;
use crate::steps::LastSteps;
use can_frame::Kind;
use disk_model::Disk;
use outside::{Clock, Link};

/// Each takes a turn, in order.
pub(crate) fn take_turn<D: Disk, F: Fn(Kind, u16) -> Option<u64> + Copy, L: Link, C: Clock>(
    runners: &mut [Runner<D, F>],
    links: &mut [L],
    clock: &mut C,
    steps: &mut LastSteps,
) -> Result<(), Fault>
    requires receives { (i : ℕ) (runner : Runner D F D.Disk) → i < length runners.old →
        MemberReceives F.row F.IsAlwaysCallable F.post (closure_of (slice_index_or runners.old i runner)) }
    requires each { length links.old ≡ length runners.old }
    requires five { length runners.old ≤ most_members }
    requires working { AreWorking runners.old }
    requires few { steps_made steps.old ≤ 10000000000 }
    ensures turned { OnOk result ((all : Together) → Stand L.coming L.sent runners.old
        links.old (C.readings clock.old) steps.old all → Stand L.coming L.sent
        runners.new links.new (C.readings clock.new) steps.new
        (first_turns (length runners.old) all)) }
    ensures uncalled { OnOk result ((all : Together) → Stand L.coming L.sent runners.old
        links.old (C.readings clock.old) steps.old all → NoneCalls (length runners.old) all) }
    ensures cut { IfErr result (λ fault. (all : Together) → Stand L.coming L.sent runners.old
        links.old (C.readings clock.old) steps.old all →
        IsCutTurn L.coming L.sent runners.new links.new (C.readings clock.new) all fault) }
    ensures nodes { KeepsNodes runners.old runners.new }
    ensures links { KeepsLinks L.faults links.old links.new }
    ensures working { OnOk result (AreWorking runners.new) }
    ensures failed { IfErr result
        (EndsTurn L.faults runners.old runners.new links.old links.new) }
    ensures few { steps_made steps.new ≤ steps_made steps.old + 10 }
    ensures standing { OnOk result (AreStanding runners.old → AreStanding runners.new) }
    ensures quiet { AreStanding runners.old →
        StayQuiet L.faults runners.old runners.new links.old links.new result }
{
    for place in 0..runners.len() {
        let now = clock.now();
        match runners[place].turn(now, &mut links[place], steps) {
            Ok(()) => {}
            Err(fault) => return Err(fault),
        }
    }
    Ok(())
}
