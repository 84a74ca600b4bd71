ghost use Rattle.std.specs.Prelude.{◌≡◌, ◌<◌, ◌≤◌, ◌⊎◌, ℕ, List, [], length, slice_index_or};
ghost use Rattle.std.specs.Prelude.{IfErr, IsSome, OnOk};
ghost use Rattle.std.specs.Io.KnownBytes.{Appends};
ghost use Rattle.can_frame.specs.Sizes.{most_members};
ghost use Rattle.outside.specs.Faults.{Rose};
ghost use Rattle.cmd_io.specs.Output.{WritesFront};
ghost use Rattle.alloc_spec.specs.Accepted as accepted;
ghost use Rattle.transfer_rx.specs.Acceptance.{first_signature};
ghost use Rattle.alloc_spec.specs.ClusterMembers.{AreMembers};
ghost use Rattle.bus_spec.specs.Receivers.{MemberReceives};
ghost use Rattle.alloc_spec.specs.Rules.{rules_by};
ghost use Rattle.cmd_node.specs.Another.{NoneCallsFor};
ghost use Rattle.cmd_node.specs.Cut.{IsCut};
ghost use Rattle.cmd_node.specs.Opening.{RunInput, together_at_opening};
ghost use Rattle.cmd_node.specs.Ends.{end_status, fault_status};
ghost use Rattle.cmd_node.specs.Nodes.{RunsNodes};
ghost use Rattle.cmd_node.specs.Quiet.{RunQuietly};
ghost use Rattle.cmd_node.specs.Report.{line_of, report};
ghost use Rattle.cmd_node.specs.Run.{AreTelling, HasRun};
ghost use Rattle.cmd_node.specs.Runners.{accepts, runners_of};
ghost use Rattle.cmd_node.specs.Stands.{Stand};
ghost use Rattle.cmd_node.specs.Steps.{Keeps, steps_made};
ghost use Rattle.cmd_node.specs.WholeRun.{Tell, after_turns};

use crate::fault::Fault;
use crate::runners::Runners;
use crate::steps::LastSteps;
use can_frame::Kind;
use cmd_io::{Output, Status};
use disk_model::Disk;
use disk_model::laws::calls_that_succeed_count_no_fault;
use outside::{Clock, Failed, Link, Sink};
use raft_log::laws::{a_state_is_durable, an_image_stands_for_one_state, an_opening_goes_on};
use std::alloc::Global;

/// Runs the allocators of these nodes, of a cluster of `size` members: each on the disk and the link at
/// its place. Each is told how many members there are, and who they are, where `told` has them. It is
/// opened, takes `turns` turns, and is stopped; its disk is put back. The report goes to the sink at the
/// end.
///
/// `LinkFault`, `DiskFault` and `WriteFault` come only where the link or the disk of that node, or the sink, counted a
/// fault; `Damaged` where the store of that node is damaged, first at that key, before any turn. Then one line is all
/// that is written, what was sent is a beginning of what a run to its end sends, and each store that was opened holds
/// what it then held. At most one link or disk counts a fault, and the status names it, unless the sink fails too.
/// Where nothing fails it comes to `Done`, `Damaged` or `AnotherLog`; where the disks tell what they hold, a damaged
/// one ends the run so. All memory is taken before anything else, that for the last steps at the end: with `Memory`
/// nothing was touched.
///
/// The list has the fields of `RunsNodes`: by the answer where alone it comes, what is left, and what is written. The
/// latter two stand in `leaves`; `written` is a field of its record `Leaves`. "Told" means: where links, disks and the
/// clock tell what they have.
///
/// - `Done`: only where no disk was damaged, and, told, no call of another log came. Left, told: frames sent, items and
///   readings left are exactly those of the abstract allocators, and whatever a stop leaves of each disk stands for
///   what its allocator has stored, with the origin of each entry (`LeavesAll`). Written, told: exactly the report.
/// - `LinkFault(id)`: only where the count of that link rose, and no disk was damaged. Left, told: in which turn the
///   run ended, what was sent, which items and readings are left, what is stored (`IsCutInTurn`). Written: one line.
/// - `DiskFault(id)`: only where the count of that disk rose. Left, told, of one in a turn, where no disk was damaged:
///   as with `LinkFault`; of one at an opening: the links are as before, and readings and disks as `IsCutAtOpening`
///   says. Written: one line.
/// - `Damaged(id, key)`: only where that disk, if it tells its bytes, is damaged first at that key, and those before it
///   are not. Left: the links are as before; readings and disks as `IsCutAtOpening` says. Written: one line.
/// - `AnotherLog(id, node)`: only where no disk was damaged; told: such a call came. Left, told: in which turn of node
///   id a call of the member `node` came that contradicts what id has committed, the first such call of the run
///   (`IsCalledIn`); and as with `LinkFault` (`IsCutWhere`). Written: one line.
/// - `WriteFault`: only where the count of the sink rose. Left: as a run leaves it that ends with one of the others,
///   but for `Memory`. Written: a prefix of the one line of that run, or, told, of its report; of the one line also
///   where nothing is told.
/// - `Memory`: no clause ties it to a cause. All is left as it was, and nothing is written.
///
/// Told, in a run that was cut off in a turn (`AreCutTurns`) all nodes had taken so many turns, fewer than the run was
/// to take, and those before the node one more. Then:
///
/// - The readings left of the clock are those after that turn.
/// - Each link was sent what the abstract allocators sent by then, and has the items left that they leave. From the
///   node's own link one more item may be taken.
/// - Whatever a stop leaves of the node's disk stands for what its allocator had stored, after some of the first puts
///   of that turn, and of its first step alone where that item was not taken. Of each other disk that was opened it
///   stands for what its allocator had stored.
///
/// In a run that was cut off at an opening no link was touched. The readings up to that opening are gone. Disks before
/// it that stood for a state hold what an opening makes of it, and those after it are as they were. Of the disk itself
/// a stop leaves with `Damaged` no image that it could not leave before; with `DiskFault` none, or what was handed in
/// after some of the first puts of the opening.
///
/// Every disk is there again. But for `WriteFault`, no count of a link or a disk rises that the answer does not name,
/// told or not (`quiet_links`, `quiet_disks`); with `WriteFault` none rises that the other answer does not name. Told,
/// what each link was sent is a prefix of what it is sent in a run to its end (`begins`). Where no count rises, the
/// answer is `Done`, `Damaged`, `AnotherLog` or `Memory` (`finishes`); where the disks up to the first damaged one tell
/// their bytes, it is `Damaged` with that one, or `Memory` (`refuses`).
pub fn node<K: Sink, L: Link, D: Disk, C: Clock>(
    alloc: Global,
    size: u8,
    told: &[u8],
    turns: u64,
    ids: &[u8],
    sink: &mut K,
    links: &mut [L],
    disks: &mut [Option<D>],
    clock: &mut C,
) -> Status
    requires some { 1 ≤ size }
    requires five { size ≤ most_members }
    requires few { length told.now ≤ most_members }
    requires turns { turns ≤ 1000000000 }
    requires members { AreMembers ids.now }
    requires links { length links.old ≡ length ids.now }
    requires disks { length disks.old ≡ length ids.now }
    requires present { (i : ℕ) → i < length ids.now → IsSome (slice_index_or disks.old i None) }
    ensures untouched { result ≡ Status.Memory → (sink.new ≡ sink.old) × (links.new ≡ links.old) ×
        (disks.new ≡ disks.old) × (clock.new ≡ clock.old) }
    ensures write_fault { result ≡ Status.WriteFault →
        Rose (K.faults sink.old) (K.faults sink.new) }
    ensures kept { (result ≡ Status.WriteFault) ⊎ (K.faults sink.new ≡ K.faults sink.old) }
    // What it leaves and writes, by its status.
    ensures runs { RunsNodes L.coming L.sent L.faults D.Disk (rules_by size told.now) turns ids.now links.old links.new
        disks.old disks.new (C.readings clock.old) (C.readings clock.new) (K.faults sink.old)
        (K.faults sink.new) (K.written sink.old) (K.written sink.new) result }
{
    a_state_is_durable::<D>();
    an_image_stands_for_one_state();
    let Some(mut runners) = Runners::new(alloc, accept) else {
        return Status::Memory;
    };
    let Some(mut steps) = LastSteps::new(alloc) else {
        runners.discard();
        return Status::Memory;
    };
    let ended = run_all(
        size,
        told,
        turns,
        ids,
        &mut runners,
        links,
        disks,
        clock,
        &mut steps,
    );
    runners.stop(disks);
    finish(ended, turns, steps, sink)
}

/// What an allocator receives: `alloc_server::accept`, under a name of this crate.
fn accept(kind: Kind, number: u16) -> Option<u64>
    ensures { result ≡ first_signature accepted.rows kind number }
{
    alloc_server::accept(kind, number)
}

/// Opens the servers of all nodes, and lets them take their turns.
fn run_all<F: Fn(Kind, u16) -> Option<u64> + Copy, L: Link, D: Disk, C: Clock>(
    size: u8,
    told: &[u8],
    turns: u64,
    ids: &[u8],
    runners: &mut Runners<D, F>,
    links: &mut [L],
    disks: &mut [Option<D>],
    clock: &mut C,
    steps: &mut LastSteps,
) -> Result<(), Fault>
    requires receives { MemberReceives F.row F.IsAlwaysCallable F.post (accepts runners.old) }
    requires some { 1 ≤ size }
    requires five { size ≤ most_members }
    requires few { length told.now ≤ most_members }
    requires turns { turns ≤ 1000000000 }
    requires members { AreMembers ids.now }
    requires links { length links.old ≡ length ids.now }
    requires disks { length disks.old ≡ length ids.now }
    requires present { (i : ℕ) → i < length ids.now → IsSome (slice_index_or disks.old i None) }
    requires none { runners_of runners.old ≡ [] }
    requires first { steps_made steps.old ≡ 0 }
    requires keeps { Keeps steps.old [] }
    ensures run { HasRun L.faults ids.now disks.old disks.new links.old links.new
        (runners_of runners.new) result }
    ensures all { OnOk result (length (runners_of runners.new) ≡ length ids.now) }
    ensures stands { OnOk result ((given : RunInput) → Tell L.coming L.sent D.Disk links.old disks.old
        (C.readings clock.old) given → Stand L.coming L.sent (runners_of runners.new) links.new
        (C.readings clock.new) steps.new (after_turns (rules_by size told.now) turns ids.now given)) }
    ensures uncalled { OnOk result ((given : RunInput) → Tell L.coming L.sent D.Disk links.old disks.old
        (C.readings clock.old) given →
        NoneCallsFor (length ids.now) turns (together_at_opening (rules_by size told.now) ids.now given)) }
    ensures cut { IfErr result (IsCut L.coming L.sent (rules_by size told.now) turns ids.now (runners_of runners.new)
        links.old links.new disks.old disks.new (C.readings clock.old) (C.readings clock.new)) }
    ensures tells { OnOk result ((given : RunInput) → Tell L.coming L.sent D.Disk links.old disks.old
        (C.readings clock.old) given → AreTelling (runners_of runners.new)) }
    ensures quiet { RunQuietly L.faults ids.now disks.old disks.new links.old links.new
        (runners_of runners.new) result }
{
    calls_that_succeed_count_no_fault::<D>();
    an_image_stands_for_one_state();
    an_opening_goes_on();
    match runners.open_all(size, told, ids, disks, clock) {
        Ok(()) => runners.take_turns(turns, links, clock, steps),
        Err(fault) => Err(fault),
    }
}

/// Writes what a run leaves, and gives its status.
fn finish<K: Sink>(ended: Result<(), Fault>, turns: u64, steps: LastSteps, sink: &mut K) -> Status
    ensures write_fault { result ≡ Status.WriteFault →
        Rose (K.faults sink.old) (K.faults sink.new) }
    ensures end { (result ≡ Status.WriteFault) ⊎ (result ≡ end_status ended) }
    ensures kept { (result ≡ Status.WriteFault) ⊎ (K.faults sink.new ≡ K.faults sink.old) }
    ensures report { OnOk ended ((lines : List (List ℕ)) → Keeps steps lines →
        (result ≡ Status.WriteFault) ⊎
        Appends (K.written sink.old) (K.written sink.new) (report turns lines)) }
    ensures line { IfErr ended (λ fault. (result ≡ Status.WriteFault) ⊎
        Appends (K.written sink.old) (K.written sink.new) (line_of (fault_status fault))) }
    ensures report_in_part { result ≡ Status.WriteFault → OnOk ended ((lines : List (List ℕ)) →
        Keeps steps lines →
        WritesFront (K.written sink.old) (K.written sink.new) (report turns lines)) }
    ensures line_in_part { result ≡ Status.WriteFault → IfErr ended (λ fault.
        WritesFront (K.written sink.old) (K.written sink.new) (line_of (fault_status fault))) }
{
    match ended {
        Ok(()) => match steps.write(turns, sink) {
            Ok(()) => Status::Done,
            Err(Failed) => Status::WriteFault,
        },
        Err(fault) => match Output::new().last(sink, fault.line().as_bytes()) {
            Ok(()) => fault.status(),
            Err(Failed) => Status::WriteFault,
        },
    }
}
