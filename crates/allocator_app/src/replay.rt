ghost use Rattle.std.specs.Prelude.{◌≡◌, ◌≤◌, ◌<◌, ◌+◌, ◌⊎◌, ℕ, List, [], Some, IfOk, IfErr, OnErr, OnOk};
ghost use Rattle.outside.specs.Faults.{Rose};
ghost use Rattle.bus_world.specs.World.{AcceptsAs, StandsFor, accepts, allocatees_accept, rows_taken};
ghost use Rattle.allocatee.specs.Accepted as device;
ghost use Rattle.alloc_spec.specs.Accepted as accepted;
ghost use Rattle.transfer_rx.specs.Acceptance.{first_signature};
ghost use Rattle.alloc_spec.specs.ClusterMembers.{AreMembers};
ghost use Rattle.bus_spec.specs.Cluster.{Cluster, cluster};
ghost use Rattle.bus_spec.specs.Receivers.{AllocateeReceives, MemberReceives};
ghost use Rattle.cmd_io.specs.Counting.{CountsFaults};
ghost use Rattle.cmd_io.specs.Output.{Grows};
ghost use Rattle.allocator_app.specs.Reaching.{HasRoom, Reaches};
ghost use Rattle.allocator_app.specs.Report.{IsOfSchedule};
ghost use Rattle.allocator_app.specs.Rows.{BreaksOff, Ends, IsCausedBy, IsInPart, ReadsRows, TakesRows, Waits};

use crate::input::{Next, next_row};
use crate::report::end_report;
use crate::rows::{Fault, Rows};
use alloc_server::accept_rows;
use allocatee::allocatee_rows;
use bus_world::World;
use bus_world::laws::logs_give_once;
use can_frame::Kind;
use cmd_io::{Input, Output, Status};
use outside::{Failed, Sink, Source};
use replay_text::{Line, tell};
use std::alloc::Global;

/// Runs a cluster of these members over the schedule of the source, of at most `limit` rows.
pub(crate) fn replay<S: Source, K: Sink>(
    alloc: Global,
    limit: u64,
    ids: &[u8],
    source: &mut S,
    sink: &mut K,
) -> Status
    requires limit { limit ≤ 1000000 }
    requires members { AreMembers ids.now }
    ensures ends { (bytes : List ℕ) → S.left source.old ≡ Some bytes →
        Ends result limit (cluster ids.now) bytes (S.left source.new)
        (K.written sink.old) (K.written sink.new) }
    ensures untouched { result ≡ Status.Memory →
        (source.new ≡ source.old) × (sink.new ≡ sink.old) }
    ensures read { result ≡ Status.ReadFault → Rose (S.faults source.old) (S.faults source.new) }
    ensures write { result ≡ Status.WriteFault → Rose (K.faults sink.old) (K.faults sink.new) }
    ensures begun { IsOfSchedule result }
    ensures source_kept { (result ≡ Status.ReadFault) ⊎
        (S.faults source.new ≡ S.faults source.old) }
    ensures sink_kept { (result ≡ Status.WriteFault) ⊎ (K.faults sink.new ≡ K.faults sink.old) }
{
    let Ok(mut world) = World::new(
        alloc,
        ids,
        limit as usize,
        accept_rows(),
        accept,
        allocatee_rows(),
        device_accept,
    ) else {
        return Status::Memory;
    };
    let mut output = Output::new();
    match read_rows(&mut world, limit, &mut output, source, sink) {
        Ok(rows) => match end_report(rows, &world, &mut output, sink) {
            Ok(status) => status,
            Err(Failed) => Status::WriteFault,
        },
        Err(Fault::Source) => Status::ReadFault,
        Err(Fault::Sink) => Status::WriteFault,
    }
}

/// What an allocator receives: `alloc_server::accept`, under a name of this crate.
fn accept(kind: Kind, number: u16) -> Option<u64>
    ensures { result ≡ first_signature accepted.rows kind number }
{
    alloc_server::accept(kind, number)
}

/// What an allocatee receives: `allocatee::allocatee_accept`, under a name of this crate.
fn device_accept(kind: Kind, number: u16) -> Option<u64>
    ensures { result ≡ first_signature device.rows kind number }
{
    allocatee::allocatee_accept(kind, number)
}

/// How many rows the world has taken.
pub(crate) fn taken<F: Fn(Kind, u16) -> Option<u64> + Copy, G: Fn(Kind, u16) -> Option<u64> + Copy>(
    world: &World<F, G>,
) -> u64
    ensures { result ≡ rows_taken world.now }
{
    u64::MAX - world.rows_left()
}

/// Takes the rows of the source, up to its end or to one that is not taken. All that the complete
/// lines that were read tell is handed to the sink before the source is read again, and it is read
/// only while no whole line waits.
fn read_rows<
    F: Fn(Kind, u16) -> Option<u64> + Copy,
    G: Fn(Kind, u16) -> Option<u64> + Copy,
    S: Source,
    K: Sink,
>(
    world: &mut World<F, G>,
    limit: u64,
    output: &mut Output,
    source: &mut S,
    sink: &mut K,
) -> Result<Rows, Fault>
    requires members { MemberReceives F.row F.IsAlwaysCallable F.post (accepts world.old) }
    requires allocatees { AllocateeReceives G.row G.IsAlwaysCallable G.post (allocatees_accept world.old) }
    requires limit { limit ≤ 1000000 }
    requires room { HasRoom limit world.old }
    requires flushed { output.old ≡ [] }
    ensures rows { IfOk result (λ rows. (bytes : List ℕ) → S.left source.old ≡ Some bytes →
        Reaches world.old world.new (λ first now. ReadsRows limit first now bytes
        (S.left source.new) (K.written sink.old) (K.written sink.new) output.new rows)) }
    ensures within { rows_taken world.new ≤ limit }
    ensures cut { IfErr result (λ fault. (bytes : List ℕ) → S.left source.old ≡ Some bytes →
        (first : Cluster) → StandsFor world.old first → IsInPart fault limit first bytes
        (S.left source.new) (K.written sink.old) (K.written sink.new)) }
    ensures grew { Grows (K.written sink.old) (K.written sink.new) }
    ensures cause { IfErr result (IsCausedBy (S.faults source.old) (S.faults source.new)
        (K.faults sink.old) (K.faults sink.new)) }
    ensures later { K.faults sink.old ≤ K.faults sink.new }
    ensures kept { OnOk result ((S.faults source.new ≡ S.faults source.old) ×
        (K.faults sink.new ≡ K.faults sink.old)) }
{
    logs_give_once::<F, G>();
    let mut input = Input::new();
    'reading: loop {
        match input.fill(source) {
            Ok(true) => {}
            Ok(false) => break 'reading,
            Err(Failed) => return Err(Fault::Source),
        }
        let rows = match take_rows(world, limit, &mut input, output, sink) {
            Ok(rows) => rows,
            Err(Failed) => return Err(Fault::Sink),
        };
        if !rows.are_taken() {
            return Ok(rows);
        }
        match output.flush(sink) {
            Ok(()) => {}
            Err(Failed) => return Err(Fault::Sink),
        }
    }
    if input.is_empty() {
        Ok(Rows::Taken)
    } else {
        Ok(Rows::NoRow)
    }
}

/// Takes the rows that wait, and writes what they tell.
fn take_rows<
    F: Fn(Kind, u16) -> Option<u64> + Copy,
    G: Fn(Kind, u16) -> Option<u64> + Copy,
    K: Sink,
>(
    world: &mut World<F, G>,
    limit: u64,
    input: &mut Input,
    output: &mut Output,
    sink: &mut K,
) -> Result<Rows, Failed>
    requires members { MemberReceives F.row F.IsAlwaysCallable F.post (accepts world.old) }
    requires allocatees { AllocateeReceives G.row G.IsAlwaysCallable G.post (allocatees_accept world.old) }
    requires limit { limit ≤ 1000000 }
    requires room { HasRoom limit world.old }
    ensures rows { IfOk result (λ rows. Reaches world.old world.new (λ first now.
        TakesRows limit first now input.old input.new (K.written sink.old) output.old
        (K.written sink.new) output.new rows)) }
    ensures cut { OnErr result (Reaches world.old world.new (λ first now.
        BreaksOff first now input.old (K.written sink.old) output.old (K.written sink.new))) }
    ensures grew { Grows (K.written sink.old) (K.written sink.new) }
    ensures waits { IfOk result (Waits limit (rows_taken world.old) (rows_taken world.new)
        input.old input.new) }
    ensures grows { rows_taken world.old ≤ rows_taken world.new }
    ensures room { HasRoom limit world.new }
    ensures accepts { AcceptsAs world.new world.old }
    ensures faults { CountsFaults (K.faults sink.old) (K.faults sink.new) result }
{
    logs_give_once::<F, G>();
    let mut line = Line::new();
    'rows: loop {
        if input.is_empty() {
            return Ok(Rows::Taken);
        }
        if taken(world) == limit {
            return Ok(Rows::Full);
        }
        let next = next_row(input);
        let row = match &next {
            Next::Row(row) => row,
            Next::NoRow => return Ok(Rows::NoRow),
            Next::Incomplete => return Ok(Rows::Taken),
        };
        let told = match world.row(row) {
            Ok(told) => told,
            Err(why) => return Ok(Rows::Refused(why)),
        };
        tell(&mut line, taken(world), &told);
        output.line(sink, line.as_bytes())?;
    }
}
