ghost use Rattle.std.specs.Prelude.{◌≡◌, ◌≤◌, ◌<◌, ◌*◌, ◌^◌, ◌⊎◌};
ghost use Rattle.std.specs.Io.KnownBytes.{Appends};
ghost use Rattle.can_frame.specs.Sizes.{most_members};
ghost use Rattle.outside.specs.Faults.{Rose};
ghost use Rattle.cmd_io.specs.Output.{WritesFront};
ghost use Rattle.allocatee.specs.Accepted as device;
ghost use Rattle.alloc_spec.specs.Accepted as accepted;
ghost use Rattle.transfer_rx.specs.Acceptance.{first_signature};
ghost use Rattle.cmd_soak.specs.Counts.{IsEnd, soak_report};

use crate::counts::write_counts;
use crate::soaking::Soaking;
use alloc_server::accept_rows;
use allocatee::allocatee_rows;
use bus_world::World;
use can_frame::Kind;
use cmd_io::Status;
use outside::{Failed, Sink};
use std::alloc::Global;

/// How many frames a round puts on the bus at the most: one from outside, and eight of each member.
const FRAMES_PER_ROUND: u64 = 41;

/// The members that a cluster may have.
const MEMBERS: [u8; 5] = [1, 2, 3, 4, 5];

/// Runs a cluster of 1 to 5 members over the rows that a seed makes, for so many rounds, 20,000 at the
/// most, and writes six lines. Each member is told who the members are when it opens, or their number
/// alone. The lines say how many rounds there were, how many frames are on the bus, how many rows told of a
/// stop, how many rows were refused, how many pairs the longest committed list has, and the rounds again.
///
/// `Done` comes with exactly these lines. `WriteFault` comes exactly where the sink failed, and it then has
/// a front of them. With `Memory` nothing is written: all memory is taken before the first row.
///
/// `Memory` is free: no clause ties it to a cause.
pub fn soak<K: Sink>(
    alloc: Global,
    told: bool,
    seed: u64,
    rounds: u64,
    size: u8,
    sink: &mut K,
) -> Status
    requires rounds { rounds ≤ 20000 }
    requires least { 1 ≤ size }
    requires most { size ≤ most_members }
    ensures end { IsEnd result }
    ensures report { result ≡ Status.Done →
        Appends (K.written sink.old) (K.written sink.new) (soak_report told seed rounds size) }
    ensures kept { (result ≡ Status.WriteFault) ⊎ (K.faults sink.new ≡ K.faults sink.old) }
    ensures write_fault { result ≡ Status.WriteFault →
        Rose (K.faults sink.old) (K.faults sink.new) }
    ensures written_in_part { result ≡ Status.WriteFault →
        WritesFront (K.written sink.old) (K.written sink.new) (soak_report told seed rounds size) }
    ensures untouched { result ≡ Status.Memory → sink.new ≡ sink.old }
{
    let room = room_for(rounds);
    let ids = &MEMBERS[..size as usize];
    let Ok(world) = World::new(
        alloc,
        ids,
        room,
        accept_rows(),
        accept,
        allocatee_rows(),
        device_accept,
    ) else {
        return Status::Memory;
    };
    let mut soaking = Soaking::new(world, room, told, seed);
    soaking.rounds(rounds, size);
    let counts = soaking.counts(rounds, size);
    match write_counts(counts, sink) {
        Ok(()) => Status::Done,
        Err(Failed) => Status::WriteFault,
    }
}

/// How many frames the bus is to take for so many rounds, one at the least.
fn room_for(rounds: u64) -> usize
    requires { rounds ≤ 20000 }
    ensures enough { rounds * 41 ≤ result }
    ensures least { 1 ≤ result }
    ensures narrow { result < 2 ^ 32 }
{
    (FRAMES_PER_ROUND * rounds).max(1) as usize
}

/// What an allocator receives: `alloc_server::accept`, under a name of this crate.
fn accept(kind: Kind, number: u16) -> Option<u64>
    ensures { result ≡ first_signature accepted.rows kind number }
{
    alloc_server::accept(kind, number)
}

/// What an allocatee receives: `allocatee::allocatee_accept`, under a name of this crate.
fn device_accept(kind: Kind, number: u16) -> Option<u64>
    ensures { result ≡ first_signature device.rows kind number }
{
    allocatee::allocatee_accept(kind, number)
}
