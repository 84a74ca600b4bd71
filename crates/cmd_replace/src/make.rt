ghost use Rattle.std.specs.Prelude.{◌≡◌, ◌≤◌, ◌<◌, ◌⊎◌, ℕ, length, IsSome, None, Some, OnErr, OnOk, IfOk, IfErr};
ghost use Rattle.std.specs.Prelude.{slice_index, slice_index_or};
ghost use Rattle.std.specs.List.{Contains};
ghost use Rattle.can_frame.specs.Sizes.{most_members};
ghost use Rattle.cmd_replace.specs.Replaced.{Comes, HasLine, IsImaged, LeftStay, Replaces, line_of, made_line};
ghost use Rattle.outside.specs.Faults.{Rose};
ghost use Rattle.store_audit.specs.Audits.{CountsOne, IsWritten};

use crate::guard::{Obstacle, find_leader};
use crate::left::read_left;
use crate::lines::{end_line, line_made};
use arrayvec::ArrayVec;
use can_frame::sizes::MOST_MEMBERS;
use cmd_io::{Output, Status};
use cmd_new::write_image;
use disk_model::{Disk, IMAGE};
use outside::{Failed, Sink};
use replay_text::Line;

/// What was made: from the store of this member, with so many entries.
#[derive(Clone, Copy)]
struct Made {
    leader: u8,
    entries: u8,
}

/// Makes the store of a member that is lost, one of these, from the leader's, and writes one line of it. Each member
/// has its disk at its place: that of the lost one is written, and those of the others, the members that are left, are
/// read.
///
/// The disks of those that are left are read in order, each by one call, up to the first that is not read as a store.
/// Only where what was read allows it (`MayReplace`) is the image of the leader's disk, all of it, written to that of
/// the lost member, by one call, and synced. A disk that is left is never written.
///
/// | outcome | comes where (`comes`) | the disk of the lost member |
/// |---|---|---|
/// | `Done` | the guard is met (`MayReplace`) | has the image of the leader's, all of it stable |
/// | `NoLeader` | no member that is left has the support of more than half of all (`IsElected`) | stays |
/// | `Uncommitted(id)` | that one has it, and has not committed all of its log; nor has any other with it | stays |
/// | `Damaged(id, key)` | that disk is damaged first at that key, and those before it are read as stores | stays |
/// | `DiskFault(id)` of another | the count of that disk rose (`counts`) | stays |
/// | `DiskFault(lost)` | the guard is met, and the count of that disk rose | may have any part of the image |
///
/// One line is written, with `Done` the lost member, the leader and the number of its entries. With `WriteFault` the
/// run came to one of these, and a front of its line is written (`written` of `Replaces`). No other count of a disk
/// rises, and to a disk that stays nothing was done.
pub fn replace<K: Sink, D: Disk>(
    ids: &[u8],
    lost: u8,
    disks: &mut [Option<D>],
    sink: &mut K,
) -> Status
    requires five { length ids.now ≤ most_members }
    requires listed { Contains ids.now lost }
    requires disks { length disks.old ≡ length ids.now }
    requires present { (i : ℕ) → i < length ids.now → IsSome (slice_index_or disks.old i None) }
    // What it comes to and writes, and how it leaves the disks.
    ensures replaces { Replaces D.Disk ids.now lost disks.old disks.new
        (K.written sink.old) (K.written sink.new) result }
    ensures write_fault { result ≡ Status.WriteFault →
        Rose (K.faults sink.old) (K.faults sink.new) }
    ensures kept { (result ≡ Status.WriteFault) ⊎ (K.faults sink.new ≡ K.faults sink.old) }
    ensures begun { result ≡ Status.Usage → ⊥ }
    ensures memory { result ≡ Status.Memory → ⊥ }
    ensures unread { result ≡ Status.ReadFault → ⊥ }
{
    match make_lost(ids, lost, disks) {
        Ok(made) => write_end(
            Status::Done,
            line_made(lost, made.leader, made.entries),
            sink,
        ),
        Err(status) => write_end(status, end_line(status), sink),
    }
}

/// Makes the store of the lost member, where that may be done.
fn make_lost<D: Disk>(ids: &[u8], lost: u8, disks: &mut [Option<D>]) -> Result<Made, Status>
    requires five { length ids.now ≤ most_members }
    requires listed { Contains ids.now lost }
    requires disks { length disks.old ≡ length ids.now }
    requires present { (i : ℕ) → i < length ids.now → IsSome (slice_index_or disks.old i None) }
    ensures made { IfOk result (λ made. Comes D.Disk ids.now lost disks.old disks.new Status.Done
        (made_line lost made.leader made.entries)) }
    ensures ended { IfErr result (λ status. Comes D.Disk ids.now lost disks.old disks.new status
        (line_of status)) }
    ensures line { IfErr result (λ status. HasLine status) }
    ensures stay { LeftStay D.Disk ids.now lost disks.old disks.new }
    ensures count { length disks.new ≡ length disks.old }
    ensures counts { IfErr result (λ status. CountsOne D.Disk ids.now disks.old disks.new status) }
    ensures quiet { OnOk result (CountsOne D.Disk ids.now disks.old disks.new Status.Done) }
{
    let mut images = [[0; IMAGE]; MOST_MEMBERS];
    let mut stores = ArrayVec::new();
    read_left(ids, lost, disks, &mut images, &mut stores)?;
    match find_leader(ids, lost, &stores) {
        Ok(leader) => {
            let place = place_of(ids, lost);
            match write_place(&mut disks[place], &images[leader]) {
                Ok(()) => Ok(Made {
                    leader: ids[leader],
                    entries: stores[leader].commit,
                }),
                Err(Failed) => Err(Status::DiskFault(lost)),
            }
        }
        Err(Obstacle::NoLeader) => Err(Status::NoLeader),
        Err(Obstacle::Uncommitted(leader)) => Err(Status::Uncommitted(ids[leader])),
    }
}

/// The place of a node among some.
fn place_of(ids: &[u8], node: u8) -> usize
    requires { Contains ids.now node }
    ensures within { result < length ids.now }
    ensures is { slice_index ids.now result ≡ node }
{
    for place in 0..ids.len() {
        if ids[place] == node {
            return place;
        }
    }
    unreachable!()
}

/// Writes an image over the disk at a place, and syncs it.
fn write_place<D: Disk>(place: &mut Option<D>, image: &[u8; IMAGE]) -> Result<(), Failed>
    requires { IsSome place.old }
    ensures imaged { OnOk result ((before : D) → place.old ≡ Some before →
        IsImaged D.Disk image.now before place.new) }
    ensures there { IsSome place.new }
    ensures failed { OnErr result ((before after : D) → place.old ≡ Some before →
        place.new ≡ Some after → Rose (D.faults before) (D.faults after)) }
{
    match place {
        Some(disk) => write_image(disk, image),
        None => unreachable!(),
    }
}

/// Writes the one line of a run that ends so.
fn write_end<K: Sink>(outcome: Status, line: Line, sink: &mut K) -> Status
    requires end { (outcome ≡ Status.Done) ⊎ HasLine outcome }
    requires short { length line ≤ 400 }
    ensures written { IsWritten outcome line (K.written sink.old) (K.written sink.new) result }
    ensures write_fault { result ≡ Status.WriteFault →
        Rose (K.faults sink.old) (K.faults sink.new) }
    ensures kept { (result ≡ Status.WriteFault) ⊎ (K.faults sink.new ≡ K.faults sink.old) }
    ensures begun { result ≡ Status.Usage → ⊥ }
    ensures memory { result ≡ Status.Memory → ⊥ }
    ensures unread { result ≡ Status.ReadFault → ⊥ }
{
    match Output::new().last(sink, line.as_bytes()) {
        Ok(()) => outcome,
        Err(Failed) => Status::WriteFault,
    }
}
