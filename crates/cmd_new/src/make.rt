ghost use Rattle.std.specs.Prelude.{◌≡◌, ◌≤◌, ◌<◌, ◌⊎◌, ℕ, length, IsSome, None, Some, true, false, OnErr, OnOk, IfErr, slice_index_or};
ghost use Rattle.can_frame.specs.Sizes.{most_members};
ghost use Rattle.outside.specs.Faults.{Rose};
ghost use Rattle.cmd_new.specs.Made.{FailsAt, HasImage, HasLine, IsMade, IsMadeAt, IsNewStore, IsWritten, MakesStores, image_calls, line_of};
ghost use Rattle.disk_model.specs.Device.{Makes};
ghost use Rattle.cmd_io.specs.Counting.{CountsFaults};

use crate::image::made_image;
use cmd_io::{Output, Status, number_line, numbers_line};
use disk_model::{Disk, IMAGE};
use outside::{Failed, Sink};
use replay_text::Line;

/// Makes a new store above this term of each of these disks, one for each of these nodes, in order, up to the first that
/// fails: its image is written over all of the disk, and synced. Then one line is written, with how many stores were
/// made, or with the node whose disk failed. Where the term is 0 a
/// store has its version alone.
///
/// With `Done` each disk has the image of a new store, all of it stable, and counted no fault. With `DiskFault` so have
/// those before the named one, which counted one fault; those behind it are as before. Where the sink failed, a front
/// of the line is written.
pub fn make_stores<K: Sink, D: Disk>(
    term: u32,
    ids: &[u8],
    disks: &mut [Option<D>],
    sink: &mut K,
) -> Status
    requires five { length ids.now ≤ most_members }
    requires disks { length disks.old ≡ length ids.now }
    requires present { (i : ℕ) → i < length ids.now → IsSome (slice_index_or disks.old i None) }
    // What it comes to and writes, and how it leaves the disks.
    ensures makes { MakesStores D.Disk term ids.now disks.old disks.new
        (K.written sink.old) (K.written sink.new) result }
    ensures write_fault { result ≡ Status.WriteFault →
        Rose (K.faults sink.old) (K.faults sink.new) }
    ensures kept { (result ≡ Status.WriteFault) ⊎ (K.faults sink.new ≡ K.faults sink.old) }
    ensures begun { result ≡ Status.Usage → ⊥ }
    ensures memory { result ≡ Status.Memory → ⊥ }
    ensures unread { result ≡ Status.ReadFault → ⊥ }
{
    match make_all(term, ids, disks) {
        Ok(()) => write_end(Status::Done, ids, sink),
        Err(place) => write_end(Status::DiskFault(ids[place]), ids, sink),
    }
}

/// Writes the one line of a run over the disks of these nodes that ends so: with `Done` how many they are, else the node
/// whose disk failed, or has no store.
pub fn write_end<K: Sink>(outcome: Status, ids: &[u8], sink: &mut K) -> Status
    requires line { HasLine outcome }
    requires five { length ids.now ≤ most_members }
    ensures written { IsWritten outcome (line_of ids.now outcome)
        (K.written sink.old) (K.written sink.new) result }
    ensures write_fault { result ≡ Status.WriteFault →
        Rose (K.faults sink.old) (K.faults sink.new) }
    ensures kept { (result ≡ Status.WriteFault) ⊎ (K.faults sink.new ≡ K.faults sink.old) }
    ensures begun { result ≡ Status.Usage → ⊥ }
    ensures memory { result ≡ Status.Memory → ⊥ }
    ensures unread { result ≡ Status.ReadFault → ⊥ }
{
    match Output::new().last(sink, end_line(outcome, ids).as_bytes()) {
        Ok(()) => outcome,
        Err(Failed) => Status::WriteFault,
    }
}

fn end_line(outcome: Status, ids: &[u8]) -> Line
    requires { length ids.now ≤ most_members }
    ensures short { length result ≤ 400 }
    ensures text { result ≡ line_of ids.now outcome }
{
    match outcome {
        Status::Done => number_line(b"made ", ids.len() as u64),
        Status::DiskFault(id) => number_line(b"disk fault ", u64::from(id)),
        Status::Damaged(id, key) => numbers_line(b"damaged ", u64::from(id), u64::from(key)),
        _ => Line::new(),
    }
}

/// Makes a new store of each disk, in order, and answers the place of the first that fails.
fn make_all<D: Disk>(term: u32, ids: &[u8], disks: &mut [Option<D>]) -> Result<(), usize>
    requires disks { length disks.old ≡ length ids.now }
    requires present { (i : ℕ) → i < length disks.old → IsSome (slice_index_or disks.old i None) }
    ensures count { length disks.new ≡ length disks.old }
    ensures made { OnOk result ((k : ℕ) → k < length disks.old → IsMadeAt D.Disk term ids.now disks.old disks.new k) }
    ensures failed { IfErr result (λ place. FailsAt D.Disk term ids.now disks.old disks.new place) }
{
    for place in 0..disks.len() {
        match make_place(term, ids[place], &mut disks[place]) {
            Ok(()) => {}
            Err(Failed) => return Err(place),
        }
    }
    Ok(())
}

/// Makes a new store of the disk at a place.
fn make_place<D: Disk>(term: u32, node: u8, place: &mut Option<D>) -> Result<(), Failed>
    requires { IsSome place.old }
    ensures made { OnOk result ((before : D) → place.old ≡ Some before → IsMade D.Disk term node before place.new) }
    ensures there { IsSome place.new }
    ensures failed { IfErr result (λ _. (before after : D) → place.old ≡ Some before →
        place.new ≡ Some after → Rose (D.faults before) (D.faults after)) }
{
    match place {
        Some(disk) => make_store(term, node, disk),
        None => unreachable!(),
    }
}

/// Makes a new store of a disk.
fn make_store<D: Disk>(term: u32, node: u8, disk: &mut D) -> Result<(), Failed>
    ensures tells { D.tells disk.new ≡ D.tells disk.old }
    ensures store { OnOk result (D.tells disk.old ≡ true → IsNewStore term node (D.contents disk.new)) }
    ensures faults { CountsFaults (D.faults disk.old) (D.faults disk.new) result }
{
    write_image(disk, &made_image(term, node))
}

/// Writes an image over all of a disk, and syncs it. It fails only where the disk does. Then any part of the image may
/// stand on the disk: it is no store until this has succeeded.
pub fn write_image<D: Disk>(disk: &mut D, image: &[u8; IMAGE]) -> Result<(), Failed>
    ensures made { OnOk result (Makes D.does (image_calls image.now) true disk.old disk.new) }
    ensures stopped { OnErr result (Makes D.does (image_calls image.now) false disk.old disk.new) }
    ensures tells { D.tells disk.new ≡ D.tells disk.old }
    ensures image { OnOk result (D.tells disk.old ≡ true → HasImage image.now (D.contents disk.new)) }
    ensures faults { CountsFaults (D.faults disk.old) (D.faults disk.new) result }
{
    disk.write(0, image)?;
    disk.sync()?;
    Ok(())
}
