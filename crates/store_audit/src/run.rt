ghost use Rattle.std.specs.Prelude.{◌≡◌, ◌≤◌, ◌<◌, ◌⊎◌, ℕ, [], length, IsSome, None, OnOk, IfErr, slice_index_or};
ghost use Rattle.can_frame.specs.Sizes.{most_members};
ghost use Rattle.outside.specs.Faults.{Rose};
ghost use Rattle.store_audit.specs.Audits.{Audits, Comes, CountsOne, Ends, IsWritten, ReadsInOrder};
ghost use Rattle.store_audit.specs.Reads.{AllStay, AreReadUpTo, AreStoresOf};
ghost use Rattle.store_audit.specs.Report.{HasLine, line_of};
ghost use Rattle.store_audit.specs.Stores.{AreReadable};

use crate::compare::longest;
use crate::lines::{end_line, write_report};
use crate::read::{Refused, read_place};
use crate::verdict::{Verdict, audit};
use arrayvec::ArrayVec;
use can_frame::sizes::MOST_MEMBERS;
use cmd_io::{Output, Status};
use disk_model::{Disk, IMAGE};
use outside::{Failed, Sink};
use raft_log::Stored;

/// Reads the store of each disk, and writes what they agree on: one line for each place that one has
/// committed, and a last line. Else it writes one line of what it found: a disk that failed, a store that is
/// damaged, or the first place at which two have committed different entries.
///
/// The disks are read in order, each by one call, and then read as a store, up to the first that is not read as
/// one; nothing is done to those behind it. No disk is written. `DiskFault` comes only where the disk of that node failed, `WriteFault` only
/// where the sink did, and it then has a front of what was to be written.
///
/// A store is what the image that was read of its disk stands for; where the disk tells what it holds, that image is
/// what its reads give. The outcome is the status, or with `WriteFault` the one that the run would have come to; then a
/// front of what that writes is written (`written` of `Audits`).
///
/// | outcome | comes where (`comes`) | what is written |
/// |---|---|---|
/// | `Done` | each disk is read as a store; the committed log of each is a prefix of one list, one store has committed all of it, and it is injective (`HasAgreement`: `agree`, `injective`, `lines`) | exactly a line for each place of that list, and its length (`agreed_report`) |
/// | `Differ(i, a, b)` | each disk is read as a store; i is the first place at which two have committed different entries, a the first that has committed one there, b the first after it that has another (`HasDifference`) | one line |
/// | `Damaged(id, key)` | the image of that disk is damaged first at that key, and the disks before it are read as stores (`AuditEndsAtDamage`) | one line |
/// | `DiskFault(id)` | the count of that disk rose (`counts`), and the disks before it are read as stores | one line |
///
/// All disks are read for `Done` and `Differ`, else those up to the one that is named (`order`). No other count of a
/// disk rises (`counts`). Every disk is there again; where it tells, what its reads give and what a stop may leave of
/// it are as before (`stay`).
pub fn audit_stores<K: Sink, D: Disk>(ids: &[u8], disks: &mut [Option<D>], sink: &mut K) -> Status
    requires some { 1 ≤ length ids.now }
    requires five { length ids.now ≤ most_members }
    requires disks { length disks.old ≡ length ids.now }
    requires present { (i : ℕ) → i < length ids.now → IsSome (slice_index_or disks.old i None) }
    // What it comes to and writes, and how it leaves the disks.
    ensures audits { Audits D.Disk ids.now disks.old disks.new
        (K.written sink.old) (K.written sink.new) result }
    ensures write_fault { result ≡ Status.WriteFault →
        Rose (K.faults sink.old) (K.faults sink.new) }
    ensures kept { (result ≡ Status.WriteFault) ⊎ (K.faults sink.new ≡ K.faults sink.old) }
    ensures begun { result ≡ Status.Usage → ⊥ }
    ensures memory { result ≡ Status.Memory → ⊥ }
    ensures unread { result ≡ Status.ReadFault → ⊥ }
{
    let mut stores = ArrayVec::new();
    match read_all(ids, disks, &mut stores) {
        Ok(()) => compare(ids, &stores, sink),
        Err(status) => write_end(status, sink),
    }
}

/// Reads the stores of all disks, in order, up to the first that is not read as one.
fn read_all<D: Disk>(
    ids: &[u8],
    disks: &mut [Option<D>],
    stores: &mut ArrayVec<Stored, MOST_MEMBERS>,
) -> Result<(), Status>
    requires five { length ids.now ≤ most_members }
    requires disks { length disks.old ≡ length ids.now }
    requires present { (i : ℕ) → i < length ids.now → IsSome (slice_index_or disks.old i None) }
    requires none { stores.old.items ≡ [] }
    ensures read { AreStoresOf D.Disk disks.old stores.new.items }
    ensures readable { AreReadable stores.new.items }
    ensures all { OnOk result (length stores.new.items ≡ length ids.now) }
    ensures line { IfErr result (λ status. HasLine status) }
    ensures ended { IfErr result (λ status. Comes D.Disk ids.now disks.old status
        (line_of status)) }
    ensures stay { AllStay D.Disk disks.old disks.new }
    ensures whole { OnOk result (AreReadUpTo D.Disk (length ids.now) disks.old disks.new) }
    ensures order { IfErr result (λ status. ReadsInOrder D.Disk ids.now disks.old disks.new status) }
    ensures quiet { OnOk result ((status : Status) →
        ((id : ℕ) → status ≡ Status.DiskFault id → ⊥) →
        CountsOne D.Disk ids.now disks.old disks.new status) }
    ensures counts { IfErr result (λ status. CountsOne D.Disk ids.now disks.old disks.new status) }
{
    for place in 0..ids.len() {
        match read_place(&mut disks[place], &mut [0; IMAGE]) {
            Ok(store) => stores.push(store),
            Err(Refused::Failed) => return Err(Status::DiskFault(ids[place])),
            Err(Refused::Damaged(key)) => return Err(Status::Damaged(ids[place], key)),
        }
    }
    Ok(())
}

/// Compares all stores, and writes what that comes to.
fn compare<K: Sink>(ids: &[u8], stores: &[Stored], sink: &mut K) -> Status
    requires some { 1 ≤ length stores.now }
    requires five { length stores.now ≤ most_members }
    requires all { length stores.now ≡ length ids.now }
    requires readable { AreReadable stores.now }
    ensures ends { Ends ids.now stores.now (K.written sink.old) (K.written sink.new) result }
    ensures write_fault { result ≡ Status.WriteFault →
        Rose (K.faults sink.old) (K.faults sink.new) }
    ensures kept { (result ≡ Status.WriteFault) ⊎ (K.faults sink.new ≡ K.faults sink.old) }
    ensures begun { result ≡ Status.Usage → ⊥ }
    ensures memory { result ≡ Status.Memory → ⊥ }
    ensures unread { result ≡ Status.ReadFault → ⊥ }
{
    match audit(stores) {
        Verdict::Agree(_) => {
            let store = &stores[longest(stores)];
            match write_report(store, stores, sink) {
                Ok(()) => Status::Done,
                Err(Failed) => Status::WriteFault,
            }
        }
        Verdict::Differ(place, first, second) => {
            write_end(Status::Differ(place, ids[first], ids[second]), sink)
        }
    }
}

/// Writes the one line of a run that ends so.
fn write_end<K: Sink>(status: Status, sink: &mut K) -> Status
    requires { HasLine status }
    ensures written { IsWritten status (line_of status)
        (K.written sink.old) (K.written sink.new) result }
    ensures write_fault { result ≡ Status.WriteFault →
        Rose (K.faults sink.old) (K.faults sink.new) }
    ensures kept { (result ≡ Status.WriteFault) ⊎ (K.faults sink.new ≡ K.faults sink.old) }
    ensures begun { result ≡ Status.Usage → ⊥ }
    ensures memory { result ≡ Status.Memory → ⊥ }
    ensures unread { result ≡ Status.ReadFault → ⊥ }
{
    match Output::new().last(sink, end_line(status).as_bytes()) {
        Ok(()) => status,
        Err(Failed) => Status::WriteFault,
    }
}
