ghost use Rattle.std.specs.Prelude.{◌≡◌, ◌≤◌, ◌<◌, ℕ, [], length, true, false, IsSome, None, Some, OnOk, IfOk, IfErr, Err};
ghost use Rattle.std.specs.Prelude.{slice_index_or};
ghost use Rattle.can_frame.specs.Sizes.{most_members};
ghost use Rattle.cmd_replace.specs.Replaced.{AreLeft, AreQuiet, EndsReading, LostStays};
ghost use Rattle.outside.specs.Faults.{Rose};
ghost use Rattle.store_audit.specs.Audits.{CountsOne};
ghost use Rattle.store_audit.specs.Reads.{AllStay, IsDamagedDisk, IsReadAs, StaysAs};

use arrayvec::ArrayVec;
use can_frame::sizes::MOST_MEMBERS;
use cmd_io::Status;
use disk_model::{Disk, IMAGE};
use raft_log::Stored;
use store_audit::{Refused, read_place};

/// The images of the disks of up to five members.
pub type Images = [[u8; IMAGE]; MOST_MEMBERS];

/// Reads the stores of the members that are left, in order, up to the first that is not read as one. The lost member
/// has a place among them, which says nothing.
pub fn read_left<D: Disk>(
    ids: &[u8],
    lost: u8,
    disks: &mut [Option<D>],
    images: &mut Images,
    stores: &mut ArrayVec<Stored, MOST_MEMBERS>,
) -> Result<(), Status>
    requires five { length ids.now ≤ most_members }
    requires disks { length disks.old ≡ length ids.now }
    requires present { (i : ℕ) → i < length ids.now → IsSome (slice_index_or disks.old i None) }
    requires none { stores.old.items ≡ [] }
    ensures left { OnOk result (AreLeft D.Disk ids.now lost disks.old images.new stores.new.items) }
    ensures ended { IfErr result (λ status. EndsReading D.Disk ids.now lost disks.old status) }
    ensures stay { AllStay D.Disk disks.old disks.new }
    ensures lost { LostStays D.Disk ids.now lost disks.old disks.new }
    ensures quiet { OnOk result (AreQuiet D.Disk ids.now lost disks.old disks.new) }
    ensures counts { IfErr result (λ status. CountsOne D.Disk ids.now disks.old disks.new status) }
{
    for place in 0..ids.len() {
        match read_unless(ids[place] == lost, &mut disks[place], &mut images[place]) {
            Ok(store) => stores.push(store),
            Err(Refused::Failed) => return Err(Status::DiskFault(ids[place])),
            Err(Refused::Damaged(key)) => return Err(Status::Damaged(ids[place], key)),
        }
    }
    Ok(())
}

/// The store of the disk at a place, with its image; of a member that is lost one that says nothing.
fn read_unless<D: Disk>(
    is_lost: bool,
    place: &mut Option<D>,
    image: &mut [u8; IMAGE],
) -> Result<Stored, Refused>
    requires { IsSome place.old }
    ensures read { is_lost ≡ false → IfOk result (λ store. (disk : D) → place.old ≡ Some disk →
        IsReadAs D.Disk disk image.new store) }
    ensures damaged { IfErr result (λ why. (key : ℕ) (disk : D) → why ≡ Refused.Damaged key →
        place.old ≡ Some disk → IsDamagedDisk D.Disk disk key) }
    ensures failed { IfErr result (λ why. (before after : D) → why ≡ Refused.Failed →
        place.old ≡ Some before → place.new ≡ Some after → Rose (D.faults before) (D.faults after)) }
    ensures kept { (before after : D) → (result ≡ Err Refused.Failed → ⊥) →
        place.old ≡ Some before → place.new ≡ Some after → D.faults after ≡ D.faults before }
    ensures stays { (before : D) → place.old ≡ Some before → StaysAs D.Disk before place.new }
    ensures lost { is_lost ≡ true → place.new ≡ place.old }
    ensures left { IfErr result (λ _. is_lost ≡ false) }
{
    if is_lost {
        return Ok(Stored::default());
    }
    read_place(place, image)
}
