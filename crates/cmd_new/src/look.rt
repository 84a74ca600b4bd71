ghost use Rattle.std.specs.Prelude.{◌≡◌, ◌⊎◌, Some, IfOk, IfErr, IfSome, IsNone, true, false};
ghost use Rattle.cmd_new.specs.Found.{IsFoundOn};
ghost use Rattle.cmd_new.specs.Looks.{AreKept, HaveStores, IsKept, IsRefused};
ghost use Rattle.cmd_new.specs.Made.{HasLine};
ghost use Rattle.outside.specs.Faults.{Rose};

use crate::found::{Found, find_store};
use cmd_io::Status;
use disk_model::Disk;
use outside::Failed;

/// Looks for the stores of these nodes, which are told who the members are, each on the disk at its place: whether one of
/// them ran before.
///
/// The first, in order, whose disk has no store is `Damaged` at key 0, the version; the first whose disk fails is
/// `DiskFault`. No disk is written.
pub fn look_for_stores<D: Disk>(ids: &[u8], disks: &mut [Option<D>]) -> Result<bool, Status>
    ensures stores { IfOk result (λ used. HaveStores D.Disk ids.now disks.old used) }
    ensures refused { IfErr result (λ status. IsRefused D.Disk ids.now disks.old disks.new status) }
    ensures line { IfErr result (λ status. HasLine status) }
    ensures kept { AreKept D.Disk disks.old disks.new }
{
    let mut used = false;
    for place in 0..ids.len().min(disks.len()) {
        match look_at(&mut disks[place]) {
            Ok(found) => match used_with(used, found) {
                Some(now) => used = now,
                None => return Err(Status::Damaged(ids[place], 0)),
            },
            Err(Failed) => return Err(Status::DiskFault(ids[place])),
        }
    }
    Ok(used)
}

/// What is found on the disk at a place, where there is one.
fn look_at<D: Disk>(place: &mut Option<D>) -> Result<Found, Failed>
    ensures found { IfOk result (λ found. (before : D) → place.old ≡ Some before → IsFoundOn D.Disk before found) }
    ensures failed { IfErr result (λ _. (before after : D) → place.old ≡ Some before →
        place.new ≡ Some after → Rose (D.faults before) (D.faults after)) }
    ensures kept { (before : D) → place.old ≡ Some before → IsKept D.Disk before place.new }
{
    match place {
        Some(disk) => find_store(disk),
        None => Ok(Found::NewStore),
    }
}

/// Whether one of some stores and this one is used; none where it is no store.
fn used_with(used: bool, found: Found) -> Option<bool>
    ensures some { IfSome result (λ now. found ≡ Found.NoStore → ⊥) }
    ensures yes { IfSome result (λ now. now ≡ true → (used ≡ true) ⊎ (found ≡ Found.UsedStore)) }
    ensures no { IfSome result (λ now. now ≡ false → (used ≡ false) × (found ≡ Found.UsedStore → ⊥)) }
    ensures none { IsNone result → found ≡ Found.NoStore }
{
    match found {
        Found::NoStore => None,
        Found::NewStore => Some(used),
        Found::UsedStore => Some(true),
    }
}
