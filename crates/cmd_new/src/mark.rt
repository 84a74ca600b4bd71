ghost use Rattle.std.specs.Prelude.{◌≡◌, ◌≤◌, ◌<◌, ℕ, length, true, false, Some, OnOk, IfErr};
ghost use Rattle.cmd_io.specs.Counting.{CountsFaults};
ghost use Rattle.cmd_new.specs.Made.{HasLine};
ghost use Rattle.cmd_new.specs.Marked.{IsKnown, IsKnownAt, IsMarked, IsUntouched, MarksNew, StopsMarking};
ghost use Rattle.outside.specs.Faults.{Rose};

use crate::found::{Found, find_store};
use cmd_io::Status;
use disk_model::Disk;
use outside::Failed;

/// Where the mark stands: copy A of the version, behind the selector. A new store has its version in copy B.
const MARK_PLACE: usize = 1;

/// The version again: its length, and its value.
const MARK: [u8; 2] = [1, 2];

/// Marks those stores of these nodes that are new as used, before a member runs on them: so a later process knows that
/// one ran, also where that put nothing. A store that is used, and a place without a disk, stay as they are. The first
/// disk that fails is `DiskFault`; those behind it are as before.
pub fn mark_new_stores<D: Disk>(ids: &[u8], disks: &mut [Option<D>]) -> Result<(), Status>
    ensures count { length disks.new ≡ length disks.old }
    ensures known { OnOk result ((k : ℕ) → k < length ids.now → IsKnownAt D.Disk disks.old disks.new k) }
    ensures others { OnOk result ((k : ℕ) → length ids.now ≤ k → IsUntouched D.Disk disks.old disks.new k) }
    ensures failed { IfErr result (λ status. StopsMarking D.Disk disks.old disks.new ids.now status) }
    ensures line { IfErr result (λ status. HasLine status) }
{
    for place in 0..ids.len().min(disks.len()) {
        match mark_at(&mut disks[place]) {
            Ok(()) => {}
            Err(Failed) => return Err(Status::DiskFault(ids[place])),
        }
    }
    Ok(())
}

/// Marks the store at a place, where one is there that is new.
fn mark_at<D: Disk>(place: &mut Option<D>) -> Result<(), Failed>
    ensures known { OnOk result ((before : D) → place.old ≡ Some before → IsKnown D.Disk before place.new) }
    ensures failed { IfErr result (λ _. (before after : D) → place.old ≡ Some before →
        place.new ≡ Some after → Rose (D.faults before) (D.faults after)) }
{
    match place {
        Some(disk) => mark_if_new(disk),
        None => Ok(()),
    }
}

/// Marks the store on a disk, where it is new. It fails only where the disk does.
fn mark_if_new<D: Disk>(disk: &mut D) -> Result<(), Failed>
    ensures marks { OnOk result (D.tells disk.old ≡ true →
        MarksNew (D.contents disk.old) (D.contents disk.new)) }
    ensures tells { D.tells disk.new ≡ D.tells disk.old }
    ensures faults { CountsFaults (D.faults disk.old) (D.faults disk.new) result }
{
    let found = find_store(disk)?;
    if is_new(found) {
        return mark_as_used(disk);
    }
    Ok(())
}

fn is_new(found: Found) -> bool
    ensures yes { result ≡ true → found ≡ Found.NewStore }
    ensures no { result ≡ false → found ≡ Found.NewStore → ⊥ }
{
    match found {
        Found::NewStore => true,
        Found::NoStore | Found::UsedStore => false,
    }
}

/// Marks the store on a disk as used. It fails only where the disk does.
pub fn mark_as_used<D: Disk>(disk: &mut D) -> Result<(), Failed>
    ensures marked { OnOk result (D.tells disk.old ≡ true →
        IsMarked (D.contents disk.old) (D.contents disk.new)) }
    ensures tells { D.tells disk.new ≡ D.tells disk.old }
    ensures faults { CountsFaults (D.faults disk.old) (D.faults disk.new) result }
{
    disk.write(MARK_PLACE, &MARK)?;
    disk.sync()?;
    Ok(())
}
