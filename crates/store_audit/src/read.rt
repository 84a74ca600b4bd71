ghost use Rattle.std.specs.Prelude.{◌≡◌, ◌≤◌, ◌<◌, ℕ, length, IfOk, IfErr, OnOk, Err, Some, IsSome};
ghost use Rattle.outside.specs.Faults.{Rose};
ghost use Rattle.raft_log.specs.Reading.{IsReadable};
ghost use Rattle.store_audit.specs.Reads.{IsDamagedDisk, IsImageOf, IsReadAs, IsReadOnce, IsStoreOf, StaysAs};
ghost use Rattle.cmd_io.specs.Counting.{CountsFaults};

use disk_model::{Disk, IMAGE};
use outside::Failed;
use raft_log::Stored;

/// Why the store of a disk was not read.
#[derive(Clone, Copy, Debug, PartialEq, Eq)]
pub enum Refused {
    /// The disk failed.
    Failed,

    /// It is damaged, first at this key.
    Damaged(u8),
}

/// The store of a disk, whose image is read by one call.
fn read_store<D: Disk>(disk: &mut D, image: &mut [u8; IMAGE]) -> Result<Stored, Refused>
    ensures read { IfOk result (λ store. IsStoreOf D.Disk disk.old store) }
    ensures image { IfOk result (λ store. IsReadAs D.Disk disk.old image.new store) }
    ensures readable { IfOk result (λ store. IsReadable store) }
    ensures damaged { IfErr result (λ why. (key : ℕ) → why ≡ Refused.Damaged key →
        IsDamagedDisk D.Disk disk.old key) }
    ensures failed { IfErr result (λ why. why ≡ Refused.Failed →
        Rose (D.faults disk.old) (D.faults disk.new)) }
    ensures kept { (result ≡ Err Refused.Failed → ⊥) → D.faults disk.new ≡ D.faults disk.old }
    ensures stays { StaysAs D.Disk disk.old (Some disk.new) }
    ensures once { IsReadOnce D.Disk disk.old disk.new }
{
    match read_image(disk, image) {
        Ok(()) => match Stored::read(image) {
            Ok(store) => Ok(store),
            Err(key) => Err(Refused::Damaged(key)),
        },
        Err(Failed) => Err(Refused::Failed),
    }
}

/// Reads all of a disk by one call.
fn read_image<D: Disk>(disk: &mut D, image: &mut [u8; IMAGE]) -> Result<(), Failed>
    ensures image { OnOk result (IsImageOf D.Disk disk.old image.new) }
    ensures faults { CountsFaults (D.faults disk.old) (D.faults disk.new) result }
    ensures stays { StaysAs D.Disk disk.old (Some disk.new) }
    ensures once { IsReadOnce D.Disk disk.old disk.new }
{
    disk.read(0, image)
}

/// The store of the disk at a place, and the image that stands for it: all of the disk, read by one call. What the image
/// is where there is no store is not said.
pub fn read_place<D: Disk>(
    place: &mut Option<D>,
    image: &mut [u8; IMAGE],
) -> Result<Stored, Refused>
    requires { IsSome place.old }
    ensures read { IfOk result (λ store. (disk : D) → place.old ≡ Some disk →
        IsStoreOf D.Disk disk store) }
    ensures image { IfOk result (λ store. (disk : D) → place.old ≡ Some disk →
        IsReadAs D.Disk disk image.new store) }
    ensures readable { IfOk result (λ store. IsReadable store) }
    ensures damaged { IfErr result (λ why. (key : ℕ) (disk : D) → why ≡ Refused.Damaged key →
        place.old ≡ Some disk → IsDamagedDisk D.Disk disk key) }
    ensures failed { IfErr result (λ why. (before after : D) → why ≡ Refused.Failed →
        place.old ≡ Some before → place.new ≡ Some after → Rose (D.faults before) (D.faults after)) }
    ensures kept { (before after : D) → (result ≡ Err Refused.Failed → ⊥) →
        place.old ≡ Some before → place.new ≡ Some after → D.faults after ≡ D.faults before }
    ensures stays { (before : D) → place.old ≡ Some before → StaysAs D.Disk before place.new }
    ensures once { (before after : D) → place.old ≡ Some before → place.new ≡ Some after →
        IsReadOnce D.Disk before after }
{
    match place {
        Some(disk) => read_store(disk, image),
        None => unreachable!(),
    }
}
