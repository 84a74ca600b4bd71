//! Laws of the definitions, each the contract of a function that does nothing.

ghost use Rattle.std.specs.Prelude.{◌≡◌, ◌⊎◌, ◌<◌, ◌^◌, ◌+◌, ℕ, List, true, length};
ghost use Rattle.block_device.specs.Blocks.{MayLeaveBlocks};
ghost use Rattle.disk_model.specs.Contents.{MayLeave};
ghost use Rattle.mirrored_disk.specs.DiskViews.{disk_block, disk_contents, disk_device, disk_head, disk_number, next_record};
ghost use Rattle.mirrored_disk.specs.Kept.{IsHonest, IsLeftButFor, IsTwice};
ghost use Rattle.mirrored_disk.specs.Newest.{HasNone, IsNewest};
ghost use Rattle.mirrored_disk.specs.Record.{HasRecord, image_in, number_in, record_of};
ghost use Rattle.mirrored_disk.specs.declared.disk.MirroredDisk.{MirroredDisk};

use block_device::BlockDevice;

/// A record has its head, its number and its image.
pub fn a_record_is_one()
    ensures { (head image : List ℕ) (number : ℕ) → length head ≡ 16 → length image ≡ 8844 → number < 2 ^ 64 →
        HasRecord head (record_of head number image) × (number_in (record_of head number image) ≡ number)
        × (image_in (record_of head number image) ≡ image) }
{}

/// Whatever a stop leaves of the device, at any moment: an opening finds the image of the last sync that succeeded, or
/// that of the sync that failed. So it finds an image that a stop may leave of the disk.
pub fn a_stop_leaves_the_old_image_or_the_new_one<V: BlockDevice>()
    ensures found { (disk : MirroredDisk V V.BlockDevice) (left : ℕ → List ℕ) →
        V.tells (disk_device disk) ≡ true →
        MayLeaveBlocks (V.blocks (disk_device disk)) left → HasNone 4 (disk_head disk) left → ⊥ }
    ensures image { (disk : MirroredDisk V V.BlockDevice) (left : ℕ → List ℕ) →
        V.tells (disk_device disk) ≡ true →
        MayLeaveBlocks (V.blocks (disk_device disk)) left →
        IsHonest (V.blocks (disk_device disk)) (disk_head disk) (disk_number disk) (next_record disk) left →
        (block : ℕ) → IsNewest 4 (disk_head disk) left block →
        (image_in (left block) ≡ (disk_contents disk).stable) ⊎ (image_in (left block) ≡ (disk_contents disk).seen) }
    ensures allowed { (disk : MirroredDisk V V.BlockDevice) (image : List ℕ) → V.tells (disk_device disk) ≡ true →
        (image ≡ (disk_contents disk).stable) ⊎ (image ≡ (disk_contents disk).seen) →
        MayLeave (disk_contents disk) image }
{}

/// The same where one block has any bytes besides, as after bit rot, and the newest record stood twice.
pub fn one_rotten_block_is_survived<V: BlockDevice>()
    ensures found { (disk : MirroredDisk V V.BlockDevice) (left : ℕ → List ℕ) (rotten : ℕ) →
        V.tells (disk_device disk) ≡ true →
        IsTwice (V.blocks (disk_device disk)) (disk_head disk) disk.newest (disk_contents disk).stable →
        IsLeftButFor rotten (V.blocks (disk_device disk)) left → HasNone 4 (disk_head disk) left → ⊥ }
    ensures image { (disk : MirroredDisk V V.BlockDevice) (left : ℕ → List ℕ) (rotten : ℕ) →
        V.tells (disk_device disk) ≡ true →
        IsTwice (V.blocks (disk_device disk)) (disk_head disk) disk.newest (disk_contents disk).stable →
        IsLeftButFor rotten (V.blocks (disk_device disk)) left →
        IsHonest (V.blocks (disk_device disk)) (disk_head disk) (disk_number disk) (next_record disk) left →
        (block : ℕ) → IsNewest 4 (disk_head disk) left block →
        (image_in (left block) ≡ (disk_contents disk).stable) ⊎ (image_in (left block) ≡ (disk_contents disk).seen) }
{}
