ghost use Rattle.std.specs.Prelude.{◌≡◌, ◌==◌, ◌≤◌, ◌<◌, ℕ, length, true, false, not, slice_index};
ghost use Rattle.block_device.specs.Blocks.{IsUnwritten};
ghost use Rattle.disk_model.specs.Contents.{image_size};
ghost use Rattle.mirrored_disk.specs.Kept.{KeepsNewest};
ghost use Rattle.outside.specs.Faults.{Rose, one_more};

use crate::bytes::overwrite;
use crate::pair::write_pair;
use crate::record::{HEAD, record_with};
use crate::search::Newest;
use block_device::BlockDevice;
use disk_model::{Disk, IMAGE};
use outside::Failed;

/// A disk of `IMAGE` bytes over a device of blocks. It works in memory; a sync writes all of it to the pair of blocks
/// that has not the newest record.
#[derive(Drop)]
pub struct MirroredDisk<V: BlockDevice> {
    device: V,
    head: [u8; HEAD],

    /// Where the record of the last sync that succeeded stands.
    newest: Newest,

    /// Its image.
    stable: [u8; IMAGE],

    /// What reads give.
    seen: [u8; IMAGE],
    faults: u64,

    /// Whether a sync failed. Every call fails then.
    lost: bool,
    ghost head_size: { length head ≡ 16 },
    ghost stable_size: { length stable ≡ image_size },
    ghost seen_size: { length seen ≡ length stable },
    ghost agrees: { (i : ℕ) → not (slice_index seen i == slice_index stable i) ≡ false →
        slice_index seen i ≡ slice_index stable i },
    ghost keeps: { V.tells device ≡ true → KeepsNewest (V.blocks device) head newest stable },
    ghost settled: { lost ≡ false → V.tells device ≡ true → IsUnwritten (V.blocks device) },
    ghost exists: { newest.block < 4 },
}

impl<V: BlockDevice> MirroredDisk<V> {
    /// A disk whose newest record was found on its device.
    pub(crate) fn of(
        device: V,
        head: [u8; HEAD],
        newest: Newest,
        image: [u8; IMAGE],
    ) -> MirroredDisk<V>
        requires exists { newest.block < 4 }
        requires keeps { V.tells device ≡ true → KeepsNewest (V.blocks device) head newest image }
        requires settled { V.tells device ≡ true → IsUnwritten (V.blocks device) }
        ensures device { result.device ≡ device }
        ensures head { result.head ≡ head }
        ensures newest { result.newest ≡ newest }
        ensures stable { result.stable ≡ image }
        ensures seen { result.seen ≡ image }
        ensures faults { result.faults ≡ 0 }
        ensures lost { result.lost ≡ false }
    {
        MirroredDisk {
            device,
            head,
            newest,
            stable: image,
            seen: image,
            faults: 0,
            lost: false,
        }
    }

    /// The device.
    pub fn into_device(self) -> V
        ensures { result ≡ self.device }
    {
        self.device
    }

    /// Counts a call that failed.
    fn fault(&mut self) -> Failed
        ensures rose { Rose self.old.faults self.new.faults }
        ensures later { self.old.faults ≤ self.new.faults }
        ensures device { self.new.device ≡ self.old.device }
        ensures head { self.new.head ≡ self.old.head }
        ensures newest { self.new.newest ≡ self.old.newest }
        ensures stable { self.new.stable ≡ self.old.stable }
        ensures seen { self.new.seen ≡ self.old.seen }
        ensures lost { self.new.lost ≡ self.old.lost }
        ensures faults { self.new.faults ≡ one_more self.old.faults }
    {
        self.faults = self.faults.saturating_add(1);
        Failed
    }
}

impl<V: BlockDevice> Disk for MirroredDisk<V> {
    ghost use Rattle.mirrored_disk.specs.DiskViews.{disk_contents};
    ghost use Rattle.mirrored_disk.specs.Mirrored.{DoesMirrored};

    ghost tells = { λ d. V.tells d.device };

    ghost contents = { λ d. disk_contents d };

    ghost does = { λ old call ok new. DoesMirrored V.BlockDevice old call ok new };

    ghost faults = { λ d. d.faults };

    ghost counts = { λ old new call done. done.faults };

    ghost sound = { λ d told.
        record { size = d.stable_size; current = record { size = d.seen_size; kept = d.agrees } } };

    fn read(&mut self, at: usize, buf: &mut [u8]) -> Result<(), Failed> {
        if self.lost {
            return Err(self.fault());
        }
        buf.copy_from_slice(&self.seen[at..at + buf.len()]);
        Ok(())
    }

    fn write(&mut self, at: usize, bytes: &[u8]) -> Result<(), Failed> {
        if self.lost {
            return Err(self.fault());
        }
        overwrite(&mut self.seen, at, bytes);
        Ok(())
    }

    fn sync(&mut self) -> Result<(), Failed> {
        if self.lost {
            return Err(self.fault());
        }
        if self.newest.number == u64::MAX {
            self.lost = true;
            return Err(self.fault());
        }
        let next = Newest {
            block: 2 - 2 * (self.newest.block / 2),
            number: self.newest.number + 1,
        };
        let record = record_with(&self.head, next.number, &self.seen);
        match write_pair(&mut self.device, next.block, &record) {
            Ok(()) => {
                self.newest = next;
                self.stable = self.seen;
                Ok(())
            }
            Err(Failed) => {
                self.lost = true;
                Err(self.fault())
            }
        }
    }

    fn faults(&self) -> u64 {
        self.faults
    }
}
