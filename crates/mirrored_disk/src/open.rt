ghost use Rattle.std.specs.Prelude.{◌≡◌, ℕ, true, false, IfOk, IfErr};
ghost use Rattle.mirrored_disk.specs.DiskViews.{disk_contents, disk_device, disk_head};
ghost use Rattle.mirrored_disk.specs.Newest.{HasNone, IsNewest};
ghost use Rattle.mirrored_disk.specs.Record.{image_in};
ghost use Rattle.outside.specs.Faults.{Rose};

use crate::disk::MirroredDisk;
use crate::record::HEAD;
use crate::search::find_newest;
use block_device::BlockDevice;
use disk_model::IMAGE;

/// Why a device was not opened.
#[derive(Clone, Copy, Debug, PartialEq, Eq)]
pub enum Why {
    /// The device failed.
    Fault,

    /// No block has a record with this head.
    NoRecord,
}

/// The device that was not opened, and why.
#[derive(Drop)]
pub struct OpenRefused<V> {
    pub device: V,
    pub why: Why,
}

impl<V: BlockDevice> MirroredDisk<V> {
    ghost use Rattle.mirrored_disk.specs.declared.open.Why.TheVariants.{Fault, NoRecord};

    /// The disk of the newest record with this head, found by a sync of the device and one read of each block.
    ///
    /// The device comes back with a refusal.
    pub fn open(device: V, head: [u8; HEAD]) -> Result<MirroredDisk<V>, OpenRefused<V>>
        ensures newest { IfOk result (λ disk. V.tells device ≡ true → (block : ℕ) →
            IsNewest 4 head (V.blocks device).seen block →
            image_in ((V.blocks device).seen block) ≡ (disk_contents disk).seen) }
        ensures stable { IfOk result (λ disk. (disk_contents disk).stable ≡ (disk_contents disk).seen) }
        ensures head { IfOk result (λ disk. disk_head disk ≡ head) }
        ensures tells { IfOk result (λ disk. V.tells (disk_device disk) ≡ V.tells device) }
        ensures works { IfOk result (λ disk. (disk.lost ≡ false) × (disk.faults ≡ 0)) }
        ensures none { IfErr result (λ refused. refused.why ≡ NoRecord → V.tells device ≡ true →
            HasNone 4 head (V.blocks device).seen) }
        ensures fault { IfErr result (λ refused. refused.why ≡ Fault →
            Rose (V.faults device) (V.faults refused.device)) }
    {
        let mut device = device;
        let Ok(()) = device.sync() else {
            return Err(OpenRefused {
                device,
                why: Why::Fault,
            });
        };
        let mut image = [0; IMAGE];
        match find_newest(&mut device, &head, &mut image) {
            Ok(Some(newest)) => Ok(MirroredDisk::of(device, head, newest, image)),
            Ok(None) => Err(OpenRefused {
                device,
                why: Why::NoRecord,
            }),
            Err(_) => Err(OpenRefused {
                device,
                why: Why::Fault,
            }),
        }
    }
}
