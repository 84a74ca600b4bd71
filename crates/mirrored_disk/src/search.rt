ghost use Rattle.std.specs.Prelude.{◌≡◌, ◌+◌, ◌<◌, ℕ, List, true, IfOk, IfSome};
ghost use Rattle.mirrored_disk.specs.Newest.{IsFoundBelow};
ghost use Rattle.outside.specs.Faults.{HasCause};

use crate::record::{HEAD, image_of, number_of};
use block_device::{BLOCKS, BlockDevice, USED};
use disk_model::IMAGE;
use outside::Failed;

/// The block that has the newest record, and the number of that record.
#[derive(Clone, Copy)]
pub struct Newest {
    pub block: usize,
    pub number: u64,
}

/// Finds the newest record of a device, and fills `image` with its image.
pub fn find_newest<V: BlockDevice>(
    device: &mut V,
    head: &[u8; HEAD],
    image: &mut [u8; IMAGE],
) -> Result<Option<Newest>, Failed>
    ensures found { IfOk result (λ found. V.tells device.old ≡ true →
        IsFoundBelow 4 head.now (V.blocks device.old).seen found image.new) }
    ensures block { IfOk result (λ found. IfSome found (λ newest. newest.block < 4)) }
    ensures tells { V.tells device.new ≡ V.tells device.old }
    ensures blocks { V.tells device.old ≡ true → V.blocks device.new ≡ V.blocks device.old }
    ensures cause { HasCause (V.faults device.old) (V.faults device.new) result }
{
    let mut newest = None;
    let mut bytes = [0; USED];
    for block in 0..BLOCKS {
        device.read(block, &mut bytes)?;
        newest = take_newer(newest, image, head, block, &bytes);
    }
    Ok(newest)
}

/// The newest record of the blocks up to this one, with these bytes, where the newest of those before it is told.
fn take_newer(
    newest: Option<Newest>,
    image: &mut [u8; IMAGE],
    head: &[u8; HEAD],
    block: usize,
    bytes: &[u8; USED],
) -> Option<Newest>
    ensures block { IfSome newest (λ best. best.block < block) →
        IfSome result (λ best. best.block < block + 1) }
    ensures found { (blocks : ℕ → List ℕ) → bytes.now ≡ blocks block →
        IsFoundBelow block head.now blocks newest image.old →
        IsFoundBelow (block + 1) head.now blocks result image.new }
{
    let Some(number) = number_of(bytes, head) else {
        return newest;
    };
    match newest {
        Some(best) if number <= best.number => newest,
        Some(_) => {
            image_of(bytes, image);
            Some(Newest { block, number })
        }
        None => {
            image_of(bytes, image);
            Some(Newest { block, number })
        }
    }
}
