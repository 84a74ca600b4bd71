ghost use Rattle.std.specs.Prelude.{◌≡◌, ◌+◌, ◌<◌, ◌⊎◌, ℕ, true, is_ok, OnOk, OnErr};
ghost use Rattle.block_device.specs.Blocks.{IsUnwritten};
ghost use Rattle.disk_model.specs.Device.{Makes};
ghost use Rattle.mirrored_disk.specs.Calls.{sync_calls};
ghost use Rattle.outside.specs.Faults.{HasCause};

use block_device::{BlockDevice, USED};
use outside::Failed;

/// Writes a record to both blocks of a pair, and syncs once.
pub fn write_pair<V: BlockDevice>(
    device: &mut V,
    first: usize,
    record: &[u8; USED],
) -> Result<(), Failed>
    requires pair { first + 1 < 4 }
    requires settled { V.tells device.old ≡ true → IsUnwritten (V.blocks device.old) }
    ensures made { Makes V.does (sync_calls first record.now) (is_ok result) device.old device.new }
    ensures tells { V.tells device.new ≡ V.tells device.old }
    ensures settled { OnOk result (V.tells device.old ≡ true → IsUnwritten (V.blocks device.new)) }
    ensures first { OnOk result (V.tells device.old ≡ true →
        (V.blocks device.new).stable first ≡ record.now) }
    ensures second { OnOk result (V.tells device.old ≡ true →
        (V.blocks device.new).stable (first + 1) ≡ record.now) }
    ensures others { OnOk result (V.tells device.old ≡ true → (block : ℕ) →
        (block ≡ first → ⊥) → (block ≡ first + 1 → ⊥) →
        (V.blocks device.new).stable block ≡ (V.blocks device.old).stable block) }
    ensures kept { OnErr result (V.tells device.old ≡ true →
        (V.blocks device.new).stable ≡ (V.blocks device.old).stable) }
    ensures unwritten { OnErr result (V.tells device.old ≡ true → (block : ℕ) →
        (block ≡ first → ⊥) → (block ≡ first + 1 → ⊥) →
        (V.blocks device.new).written block ≡ (V.blocks device.old).written block) }
    ensures cause { HasCause (V.faults device.old) (V.faults device.new) result }
{
    device.write(first, record)?;
    device.write(first + 1, record)?;
    device.sync()?;
    Ok(())
}
