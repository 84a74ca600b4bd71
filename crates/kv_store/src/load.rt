ghost use Rattle.std.specs.Prelude.{◌≡◌, true, OnOk, is_ok};
ghost use Rattle.disk_model.specs.Contents.{AddsNoImage, IsSettled};
ghost use Rattle.disk_model.specs.Device.{Makes};
ghost use Rattle.kv_store.specs.Image.{open_calls};
ghost use Rattle.outside.specs.Faults.{HasCause};

use disk_model::{Disk, IMAGE};
use outside::Failed;

/// Makes what reads give stable, and reads all of it.
pub fn load<D: Disk>(disk: &mut D, image: &mut [u8; IMAGE]) -> Result<(), Failed>
    ensures made { Makes D.does open_calls (is_ok result) disk.old disk.new }
    ensures image { OnOk result (D.tells disk.old ≡ true → image.new ≡ (D.contents disk.old).seen) }
    ensures settled { OnOk result (D.tells disk.old ≡ true → IsSettled (D.contents disk.new)) }
    ensures images { D.tells disk.old ≡ true →
        AddsNoImage (D.contents disk.old) (D.contents disk.new) }
    ensures cause { HasCause (D.faults disk.old) (D.faults disk.new) result }
    ensures tells { D.tells disk.new ≡ D.tells disk.old }
{
    disk.sync()?;
    disk.read(0, image)?;
    Ok(())
}
