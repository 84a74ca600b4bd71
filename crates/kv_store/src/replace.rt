ghost use Rattle.std.specs.Prelude.{◌≡◌, ◌≤◌, ◌<◌, ◌-◌, ◌≢◌, ◌⊎◌, ℕ, List, true, OnOk, is_ok};
ghost use Rattle.arrayvec.specs.ArrayVec.{array_vec_len};
ghost use Rattle.disk_model.specs.Contents.{MayLeave, IsSettled};
ghost use Rattle.disk_model.specs.Device.{Makes};
ghost use Rattle.kv_store.specs.Image.{StandsFor, chosen_copy, key_count, put_in, put_calls, value_limit};
ghost use Rattle.outside.specs.Faults.{HasCause};

use crate::value::{COPY_SIZE, KEY_SIZE, Value, copy_of};
use disk_model::Disk;
use outside::Failed;

/// Makes a value durable in the copy that its key's selector does not choose, and turns the selector.
pub fn replace<D: Disk>(disk: &mut D, key: usize, copy: u8, value: &Value) -> Result<(), Failed>
    requires key { key < key_count }
    requires short { array_vec_len value.now ≤ value_limit }
    requires copy { copy < 2 }
    requires other { D.tells disk.old ≡ true →
        chosen_copy (D.contents disk.old).seen key ≡ 1 - copy }
    requires settled { D.tells disk.old ≡ true → IsSettled (D.contents disk.old) }
    ensures made { Makes D.does (put_calls key copy value.now.items)
        (is_ok result) disk.old disk.new }
    ensures cause { HasCause (D.faults disk.old) (D.faults disk.new) result }
    ensures tells { D.tells disk.new ≡ D.tells disk.old }

    // A stop at any moment leaves the old map or the new one.
    ensures stop { D.tells disk.old ≡ true → (map : ℕ → List ℕ) →
        StandsFor (D.contents disk.old).seen map →
        (image : List ℕ) → MayLeave (D.contents disk.new) image → StandsFor image map
        ⊎ StandsFor image (put_in map key value.now.items) }

    // Once it has succeeded, reads give the new one, and nothing waits for a sync.
    ensures map { OnOk result (D.tells disk.old ≡ true → (map : ℕ → List ℕ) →
        StandsFor (D.contents disk.old).seen map →
        StandsFor (D.contents disk.new).seen (put_in map key value.now.items)) }
    ensures chosen { OnOk result (D.tells disk.old ≡ true →
        chosen_copy (D.contents disk.new).seen key ≡ copy) }
    ensures others { OnOk result (D.tells disk.old ≡ true → (k : ℕ) → k ≢ key →
        chosen_copy (D.contents disk.new).seen k ≡ chosen_copy (D.contents disk.old).seen k) }
    ensures settled { OnOk result (D.tells disk.old ≡ true → IsSettled (D.contents disk.new)) }
{
    let at = KEY_SIZE * key + 1 + COPY_SIZE * copy as usize;
    disk.write(at, &copy_of(value))?;
    disk.sync()?;
    disk.write(KEY_SIZE * key, &[copy])?;
    disk.sync()?;
    Ok(())
}
