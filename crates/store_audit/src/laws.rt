//! Laws of the definitions, each the contract of a function that does nothing.

ghost use Rattle.std.specs.Prelude.{◌≡◌, ◌⊎◌, ℕ, List, Option};
ghost use Rattle.std.specs.Io.KnownBytes.{Appends};
ghost use Rattle.cmd_io.specs.declared.status.Status.{Status};
ghost use Rattle.store_audit.specs.Audits.{AllTell, Audits, Comes, HasFailed, IsOfStores};

use disk_model::Disk;
use raft_log::laws::{an_image_is_read_one_way, an_image_stands_for_one_state};

/// An audit ends with what the stores come to, unless the sink or a disk failed.
pub fn an_audit_ends_where_nothing_fails<D: Disk>()
    ensures { (ids : List ℕ) (disks new : List (Option D)) (before now : Option (List ℕ))
        (status : Status) → Audits D.Disk ids disks new before now status →
        (status ≡ Status.WriteFault) ⊎ (((id : ℕ) × (status ≡ Status.DiskFault id) ×
        HasFailed D.Disk ids disks new id) ⊎ IsOfStores status) }
{}

/// Stores of disks that tell what they hold come to one thing, and an audit that ends with it has written
/// just that.
pub fn stores_come_to_one_thing<D: Disk>()
    ensures one { (ids : List ℕ) (disks : List (Option D)) (a b : Status) (x y : List ℕ) →
        AllTell D.Disk ids disks → Comes D.Disk ids disks a x → Comes D.Disk ids disks b y →
        IsOfStores a → IsOfStores b → (a ≡ b) × (x ≡ y) }
    ensures complete { (ids : List ℕ) (disks new : List (Option D)) (before now : Option (List ℕ))
        (status found : Status) (report : List ℕ) → AllTell D.Disk ids disks →
        Audits D.Disk ids disks new before now status → IsOfStores status →
        Comes D.Disk ids disks found report → IsOfStores found →
        (status ≡ found) × Appends before now report }
{
    an_image_is_read_one_way();
    an_image_stands_for_one_state();
}
