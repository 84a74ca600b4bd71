//! Laws of the definitions, each the contract of a function that does nothing.

ghost use Rattle.std.specs.Prelude.{◌≡◌, ◌⊎◌, ◌++◌, ℕ, Bool, true, false, List};
ghost use Rattle.disk_model.specs.Contents.{Contents, MayLeave, IsSound, IsSettled};
ghost use Rattle.disk_model.specs.Device.{DeviceCall, Makes};

use crate::Disk;

/// Where nothing was written since the last sync that succeeded, a stop leaves what reads give.
pub fn a_settled_disk_has_one_image()
    ensures { (disk : Contents) (image : List ℕ) → IsSound disk → IsSettled disk →
        MayLeave disk image →
        image ≡ disk.seen }
{}

/// The device calls of two lists were made one after the other: all of the first and then those of the
/// second, or those of the first up to one that failed.
pub fn device_calls_in_turn<D: Disk>()
    ensures joined { (xs ys : List DeviceCall) (ok : Bool) (old between new : D) →
        Makes D.does xs true old between → Makes D.does ys ok between new →
        Makes D.does (xs ++ ys) ok old new }
    ensures cut_off { (xs ys : List DeviceCall) (old new : D) →
        Makes D.does xs false old new → Makes D.does (xs ++ ys) false old new }
    ensures parted { (xs ys : List DeviceCall) (ok : Bool) (old new : D) →
        Makes D.does (xs ++ ys) ok old new →
        ((ok ≡ false) × Makes D.does xs false old new)
        ⊎ ((between : D) × Makes D.does xs true old between × Makes D.does ys ok between new) }
{}

/// Device calls of which none failed left the count of faults as it was.
pub fn calls_that_succeed_count_no_fault<D: Disk>()
    ensures { (calls : List DeviceCall) (old new : D) →
        Makes D.does calls true old new → D.faults new ≡ D.faults old }
{}
