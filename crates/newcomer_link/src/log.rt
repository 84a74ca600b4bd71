ghost use Rattle.std.specs.Prelude.{◌≤◌, IfSome, length};
ghost use Rattle.can_frame.specs.Log.{log_limit};
ghost use Rattle.newcomer_link.specs.Logs.{IsOnlyRead, IsReadAt, entries_in};

use arrayvec::ArrayVec;
use can_frame::Entry;
use can_frame::sizes::LOG_LIMIT;
use disk_model::{Disk, IMAGE};
use store_audit::read_place;

/// The entries of the store of a disk. None where there is no disk, where it fails, and where the store is damaged.
pub fn log_of<D: Disk>(place: &mut Option<D>) -> Option<ArrayVec<Entry, LOG_LIMIT>>
    ensures read { IsReadAt D.Disk place.old place.new (entries_in result) }
    ensures short { IfSome result (λ log. length log.items ≤ log_limit) }
    ensures only_read { IsOnlyRead D.Disk place.old place.new }
{
    if place.is_none() {
        return None;
    }
    let mut image = [0; IMAGE];
    match read_place(place, &mut image) {
        Ok(stored) => Some(stored.entries),
        Err(_) => None,
    }
}
