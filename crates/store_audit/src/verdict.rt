ghost use Rattle.std.specs.Prelude.{◌≤◌, length};
ghost use Rattle.can_frame.specs.Sizes.{most_members};
ghost use Rattle.store_audit.specs.Stores.{AreCommitted};
ghost use Rattle.store_audit.specs.Verdict.{IsVerdict};

use crate::compare::{difference, longest};
use raft_log::Stored;

/// What a comparison of stores comes to.
#[derive(Clone, Copy, Debug, PartialEq, Eq)]
pub enum Verdict {
    /// No two of them have committed different entries at one place; so many entries are committed by the
    /// one that has committed the most.
    Agree(u8),

    /// This is the first place at which two have committed different entries; the two are given by their
    /// indices.
    Differ(u8, usize, usize),
}

/// Compares what 1 to 5 stores have committed.
///
/// `Agree(n)` comes where no two stores have committed different entries at one place; n is the greatest commit index.
/// Else `Differ(i, a, b)` comes: i is the first place at which two have committed different entries, a the first store
/// that has committed one there, and b the first one after it that has another.
pub fn audit(stores: &[Stored]) -> Verdict
    requires some { 1 ≤ length stores.now }
    requires five { length stores.now ≤ most_members }
    requires commits { AreCommitted stores.now }
    ensures { IsVerdict stores.now result }
{
    let most = stores[longest(stores)].commit;
    for earlier in 0..most {
        let place = earlier + 1;
        if let Some((first, second)) = difference(stores, place) {
            return Verdict::Differ(place, first, second);
        }
    }
    Verdict::Agree(most)
}
