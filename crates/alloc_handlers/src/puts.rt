//! Puts of a step that are made by several calls.

ghost use Rattle.alloc_handlers.specs.Puts.{PutsGoOn};

use disk_model::Disk;
use raft_core::laws::puts_in_turn;

/// The puts of a call go on those that were done before it. Where one failed, later ones are not
/// made.
pub(crate) fn puts_go_on<D: Disk>()
    ensures { PutsGoOn D D.Disk }
{
    puts_in_turn::<D>();
}
