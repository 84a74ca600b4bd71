//! The promise on devices, beside the headline: a law, the contract of a function that does nothing.

ghost use Rattle.std.specs.Prelude.{ℕ, List};
ghost use Rattle.bus_rows.specs.declared.row.Row.{Row};
ghost use Rattle.bus_agreement.specs.Allocatees.{HasAllocatees};
ghost use Rattle.alloc_spec.specs.ClusterMembers.{AreMembers};
ghost use Rattle.bus_spec.specs.Cluster.{cluster};
ghost use Rattle.bus_spec.specs.Lawful.{DoNoHarm};

use crate::below::what_is_said_of_frames;
use crate::headline::{offers_are_pairs, rows_are_shown, the_headline};
use raft_model::laws::law_every_run;

/// For every cluster and every list of rows that do no harm: what a device has is a pair of the headline's list, from
/// then on. So two devices with different unique IDs never have the same node ID, at one moment or at two. A device is
/// an allocatee of the rows, or any other that takes a node ID by the standard's rule alone, with whatever receiver.
pub fn the_allocatees()
    ensures { (ids : List ℕ) (rows : List Row) → AreMembers ids → DoNoHarm (cluster ids) rows →
        HasAllocatees ids rows }
{
    law_every_run();
    offers_are_pairs();
    rows_are_shown();
    the_headline();
    what_is_said_of_frames();
}
