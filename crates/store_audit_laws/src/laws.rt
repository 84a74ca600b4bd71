//! Laws of the definitions, each the contract of a function that does nothing.

ghost use Rattle.std.specs.Prelude.{ℕ, Bool, List};
ghost use Rattle.store_audit_laws.specs.Left.{AreLeftBy, AreStoredBy, IsStoredBy};
ghost use Rattle.cmd_node_laws.specs.Alike.{Likeness};
ghost use Rattle.cmd_node_laws.specs.Stands.{IsFoundStopped, world_after};
ghost use Rattle.cmd_node_laws.specs.Traces.{Event, MayAllHappen};
ghost use Rattle.raft_log.specs.declared.stored.Stored.{Stored};
ghost use Rattle.bus_rows.specs.declared.row.Row.{Row};
ghost use Rattle.store_audit.specs.Verdict.{IsDifference};
ghost use Rattle.bus_spec.specs.Choices.{AgreesWithDisk};
ghost use Rattle.alloc_spec.specs.ClusterMembers.{AreMembers};
ghost use Rattle.bus_spec.specs.Cluster.{Cluster, cluster, world_of};
ghost use Rattle.bus_spec.specs.Lawful.{DoNoHarm};

use bus_agreement::headline::the_headline;
use cmd_node_laws::laws::traces_do_no_harm;
use raft_log::laws::an_image_stands_for_one_state;

/// Stores that members of a world have at one moment never differ: the world of any list of rows that do no harm,
/// whatever choice fits what the stops find. An image of a member that failed and still runs is one of those
/// that the choice says.
pub fn stores_of_a_world_agree()
    ensures { (ids : List ℕ) (rows : List Row) (choice : ℕ → Bool) (nodes : List ℕ)
        (stores : List Stored) (place a b : ℕ) → AreMembers ids → DoNoHarm (cluster ids) rows →
        AgreesWithDisk choice (cluster ids) rows → AreLeftBy choice (world_of ids rows) nodes stores →
        IsDifference stores place a b → ⊥ }
{
    an_image_stands_for_one_state();
    the_headline();
}

/// Nor do those of a cluster of processes, after any trace that meets the premises; and an image that a kill
/// left there is one of what its member has stored.
pub fn stores_of_processes_agree()
    ensures agree { (ids : List ℕ) (trace : List Event) (nodes : List ℕ) (stores : List Stored)
        (place a b : ℕ) → AreMembers ids → MayAllHappen trace (cluster ids) →
        AreStoredBy (world_after ids trace) nodes stores → IsDifference stores place a b → ⊥ }
    ensures killed { (likeness : Likeness) (image : List ℕ) (w : Cluster) (n : ℕ) →
        IsFoundStopped likeness image w n → IsStoredBy w n image }
{
    an_image_stands_for_one_state();
    traces_do_no_harm();
}
