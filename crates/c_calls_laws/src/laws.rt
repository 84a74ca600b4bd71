//! Laws of the definitions, each the contract of a function that does nothing.

ghost use Rattle.std.specs.Prelude.{◌≡◌, ◌∷◌, ◌++◌, [], ℕ, suc, false, true, List, length, map};
ghost use Rattle.bus_rows.specs.declared.row.Row.{Row};
ghost use Rattle.bus_rows.specs.declared.row.Row.TheVariants.{Open};
ghost use Rattle.bus_agreement.specs.Headline.{HasHeadline};
ghost use Rattle.alloc_spec.specs.ClusterMembers.{AreMembers};
ghost use Rattle.bus_spec.specs.Cluster.{Cluster, after_row, after_rows, cluster, world_of};
ghost use Rattle.bus_spec.specs.Lawful.{DoNoHarm};
ghost use Rattle.cmd_node_laws.specs.Mirrored.{sent_by};
ghost use Rattle.c_calls.specs.declared.node.Node.{Node};
ghost use Rattle.c_calls.specs.At.{Calls, first_bytes, low};
ghost use Rattle.c_calls.specs.Runs.{Run};
ghost use Rattle.c_calls_laws.specs.OnBus.{Happening, IsMember, IsOpenedIn, MayAllHappen, all_rows, calls_in, got_in, got_of};

use alloc_ghost_erasure::laws::marks_change_marks_alone;
use bus_agreement::headline::the_headline;
use c_calls::laws::calls_are_steps;
use raft_core::laws::an_opening_keeps_the_store;

/// The calls that a caller makes of its node on a bus, none of whose steps is refused or fails, are rows of a world. The
/// opening of a node is a row `open`, or with the list of members that it is told then a row `copen`; from then on the
/// node stands for its member of the world, and what the caller takes is what that member sends. So where the rows do no
/// harm, with those of all others on the bus among them, the headline holds along them.
pub fn calls_are_rows()
    ensures opened { (w : Cluster) (n : ℕ) (closed opened : Node) (now a b : ℕ) →
        IsOpenedIn w n closed opened now a b → IsMember n (after_row w (Open n false now (low a))) opened }
    ensures told { (w : Cluster) (n : ℕ) (closed opened node : Node) (now a b later list count : ℕ) →
        IsOpenedIn w n closed opened now a b → Calls opened node 8 later list count 0 →
        first_bytes count list ≡ w.ids → IsMember n (after_row w (Open n true now (low a))) node }
    ensures follows { (w : Cluster) (n : ℕ) (trace : List Happening) (at : ℕ → Node) →
        IsMember n w (at 0) → MayAllHappen n w trace → Run (calls_in trace) at →
        IsMember n (after_rows w (all_rows n trace)) (at (length (calls_in trace))) }
    ensures sent { (w : Cluster) (n : ℕ) (trace : List Happening) (at : ℕ → Node) →
        IsMember n w (at 0) → MayAllHappen n w trace → Run (calls_in trace) at →
        got_in (calls_in trace) at ≡ map got_of (sent_by n w (all_rows n trace)) }
    ensures headline { (ids : List ℕ) (n : ℕ) (before : List Row) (trace : List Happening) (at : ℕ → Node) →
        AreMembers ids → DoNoHarm (cluster ids) (before ++ all_rows n trace) →
        IsMember n (world_of ids before) (at 0) → MayAllHappen n (world_of ids before) trace →
        Run (calls_in trace) at → HasHeadline ids (before ++ all_rows n trace) ×
        IsMember n (world_of ids (before ++ all_rows n trace)) (at (length (calls_in trace))) }
{
    an_opening_keeps_the_store();
    calls_are_steps();
    marks_change_marks_alone();
    the_headline();
}
