//! What holds of every soak, each the contract of a function that does nothing.

ghost use Rattle.std.specs.Prelude.{◌≡◌, ℕ, ◌≤◌, Bool, List, is_some};
ghost use Rattle.can_frame.specs.Sizes.{most_members};
ghost use Rattle.raft_model.specs.Lists.{In};
ghost use Rattle.bus_rows.specs.declared.row.Row.{Row};
ghost use Rattle.alloc_spec.specs.ClusterMembers.{AreMembers};
ghost use Rattle.bus_spec.specs.Cluster.{world_of};
ghost use Rattle.bus_spec.specs.Members.{is_running};
ghost use Rattle.bus_spec.specs.Report.{view_at};
ghost use Rattle.cmd_soak.specs.Leading.{HasNoFault, IsLed};
ghost use Rattle.cmd_soak.specs.Rounds.{members, soaked};

/// The rows that a soak took are lawful rows of a cluster, one after another, and lead to the world in
/// which it ends. None of them lets a call of a disk fail.
pub fn rows_are_lawful()
    ensures members { (size : ℕ) → 1 ≤ size → size ≤ most_members → AreMembers (members size) }
    ensures rows { (told : Bool) (seed rounds size : ℕ) →
        IsLed (members size) (soaked told seed rounds size) }
{}

/// Along such rows a member runs exactly where it shows a view.
pub fn members_that_run_are_shown()
    ensures { (ids : List ℕ) (rows : List Row) → HasNoFault rows → (n : ℕ) → In n ids →
        is_some (view_at (world_of ids rows) n)
        ≡ is_running ((world_of ids rows).member n).status }
{}
