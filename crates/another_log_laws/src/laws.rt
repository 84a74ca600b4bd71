//! Laws of the definitions, each the contract of a function that does nothing.

ghost use Rattle.std.specs.Prelude.{◌≡◌, ◌<◌, ◌∷◌, [], ℕ, List, Option, None, length};
ghost use Rattle.bus_rows.specs.declared.row.Row.{Row};
ghost use Rattle.cmd_io.specs.declared.status.Status.TheVariants.{AnotherLog};
ghost use Rattle.alloc_spec.specs.Rules.{Rules, rules_by};
ghost use Rattle.alloc_spec.specs.ClusterMembers.{AreMembers};
ghost use Rattle.bus_spec.specs.Cluster.{cluster};
ghost use Rattle.bus_spec.specs.Lawful.{DoNoHarm};
ghost use Rattle.cmd_node.specs.Another.{caller_at};
ghost use Rattle.cmd_node.specs.Nodes.{IsEnd};
ghost use Rattle.cmd_node.specs.Opening.{RunInput};
ghost use Rattle.cmd_node.specs.WholeRun.{Tell};
ghost use Rattle.cmd_node_laws.specs.Example.{given_then, two};
ghost use Rattle.cmd_node_laws.specs.Processes.{together_at};
ghost use Rattle.another_log_laws.specs.Agreeing.{CallsAgree};
ghost use Rattle.another_log_laws.specs.LawfulTurn.{IsLawfulTurn};
ghost use Rattle.another_log_laws.specs.Uncalled.{HearNoOtherLog};

use alloc_ghost_erasure::laws::marks_change_marks_alone;
use alloc_server::laws::no_call_contradicts;
use bus_agreement::headline::{a_choice_fits, rows_are_shown};
use bus_agreement::transfers::what_a_member_takes_was_said;
use cmd_node_laws::laws::{premises_can_be_met, processes_are_followed, traces_do_no_harm};
use disk_model::Disk;
use outside::Link;
use transfer_rx::laws::{
    deliveries_are_whole_transfers, marks_change_marks_alone as marks_change_no_answer,
};

/// In rows that do no harm each call to append that a frame completes, of no term below the receiver's own, agrees with
/// what the receiver has committed. So no frame brings its member a call of another log.
pub fn no_frame_is_of_another_log()
    ensures agree { (ids : List ℕ) (rows : List Row) → AreMembers ids → DoNoHarm (cluster ids) rows →
        CallsAgree ids rows }
    ensures uncalled { (ids : List ℕ) (rows : List Row) → AreMembers ids → DoNoHarm (cluster ids) rows →
        HearNoOtherLog ids rows }
{
    a_choice_fits();
    no_call_contradicts();
    rows_are_shown();
    what_a_member_takes_was_said();
}

/// Nor does one come to a member in a turn of its process, where the trace up to there and the turn keep the premises.
pub fn no_turn_brings_another_log()
    ensures { (ids mine : List ℕ) (rules : Rules) (given : RunInput) (taken place : ℕ) → place < length mine →
        IsLawfulTurn ids rules mine given taken place →
        caller_at place (together_at rules mine given taken place) ≡ None }
{
    deliveries_are_whole_transfers();
    marks_change_marks_alone();
    marks_change_no_answer();
    no_frame_is_of_another_log();
    processes_are_followed();
    traces_do_no_harm();
}

/// So no run of `node` ends with `AnotherLog` in such a turn.
pub fn no_run_ends_for_another_log<L: Link, D: Disk>()
    ensures { (ids mine : List ℕ) (rules : Rules) (turns : ℕ) (given : RunInput) (links_old links : List L)
        (disks_old disks : List (Option D)) (readings_old readings : Option (List ℕ)) (id node : ℕ) →
        (tell : Tell L.coming L.sent D.Disk links_old disks_old readings_old given) →
        (end : IsEnd L.coming L.sent L.faults D.Disk rules turns mine links_old links disks_old disks
        readings_old readings (AnotherLog id node)) → let cut = end.1.left given tell in
        IsLawfulTurn ids rules mine given cut.taken cut.turn.place → ⊥ }
{
    no_turn_brings_another_log();
}

/// Such turns there are: in one of the worked trace of `cmd_node_laws` a frame of a member comes.
pub fn a_turn_can_be_lawful()
    ensures { IsLawfulTurn two (rules_by 2 []) (2 ∷ []) given_then 0 0 }
{
    premises_can_be_met();
}
