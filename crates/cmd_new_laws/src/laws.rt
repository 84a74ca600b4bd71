//! Laws of the definitions, each the contract of a function that does nothing.

ghost use Rattle.std.specs.Prelude.{◌≤◌, ◌++◌, ℕ, List, length};
ghost use Rattle.alloc_spec.specs.ClusterMembers.{AreMembers};
ghost use Rattle.bus_agreement.specs.Headline.{HasHeadline};
ghost use Rattle.bus_rows.specs.declared.row.Row.{Row};
ghost use Rattle.bus_spec.specs.Cluster.{world_of};
ghost use Rattle.bus_spec.specs.Lawful.{DoNoHarm};
ghost use Rattle.cmd_new.specs.NewImage.{highest_start, made_image};
ghost use Rattle.raft_log.specs.Rules.{StandsForState};
ghost use Rattle.raft_model.specs.Lists.{In};
ghost use Rattle.cmd_new_laws.specs.Begun.{ComeAbove, stored_above};

use bus_agreement::headline::{lawful_rows_do_no_harm, the_headline};
use cmd_new::laws::{a_new_store_has_its_version_alone, a_store_above_a_term_has_term_and_vote};

/// What is made for a member above a term stands for that term, a vote for the member, and nothing else.
pub fn a_made_store_is_one_that_stood()
    ensures { (term node : ℕ) → term ≤ highest_start → node ≤ 125 →
        StandsForState (made_image term node) (stored_above term node) }
{
    a_new_store_has_its_version_alone();
    a_store_above_a_term_has_term_and_vote();
}

/// From the beginning of a cluster of two members or more lawful rows, in which no frame comes to the bus, lead to
/// members that are stopped, and have stored just that: each above a term of its own.
pub fn members_come_above_terms()
    ensures { (ids : List ℕ) (terms : ℕ → ℕ) → AreMembers ids → 2 ≤ length ids →
        ((n : ℕ) → In n ids → terms n ≤ highest_start) → ComeAbove ids terms }
{}

/// So the headline holds of those rows, and all rows that do no harm behind them.
pub fn a_cluster_above_terms_has_the_headline()
    ensures { (ids : List ℕ) (terms : ℕ → ℕ) (later : List Row) → AreMembers ids →
        (come : ComeAbove ids terms) → DoNoHarm (world_of ids come.rows) later →
        HasHeadline ids (come.rows ++ later) }
{
    lawful_rows_do_no_harm();
    the_headline();
}
