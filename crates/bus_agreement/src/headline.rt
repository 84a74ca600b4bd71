//! Laws toward the headline, each the contract of a function that does nothing.

ghost use Rattle.std.specs.Prelude.{◌≡◌, ◌++◌, ◌∷◌, [], ℕ, Bool, List, None};
ghost use Rattle.raft_model.specs.Runs.{Event, Lawful, World, initial_world, run};
ghost use Rattle.bus_rows.specs.declared.row.Row.{Row};
ghost use Rattle.bus_agreement.specs.Continues.{Continues};
ghost use Rattle.bus_agreement.specs.Duty.{AreDutiful};
ghost use Rattle.bus_agreement.specs.Headline.{HasHeadline, Headline};
ghost use Rattle.bus_agreement.specs.Mirrors.{BusIsMade, Mirrors, OffersAreMade};
ghost use Rattle.bus_agreement.specs.Safe.{AreSafe};
ghost use Rattle.bus_agreement.specs.Shows.{Shows};
ghost use Rattle.alloc_spec.specs.ClusterMembers.{AreMembers};
ghost use Rattle.bus_spec.specs.Cluster.{Cluster, cluster};
ghost use Rattle.bus_spec.specs.Cluster.{after_rows, after_row, world_of};
ghost use Rattle.bus_spec.specs.Lawful.{DoNoHarm, DoesNoHarm, AreLawful, cause};
ghost use Rattle.bus_spec.specs.Choices.{AgreesWithDisk, RowAgreesWithDisk};
ghost use Rattle.bus_spec.specs.Refinement.{events, transfers_of_rows, transfers_of_row, row_events};
ghost use Rattle.alloc_spec.specs.Transfers.{SentTransfer};

use crate::below::what_is_said_of_frames;
use crate::rows::{a_row_is_shown, steps_are_dutiful, the_beginning_is_shown};
use crate::transfers::what_a_row_delivers_is_one_transfer;
use raft_model::laws::{law_commit, law_duty, law_every_run};

/// A list of rows grows by one at its end: the world, which rows are lawful or do no harm, the events that they show,
/// the choices that fit, and what was made. The members stay.
pub fn rows_grow_by_one()
    ensures members { (w : Cluster) (rows : List Row) → (after_rows w rows).ids ≡ w.ids }
    ensures world { (w : Cluster) (rows : List Row) (row : Row) →
        after_rows w (rows ++ row ∷ []) ≡ after_row (after_rows w rows) row }
    ensures lawful { (w : Cluster) (rows : List Row) (row : Row) → AreLawful w rows →
        cause (after_rows w rows) row ≡ None → AreLawful w (rows ++ row ∷ []) }
    ensures harmless { (w : Cluster) (rows : List Row) (row : Row) → DoNoHarm w rows →
        DoesNoHarm (after_rows w rows) row → DoNoHarm w (rows ++ row ∷ []) }
    ensures events { (choice : ℕ → Bool) (w : Cluster) (rows : List Row) (row : Row) →
        events choice w (rows ++ row ∷ [])
        ≡ events choice w rows ++ row_events choice (after_rows w rows) row }
    ensures fits { (choice : ℕ → Bool) (w : Cluster) (rows : List Row) (row : Row) →
        AgreesWithDisk choice w rows → RowAgreesWithDisk choice (after_rows w rows) row →
        AgreesWithDisk choice w (rows ++ row ∷ []) }
    ensures made { (w : Cluster) (rows : List Row) (row : Row) (earlier : List SentTransfer) →
        transfers_of_rows w (rows ++ row ∷ []) earlier
        ≡ transfers_of_row (after_rows w rows) row (transfers_of_rows w rows earlier) }
{}

/// An Allocation with a node ID that waits in a running member's queue, its frames one after another, is a
/// transfer that this member made, and so a pair from it in the bag of the run. So is one of which a frame
/// is on the bus: whatever frame has the identifier of an Allocation of a node is of a transfer that this
/// node made, and it is a member.
pub fn offers_are_pairs()
    ensures waiting { (choice : ℕ → Bool) (made : List SentTransfer) (w : Cluster) (run : World) →
        AreMembers w.ids → Shows choice made w run → OffersAreMade w run }
    ensures bus { (choice : ℕ → Bool) (made : List SentTransfer) (w : Cluster) (run : World) →
        AreMembers w.ids → Shows choice made w run → BusIsMade made w run }
{
    what_is_said_of_frames();
}

/// The headline follows of two worlds, now and later, that mirror a run of the Raft model and its
/// continuation.
pub fn what_is_mirrored_has_the_headline()
    ensures { (choice : ℕ → Bool) (members : List ℕ) (first rest : List Event)
        (now later : Cluster) →
        Lawful (initial_world members) first →
        Lawful (run (initial_world members) first) rest → later.ids ≡ now.ids →
        Mirrors choice now (run (initial_world members) first) →
        Mirrors choice later (run (run (initial_world members) first) rest) →
        Headline choice now later }
{
    law_commit();
    law_every_run();
}

/// Lawful rows do no harm.
pub fn lawful_rows_do_no_harm()
    ensures { (w : Cluster) (rows : List Row) → AreLawful w rows → DoNoHarm w rows }
{}

/// What a list of rows that do no harm shows is a lawful run of the Raft model, from its beginning, whatever
/// choice fits what the stops find.
pub fn rows_are_shown()
    ensures { (choice : ℕ → Bool) (ids : List ℕ) (rows : List Row) → AreMembers ids →
        DoNoHarm (cluster ids) rows → AgreesWithDisk choice (cluster ids) rows →
        Continues choice (transfers_of_rows (cluster ids) rows []) (world_of ids rows) (initial_world ids)
        (events choice (cluster ids) rows) }
{
    a_row_is_shown();
    law_every_run();
    the_beginning_is_shown();
}

/// The run that a list of rows that do no harm shows is lawful and safe, whatever choice fits; and what a row delivers
/// of a member's transfer is one transfer that a member made by then, for this receiver, and is in the bag.
pub fn rows_are_safe()
    ensures { (ids : List ℕ) (rows : List Row) → AreMembers ids → DoNoHarm (cluster ids) rows →
        AreSafe ids rows }
{
    law_every_run();
    rows_are_shown();
    what_a_row_delivers_is_one_transfer();
}

/// Each step of a list of rows that do no harm does its duty: a leader commits as far as a quorum of the members lets
/// it, and tells one place where there is room; who has waited stands for election; who counts a quorum leads; who is
/// asked offers an answer to its queue, even where the answer finds no room there; and the node ID of a node that is
/// heard is not given.
pub fn rows_are_dutiful()
    ensures { (ids : List ℕ) (rows : List Row) → AreMembers ids → DoNoHarm (cluster ids) rows →
        AreDutiful ids rows }
{
    a_choice_fits();
    law_duty();
    law_every_run();
    rows_are_shown();
    steps_are_dutiful();
}

/// For every list of rows that do no harm there is a choice that fits: what a choice says of a failed step is
/// what the disk of its member gives once the member stops.
pub fn a_choice_fits()
    ensures { (ids : List ℕ) (rows : List Row) → AreMembers ids → DoNoHarm (cluster ids) rows →
        (choice : ℕ → Bool) × AgreesWithDisk choice (cluster ids) rows }
{
    rows_are_shown();
}

/// The headline, for every cluster and every list of rows that do no harm: it holds from each moment of the
/// list to each later one, for every choice that fits by then; and a choice that fits exists. At each moment,
/// what gives a node ID on the bus is a pair of its member's committed log.
pub fn the_headline()
    ensures { (ids : List ℕ) (rows : List Row) → AreMembers ids → DoNoHarm (cluster ids) rows →
        HasHeadline ids rows }
{
    a_choice_fits();
    law_every_run();
    offers_are_pairs();
    rows_are_shown();
    what_is_mirrored_has_the_headline();
}
