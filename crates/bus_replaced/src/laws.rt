//! Laws of traces with replacements, each the contract of a function that does nothing.
//!
//! A trace is any list of items that may come, from empty disks on: rows of a bus that do no harm, and replacements of
//! lost members, any number of each.

ghost use Rattle.std.specs.Prelude.{◌≡◌, ◌++◌, ◌∷◌, [], ℕ, Bool, List, length, true};
ghost use Rattle.bus_rows.specs.declared.row.Row.{Row};
ghost use Rattle.bus_rows.specs.declared.row.Row.TheVariants.{Rx};
ghost use Rattle.alloc_spec.specs.ClusterMembers.{AreMembers};
ghost use Rattle.bus_spec.specs.Choices.{AgreesWithDisk};
ghost use Rattle.bus_spec.specs.Cluster.{cluster, world_of};
ghost use Rattle.bus_spec.specs.Lawful.{DoNoHarm};
ghost use Rattle.bus_spec.specs.Logs.{committed};
ghost use Rattle.bus_agreement.specs.Allocatees.{Holds};
ghost use Rattle.bus_agreement.specs.Headline.{the_list};
ghost use Rattle.bus_replaced.specs.LawsBelow.{LawsBelow};
ghost use Rattle.bus_replaced.specs.Promises.{HasAllocateesAlong, HasHeadlineAlong};
ghost use Rattle.bus_replaced.specs.Traces.{AgreesAlong, IsTrace, Item, brings_old_vote, only_rows, world_along};
ghost use Rattle.bus_replaced.specs.Traces.Item.{Replaces};
ghost use Rattle.bus_replaced.specs.Worked.{some_entry, served_uid, three, worked, world_till_loss};

use bus_agreement::below::what_is_said_of_frames;
use bus_agreement::headline::offers_are_pairs;
use bus_agreement::rows::{a_row_is_shown, the_beginning_is_shown};
use raft_replaced::laws::{law_copy, law_plain_runs, law_replacements};

/// What the crates below say: of single rows, of frames, and of runs of the Raft model with replacements.
pub fn what_is_said_below()
    ensures { LawsBelow }
{
    a_row_is_shown();
    law_copy();
    law_plain_runs();
    law_replacements();
    offers_are_pairs();
    the_beginning_is_shown();
    what_is_said_of_frames();
}

/// The headline, along every trace: from each moment to each later one, also where a lost member got a copy of the
/// leader's disk in between, and for every choice that agrees with the disks by then; and such a choice exists.
pub fn the_headline_along()
    ensures { (ids : List ℕ) (items : List Item) → AreMembers ids → IsTrace ids items → HasHeadlineAlong ids items }
{
    what_is_said_below();
}

/// What a device has is a pair of the headline's list, from then on, along every trace. So two devices with different
/// unique IDs never have the same node ID, whatever members are replaced.
pub fn the_allocatees_along()
    ensures { (ids : List ℕ) (items : List Item) → AreMembers ids → IsTrace ids items → HasAllocateesAlong ids items }
{
    what_is_said_below();
}

/// A member that was replaced has committed the whole list, as it was before.
pub fn a_copy_has_the_list()
    ensures { (choice : ℕ → Bool) (ids : List ℕ) (items : List Item) (lost leader : ℕ) → AreMembers ids →
        IsTrace ids (items ++ Replaces lost leader ∷ []) → AgreesAlong choice (cluster ids) items →
        committed choice (world_along ids (items ++ Replaces lost leader ∷ [])) lost
        ≡ the_list choice (world_along ids items) }
{
    what_is_said_below();
}

/// A list of rows that do no harm is a trace without a replacement.
pub fn rows_are_a_trace()
    ensures trace { (ids : List ℕ) (rows : List Row) → DoNoHarm (cluster ids) rows → IsTrace ids (only_rows rows) }
    ensures world { (ids : List ℕ) (rows : List Row) → world_along ids (only_rows rows) ≡ world_of ids rows }
    ensures agrees { (choice : ℕ → Bool) (ids : List ℕ) (rows : List Row) →
        AgreesWithDisk choice (cluster ids) rows → AgreesAlong choice (cluster ids) (only_rows rows) }
{}

/// Replacements come: of three members the one is lost that acknowledged the only entry. The device holds its node ID
/// still, the list has its entry, and the new member 2 has committed it. A frame of a vote from before may not come
/// behind the replacement (`old`), a frame of a call may: the trace has two.
pub fn a_lost_member_is_replaced()
    ensures trace { IsTrace three worked }
    ensures agrees { (choice : ℕ → Bool) → AgreesAlong choice (cluster three) worked }
    ensures held { Holds (world_along three worked) 1 served_uid 125 }
    ensures list { (choice : ℕ → Bool) → the_list choice (world_along three worked) ≡ some_entry ∷ [] }
    ensures copied { (choice : ℕ → Bool) → committed choice (world_along three worked) 2 ≡ some_entry ∷ [] }
    ensures old { brings_old_vote (length world_till_loss.frames) (world_along three worked) (Rx 3 10 9300) ≡ true }
{}
