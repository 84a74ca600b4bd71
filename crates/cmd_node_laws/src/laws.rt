//! Laws of the definitions, each the contract of a function that does nothing.

ghost use Rattle.std.specs.Prelude.{◌≡◌, ◌<◌, ◌≤◌, ◌+◌, ◌*◌, ◌++◌, ◌∷◌, [], ℕ, List, Option, length};
ghost use Rattle.outside.specs.Traffic.{next_item};
ghost use Rattle.raft_core.specs.StoredPuts.{store_of, stored_puts};
ghost use Rattle.raft_log.specs.Rules.{StandsForState};
ghost use Rattle.raft_log.specs.Stored.{AfterSome, Stored};
ghost use Rattle.can_frame.specs.Sizes.{most_members};
ghost use Rattle.can_frame.specs.Timing.{election_spread, election_wait};
ghost use Rattle.raft_model.specs.Lists.{In};
ghost use Rattle.raft_model.specs.Members.{HasNoneTwice};
ghost use Rattle.bus_agreement.specs.Allocatees.{HasAllocatees};
ghost use Rattle.bus_agreement.specs.Headline.{HasHeadline};
ghost use Rattle.bus_agreement.specs.Safe.{AreSafe};
ghost use Rattle.alloc_spec.specs.Rules.{Rules, rules_by, tells};
ghost use Rattle.alloc_spec.specs.ClusterMembers.{AreMembers};
ghost use Rattle.bus_spec.specs.Cluster.{Cluster, after_rows, cluster, rules_of};
ghost use Rattle.bus_spec.specs.Lawful.{DoNoHarm};
ghost use Rattle.cmd_node.specs.CutRun.{IsCutAtOpening, IsCutAtTurn, KeepsOrOpens};
ghost use Rattle.cmd_node.specs.Opening.{RunInput};
ghost use Rattle.cmd_node.specs.Puts.{turn_puts};
ghost use Rattle.cmd_node.specs.Turn.{Running, Turning as Turn};
ghost use Rattle.cmd_node.specs.WholeRun.{LeavesAll, Tell, after_turns};
ghost use Rattle.cmd_node.specs.Words.{next_words, own_words, rank, word_by_rank, word_of};
ghost use Rattle.cmd_node_laws.specs.Traces.{Came, Event, MayAllHappen, all_rows};
ghost use Rattle.cmd_node_laws.specs.Alike.{Alike, Likeness};
ghost use Rattle.cmd_node_laws.specs.Example.{first_events, given_then, later_events, two, world_by_then};
ghost use Rattle.cmd_node_laws.specs.Mirrored.{AreCalm, Carries, IsMirrored, raw_by};
ghost use Rattle.cmd_node_laws.specs.Processes.{GoesOn, Opening, Point, StandAt, Turning, place_of, together_at};
ghost use Rattle.cmd_node_laws.specs.Stands.{IsCutAsInWorld, IsCutOpeningAsInWorld, IsFollowed, IsFoundKilled, IsRunIn};
ghost use Rattle.cmd_node_laws.specs.Stands.{LeavesAsInWorld, MayBeKilled, world_after};

use alloc_ghost_erasure::laws::marks_change_marks_alone;
use bus_agreement::allocatees::the_allocatees;
use bus_agreement::headline::{rows_are_safe, the_headline};
use disk_model::Disk;
use outside::Link;
use raft_core::laws::an_opening_keeps_the_store;
use raft_log::laws::an_image_stands_for_one_state;
use transfer_rx::laws::deliveries_are_whole_transfers;

/// Members that are told their list have the same word in each turn. The words of two differ by 250 or more, and are
/// within the spread of waits: so their waits for an election differ by 250 ms or more. The longest wait is less than
/// twice the shortest, by 2,000 ms or more: so the member that has it stands well before another one stands twice.
pub fn members_wait_apart()
    ensures same { (members : List ℕ) (id : ℕ) → 0 < length members →
        next_words (own_words members id) ≡ own_words members id }
    ensures spread { (members : List ℕ) (id : ℕ) → In id members → length members ≤ most_members →
        word_of (own_words members id) < election_spread }
    ensures apart { (members : List ℕ) (low high : ℕ) → In low members → In high members → low < high →
        length members ≤ most_members →
        word_of (own_words members low) + 250 ≤ word_of (own_words members high) }
    ensures shorter { (members : List ℕ) (low high : ℕ) → In low members → In high members →
        length members ≤ most_members → election_wait + word_of (own_words members high) + 2000
        ≤ 2 * (election_wait + word_of (own_words members low)) }
{}

/// Every trace of a cluster of processes that meets the premises stands for a list of rows that do no harm. So along
/// these rows the headline holds, what an allocatee holds is a pair of the list, and the run of the Raft
/// model that they show is safe. Between any two events no call of a disk is set to fail.
pub fn traces_do_no_harm()
    ensures rows { (ids : List ℕ) (trace : List Event) →
        MayAllHappen trace (cluster ids) → DoNoHarm (cluster ids) (all_rows trace (cluster ids)) }
    ensures headline { (ids : List ℕ) (trace : List Event) → AreMembers ids →
        MayAllHappen trace (cluster ids) → HasHeadline ids (all_rows trace (cluster ids)) }
    ensures allocatees { (ids : List ℕ) (trace : List Event) → AreMembers ids →
        MayAllHappen trace (cluster ids) → HasAllocatees ids (all_rows trace (cluster ids)) }
    ensures safe { (ids : List ℕ) (trace : List Event) → AreMembers ids →
        MayAllHappen trace (cluster ids) → AreSafe ids (all_rows trace (cluster ids)) }
    ensures calm { (ids : List ℕ) (trace : List Event) → MayAllHappen trace (cluster ids) →
        AreCalm (world_after ids trace) }
{
    deliveries_are_whole_transfers();
    rows_are_safe();
    the_allocatees();
    the_headline();
}

/// A process goes on in a trace as `cmd_node` says: each of its members is in the world what it is
/// in the process, but for marks and the numbers of steps, and its link was sent what the member of
/// the world sent.
pub fn processes_are_followed()
    ensures { (mine : List ℕ) (given : RunInput) (rules : Rules) (w : Cluster) (trace : List Event)
        (from to : Point) → HasNoneTwice mine → rules ≡ rules_of w.ids (tells rules) →
        AreCalm w → place_of from < length mine → MayAllHappen trace w → GoesOn rules mine given w trace from to →
        StandAt rules mine given w from → (i : ℕ) → i < length mine →
        IsFollowed rules mine given w (after_rows w (all_rows trace w)) from to
        (λ n. raw_by n w (all_rows trace w)) i }
{
    an_opening_keeps_the_store();
    deliveries_are_whole_transfers();
    marks_change_marks_alone();
}

/// What a member of a process stores, its disk in the world has stored.
pub fn stores_are_followed()
    ensures { (ids : List ℕ) (trace : List Event) (r : Running) → AreMembers ids →
        MayAllHappen trace (cluster ids) → In r.id ids → let w = world_after ids trace in
        IsMirrored w r → store_of (w.member r.id).disk.store ≡ r.allocator.raft_server.store }
{
    traces_do_no_harm();
}

/// A member that is killed in a turn leaves an image that stands for what was stored after some of the
/// first puts of the turn; and there is an event that leaves just that in the world.
pub fn kills_are_events()
    ensures { (w : Cluster) (t : Turn) (moment : ℕ) (came : Came) (image : List ℕ)
        (state : Stored) (likeness : Likeness) → AreCalm w → IsMirrored w t.running →
        Alike likeness (w.member t.running.id).disk.store state →
        AfterSome (StandsForState image) (stored_puts (turn_puts moment t) state) state →
        Carries w.frames (next_item t.running.coming) came →
        MayBeKilled w t.running moment came → IsFoundKilled likeness image w t.running moment came }
{
    deliveries_are_whole_transfers();
    marks_change_marks_alone();
}

/// A run of `node` in a trace, to its end or cut off in a turn or at an opening: what it leaves on links and
/// disks is what its members of the world sent and have stored.
pub fn runs_of_node_are_rows<L: Link, D: Disk>()
    ensures done { (ids mine : List ℕ) (before during : List Event) (rules : Rules) (turns : ℕ)
        (given : RunInput) (links : List L) (disks : List (Option D)) (readings : Option (List ℕ)) →
        IsRunIn ids before during rules mine given (Turning turns 0) →
        LeavesAll L.coming L.sent D.Disk links disks readings (length mine)
        (after_turns rules turns mine given) → let w = world_after ids before in
        LeavesAsInWorld L.sent D.Disk links disks mine given w (world_after ids (before ++ during))
        (all_rows during w) }
    ensures cut { (ids mine : List ℕ) (before during : List Event) (rules : Rules) (taken place : ℕ)
        (given : RunInput) (links : List L) (disks : List (Option D)) (readings : Option (List ℕ)) →
        place < length mine → IsRunIn ids before during rules mine given (Turning taken place) →
        let all = together_at rules mine given taken place in
        IsCutAtTurn L.coming L.sent D.Disk links disks readings (length mine) all place →
        let w = world_after ids before in
        IsCutAsInWorld L.coming L.sent D.Disk links disks mine given w
        (world_after ids (before ++ during)) (all_rows during w) all place }
    ensures opening { (ids mine : List ℕ) (before during : List Event) (rules : Rules) (given : RunInput)
        (links_old links : List L) (disks_old disks : List (Option D))
        (readings_old readings : Option (List ℕ)) (id : ℕ) →
        Tell L.coming L.sent D.Disk links_old disks_old readings_old given →
        (cut : IsCutAtOpening D.Disk mine links_old links disks_old disks readings_old readings
        (KeepsOrOpens D.Disk) id) →
        IsRunIn ids before during rules mine given (Opening cut.place) → let w = world_after ids before in
        IsCutOpeningAsInWorld D.Disk disks_old disks rules mine given w
        (world_after ids (before ++ during)) (all_rows during w) cut.place }
{
    an_image_stands_for_one_state();
    an_opening_keeps_the_store();
    traces_do_no_harm();
    kills_are_events();
    processes_are_followed();
    stores_are_followed();
}

/// The premises can be met: in this trace a member hears the other one, is killed in a turn behind its first
/// put, and is opened again by a new process, whose run stands in the trace.
pub fn premises_can_be_met()
    ensures run { IsRunIn two first_events later_events (rules_by 2 []) (2 ∷ []) given_then (Turning 1 0) }
    ensures killed { (world_by_then.member 2).disk.store.term ≡ 1 }
{}
