//! The laws of this crate, each the contract of a function that does nothing.

ghost use Rattle.std.specs.Prelude.{ℕ, ◌≤◌, false, List, [], ◌∷◌};
ghost use Rattle.service_alone.specs.Alone.{ComesBack, ServesDevices, TellsAgain};
ghost use Rattle.service_alone.specs.Calm.{AreCalm, CalmGoesOn, ComesToRest, HasPlaceFor, IsReady, ServesInTime};
ghost use Rattle.service_alone.specs.Calm.{TellsInTime, no_traffic};
ghost use Rattle.service_alone.specs.CalmExample.{calm_rows, clocks, first_rows, pace, quiet_pace, quiet_rows};
ghost use Rattle.service_alone.specs.CalmExample.{some_uid, then_world};
ghost use Rattle.service_alone.specs.CalmRecovery.{AreQuiet, GetsReady, MayStart, QuietGoesOn, RecoversForKnown};
ghost use Rattle.service_alone.specs.CalmRecovery.{RecoversForNew, RestsSoon, SettlesInTime, StartsLawfully};
ghost use Rattle.service_alone.specs.CalmRecovery.{StaysReady, StaysSettled, StopsAtOnce, no_own_traffic};
ghost use Rattle.service_alone.specs.CalmRecovery.{time_to_settle};
ghost use Rattle.service_alone.specs.Recovery.{AreNeverStuck};
ghost use Rattle.alloc_spec.specs.ClusterMembers.{AreMembers};
ghost use Rattle.bus_spec.specs.Cluster.{after_row, cluster, world_of};
ghost use Rattle.bus_spec.specs.Lawful.{DoNoHarm};
ghost use Rattle.raft_model.specs.Server.{empty_store};
ghost use Rattle.bus_rows.specs.declared.row.Row.{Row};
ghost use Rattle.bus_rows.specs.declared.row.Row.TheVariants.{Open};

use bus_agreement::headline::{a_choice_fits, rows_are_shown, rows_grow_by_one};
use can_frame::laws::{
    frames_carry_what_is_cut, frames_read_as_their_pieces, identifiers_both_ways,
    lengths_of_cuttings, logs_stay_injective,
};
use dsdl_codec::laws::allocations_both_ways;
use id_selector::laws::chosen_is_the_choice;
use raft_core::laws::an_opening_keeps_the_store;
use raft_log::laws::the_disk_by_states;
use raft_model::laws::law_every_run;
use service_steps::laws::{new_pairs_can_be_told, requests_of_devices_are_requests};
use transfer_rx::laws::delivers_what_comes_whole;
use transfer_tx::laws::frames_by_place;

/// After every list of rows that do no harm, whatever frames were delivered, lost or repeated, whatever clocks read and
/// wherever inside store writes allocators stopped: each pair of a unique ID and a node ID that stand in no stored log
/// of a majority can still be committed and told by this majority, in the run of the Raft model that the rows
/// show, where these logs have room for two entries more and a term is left.
pub fn rows_are_never_stuck()
    ensures { (ids : List ℕ) (rows : List Row) → AreMembers ids → DoNoHarm (cluster ids) rows →
        AreNeverStuck ids rows }
{
    new_pairs_can_be_told();
    rows_are_shown();
    rows_grow_by_one();
}

/// After every list of rows that do no harm, whatever frames came, whatever clocks read, wherever inside store writes
/// the allocator stopped, and whatever of its disk is set to fail: an allocator that is alone comes to lead again, with
/// all committed, where its log has room for a blank and two terms are left. There are seven rows at most, which take
/// 4,000 ms at most, that do it.
pub fn who_is_alone_leads()
    ensures { (n : ℕ) (rows : List Row) → AreMembers (n ∷ []) → DoNoHarm (cluster (n ∷ [])) rows →
        ComesBack n rows }
{
    a_choice_fits();
    an_opening_keeps_the_store();
    law_every_run();
    rows_are_shown();
    rows_grow_by_one();
    the_disk_by_states();
}

/// And from there it serves each device that asks: one whose unique ID is new gets a node ID that is left, where its
/// log has room; one whose unique ID stands in its log gets the node ID that it has there. There are 33 rows at most,
/// which take 4,600 ms at most, after which the device holds it.
pub fn who_is_alone_serves_devices()
    ensures new { (n : ℕ) (rows : List Row) → AreMembers (n ∷ []) → DoNoHarm (cluster (n ∷ [])) rows →
        ServesDevices n rows }
    ensures again { (n : ℕ) (rows : List Row) → AreMembers (n ∷ []) → DoNoHarm (cluster (n ∷ [])) rows →
        TellsAgain n rows }
{
    a_choice_fits();
    allocations_both_ways();
    an_opening_keeps_the_store();
    chosen_is_the_choice();
    delivers_what_comes_whole();
    frames_by_place();
    frames_carry_what_is_cut();
    frames_read_as_their_pieces();
    identifiers_both_ways();
    law_every_run();
    lengths_of_cuttings();
    logs_stay_injective();
    requests_of_devices_are_requests();
    rows_are_shown();
    rows_grow_by_one();
    the_disk_by_states();
}

/// After every list of rows that do no harm an allocator that is alone comes to rest again: it leads, with all
/// committed and told, and nothing to send, where its log has room for a blank and two terms are left. There are eight
/// rows at most, which take 4,000 ms at most, that do it.
pub fn who_is_alone_comes_to_rest()
    ensures { (n : ℕ) (rows : List Row) → AreMembers (n ∷ []) → DoNoHarm (cluster (n ∷ [])) rows →
        ComesToRest n rows }
{
    a_choice_fits();
    an_opening_keeps_the_store();
    law_every_run();
    rows_are_shown();
    rows_grow_by_one();
    the_disk_by_states();
}

/// An allocator that is alone serves each device in time, in every calm continuation of any rows that do no harm: where
/// it leads, has all committed and told, and nothing to send but its NodeStatus, where no node is online that it does
/// not know, and where from the device's coming on the device reads its clock, and both send and receive, at such a
/// pace that a period and four delays take 100 ms at most. Within 2,100 ms a device whose unique ID is new holds a node
/// ID that was left, where one is and the log has room; one whose unique ID stands in the log holds the node ID that it
/// has there. Then the allocator has settled again: it leads, has all committed and told, with the new pair at the end
/// of its log, and knows each node that is online. The rows by then are lawful.
pub fn who_is_alone_serves_in_time()
    ensures new { (n : ℕ) (rows : List Row) → AreMembers (n ∷ []) → DoNoHarm (cluster (n ∷ [])) rows →
        ServesInTime n rows }
    ensures again { (n : ℕ) (rows : List Row) → AreMembers (n ∷ []) → DoNoHarm (cluster (n ∷ [])) rows →
        TellsInTime n rows }
{
    a_choice_fits();
    allocations_both_ways();
    chosen_is_the_choice();
    delivers_what_comes_whole();
    frames_by_place();
    frames_carry_what_is_cut();
    frames_read_as_their_pieces();
    identifiers_both_ways();
    law_every_run();
    lengths_of_cuttings();
    requests_of_devices_are_requests();
    rows_are_shown();
    rows_grow_by_one();
}

/// The calm can go on: behind any calm rows, from whatever world, there are calm rows to any later moment, where the
/// period is a millisecond at least.
pub fn calm_goes_on()
    ensures { CalmGoesOn }
{}

/// The premises can be met: an allocator that is alone is ready, a device comes, and rows go on calmly.
pub fn calm_can_be()
    ensures ready { IsReady 1 [] 2950 (world_of (1 ∷ []) first_rows) }
    ensures place { HasPlaceFor 1 [] some_uid }
    ensures calm { AreCalm 1 1 clocks pace (no_traffic 2950) then_world calm_rows }
{}

/// An allocator that is alone comes to rest in time, in every way in which it goes on once it is started: after any
/// rows that do no harm, where it is stopped and no call of its disk is set to fail, and where on its bus nothing else
/// happens, it reads its clock at least once in each period, and a queue in which frames wait is empty within a delay.
/// From its wait for an election and a period behind its opening on, and a period and a delay more for each entry that
/// it had not committed, it has settled: it leads, and has all committed and told. A delay later, where that
/// is 2,000 ms at most, nothing waits in its queue but its NodeStatus, from then on; and there was a moment at which
/// nothing did. A term must be left, and where
/// an entry was not committed, room for a blank. These rows are lawful; and an allocator that runs, or has failed, is
/// stopped by one lawful row.
pub fn who_is_alone_rests_in_time()
    ensures stops { (n : ℕ) (rows : List Row) → AreMembers (n ∷ []) → DoNoHarm (cluster (n ∷ [])) rows →
        StopsAtOnce n rows }
    ensures lawful { (n : ℕ) (rows : List Row) → AreMembers (n ∷ []) → DoNoHarm (cluster (n ∷ [])) rows →
        StartsLawfully n rows }
    ensures settled { (n : ℕ) (rows : List Row) → AreMembers (n ∷ []) → DoNoHarm (cluster (n ∷ [])) rows →
        SettlesInTime n rows }
    ensures ready { (n : ℕ) (rows : List Row) → AreMembers (n ∷ []) → DoNoHarm (cluster (n ∷ [])) rows →
        GetsReady n rows }
    ensures soon { (n : ℕ) (rows : List Row) → AreMembers (n ∷ []) → DoNoHarm (cluster (n ∷ [])) rows →
        RestsSoon n rows }
{
    a_choice_fits();
    an_opening_keeps_the_store();
    law_every_run();
    rows_are_shown();
    rows_grow_by_one();
    the_disk_by_states();
}

/// An allocator that is alone and has settled stays so for as long as nothing else happens on its bus. More than a
/// delay later, where that is 2,000 ms at most, nothing waits in its queue but its NodeStatus: so a device that comes
/// then is served in time, also behind another one.
pub fn who_is_alone_stays_settled()
    ensures settled { (n : ℕ) (rows : List Row) → AreMembers (n ∷ []) → DoNoHarm (cluster (n ∷ [])) rows →
        StaysSettled n rows }
    ensures ready { (n : ℕ) (rows : List Row) → AreMembers (n ∷ []) → DoNoHarm (cluster (n ∷ [])) rows →
        StaysReady n rows }
{
    a_choice_fits();
    law_every_run();
    rows_are_shown();
    rows_grow_by_one();
}

/// An allocator that is alone recovers in time, whatever happened: it is started as above, and a device that comes once
/// it has had the time to settle, and a delay, is served within 2,100 ms in each calm continuation. A device whose
/// unique ID is new holds a node ID that was left, where one is and the log has room for a blank and a pair; one whose
/// unique ID stands in the log holds the node ID that it has there. Then the allocator has settled again.
pub fn who_is_alone_recovers()
    ensures new { (n : ℕ) (rows : List Row) → AreMembers (n ∷ []) → DoNoHarm (cluster (n ∷ [])) rows →
        RecoversForNew n rows }
    ensures again { (n : ℕ) (rows : List Row) → AreMembers (n ∷ []) → DoNoHarm (cluster (n ∷ [])) rows →
        RecoversForKnown n rows }
{
    a_choice_fits();
    allocations_both_ways();
    an_opening_keeps_the_store();
    chosen_is_the_choice();
    delivers_what_comes_whole();
    frames_by_place();
    frames_carry_what_is_cut();
    frames_read_as_their_pieces();
    identifiers_both_ways();
    law_every_run();
    lengths_of_cuttings();
    requests_of_devices_are_requests();
    rows_are_shown();
    rows_grow_by_one();
    the_disk_by_states();
}

/// Quiet rows can go on: behind any quiet rows, from whatever world, there are quiet rows to any later moment, at which
/// nothing waits in the queue, where the period is a millisecond at least.
pub fn quiet_goes_on()
    ensures { QuietGoesOn }
{}

/// The premises can be met: an allocator that never ran is opened, and leads, and rows go on quietly for as long as it
/// takes to settle.
pub fn quiet_can_be()
    ensures start { MayStart 1 empty_store (world_of (1 ∷ []) []) }
    ensures quiet { AreQuiet 1 0 quiet_pace 4010 (no_own_traffic 0) (after_row (world_of (1 ∷ []) []) (Open 1 false 0 0))
        quiet_rows }
    ensures late { time_to_settle quiet_pace 0 empty_store ≤ 4010 }
{}
