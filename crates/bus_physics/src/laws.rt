//! Laws of the definitions, each the contract of a function that does nothing.

ghost use Rattle.std.specs.Prelude.{None, false, true, ◌≡◌, ◌⊎◌, ◌+◌, ◌-◌, ◌*◌, ◌<◌, ◌≤◌, ◌∷◌, ◌++◌, ℕ};
ghost use Rattle.std.specs.Prelude.{[], List, length, Some};
ghost use Rattle.can_frame.specs.Cutting.{frame_count};
ghost use Rattle.can_frame.specs.declared.step.What.{What};
ghost use Rattle.can_frame.specs.declared.step.What.TheVariants.{Alloc, AppQ, Info, VoteQ};
ghost use Rattle.raft_model.specs.Lists.{In};
ghost use Rattle.bus_rows.specs.declared.row.Row.{Row};
ghost use Rattle.alloc_spec.specs.Rules.{Rules};
ghost use Rattle.alloc_spec.specs.Transfers.{SentTransfer};
ghost use Rattle.bus_rows.specs.declared.row.Row.TheVariants.{ARx, Rx};
ghost use Rattle.bus_spec.specs.declared.unlawful.Unlawful.TheVariants.{Stale, Torn};
ghost use Rattle.alloc_spec.specs.ClusterMembers.{AreMembers};
ghost use Rattle.bus_spec.specs.Cluster.{arrival_at, cluster, frame_at, world_of};
ghost use Rattle.bus_spec.specs.Lawful.{AreLawful, cause, no_such_frame};
ghost use Rattle.bus_spec.specs.Refinement.{transfers_of_rows};
ghost use Rattle.bus_physics.specs.Physics.{AllComeInOrder, AllocatesApart, AnswersInOrder, DeviceRowsArePhysical};
ghost use Rattle.bus_physics.specs.Physics.{ClockGoesOn, ComeInOrder};
ghost use Rattle.bus_physics.specs.Physics.{ComeInOrderToDevice, ComesInOrderToDevice, device_heard_by};
ghost use Rattle.bus_physics.specs.Physics.{ComesInOrder, FramesComeInTime};
ghost use Rattle.bus_rows.specs.Timed.{Timed};
ghost use Rattle.bus_physics.specs.Physics.{ClockIsNotFast, HoldsAreShort, Limits, RestsBeforeOpening, UsesIdsApart};
ghost use Rattle.bus_physics.specs.Physics.{WaitsForAnswers, heard_by, lag, window};
ghost use Rattle.bus_rows.specs.Timed.{rows_in};
ghost use Rattle.bus_physics.specs.Physics.{is_long_to_member, may_be_long};
ghost use Rattle.bus_physics.specs.Burst.{frame_numbered, frames_numbered, numbered_from, ticks_from};
ghost use Rattle.bus_physics.specs.Example.{afterwards, at_allocatee, at_member, before as first_rows, everything};
ghost use Rattle.bus_physics.specs.Example.{limits as some_limits, two, two_minutes_later, with_bad_minute};
ghost use Rattle.bus_physics.specs.Reuse.{IsStaleAt, IsTornAt, IsTornAtDevice, LacksFrames};
ghost use Rattle.bus_agreement.specs.Headline.{HasHeadline};
ghost use Rattle.cmd_node_laws.specs.Traces.{Event, MayAllHappen, all_rows};
ghost use Rattle.bus_physics.specs.Processes.{MayAllDo, after_events};
ghost use Rattle.bus_physics.specs.Runs.{StandOnBus};
ghost use Rattle.bus_physics.specs.Schedule.{HappenOnBus, LawfulButForBus, LosesFrames};

use allocatee::laws::sessions_of_a_step;
use bus_agreement::below::{what_is_said_of_a_step, what_is_said_of_frames};
use bus_agreement::headline::{a_choice_fits, lawful_rows_do_no_harm, rows_are_shown};
use cmd_node_laws::laws::traces_do_no_harm;

/// What stands behind a row that is refused as torn or as stale, after lawful rows. What a member sent is torn only of
/// frames of two transfers that it made under one transfer ID, or of frames of one transfer that are not all of it, and
/// an answer is stale only where its call was made under the transfer ID of the call that waits.
pub fn what_is_refused()
    ensures torn { (ids : List ℕ) (rows : List Row) (n k ms : ℕ) → AreMembers ids → AreLawful (cluster ids) rows →
        cause (world_of ids rows) (Rx n k ms) ≡ Some Torn →
        IsTornAt (transfers_of_rows (cluster ids) rows []) (world_of ids rows) n k ms }
    ensures torn_at_a_device { (ids : List ℕ) (rows : List Row) (a k ms word : ℕ) → AreMembers ids →
        AreLawful (cluster ids) rows → cause (world_of ids rows) (ARx a k ms word) ≡ Some Torn →
        IsTornAtDevice (transfers_of_rows (cluster ids) rows []) (world_of ids rows) a k ms }
    ensures stale { (ids : List ℕ) (rows : List Row) (n k ms : ℕ) → AreMembers ids → AreLawful (cluster ids) rows →
        cause (world_of ids rows) (Rx n k ms) ≡ Some Stale →
        IsStaleAt (transfers_of_rows (cluster ids) rows []) (world_of ids rows) n k ms }
{
    a_choice_fits();
    lawful_rows_do_no_harm();
    rows_are_shown();
    what_is_said_of_frames();
}

/// An Allocation that a member made has three frames at the most: a node ID, and a unique ID or the part of one.
pub fn an_allocation_has_at_most_three_frames()
    ensures { (ids : List ℕ) (rows : List Row) (x : SentTransfer) → AreMembers ids → AreLawful (cluster ids) rows →
        In x (transfers_of_rows (cluster ids) rows []) → x.offer.what ≡ Alloc →
        frame_count (length x.offer.payload) ≤ 3 }
{
    a_choice_fits();
    lawful_rows_do_no_harm();
    rows_are_shown();
}

/// What a member made that is no Allocation, no request of Raft and no response of GetNodeInfo has one frame.
pub fn other_transfers_have_one_frame()
    ensures { (ids : List ℕ) (rows : List Row) (x : SentTransfer) → AreMembers ids → AreLawful (cluster ids) rows →
        In x (transfers_of_rows (cluster ids) rows []) → may_be_long x.offer.what ≡ false →
        frame_count (length x.offer.payload) ≤ 1 }
{
    a_choice_fits();
    lawful_rows_do_no_harm();
    rows_are_shown();
}

/// An allocatee on a physical bus, whatever frames are lost, come twice or overtake each other, takes nothing
/// torn: where each frame comes after it was made and within the longest hold, where the allocatee's clock goes
/// on with the time, and where no member uses a transfer ID too soon for two Allocations of which frames come; or where
/// frames come in order, and the allocatee heard another Allocation between the two.
pub fn a_device_puts_nothing_together_of_two()
    ensures { (limits : Limits) (ids : List ℕ) (before : List Timed) (now : Timed) (a k ms word : ℕ) →
        AreMembers ids → limits.drift < 58000 → limits.since ≤ now.at - window limits → now.row ≡ ARx a k ms word →
        AreLawful (cluster ids) (rows_in before) →
        DeviceRowsArePhysical limits (before ++ now ∷ []) a [] (cluster ids) (before ++ now ∷ []) →
        AllocatesApart limits (before ++ now ∷ []) (transfers_of_rows (cluster ids) (rows_in before) [])
        (device_heard_by a (cluster ids) (rows_in before)) (frame_at (world_of ids (rows_in before)).frames k)
        (ComeInOrderToDevice limits (before ++ now ∷ []) a [] (cluster ids) (rows_in before) ×
        ComesInOrderToDevice limits (before ++ now ∷ []) (device_heard_by a (cluster ids) (rows_in before))
        (frame_at (world_of ids (rows_in before)).frames k)) →
        cause (world_of ids (rows_in before)) (ARx a k ms word) ≡ Some Torn → ⊥ }
{
    a_choice_fits();
    an_allocation_has_at_most_three_frames();
    lawful_rows_do_no_harm();
    rows_are_shown();
    sessions_of_a_step();
    what_is_said_of_frames();
}

/// A member makes one call to a node at a time, for 1,000 ms, and forgets it as it stands for election. So a transfer
/// ID of its calls to a node comes round only when more time has passed than a call and its answer may take, or a call
/// behind the first one was answered: where its clock does not run fast, and it rests before it is opened. The 31 calls
/// behind the first take 31 s where they are append requests, and 20 s where they are vote requests. A member that is
/// opened calls nobody for 2,000 ms, since it follows and stands for election only after such a wait: so calls over an
/// opening are as far apart as the rest and these.
pub fn calls_come_round_late()
    ensures { (limits : Limits) (ids : List ℕ) (before : List Timed) (now : Timed) (n : ℕ) → AreMembers ids →
        HoldsAreShort limits → AreLawful (cluster ids) (rows_in before) →
        ClockIsNotFast limits n [] (cluster ids) before →
        RestsBeforeOpening limits (before ++ now ∷ []) (transfers_of_rows (cluster ids) (rows_in before) []) n →
        WaitsForAnswers limits (before ++ now ∷ []) (transfers_of_rows (cluster ids) (rows_in before) [])
        (heard_by n (cluster ids) (rows_in before)) n }
{
    what_is_said_of_a_step();
    what_is_said_of_frames();
    a_choice_fits();
    lawful_rows_do_no_harm();
    rows_are_shown();
}

/// The answers of another node come to a member in the order of the calls, where the frames of one kind, number and
/// source come to each member in the order in which they were made. Each may come more than once.
pub fn answers_come_in_order()
    ensures { (limits : Limits) (all : List Timed) (ids : List ℕ) (rows : List Row) (n k : ℕ) → AreMembers ids →
        AreLawful (cluster ids) rows → no_such_frame (world_of ids rows) k ≡ None →
        AllComeInOrder limits all ids (cluster ids) rows →
        ComesInOrder limits all n (heard_by n (cluster ids) rows) (frame_at (world_of ids rows).frames k) →
        AnswersInOrder limits all n (heard_by n (cluster ids) rows) (frame_at (world_of ids rows).frames k) }
{
    a_choice_fits();
    lawful_rows_do_no_harm();
    rows_are_shown();
    what_is_said_of_a_step();
    what_is_said_of_frames();
}

/// Of the transfer IDs of Raft's calls nothing is asked. Where one of the calls of a member to another comes round, so
/// much time has passed that frames of the two are not put together, or the other member heard a call between, and not
/// only that under the transfer ID just before. Of the 31 calls between, each that was not answered takes 1,000 ms, and
/// whoever answered one had heard its first frame.
pub fn calls_come_apart()
    ensures { (limits : Limits) (ids : List ℕ) (before : List Timed) (now : Timed) (n : ℕ) (what : What) →
        AreMembers ids → HoldsAreShort limits → AreLawful (cluster ids) (rows_in before) →
        ((m : ℕ) → In m ids → ClockIsNotFast limits m [] (cluster ids) before) →
        ((m : ℕ) → In m ids → RestsBeforeOpening limits (before ++ now ∷ [])
        (transfers_of_rows (cluster ids) (rows_in before) []) m) →
        ComeInOrder limits (before ++ now ∷ []) n [] (cluster ids) (rows_in before) → (what ≡ AppQ) ⊎ (what ≡ VoteQ) →
        UsesIdsApart limits (before ++ now ∷ []) (transfers_of_rows (cluster ids) (rows_in before) [])
        (heard_by n (cluster ids) (rows_in before)) n what }
{
    what_is_said_of_a_step();
    what_is_said_of_frames();
    a_choice_fits();
    lawful_rows_do_no_harm();
    rows_are_shown();
}

/// A member on a physical bus, whatever frames are lost, takes no response to an earlier call: where each frame comes
/// after it was made and within the longest hold, where the member's clock goes on with the time and does not run fast,
/// where frames come to each member in order, each once or more often, and where the member rests before it is opened.
pub fn no_response_outlives_its_transfer_id()
    ensures { (limits : Limits) (ids : List ℕ) (before : List Timed) (now : Timed) (n k ms : ℕ) →
        AreMembers ids → HoldsAreShort limits → limits.since ≤ now.at - window limits → now.row ≡ Rx n k ms →
        AreLawful (cluster ids) (rows_in before) →
        FramesComeInTime limits (before ++ now ∷ []) (cluster ids) (before ++ now ∷ []) →
        ClockGoesOn limits n [] (cluster ids) (before ++ now ∷ []) → ClockIsNotFast limits n [] (cluster ids) before →
        AllComeInOrder limits (before ++ now ∷ []) ids (cluster ids) (rows_in before) →
        ComesInOrder limits (before ++ now ∷ []) n (heard_by n (cluster ids) (rows_in before))
        (frame_at (world_of ids (rows_in before)).frames k) →
        RestsBeforeOpening limits (before ++ now ∷ []) (transfers_of_rows (cluster ids) (rows_in before) []) n →
        cause (world_of ids (rows_in before)) (Rx n k ms) ≡ Some Stale → ⊥ }
{
    answers_come_in_order();
    calls_come_round_late();
    what_is_refused();
    what_is_said_of_a_step();
    what_is_said_of_frames();
    a_choice_fits();
    lawful_rows_do_no_harm();
    rows_are_shown();
}

/// A member on such a bus, to which frames of one kind and source come in the order in which they were made, puts
/// nothing together of two transfers, where a transfer ID of the requests of Raft to it, or of the responses of
/// GetNodeInfo, comes round only so late, or behind a transfer that it heard. What else it takes of members has one
/// frame. So a row is refused as torn only where one transfer of four frames or more lacks frames, and its CRC fits
/// all the same.
pub fn a_member_puts_nothing_together_of_two()
    ensures { (limits : Limits) (ids : List ℕ) (before : List Timed) (now : Timed) (n k ms : ℕ) →
        AreMembers ids → lag limits < 58000 → limits.since ≤ now.at - window limits → now.row ≡ Rx n k ms →
        AreLawful (cluster ids) (rows_in before) →
        FramesComeInTime limits (before ++ now ∷ []) (cluster ids) (before ++ now ∷ []) →
        ClockGoesOn limits n [] (cluster ids) (before ++ now ∷ []) →
        ComeInOrder limits (before ++ now ∷ []) n [] (cluster ids) (rows_in before) →
        ComesInOrder limits (before ++ now ∷ []) n (heard_by n (cluster ids) (rows_in before))
        (frame_at (world_of ids (rows_in before)).frames k) →
        ((what : What) → is_long_to_member what ≡ true → UsesIdsApart limits (before ++ now ∷ [])
        (transfers_of_rows (cluster ids) (rows_in before) []) (heard_by n (cluster ids) (rows_in before)) n what) →
        cause (world_of ids (rows_in before)) (Rx n k ms) ≡ Some Torn →
        (moment : ℕ) × LacksFrames (transfers_of_rows (cluster ids) (rows_in before) [])
        (arrival_at (frame_at (world_of ids (rows_in before)).frames k) moment) }
{
    other_transfers_have_one_frame();
    what_is_said_of_a_step();
    what_is_said_of_frames();
    a_choice_fits();
    lawful_rows_do_no_harm();
    rows_are_shown();
}

/// The premises can be met: in this cluster a member hears a frame of another one twice, as CAN repeats it, and an
/// allocatee hears it too. Beyond a minute a clock may lose (`slow`) and gain (`quick`) more than the drift and a turn.
/// A frame that comes a minute late breaks the premises (`bad`), and so does a turn of 1,500 ms (`slow_turn`). The
/// premises of a frame that comes 13 s behind both hold (`healed`). Of forty Allocations within half a second an
/// allocatee may hear the first thirty-two (`burst`), or the last (`last`); and where nothing is said of the order of
/// their frames, not one more (`more`).
pub fn premises_can_be_met()
    ensures lawful { AreLawful (cluster two) (rows_in first_rows) }
    ensures clock { ClockGoesOn some_limits 2 [] (cluster two) (first_rows ++ at_member ∷ []) }
    ensures comes { FramesComeInTime some_limits (first_rows ++ at_member ∷ []) (cluster two)
        (first_rows ++ at_member ∷ []) }
    ensures physical { DeviceRowsArePhysical some_limits (first_rows ++ at_allocatee ∷ []) 1 [] (cluster two)
        (first_rows ++ at_allocatee ∷ []) }
    ensures apart { UsesIdsApart some_limits (first_rows ++ at_member ∷ [])
        (transfers_of_rows (cluster two) (rows_in first_rows) []) (heard_by 2 (cluster two) (rows_in first_rows))
        2 Info }
    ensures frames { ComeInOrder some_limits (first_rows ++ at_member ∷ []) 2 [] (cluster two)
        (rows_in (first_rows ++ at_member ∷ [])) }
    ensures short { HoldsAreShort some_limits }
    ensures fast { (m : ℕ) → In m two → ClockIsNotFast some_limits m [] (cluster two) first_rows }
    ensures slow { ClockGoesOn some_limits 2 [] (cluster two) (first_rows ++ two_minutes_later 120440 ∷ []) }
    ensures quick { ClockIsNotFast some_limits 2 [] (cluster two) (first_rows ++ two_minutes_later 120560 ∷ []) }
    ensures rests { (m : ℕ) → RestsBeforeOpening some_limits (first_rows ++ at_member ∷ [])
        (transfers_of_rows (cluster two) (rows_in first_rows) []) m }
    ensures orders { AllComeInOrder some_limits everything two (cluster two) (rows_in (first_rows ++ at_member ∷ [])) }
    ensures member { cause (world_of two (rows_in first_rows)) at_member.row ≡ None }
    ensures allocatee { cause (world_of two (rows_in first_rows)) at_allocatee.row ≡ None }
    ensures bus { HappenOnBus some_limits two [] everything }
    ensures otherwise { LawfulButForBus (cluster two) (rows_in everything) }
    ensures bad { FramesComeInTime some_limits with_bad_minute (cluster two) with_bad_minute → ⊥ }
    ensures slow_turn { ClockGoesOn some_limits 2 [] (cluster two) with_bad_minute → ⊥ }
    ensures but_lawful { AreLawful (cluster two) (rows_in (with_bad_minute ++ afterwards ∷ [])) }
    ensures healed { HappenOnBus some_limits two with_bad_minute (afterwards ∷ []) }
    ensures burst { AllocatesApart some_limits (ticks_from 0 40) (numbered_from 0 40) (frames_numbered 0 31)
        (frame_numbered 31) ⊥ }
    ensures last { AllocatesApart some_limits (ticks_from 0 40) (numbered_from 0 40) (frames_numbered 8 31)
        (frame_numbered 39) ⊥ }
    ensures more { AllocatesApart some_limits (ticks_from 0 40) (numbered_from 0 40) (frames_numbered 0 32)
        (frame_numbered 32) ⊥ → ⊥ }
{}

/// On a physical bus a schedule whose rows are otherwise lawful is lawful, whatever frames are lost: but for a row at
/// which one transfer of four frames or more lacks frames, and its CRC fits all the same. So the two premises on what
/// is torn and stale follow from when frames come, how clocks go on, the order of frames, how long members rest before
/// they are opened, and when the transfer IDs of Allocations, and of responses of GetNodeInfo, are used again.
pub fn schedules_on_a_bus_are_lawful()
    ensures { (limits : Limits) (ids : List ℕ) (all : List Timed) → AreMembers ids →
        HoldsAreShort limits → HappenOnBus limits ids [] all → LawfulButForBus (cluster ids) (rows_in all) →
        AreLawful (cluster ids) (rows_in all) ⊎ LosesFrames ids all }
{
    a_bad_minute_is_over();
}

/// It heals: whatever happened before, once the rows since are asked of alone, and come as a bus brings them, and the
/// rows before were lawful in fact, all that follow are lawful, or a transfer loses frames. What is asked of a row is
/// asked of what happened lately before it (`window`). So one bad minute takes nothing from what comes later.
pub fn a_bad_minute_is_over()
    ensures { (limits : Limits) (ids : List ℕ) (before rest : List Timed) → AreMembers ids → HoldsAreShort limits →
        AreLawful (cluster ids) (rows_in before) → HappenOnBus limits ids before rest →
        LawfulButForBus (world_of ids (rows_in before)) (rows_in rest) →
        AreLawful (world_of ids (rows_in before)) (rows_in rest) ⊎ LosesFrames ids (before ++ rest) }
{
    a_device_puts_nothing_together_of_two();
    a_member_puts_nothing_together_of_two();
    calls_come_apart();
    no_response_outlives_its_transfer_id();
}

/// The same of processes of `node`: in a trace whose rows happen on a physical bus from some event on, what comes from
/// the bus may come, but where frames are lost. So the headline needs no premise on what is torn or stale from then on.
pub fn traces_on_a_bus_may_happen()
    ensures may { (limits : Limits) (ids : List ℕ) (past trace : List Event) (earlier all : List Timed) →
        AreMembers ids → HoldsAreShort limits → MayAllHappen past (cluster ids) →
        AreLawful (cluster ids) (rows_in earlier) → rows_in earlier ≡ all_rows past (cluster ids) →
        rows_in all ≡ all_rows trace (after_events ids past) → HappenOnBus limits ids earlier all →
        MayAllDo trace (after_events ids past) →
        MayAllHappen (past ++ trace) (cluster ids) ⊎ LosesFrames ids (earlier ++ all) }
    ensures headline { (limits : Limits) (ids : List ℕ) (past trace : List Event) (earlier all : List Timed) →
        AreMembers ids → HoldsAreShort limits → MayAllHappen past (cluster ids) →
        AreLawful (cluster ids) (rows_in earlier) → rows_in earlier ≡ all_rows past (cluster ids) →
        rows_in all ≡ all_rows trace (after_events ids past) → HappenOnBus limits ids earlier all →
        MayAllDo trace (after_events ids past) →
        HasHeadline ids (all_rows (past ++ trace) (cluster ids)) ⊎ LosesFrames ids (earlier ++ all) }
{
    a_device_puts_nothing_together_of_two();
    a_member_puts_nothing_together_of_two();
    calls_come_apart();
    no_response_outlives_its_transfer_id();
    traces_do_no_harm();
}

/// So a run of `node` whose trace happens on a physical bus stands in it, or a transfer loses frames.
pub fn runs_stand_on_a_bus()
    ensures { (rules : Rules) (mine : List ℕ) → StandOnBus rules mine }
{
    traces_on_a_bus_may_happen();
}
