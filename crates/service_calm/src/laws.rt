//! The laws of this crate, each the contract of a function that does nothing.

ghost use Rattle.std.specs.Prelude.{◌≢◌, ◌*◌, ◌≤◌, ◌∷◌, ◌++◌, ℕ, List, [], ◌+◌, ◌<◌};
ghost use Rattle.alloc_spec.specs.Transfers.{id_of};
ghost use Rattle.can_frame.specs.Timing.{transfer_timeout};
ghost use Rattle.can_frame.specs.declared.step.What.TheVariants.{Alloc};
ghost use Rattle.service_calm.specs.Calls.{Calls, CallsAreHeard, CallsReadAsSaid, CalmLeavesFollowers, ListsStay};
ghost use Rattle.service_calm.specs.CalmBelow.{CalmGrounds};
ghost use Rattle.service_calm.specs.CallsInTime.{LeadersCallInTime};
ghost use Rattle.service_calm.specs.Calm.{AreCalm, AreRunning, Device, Member, no_traffic};
ghost use Rattle.service_calm.specs.CalmExample.{IsOffered, append_offer, append_rows, append_said, calm_rows};
ghost use Rattle.service_calm.specs.CalmExample.{clocks, first_rows, group, leading_row, leading_world, pace};
ghost use Rattle.service_calm.specs.CalmExample.{receiver, sender, sending_row, start, status_offer, then_world, two};
ghost use Rattle.service_calm.specs.CalmExample.{vote_offer, vote_rows};
ghost use Rattle.service_calm.specs.Comes.{EachComesWhole, EachResponseComesWhole, HasMemory, Sends, Throughout};
ghost use Rattle.service_calm.specs.Devices.{AllocationMayBegin, AllocationsComeInCalm, AreReadyToTell, Asks};
ghost use Rattle.service_calm.specs.Devices.{DeviceHasMemory, RequestsComeInCalm, SendsShortAllocations};
ghost use Rattle.service_calm.specs.DevicesExample.{allocation_offer, answering_row, answering_world, asker};
ghost use Rattle.service_calm.specs.DevicesExample.{asking_group, asking_row, asking_rows, asking_start};
ghost use Rattle.service_calm.specs.DevicesExample.{asking_world, rows_before};
ghost use Rattle.service_calm.specs.GoesOn.{CalmGoesOn};
ghost use Rattle.alloc_spec.specs.ClusterMembers.{AreMembers};
ghost use Rattle.bus_spec.specs.Cluster.{cluster};
ghost use Rattle.bus_spec.specs.Lawful.{DoNoHarm};
ghost use Rattle.raft_model.specs.Lists.{In};
ghost use Rattle.bus_rows.specs.declared.row.Row.{Row};

use alloc_spec_laws::laws::{
    members_of_a_step, steps_stay_in_range, transfers_of_a_step_are_apart,
};
use allocatee::laws::{its_frames_are_anonymous, sessions_of_a_step};
use bus_agreement::below::{
    what_a_step_keeps, what_is_said_of_a_step, what_is_said_of_frames, what_is_said_of_messages,
};
use bus_agreement::headline::{a_choice_fits, rows_are_shown, rows_grow_by_one};
use bus_agreement::transfers::what_a_row_delivers_is_one_transfer;
use can_frame::laws::{frames_carry_what_is_cut, lengths_of_cuttings};
use raft_model::laws::law_every_run;
use service_steps::laws::{
    followers_follow_on, requests_are_delivered, requests_of_devices_are_requests,
    steps_are_in_time,
};
use transfer_rx::laws::delivers_what_comes_whole;

/// In a calm each message, each request and each response comes whole, and in time. After every list of rows that do no
/// harm, members that run and devices may go on calmly: they read their clocks, send what waits, and receive each
/// other's frames, each once and in the order of the bus, while nobody stops and nothing comes from outside. A transfer
/// that a member sends then is delivered by each other member that hears it, with its payload and its transfer ID,
/// within two delays, or the calm is over by then. This asks that two delays are no longer than a transfer is
/// remembered; that the receiver has a session and nine blocks left all the time; and that no frame with its identifier
/// waits when the calm begins. The first transfer of its sort in the calm has to have an ID that the receiver's session
/// does not refuse. Of messages and requests (`counted`) the IDs behind it follow, so they need no premise; of
/// responses (`responses`) each has to have another ID than the one before it.
pub fn each_transfer_comes_whole()
    ensures counted { (ids : List ℕ) (rows : List Row) → AreMembers ids → DoNoHarm (cluster ids) rows →
        EachComesWhole ids rows }
    ensures responses { (ids : List ℕ) (rows : List Row) → AreMembers ids → DoNoHarm (cluster ids) rows →
        EachResponseComesWhole ids rows }
{
    what_calms_stand_on();
}

/// A calm can go on: behind any calm rows, from whatever world, there are calm rows to any later moment, where the
/// group has a party, and the period and the delay are a millisecond at least.
pub fn calm_goes_on()
    ensures { CalmGoesOn }
{}

/// A leader's call is heard in time. In a calm as above, a member calls another: it sends an append request for which
/// its queue has room. The call comes to the other within two delays, or the calm is over by then. Where the other
/// lists the caller by then, and its term is below the call's, or the same while it does not lead, it hears a leader
/// there: it follows when that row is over, and its wait for an election begins at that moment of its own clock.
pub fn calls_are_heard()
    ensures { (ids : List ℕ) (rows : List Row) → AreMembers ids → DoNoHarm (cluster ids) rows →
        CallsAreHeard ids rows }
{
    each_transfer_comes_whole();
    steps_are_in_time();
    what_calms_stand_on();
}

/// The bytes of a call read as the request of the Raft model that the call says. So it is behind all rows that do no
/// harm, in a row that does none, where the caller runs and no call of its disk is set to fail.
pub fn calls_read_as_said()
    ensures { (ids : List ℕ) (rows : List Row) → AreMembers ids → DoNoHarm (cluster ids) rows →
        CallsReadAsSaid ids rows }
{
    what_calms_stand_on();
}

/// Who is on the list of a member that runs stays there in a calm. So a member that lists the caller when the calm
/// begins, or later, lists it when the call comes.
pub fn who_is_listed_stays()
    ensures { ListsStay }
{
    members_of_a_step();
}

/// A member that hears a leader follows on in a calm, as long as its clock reads less than the moment at which it heard
/// the leader and the least wait more: it does not stand for election before.
pub fn followers_follow_on_in_calm()
    ensures { CalmLeavesFollowers }
{
    followers_follow_on();
    steps_are_in_time();
}

/// A leader calls each member often enough, in a calm. While a member leads, it offers an append request to each other
/// member of its list by a period behind the moment at which its clock reads the call timeout more than at its last
/// call to that member, or the calm is over by then. The stretch begins at any row of the calm, so that moment is no
/// earlier than the row before, and than the leader's last tick. The last call is what the leader keeps: the pending
/// call, which may be a vote request from before it won, and its last append request. Its queue may have no room for
/// what it offers.
pub fn leaders_call_in_time()
    ensures { LeadersCallInTime }
{
    members_of_a_step();
    steps_are_in_time();
    what_is_said_of_a_step();
}

/// The premises can be met: two members that are told their list run, a device comes, and in calm rows one member sends
/// its NodeStatus (`status`) and asks the other one for its vote (`vote`), gets it, and calls it (`append`, `call`).
/// The other one hears all three, and the rows go on for more than two delays.
pub fn calm_can_be()
    ensures members { AreMembers two }
    ensures harmless { DoNoHarm (cluster two) first_rows }
    ensures listed { (p : ℕ) → In (Member p) group → In p two }
    ensures running { AreRunning group then_world }
    ensures from { In (Member sender) group }
    ensures to { In (Member receiver) group }
    ensures apart { sender ≢ receiver }
    ensures quick { 2 * pace.delay ≤ transfer_timeout }
    ensures calm { AreCalm group clocks pace (no_traffic start) then_world calm_rows }
    ensures memory { Throughout (HasMemory receiver) then_world calm_rows }
    ensures status { IsOffered [] sending_row (vote_rows ++ leading_row ∷ append_rows) status_offer }
    ensures vote { IsOffered [] sending_row (vote_rows ++ leading_row ∷ append_rows) vote_offer }
    ensures append { IsOffered (sending_row ∷ vote_rows) leading_row append_rows append_offer }
    ensures call { Calls sender receiver leading_world leading_row.row append_offer append_said }
{}

/// Each member hears what a device asks, in time. In a calm as above, a device reads its clock and offers a request,
/// for which its queue has room. Whatever waits there, each member of the group receives the request's frame within two
/// delays, or the calm is over by then; and its receiver delivers it, whatever sessions it has. The request says what
/// the device's state says: the node ID that it prefers, of seven bits, and the next bytes of its unique ID.
pub fn requests_come_in_calm()
    ensures { (ids : List ℕ) (rows : List Row) → AreMembers ids → DoNoHarm (cluster ids) rows →
        RequestsComeInCalm ids rows }
{
    requests_are_delivered();
    requests_of_devices_are_requests();
    what_calms_stand_on();
}

/// Each device hears the Allocations of the members, in time. In a calm as above, a member sends an Allocation, for
/// which its queue has room. It comes whole to each device of the group within two delays, or the calm is over by then:
/// the device's receiver delivers it, with its payload and its transfer ID. This asks that two delays are no longer
/// than a transfer is remembered; that the device's receiver has a session and a block left all the time; that no frame
/// of an Allocation of this member waits when the calm begins, and the device's session does not refuse the first one's
/// ID; and that each Allocation that this member sends then has three frames at most, as all have in lawful rows: a node
/// ID and a unique ID.
pub fn allocations_come_in_calm()
    ensures { (ids : List ℕ) (rows : List Row) → AreMembers ids → DoNoHarm (cluster ids) rows →
        AllocationsComeInCalm ids rows }
{
    sessions_of_a_step();
    what_calms_stand_on();
}

/// The premises on devices can be met, behind the calm rows of the example: a device asks (`asks`), the member that
/// leads hears it and sends an Allocation (`sends`), and its frame comes to the device. The rows go on for more than two
/// delays.
pub fn devices_can_be_heard()
    ensures harmless { DoNoHarm (cluster two) rows_before }
    ensures listed { (p : ℕ) → In (Member p) asking_group → In p two }
    ensures running { AreRunning asking_group asking_world }
    ensures from { In (Member sender) asking_group }
    ensures to { In (Device asker) asking_group }
    ensures calm { AreCalm asking_group clocks pace (no_traffic asking_start) asking_world asking_rows }
    ensures asks { (asks : Asks asker asking_world asking_row.row) × (asks.device.asking.preferred < 128) }
    ensures ready { (ready : AreReadyToTell sender asker asking_world)
        × AllocationMayBegin sender ready.device (id_of ready.sender.ids Alloc 0) }
    ensures memory { Throughout (DeviceHasMemory asker) asking_world asking_rows }
    ensures short { SendsShortAllocations sender asking_world asking_rows }
    ensures sends { Sends sender answering_world answering_row.row allocation_offer }
{}

/// What the laws of a calm stand on: what is said below of frames, messages and steps, of devices, of rows that do no
/// harm, and of the runs of the Raft model. The laws of elections, rounds and service in a calm stand on it too.
pub fn what_calms_stand_on()
    ensures { CalmGrounds }
{
    a_choice_fits();
    delivers_what_comes_whole();
    frames_carry_what_is_cut();
    its_frames_are_anonymous();
    law_every_run();
    lengths_of_cuttings();
    members_of_a_step();
    rows_are_shown();
    rows_grow_by_one();
    steps_stay_in_range();
    transfers_of_a_step_are_apart();
    what_a_row_delivers_is_one_transfer();
    what_a_step_keeps();
    what_is_said_of_a_step();
    what_is_said_of_frames();
    what_is_said_of_messages();
}
