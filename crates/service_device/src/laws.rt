//! The laws of this crate, each the contract of a function that does nothing.

ghost use Rattle.service_device.specs.Asking.{AskingDevicesAreHeardOut};
ghost use Rattle.service_device.specs.AskingKnown.{HeardKnownDevicesAreTold, RecordedDevicesAreServed};
ghost use Rattle.service_device.specs.AskingKnown.{WhoFollowsFallsSilent};
ghost use Rattle.service_device.specs.AskingServed.{HeardDevicesAreServed};
ghost use Rattle.service_device.specs.Dialog.{DevicesAreHeardOut, KnownDevicesAreTold};
ghost use Rattle.service_device.specs.Recorded.{EachRowKeepsTheLog, LeaderSettles, LogStaysUnasked};
ghost use Rattle.service_device.specs.Recorded.{LogStaysUncommitted, SettledLeads};
ghost use Rattle.service_device.specs.Requests.{AllocationsHaveParts, DevicesGoOnTelling, DevicesTellParts};
ghost use Rattle.service_device.specs.Requests.{DevicesThatComeTell, PartsAreJoined, RequestsAreTheDevices};
ghost use Rattle.service_device.specs.Requests.{WholeIsTheDevices};
ghost use Rattle.service_device.specs.Served.{IsServedBy, LeadersLoseNothing, NewDevicesAreRecorded};
ghost use Rattle.service_device.specs.Served.{NewDevicesAreServed, NewPairsAreCommitted, NewPairsAreOffered};
ghost use Rattle.service_device.specs.Served.{time_to_be_committed, time_to_be_served};
ghost use Rattle.service_device.specs.ServedExample.{DevicesMayBeServed, before_world, first_log, served_pace};
ghost use Rattle.service_device.specs.ServedExample.{served_rows, served_start};
ghost use Rattle.service_device.specs.ServedTold.{HasSettledWithPairBy, NewPairsAreTold};
ghost use Rattle.service_device.specs.ServiceBelow.{ServiceGrounds};
ghost use Rattle.service_device.specs.Settled.{AllRowsLeaveItSettled, EachRowLeavesItSettled};
ghost use Rattle.service_device.specs.Settles.{LeadersAddTheirBlanks, LeadersSettle, LeadersSettleUnasked};
ghost use Rattle.service_device.specs.Tidy.{DiscoveriesMissNobody, FitMembersLead, MembersAskNobody, MembersStayFit};
ghost use Rattle.service_device.specs.Tidy.{MembersStayTidy};
ghost use Rattle.service_device.specs.Tidy.{OpenedMembersAreReady, TidyMembersAreFit, TidyMembersComeToLead};
ghost use Rattle.service_device.specs.Tidy.{TidyMembersLead, TidyMembersMissNobody, WhoLeadsHasComeToLead};
ghost use Rattle.service_calm.specs.Calm.{Member};
ghost use Rattle.service_calm.specs.CalmExample.{clocks, sender, some_uid, two};
ghost use Rattle.alloc_spec.specs.ClusterMembers.{AreMembers};
ghost use Rattle.bus_spec.specs.Cluster.{cluster};
ghost use Rattle.bus_spec.specs.Lawful.{DoNoHarm};
ghost use Rattle.bus_rows.specs.declared.row.Row.{Row};
ghost use Rattle.std.specs.Prelude.{List, ℕ, ◌+◌};

use alloc_spec_laws::laws::{duty_of_a_step, members_of_a_step};
use allocatee::laws::{a_node_id_is_given_for_good, sessions_of_a_step, what_is_fine_is_not_torn};
use bus_agreement::allocatees::the_allocatees;
use bus_agreement::headline::the_headline;
use dsdl_codec::laws::allocations_both_ways;
use id_selector::laws::chosen_is_the_choice;
use raft_model::laws::{law_decisions, law_fit, law_members};
use service_calm::laws::{
    allocations_come_in_calm, calm_can_be, what_calms_stand_on, who_is_listed_stays,
};
use service_leader::laws::{
    calls_return_to_who_leads_on, entries_are_committed_in_time, entries_come_in_time,
    what_entries_stand_on,
};
use service_steps::laws::{
    a_leader_follows_up, a_leader_records_the_pair, requests_are_delivered,
    requests_of_devices_are_requests,
};

/// Who has settled stays settled in a calm in which it leads from some moment on, and the others follow: a leader that
/// has committed and told its whole log, knows each node that is online, and owes no Discovery. So it is behind each
/// row from there on, at the moment of that row, with the same log; and it has accepted the same requests, where no
/// request of a device comes in the row. A request that comes is taken as an exchange takes it in which follow-ups may
/// be given; or it makes a unique ID whole that the log lacks, and the log grows by it: of what comes then nothing is
/// said. The leader lists each other member, so each node that says in a calm that it is online is known. Who sends it
/// a Discovery has to name as many nodes as the cluster has members: a shorter list has to be answered.
pub fn who_has_settled_stays_settled()
    ensures row { (ids : List ℕ) (rows : List Row) → AreMembers ids → DoNoHarm (cluster ids) rows →
        EachRowLeavesItSettled ids rows }
    ensures all { (ids : List ℕ) (rows : List Row) → AreMembers ids → DoNoHarm (cluster ids) rows →
        AllRowsLeaveItSettled ids rows }
{
    what_service_stands_on();
}

/// A leader's log stays as it is in such a calm, whether the whole of it is committed or not, until a request of a
/// device makes it grow. So it is behind each row (`row`), and the leader is left as it was in all else that counts: it
/// adds no blank, its clock has not fallen, it knows each node that is online, and it owes no Discovery. Where the log
/// grows, the leader goes on so with the longer log. While its log is not committed, it gives no follow-up, so nothing
/// is recorded, whatever devices ask (`uncommitted`). Who has settled leads so (`leads`), and who leads so has settled
/// once it has committed and told its whole log (`settles`).
pub fn a_leaders_log_stays()
    ensures leads { SettledLeads }
    ensures settles { LeaderSettles }
    ensures row { (ids : List ℕ) (rows : List Row) → AreMembers ids → DoNoHarm (cluster ids) rows →
        EachRowKeepsTheLog ids rows }
    ensures uncommitted { (ids : List ℕ) (rows : List Row) → AreMembers ids → DoNoHarm (cluster ids) rows →
        LogStaysUncommitted ids rows }
    ensures unasked { (ids : List ℕ) (rows : List Row) → AreMembers ids → DoNoHarm (cluster ids) rows →
        LogStaysUnasked ids rows }
{
    what_service_stands_on();
}

/// A device that asks is heard out in time by a leader that has settled. In a calm as above, at a pace of which a
/// period and four delays take 100 ms at most, the only device of the group has just come, and a member leads that has
/// committed and told its whole log. The device asks; the leader follows up twice, and hears the whole unique ID within
/// 1,800 ms, three periods and ten delays, or the calm is over by then. Before that row it has settled with the same
/// log, and the device waits for two delays more at least. This asks what [`who_has_settled_stays_settled`]
/// asks; that in all rows the device has memory for what comes, and the leader's queue has room for an Allocation; and
/// that when the calm begins no frame of an Allocation waits in a member's queue, and no request counts any more that
/// another member accepted. Then the leader sends an Allocation only where it is asked, and the others send none.
pub fn devices_are_heard_out_in_calm()
    ensures { (ids : List ℕ) (rows : List Row) → AreMembers ids → DoNoHarm (cluster ids) rows →
        DevicesAreHeardOut ids rows }
{
    what_service_stands_on();
    who_has_settled_stays_settled();
}

/// A device that asks, and whose unique ID stands in the leader's log, is told its node ID in time. In a calm as above,
/// and where the same is asked, it holds the node ID that the log has within 1,800 ms, three periods and twelve delays,
/// or the calm is over by then; and then the leader has settled with the same log.
pub fn known_devices_are_told_in_calm()
    ensures { (ids : List ℕ) (rows : List Row) → AreMembers ids → DoNoHarm (cluster ids) rows →
        KnownDevicesAreTold ids rows }
{
    what_service_stands_on();
    who_has_settled_stays_settled();
}

/// A device that asks, and whose unique ID is new, is recorded in time. In a calm as above, and where the same is
/// asked: the leader knows all members, its log lacks the unique ID and has room, and a node ID is left, which is none
/// of a member and stands in no entry of the log. Then, in the row in which it hears the whole unique ID, its log grows
/// by it and by a node ID that was left, within 1,800 ms, three periods and ten delays, or the calm is over by then.
pub fn new_devices_are_recorded_in_calm()
    ensures { (ids : List ℕ) (rows : List Row) → AreMembers ids → DoNoHarm (cluster ids) rows →
        NewDevicesAreRecorded ids rows }
{
    devices_are_heard_out_in_calm();
    what_service_stands_on();
}

/// A leader loses nothing in a calm as above, in which it leads throughout and its calls find room in its queue.
/// Between any two moments its log grows behind its end alone: no entry that it has is dropped, moved or changed. And
/// of a member with which it is in step when the calm begins, the places that it knows the member to have do not become
/// fewer.
pub fn leaders_lose_nothing_in_calm()
    ensures { (ids : List ℕ) (rows : List Row) → AreMembers ids → DoNoHarm (cluster ids) rows →
        LeadersLoseNothing ids rows }
{
    what_entries_stand_on();
}

/// The pair of a new device is committed in time. In a calm as for [`new_devices_are_recorded_in_calm`], in which the
/// leader's calls find room in its queue, and in which followers that have its whole log when the calm begins, that are
/// in step with it and can exchange calls and answers with it, are a quorum with it: within four periods and 18 delays
/// and 1,800 ms its log begins with the former one and the pair, and it has committed both, or the calm is over by
/// then. It loses nothing meanwhile, as [`leaders_lose_nothing_in_calm`] says.
pub fn new_pairs_are_committed_in_calm()
    ensures { (ids : List ℕ) (rows : List Row) → AreMembers ids → DoNoHarm (cluster ids) rows →
        NewPairsAreCommitted ids rows }
{
    leaders_lose_nothing_in_calm();
    new_devices_are_recorded_in_calm();
    what_service_stands_on();
}

/// The pair of a new device is told in time. In a calm as for [`new_pairs_are_committed_in_calm`], the leader tells it
/// in the row in which it commits it: it offers an Allocation with the unique ID and a node ID that was left, within
/// the same time, or the calm is over by then. Whether its queue has room for it is not said.
pub fn new_pairs_are_offered_in_calm()
    ensures { (ids : List ℕ) (rows : List Row) → AreMembers ids → DoNoHarm (cluster ids) rows →
        NewPairsAreOffered ids rows }
{
    leaders_lose_nothing_in_calm();
    new_devices_are_recorded_in_calm();
    what_service_stands_on();
}

/// The pair of a new device is told in time. In a calm as for [`new_pairs_are_committed_in_calm`], in which the leader
/// has room in each of its steps for the frames of the next pair, and room in its log for one entry more: within four
/// periods and 18 delays and 1,800 ms it has settled with its former log and the pair, which is committed and told, or
/// the calm is over by then. So the next device can be heard out. Whether the device hears it is not said.
pub fn new_pairs_are_told_in_calm()
    ensures { (ids : List ℕ) (rows : List Row) → AreMembers ids → DoNoHarm (cluster ids) rows →
        NewPairsAreTold ids rows }
{
    a_leaders_log_stays();
    leaders_lose_nothing_in_calm();
    new_devices_are_recorded_in_calm();
    new_pairs_are_committed_in_calm();
    what_service_stands_on();
}

/// A new device is served in time. In a calm as for [`new_pairs_are_offered_in_calm`], in which the leader's queue has
/// room for each pair that it tells, and each Allocation that it sends has three frames at most: the device holds a
/// node ID that was left, within four periods, 20 delays and 1,800 ms, or the calm is over by then. Where it asks again
/// meanwhile, it takes the Allocation all the same.
pub fn new_devices_are_served_in_calm()
    ensures { (ids : List ℕ) (rows : List Row) → AreMembers ids → DoNoHarm (cluster ids) rows →
        NewDevicesAreServed ids rows }
{
    new_pairs_are_offered_in_calm();
    what_service_stands_on();
}

/// Members stay fit in a calm, whoever leads. A member is tidy where nothing keeps it from serving once it leads: it
/// runs over a disk of which no call is set to fail, its clock has not fallen, it has accepted no request, it lists
/// each node that is online, it knows all members, and it owes no Discovery. So each member is behind each front of a
/// calm without devices, at the moment of its own clock, where each is when the calm begins, and lists each other one,
/// and no frame of a Discovery waits (`tidy`). Beside devices it may have accepted requests, the last one not after the
/// moment; all else stays so, whatever devices ask, and whatever is recorded (`fit`). A tidy member is fit (`are`). It
/// would not be enough that its log has a node that is online and not listed: the log of a member that follows may lose
/// what it had.
pub fn members_stay_tidy()
    ensures tidy { (ids : List ℕ) (rows : List Row) → AreMembers ids → DoNoHarm (cluster ids) rows →
        MembersStayTidy ids rows }
    ensures fit { (ids : List ℕ) (rows : List Row) → AreMembers ids → DoNoHarm (cluster ids) rows →
        MembersStayFit ids rows }
    ensures are { TidyMembersAreFit }
{
    what_service_stands_on();
}

/// A member that was told the members at its opening is tidy until its first step, lists each of them, and has no
/// Discovery waiting (`opened`). A tidy member that leads has what is asked of a leader so that it settles, beside its
/// log: where it adds no blank (`leads`), and where it may wait with it (`comes`). One that is fit has it where it adds
/// no blank, with the requests that it has accepted (`fit`).
pub fn opened_members_are_tidy()
    ensures opened { (ids : List ℕ) → AreMembers ids → OpenedMembersAreReady ids }
    ensures leads { TidyMembersLead }
    ensures comes { TidyMembersComeToLead }
    ensures fit { FitMembersLead }
{
    law_members();
    members_of_a_step();
}

/// In a calm in which no Discovery is due, each that comes misses nobody, since none comes: where each member of the
/// group knows all and owes none when the calm begins, and no frame of one waits. So it is with devices too (`any`),
/// and where each member is tidy (`tidy`). In such a calm of members only no request comes to any member (`unasked`).
pub fn discoveries_miss_nobody()
    ensures any { (ids : List ℕ) (rows : List Row) → AreMembers ids → DoNoHarm (cluster ids) rows →
        DiscoveriesMissNobody ids rows }
    ensures tidy { (ids : List ℕ) (rows : List Row) → AreMembers ids → DoNoHarm (cluster ids) rows →
        TidyMembersMissNobody ids rows }
    ensures unasked { (ids : List ℕ) (rows : List Row) → AreMembers ids → DoNoHarm (cluster ids) rows →
        MembersAskNobody ids rows }
{
    what_service_stands_on();
}

/// A leader settles in time, whether it has just come to lead or leads already. In a calm in which it leads on from a
/// moment on, it knows each node that is online then, and owes no Discovery; it may have accepted requests of devices.
/// Where something of its log is not committed, it was told its list of members, so it waits with its blank until it
/// knows a quorum to have its log, which is not so yet; the last entry is of an earlier term, and there is room for a
/// blank. Or the last entry is of its own term, as the blank is that it has added. It has room in each of its steps for
/// its calls and for the frames of the next pair. It keeps calling others, which with it are a quorum, and its calls
/// come back; so many calls at most are left to each of them until it is known to have the whole log. Whether it led
/// before is not asked. Then the leader has settled within this time, with its log or with a blank of its term behind
/// it; or by then a request of a device makes the log grow (`settle`); or the calm is over by then. Where nobody asks,
/// it settles (`unasked`). The time is, in milliseconds, that in which so many calls are answered, that of a call more,
/// and a period for each place that was not told, and one more.
pub fn leaders_settle_in_calm()
    ensures settle { (ids : List ℕ) (rows : List Row) → AreMembers ids → DoNoHarm (cluster ids) rows →
        LeadersSettle ids rows }
    ensures unasked { (ids : List ℕ) (rows : List Row) → AreMembers ids → DoNoHarm (cluster ids) rows →
        LeadersSettleUnasked ids rows }
{
    a_leaders_log_stays();
    what_service_stands_on();
}

/// The premises of [`new_devices_are_served_in_calm`] and of [`new_pairs_are_told_in_calm`] can be met together
/// (`premises`): of two members that are told their list one leads with an empty log, and the other one follows it; a
/// new device comes and asks. The rows are calm, do no harm, and go on for longer than both laws ask. So the device
/// holds a node ID that was left (`served`), and the leader has settled with the pair (`told`).
pub fn devices_may_be_served()
    ensures premises { DevicesMayBeServed }
    ensures served { IsServedBy two 1 first_log some_uid served_start (served_start + time_to_be_served served_pace)
        before_world served_rows }
    ensures told { HasSettledWithPairBy two sender 1 first_log (clocks (Member sender)) some_uid served_start
        (served_start + time_to_be_committed served_pace) before_world served_rows }
{
    calm_can_be();
    new_devices_are_served_in_calm();
    new_pairs_are_told_in_calm();
}

/// A device that asks already is heard out too, from the middle of a calm on. Whatever it has asked and was told by
/// then, and whoever led from the beginning of the calm on: once a member leads that has committed and told its whole
/// log, and the other members have nothing to tell, it hears the whole unique ID within 3,100 ms, six periods and 22
/// delays, or the calm is over by then. But it may be that the device holds a node ID by then, since it was told
/// meanwhile; or that a request makes some unique ID whole by which the leader's log grows: what the leader accepted of
/// another device lately, the device's request may complete. Its clock must not have fallen. When the calm begins no
/// frame of an Allocation waits in the leader's queue, and its next one may begin at the device; each that it sends has
/// three frames at most, and in all rows the device has memory for what comes, and the leader's queue has room.
pub fn asking_devices_are_heard_out_in_calm()
    ensures { (ids : List ℕ) (rows : List Row) → AreMembers ids → DoNoHarm (cluster ids) rows →
        AskingDevicesAreHeardOut ids rows }
{
    what_service_stands_on();
    who_has_settled_stays_settled();
}

/// Whoever leads has added its blank as soon as it might (`blank`). So in each world that lawful rows reach, a member
/// that leads, and whose log has room where something of it is not committed, has committed all of its log; or the last
/// entry is of its own term; or it waits with its blank, and no quorum is known to have its log. It has told no more
/// than it has committed. So where it is fit, it has come to lead as [`leaders_settle_in_calm`] asks it (`comes`),
/// however long it has led: behind such rows, and behind more rows that do no harm, as those of a calm.
pub fn who_leads_has_come_to_lead()
    ensures blank { (ids : List ℕ) (rows : List Row) → AreMembers ids → DoNoHarm (cluster ids) rows →
        LeadersAddTheirBlanks ids rows }
    ensures comes { (ids : List ℕ) (rows : List Row) → AreMembers ids → DoNoHarm (cluster ids) rows →
        WhoLeadsHasComeToLead ids rows }
{
    what_service_stands_on();
}

/// Who is heard out is served in time, from the middle of a calm on, in which a member leads from some moment on.
/// Before the row in which it hears the whole unique ID it has settled; it knows all members, its log lacks the unique
/// ID and has room, and a node ID is left. Its calls find room in its queue, and so does each pair that it tells.
/// Followers, which with it are a quorum, can exchange calls and answers with it, and it goes on calling them; how much
/// of its log they have is not asked. The device hears its Allocations: the first one of the calm may begin there, it
/// has memory for what comes, and each has three frames at most. Then the device holds a node ID that was left, within
/// the time in which two calls are answered for each place of the log, the pair's included, and two delays more, or the
/// calm is over by then. Where the device asks again meanwhile, it takes the Allocation all the same.
pub fn heard_devices_are_served_in_calm()
    ensures { (ids : List ℕ) (rows : List Row) → AreMembers ids → DoNoHarm (cluster ids) rows →
        HeardDevicesAreServed ids rows }
{
    what_service_stands_on();
}

/// The requests that members accept in a calm tell the unique ID of its only device, part by part. Where those that
/// were accepted tell a beginning of it, and a request tells a part, so do those that are accepted behind it, and what
/// it makes whole is the unique ID (`joined`). In a calm that does no harm, whose only device tells parts when it
/// begins, as one does that has just come (`comes`), and each one in any rows that do no harm (`always`): where the
/// requests that each member has accepted tell a beginning then, they do behind each front (`accepted`), and what a
/// request that comes to any member makes whole is the device's unique ID (`whole`), whoever leads. The device goes on
/// to tell parts (`tells`): each of its follow-ups follows 6 or 12 bytes, since each Allocation that a member ever made
/// has 6, 12 or 16 (`made`).
pub fn requests_are_the_devices()
    ensures joined { PartsAreJoined }
    ensures made { (ids : List ℕ) (rows : List Row) → AreMembers ids → DoNoHarm (cluster ids) rows →
        AllocationsHaveParts ids rows }
    ensures comes { DevicesThatComeTell }
    ensures always { (ids : List ℕ) (rows : List Row) → AreMembers ids → DoNoHarm (cluster ids) rows →
        DevicesTellParts ids rows }
    ensures accepted { (ids : List ℕ) (rows : List Row) → AreMembers ids → DoNoHarm (cluster ids) rows →
        RequestsAreTheDevices ids rows }
    ensures tells { (ids : List ℕ) (rows : List Row) → AreMembers ids → DoNoHarm (cluster ids) rows →
        DevicesGoOnTelling ids rows }
    ensures whole { (ids : List ℕ) (rows : List Row) → AreMembers ids → DoNoHarm (cluster ids) rows →
        WholeIsTheDevices ids rows }
{
    what_service_stands_on();
}

/// Who follows falls silent in a calm. Where a member leads on from some moment on and the others follow, each other
/// one has nothing to tell later than 500 ms, a period and a delay behind that moment: no frame of an Allocation waits
/// in its queue, and none of the requests that it has accepted counts any more. For who follows gives no follow-up: it
/// keeps what it has accepted, or forgets it; and once that is too old, it tells no device anything anew. This asks
/// that no request that it has accepted by that moment is of a later one.
pub fn who_follows_falls_silent()
    ensures { (ids : List ℕ) (rows : List Row) → AreMembers ids → DoNoHarm (cluster ids) rows →
        WhoFollowsFallsSilent ids rows }
{
    what_service_stands_on();
}

/// Who is heard out, and whose unique ID stands in the leader's log, is told its node ID in time, from the middle of a
/// calm on, in which a member leads from some moment on. Before the row in which it hears the whole unique ID it has
/// settled with a log that has the unique ID. In all rows its queue has room for an Allocation. The device hears its
/// Allocations: the first one of the calm may begin there, it has memory for what comes, and each has three frames at
/// most. Then the device holds a node ID within two delays of that row, or the calm is over by then. Nothing is asked
/// of what else the device was told, and so it is not said which node ID it holds.
pub fn heard_known_devices_are_told_in_calm()
    ensures { (ids : List ℕ) (rows : List Row) → AreMembers ids → DoNoHarm (cluster ids) rows →
        HeardKnownDevicesAreTold ids rows }
{
    what_service_stands_on();
}

/// Who is recorded is served in time, from the middle of a calm on, also where it does not wait to be told: requests
/// that came earlier may have made its unique ID whole. It was there when the calm began, and is the only device of the
/// group. Else all is asked as for [`heard_devices_are_served_in_calm`], and the time is the same. Then the device
/// holds a node ID.
pub fn recorded_devices_are_served_in_calm()
    ensures { (ids : List ℕ) (rows : List Row) → AreMembers ids → DoNoHarm (cluster ids) rows →
        RecordedDevicesAreServed ids rows }
{
    what_service_stands_on();
}

/// What the laws of service stand on: what the crates below say of a calm, of devices and what they are told, of the Raft
/// model, and of what comes in calm.
pub fn what_service_stands_on()
    ensures { ServiceGrounds }
{
    a_leader_follows_up();
    a_leader_records_the_pair();
    a_node_id_is_given_for_good();
    allocations_both_ways();
    allocations_come_in_calm();
    calls_return_to_who_leads_on();
    chosen_is_the_choice();
    duty_of_a_step();
    entries_are_committed_in_time();
    entries_come_in_time();
    law_decisions();
    law_fit();
    requests_are_delivered();
    requests_of_devices_are_requests();
    sessions_of_a_step();
    the_allocatees();
    the_headline();
    what_calms_stand_on();
    what_entries_stand_on();
    what_is_fine_is_not_torn();
    who_is_listed_stays();
}
