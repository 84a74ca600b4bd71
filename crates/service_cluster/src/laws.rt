//! The laws of this crate, each the contract of a function that does nothing.

ghost use Rattle.service_candidate.specs.Elections.{election_within};
ghost use Rattle.service_cluster.specs.ComeBack.{ClustersComeBack, DevicesAreServed, IsBackBy};
ghost use Rattle.service_cluster.specs.ComeBack.{LogsStayWithinTheirLimit, back_within, served_within};
ghost use Rattle.service_cluster.specs.Restart.{ClustersInStepSettle, ComesBackBy, StartedClustersSettle};
ghost use Rattle.service_cluster.specs.Restart.{WinnersBeginAnew, settled_within};
ghost use Rattle.service_cluster.specs.RestartExample.{ClusterMayStart, members_only, no_entries, opened_at};
ghost use Rattle.service_cluster.specs.RestartExample.{opened_world, restart_pace, restart_rows};
ghost use Rattle.service_cluster.specs.ServiceExample.{DevicesMayBeServedFromPowerOn, one_entry};
ghost use Rattle.service_cluster.specs.ServiceExample.{power_on_calm, power_on_world};
ghost use Rattle.service_elections.specs.Rounds.{led_within};
ghost use Rattle.service_device.specs.Asking.{HasIdBy};
ghost use Rattle.service_device.specs.ServedExample.{served_pace};
ghost use Rattle.service_calm.specs.CalmExample.{clocks, two};
ghost use Rattle.alloc_spec.specs.ClusterMembers.{AreMembers};
ghost use Rattle.bus_spec.specs.Cluster.{cluster};
ghost use Rattle.bus_spec.specs.Lawful.{DoNoHarm};
ghost use Rattle.bus_rows.specs.declared.row.Row.{Row};
ghost use Rattle.std.specs.Prelude.{List, length, ℕ, ◌+◌};

use alloc_spec_laws::laws::members_of_a_step;
use raft_model::laws::law_members;
use service_calm::laws::{calm_can_be, what_calms_stand_on};
use service_candidate::laws::{elections_end, logs_stay_in_calm, terms_do_not_fall};
use service_device::laws::{
    asking_devices_are_heard_out_in_calm, discoveries_miss_nobody,
    heard_devices_are_served_in_calm, heard_known_devices_are_told_in_calm, leaders_settle_in_calm,
    members_stay_tidy, opened_members_are_tidy, recorded_devices_are_served_in_calm,
    requests_are_the_devices, what_service_stands_on, who_follows_falls_silent,
    who_leads_has_come_to_lead,
};
use service_elections::laws::{
    calls_return_in_rounds, leaders_come, leaders_go_on_calling, opened_members_go_on_calmly,
};
use service_leader::laws::{calls_return_to_who_leads_on, no_election_comes_in_calm, winners_call};
use service_steps::laws::followers_follow_on;

/// Who wins begins anew. In a row that does no harm, in which a member of a cluster of two or more comes to lead in the
/// term that it had: its log is as it was, and what it has committed; it has told all of that, and no more; it knows of
/// no place that another one has, and calls each one next behind its log. This asks that it knows all members, and was
/// told them, so that it waits with its blank until a quorum has its log.
pub fn winners_begin_anew()
    ensures { WinnersBeginAnew }
{}

/// A cluster whose members are started comes back in time. In a calm of members that have just been opened, without
/// devices, somebody wins an election by some moment, and the others follow where it stands. Then it leads from the row
/// on in which it comes to lead, no election comes from the end of this one on, and within `settled_within` of that end
/// the winner has settled: it has committed and told its whole log, which is the one that it had stored, or has a blank
/// behind it. Or the calm is over by then. Premises besides: the queues have room for calls and for the next pair, each
/// log that is not committed has room for a blank, and the pace is such that calls come before the least wait for an
/// election is over.
pub fn started_clusters_settle()
    ensures { (ids : List ℕ) (rows : List Row) → AreMembers ids → DoNoHarm (cluster ids) rows →
        StartedClustersSettle ids rows }
{
    calls_return_to_who_leads_on();
    discoveries_miss_nobody();
    followers_follow_on();
    law_members();
    leaders_settle_in_calm();
    logs_stay_in_calm();
    members_of_a_step();
    members_stay_tidy();
    no_election_comes_in_calm();
    terms_do_not_fall();
    what_calms_stand_on();
    winners_begin_anew();
    winners_call();
}

/// A cluster whose members are in step comes back in time, where all are started: each has stored the same term, and no
/// log is above another. In a calm as for [`started_clusters_settle`] the winner has settled within `election_within`
/// and `settled_within`, or the calm is over by then.
pub fn clusters_in_step_settle()
    ensures { (ids : List ℕ) (rows : List Row) → AreMembers ids → DoNoHarm (cluster ids) rows →
        ClustersInStepSettle ids rows }
{
    elections_end();
    started_clusters_settle();
}

/// A cluster comes back in time, whatever state its members are in. In a calm of members only, in which each member
/// runs and is fit to serve when it begins, whatever roles, terms and logs they have: within `led_within` a member
/// leads and no election comes any more, and within `settled_in` more it has settled, with whatever log it has then; or
/// the calm is over by then (`back`). No two members stand for election within eight delays of each other. The time
/// depends on how many entries the logs have at most in the calm; they never have more than their limit of 127
/// (`limit`).
pub fn clusters_come_back()
    ensures back { (ids : List ℕ) (rows : List Row) → AreMembers ids → DoNoHarm (cluster ids) rows →
        ClustersComeBack ids rows }
    ensures limit { (ids : List ℕ) (rows : List Row) → AreMembers ids → DoNoHarm (cluster ids) rows →
        LogsStayWithinTheirLimit ids rows }
{
    calls_return_in_rounds();
    discoveries_miss_nobody();
    law_members();
    leaders_come();
    leaders_go_on_calling();
    leaders_settle_in_calm();
    members_stay_tidy();
    what_service_stands_on();
    who_leads_has_come_to_lead();
}

/// A device that asks is served in time, whatever state the members are in. In a calm as for [`clusters_come_back`]
/// with one device besides, which asks: within `served_within` it holds a node ID, or the calm is over by then. Each
/// log that a member comes to have has the device's unique ID, or a place for it.
pub fn devices_are_served()
    ensures { (ids : List ℕ) (rows : List Row) → AreMembers ids → DoNoHarm (cluster ids) rows →
        DevicesAreServed ids rows }
{
    asking_devices_are_heard_out_in_calm();
    calls_return_in_rounds();
    discoveries_miss_nobody();
    heard_devices_are_served_in_calm();
    heard_known_devices_are_told_in_calm();
    law_members();
    leaders_come();
    leaders_go_on_calling();
    leaders_settle_in_calm();
    members_stay_tidy();
    recorded_devices_are_served_in_calm();
    requests_are_the_devices();
    what_service_stands_on();
    who_follows_falls_silent();
    who_leads_has_come_to_lead();
}

/// The premises of [`clusters_in_step_settle`], of [`service_elections::laws::leaders_come`] and of [`clusters_come_back`]
/// can be met together (`premises`): two members are opened at one moment, with empty stores, and are told their list.
/// The rows are calm, do no harm, and go on for longer than the laws ask; in them one member stands, wins, and leads
/// on. So the cluster comes back in time, by each law (`back` by the first, `from_any_state` by the last).
pub fn clusters_may_start()
    ensures premises { ClusterMayStart }
    ensures back { ComesBackBy members_only clocks restart_pace opened_at (opened_at + election_within restart_pace)
        (opened_at + election_within restart_pace + settled_within restart_pace no_entries) opened_world restart_rows }
    ensures from_any_state { IsBackBy members_only clocks restart_pace opened_at
        (opened_at + led_within restart_pace (length two))
        (opened_at + back_within restart_pace (length two) no_entries) opened_world restart_rows }
{
    calm_can_be();
    clusters_come_back();
    clusters_in_step_settle();
    members_stay_tidy();
    opened_members_are_tidy();
    opened_members_go_on_calmly();
}

/// The premises of [`devices_are_served`] can be met together (`premises`): two members and a device are opened at one
/// moment. The device asks before anybody leads; then a member is elected and serves it; and the calm goes on for
/// longer than the law asks. So the device holds a node ID in time (`served`).
pub fn devices_may_be_served_from_power_on()
    ensures premises { DevicesMayBeServedFromPowerOn }
    ensures served { HasIdBy 1 opened_at (opened_at + served_within served_pace (length two) one_entry) power_on_world
        power_on_calm }
{
    calm_can_be();
    devices_are_served();
    members_stay_tidy();
    opened_members_are_tidy();
    opened_members_go_on_calmly();
}
