//! The laws of this crate, each the contract of a function that does nothing.

ghost use Rattle.service_elections.specs.Calling.{CallsReturnInRounds, LeadersGoOnCalling};
ghost use Rattle.service_elections.specs.Opened.{OpenedMembersGoOn};
ghost use Rattle.service_elections.specs.Rounds.{LeadersBelowStepDown, LeadersCome, SomebodyStandsOrLeads};
ghost use Rattle.service_elections.specs.Rounds.{WhoIsFurthestWins, WhoLeadsAtTheTop, WhoStandsAtTheTop, WhoWinsAtTheTop};
ghost use Rattle.service_elections.specs.RoundsBelow.{RoundGrounds};
ghost use Rattle.service_elections.specs.Sent.{AskersLearn, CallersLearn, NothingChangesInSilence, StandersAreHeard};
ghost use Rattle.service_elections.specs.Sent.{StandersLearn, WhoAsksStands, WhoHearsWasCalled, WhoVotesWasAsked};
ghost use Rattle.service_elections.specs.Sent.{WhoWinsHasAsked};
ghost use Rattle.alloc_spec.specs.ClusterMembers.{AreMembers};
ghost use Rattle.bus_spec.specs.Cluster.{cluster};
ghost use Rattle.bus_spec.specs.Lawful.{DoNoHarm};
ghost use Rattle.bus_rows.specs.declared.row.Row.{Row};
ghost use Rattle.std.specs.Prelude.{List, ℕ};

use alloc_spec_laws::laws::members_of_a_step;
use raft_model::laws::law_members;
use service_calm::laws::{
    calls_are_heard, calls_read_as_said, followers_follow_on_in_calm, leaders_call_in_time,
};
use service_candidate::laws::{
    vote_requests_come_back, vote_requests_read_as_said, votes_are_answered, waits_have_reasons,
    what_winners_stand_on, who_stands_alone_wins, who_stands_is_heard, who_waits_stands,
};
use service_leader::laws::{
    answers_are_taken, answers_read_as_said, calls_are_answered, calls_ask_for_the_next_place,
    no_election_comes_in_calm, what_entries_stand_on,
};
use service_steps::laws::steps_are_in_time;

/// Who gives its vote in a calm was asked for it: by another member of the group, in a row of the calm, two delays
/// before at most. Behind that row the other one is a candidate in the request's term, and its log goes as far as the
/// request says. For no frame of a vote request between two of the group waits when the calm begins, a queue in which
/// frames wait is empty within a delay, and a frame takes a delay at most on the bus.
pub fn who_votes_was_asked()
    ensures { (ids : List ℕ) (rows : List Row) → AreMembers ids → DoNoHarm (cluster ids) rows →
        WhoVotesWasAsked ids rows }
{
    what_rounds_stand_on();
}

/// Who hears a leader in a calm was called: an append request that comes to a member of the group, and that it does
/// not refuse as outdated, was made by another one of the group, in a row of the calm, two delays before at most.
/// Behind that row the other one leads, in the request's term.
pub fn who_hears_was_called()
    ensures { (ids : List ℕ) (rows : List Row) → AreMembers ids → DoNoHarm (cluster ids) rows →
        WhoHearsWasCalled ids rows }
{
    what_rounds_stand_on();
}

/// Nothing changes in silence. Where no member of the group called another one, or asked it for its vote, for more than
/// four delays before a row of a calm: a member of the group that does not lead, and does not stand for election in the
/// row, has the same role, term, vote, log and wait when it is over. For what else changes these is a request or an
/// answer; a request comes within two delays, an answer is made in a row in which a request comes, and comes within two
/// delays more.
pub fn nothing_changes_in_silence()
    ensures { (ids : List ℕ) (rows : List Row) → AreMembers ids → DoNoHarm (cluster ids) rows →
        NothingChangesInSilence ids rows }
{
    what_rounds_stand_on();
}

/// Who leads at the top leads the group. In a calm, from any front on: where a member of the group leads in a term that
/// no other one is above, and nobody stands for election until it was heard, no election comes from then on, however
/// long the calm lasts. The others may have had any roles, also that of a leader of a lower term.
pub fn who_leads_at_the_top()
    ensures { (ids : List ℕ) (rows : List Row) → AreMembers ids → DoNoHarm (cluster ids) rows →
        WhoLeadsAtTheTop ids rows }
{
    what_rounds_stand_on();
}

/// Who wins at the top leads the group. In a calm in which a member stands for election in a term above all others, and
/// leads within four delays, no election comes from eight delays later on, or the calm is over by then. For each other
/// member hears the calls that it makes in the row in which it comes to lead, and nobody else stands before. The others
/// may have had any roles, terms and logs.
pub fn who_wins_at_the_top()
    ensures { (ids : List ℕ) (rows : List Row) → AreMembers ids → DoNoHarm (cluster ids) rows →
        WhoWinsAtTheTop ids rows }
{
    what_rounds_stand_on();
}

/// Who asks for a vote stands for election in the same row, in a calm of a group that has a quorum of the cluster's
/// members, whatever roles, terms and logs they have when it begins. So it is later than the call timeout and a period
/// behind the beginning, where the one that is asked is of the group. For a request that was made before the calm is
/// given up by then, and repeated; and each one that is made in the calm is answered before the call timeout.
pub fn who_asks_stands()
    ensures { (ids : List ℕ) (rows : List Row) → AreMembers ids → DoNoHarm (cluster ids) rows →
        WhoAsksStands ids rows }
{
    what_rounds_stand_on();
}

/// Who comes to lead has asked. A member of the group that comes to lead in a row of such a calm, at whatever moment of
/// it, has asked another one of the group for its vote within four delays before, and was a candidate of its term
/// behind that row. For it wins by a vote; the vote answers a request that was made in the calm; and where the member
/// stood for election since then, it asked in that row.
pub fn who_wins_has_asked()
    ensures { (ids : List ℕ) (rows : List Row) → AreMembers ids → DoNoHarm (cluster ids) rows →
        WhoWinsHasAsked ids rows }
{
    what_rounds_stand_on();
}

/// Who calls another one learns its term, in a calm of rows that do no harm, whatever roles and terms the members
/// have when it begins. Where a member of the group calls another one, and nobody stands for election until a row
/// that is more than four delays later, it is in a term before that row that is no lower than that of the other one
/// was before it called. For the call comes to the other, which answers in the greater of the two terms; and its
/// answer comes while the caller waits for it. No other answer is taken for it: of the caller's calls to the other at
/// most one more is under way, or its answer, and it has another transfer ID.
pub fn callers_learn()
    ensures { (ids : List ℕ) (rows : List Row) → AreMembers ids → DoNoHarm (cluster ids) rows → CallersLearn ids rows }
{
    what_rounds_stand_on();
}

/// So does who asks another one for its vote, or it leads by four delays later.
pub fn askers_learn()
    ensures { (ids : List ℕ) (rows : List Row) → AreMembers ids → DoNoHarm (cluster ids) rows → AskersLearn ids rows }
{
    what_rounds_stand_on();
}

/// Who stands for election learns the term of each other one. Where a member of the group stands for election in such
/// a calm, and nobody stands behind it until a row that is more than eight delays later, it is in a term before that
/// row that is no lower than that of any other one was before it stood. For it asks each other one in the row; and
/// where it leads before the answer comes, it calls each other one in the row in which it comes to lead.
pub fn standers_learn()
    ensures { (ids : List ℕ) (rows : List Row) → AreMembers ids → DoNoHarm (cluster ids) rows → StandersLearn ids rows }
{
    askers_learn();
    callers_learn();
    what_rounds_stand_on();
}

/// Who stands for election is heard, in a calm in which members go on from whatever roles, terms and logs: each member
/// of the group is in the term in which a member stands, or in a higher one, two delays later.
pub fn standers_are_heard()
    ensures { (ids : List ℕ) (rows : List Row) → AreMembers ids → DoNoHarm (cluster ids) rows →
        StandersAreHeard ids rows }
{
    who_stands_is_heard();
}

/// Who is furthest wins. Where the members of the group are in step in such a calm, nobody has led in their term, and
/// one stands for election whose log is not behind that of any other one, it leads within four delays. For each other
/// one hears its request and is free to vote for it; no other answer is taken for theirs; and nobody else leads
/// meanwhile.
pub fn who_is_furthest_wins()
    ensures { (ids : List ℕ) (rows : List Row) → AreMembers ids → DoNoHarm (cluster ids) rows →
        WhoIsFurthestWins ids rows }
{
    what_rounds_stand_on();
    who_asks_stands();
    who_hears_was_called();
    who_stands_alone_wins();
    who_wins_has_asked();
}

/// Who leads below the highest term of its group steps down, in a calm of a group whose members may have any roles
/// when it begins. A member of the group that leads in a term that another one is above calls that one, and the
/// answer brings the higher term. So it does not lead in its term any more a call and its answer later, where nobody
/// stands for election meanwhile.
pub fn leaders_below_step_down()
    ensures { (ids : List ℕ) (rows : List Row) → AreMembers ids → DoNoHarm (cluster ids) rows →
        LeadersBelowStepDown ids rows }
{
    callers_learn();
    what_rounds_stand_on();
}

/// Somebody stands for election in such a calm, or somebody leads. From `quiet_within` behind its beginning on: a
/// member of the group stands within the longest wait, the call timeout, five periods and twelve delays; or one leads
/// by then, in the highest term, and no election comes any more; or the calm is over by then. For who leads in a
/// lower term steps down, and where nobody leads there is silence, so waits go on.
pub fn somebody_stands_or_leads()
    ensures { (ids : List ℕ) (rows : List Row) → AreMembers ids → DoNoHarm (cluster ids) rows →
        SomebodyStandsOrLeads ids rows }
{
    leaders_below_step_down();
    nothing_changes_in_silence();
    what_rounds_stand_on();
    who_asks_stands();
    who_leads_at_the_top();
    who_wins_has_asked();
}

/// Who stands at the top leads soon, or another one does. Where a member of the group stands for election in such a
/// calm, in a term that is above all others, a member leads within `step_within`, and no election comes any more, or
/// the calm is over by then. For two delays later all are in that term, and no log changes while nobody leads; so one
/// of those whose logs are furthest stands in time, and it wins, unless another one has won before.
pub fn who_stands_at_the_top()
    ensures { (ids : List ℕ) (rows : List Row) → AreMembers ids → DoNoHarm (cluster ids) rows →
        WhoStandsAtTheTop ids rows }
{
    what_rounds_stand_on();
    who_asks_stands();
    who_hears_was_called();
    who_is_furthest_wins();
    who_votes_was_asked();
    who_wins_at_the_top();
    who_wins_has_asked();
}

/// Leaders come. In each such calm, whatever roles, terms and logs the members of the group have when it begins, one of
/// them leads within `led_within`, and no election comes any more, or the calm is over by then. For somebody stands in
/// time and again, or leads; who stands below the highest term is in it before the next one stands, so that each member
/// stands below it once at most; and where one stands in it, a member leads soon.
pub fn leaders_come()
    ensures { (ids : List ℕ) (rows : List Row) → AreMembers ids → DoNoHarm (cluster ids) rows →
        LeadersCome ids rows }
{
    somebody_stands_or_leads();
    standers_learn();
    what_rounds_stand_on();
    who_asks_stands();
    who_hears_was_called();
    who_is_furthest_wins();
    who_votes_was_asked();
    who_wins_at_the_top();
    who_wins_has_asked();
}

/// Who leads where no election comes any more goes on calling. In such a calm, from any front on from which no election
/// comes: a call and its answer later, each call of the leader to another member of the group that waits for its answer
/// was made in the calm, and the leader goes on calling that member. For it calls the member once its last call is
/// given up; the answer comes and is taken; and from then on its next call begins no further on than its log and what
/// it knows the member to have, as long as it leads.
pub fn leaders_go_on_calling()
    ensures { (ids : List ℕ) (rows : List Row) → AreMembers ids → DoNoHarm (cluster ids) rows →
        LeadersGoOnCalling ids rows }
{
    what_rounds_stand_on();
}

/// Calls return. In such a calm, from any front on from which a member of the group leads on in one term and the others
/// follow: each of its calls to another member of the group is answered within two delays, and the leader takes the
/// answer within four, or the calm is over by then. It may have led in an earlier term of the same calm: of its calls
/// to the other at most one more is under way, or its answer, and that one has another transfer ID.
pub fn calls_return_in_rounds()
    ensures { (ids : List ℕ) (rows : List Row) → AreMembers ids → DoNoHarm (cluster ids) rows →
        CallsReturnInRounds ids rows }
{
    what_rounds_stand_on();
}

/// Members that have just been opened go on calmly, as each law of this crate asks for it. In a calm in which they were
/// told the members of the cluster (`IsCalmRestart`), where besides the queue of each has room for its calls, no two
/// stand for election within eight delays of each other, and the pace is such that calls come before the least wait is
/// over, also where eight delays of it are over before. For no frame of theirs waits then, and none has a session; so
/// each two of them can ask each other for votes, and exchange calls and answers. What they have stored is not asked.
pub fn opened_members_go_on_calmly()
    ensures { (ids : List ℕ) (rows : List Row) → AreMembers ids → DoNoHarm (cluster ids) rows →
        OpenedMembersGoOn ids rows }
{
    law_members();
    members_of_a_step();
}

/// What the laws of rounds stand on: what the crates below say of who wins, of what leaders call, and of who stands for
/// election.
pub fn what_rounds_stand_on()
    ensures { RoundGrounds }
{
    answers_are_taken();
    answers_read_as_said();
    calls_are_answered();
    calls_are_heard();
    calls_ask_for_the_next_place();
    calls_read_as_said();
    followers_follow_on_in_calm();
    leaders_call_in_time();
    no_election_comes_in_calm();
    steps_are_in_time();
    vote_requests_come_back();
    vote_requests_read_as_said();
    votes_are_answered();
    waits_have_reasons();
    what_entries_stand_on();
    what_winners_stand_on();
    who_waits_stands();
}
