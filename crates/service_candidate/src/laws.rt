//! The laws of this crate, each the contract of a function that does nothing.

ghost use Rattle.service_candidate.specs.Elections.{ElectionsEnd, ElectionsEndInOneTerm, SomebodyStands, WhoIsAheadWins};
ghost use Rattle.service_candidate.specs.Elections.{WhoIsFurthestStands};
ghost use Rattle.service_candidate.specs.ElectionsBelow.{ElectionLaws, WinLaws};
ghost use Rattle.service_candidate.specs.Terms.{LogsStay, NoAppendsCome, TermsDoNotFall, TermsStay, VotesStayFree};
ghost use Rattle.service_candidate.specs.Votes.{VoteAnswersReadAsSaid, VoteRequestsReadAsSaid, VotesAreAnswered};
ghost use Rattle.service_candidate.specs.Votes.{VotesComeBack, CandidatesStay, StandingAsks, VotesAreTaken};
ghost use Rattle.service_candidate.specs.Votes.{WaitsOnForVotes};
ghost use Rattle.service_candidate.specs.VotesAlone.{VotesComeAlone};
ghost use Rattle.service_candidate.specs.Waits.{WaitsBeginThen, WaitsHaveReasons, WhoWaitsStands};
ghost use Rattle.service_candidate.specs.Wins.{WhoStandsAloneWins, WhoStandsFirstWins, WhoStandsIsHeard};
ghost use Rattle.service_candidate.specs.Wins.{WhoStandsKnowsTerms};
ghost use Rattle.alloc_spec.specs.ClusterMembers.{AreMembers};
ghost use Rattle.bus_spec.specs.Cluster.{cluster};
ghost use Rattle.bus_spec.specs.Lawful.{DoNoHarm};
ghost use Rattle.bus_rows.specs.declared.row.Row.{Row};
ghost use Rattle.std.specs.Prelude.{ℕ, List};

use alloc_spec_laws::laws::members_of_a_step;
use raft_model::laws::{law_decisions, law_members};
use service_calm::laws::{each_transfer_comes_whole, what_calms_stand_on, who_is_listed_stays};
use service_leader::laws::calls_ask_for_the_next_place;
use service_steps::laws::{followers_follow_on, steps_are_in_time};

/// The bytes of a vote request read as the request of the Raft model that it says. So it is behind all rows that do no
/// harm, in a row that does none, where the member that asks runs and no call of its disk is set to fail.
pub fn vote_requests_read_as_said()
    ensures { (ids : List ℕ) (rows : List Row) → AreMembers ids → DoNoHarm (cluster ids) rows →
        VoteRequestsReadAsSaid ids rows }
{
    what_elections_stand_on();
}

/// The bytes of an answer to a vote request read as what it says in the Raft model: its term, and whether it gives the
/// vote. So it is behind all rows that do no harm, in a row that does none, where the member that answers runs and no
/// call of its disk is set to fail.
pub fn vote_answers_read_as_said()
    ensures { (ids : List ℕ) (rows : List Row) → AreMembers ids → DoNoHarm (cluster ids) rows →
        VoteAnswersReadAsSaid ids rows }
{
    what_elections_stand_on();
}

/// A vote request comes back, in a calm of rows that do no harm, in which twice the delay is no longer than a transfer
/// is remembered. Where a member can ask another one for its vote, and sends it a vote request, the request is
/// delivered to the other within two delays. The other answers in that row, and its answer comes to the one in a later
/// row, within four delays, or the calm is over by then. Nothing is asked of the roles or terms of the two. When the
/// calm begins, each is on the other's list, no earlier vote request from the one to the other waits, and no earlier
/// answer; the first request has a transfer ID under which it may begin at the other, and its answer at the one. Both
/// have memory for what they receive, and the queue of the other has a place for an answer all the time. Which transfer
/// IDs the answers have behind the first is no premise.
pub fn vote_requests_come_back()
    ensures { (ids : List ℕ) (rows : List Row) → AreMembers ids → DoNoHarm (cluster ids) rows → VotesComeBack ids rows }
{
    vote_requests_read_as_said();
    votes_are_answered();
    what_elections_stand_on();
}

/// The answer to a vote request comes alone. In a calm in which a member of the group stands for election, and has
/// asked nobody of the group for its vote for four delays: each vote request that it sends in that row comes back, as
/// [`vote_requests_come_back`] says, and before its answer no vote answer of the same member comes under its transfer
/// ID. For what the member asked earlier in the calm has been answered by then, and the answers have come; the other
/// one answers requests as they come, and its answers come in the order in which it sends them.
pub fn votes_come_alone()
    ensures { (ids : List ℕ) (rows : List Row) → AreMembers ids → DoNoHarm (cluster ids) rows →
        VotesComeAlone ids rows }
{
    vote_requests_read_as_said();
    votes_are_answered();
    what_elections_stand_on();
}

/// Terms stay within bounds in a calm. In a calm of rows that do no harm, of a cluster of two members or more: from
/// where on all members of the group are within a term, they stay within it, as long as no member of the group stands
/// for election in a higher one. Members that are not of the group may have higher terms: no frame of theirs comes.
pub fn terms_stay_in_calm()
    ensures { (ids : List ℕ) (rows : List Row) → AreMembers ids → DoNoHarm (cluster ids) rows → TermsStay ids rows }
{
    what_elections_stand_on();
}

/// No term of a member falls in a calm, whatever happens in it: of two moments of the calm its term at the later one is
/// no lower.
pub fn terms_do_not_fall()
    ensures { (ids : List ℕ) (rows : List Row) → TermsDoNotFall ids rows }
{}

/// Members stay free to vote in a calm of rows that do no harm. Where a member c of the group is within a term, and the
/// others are below it, each of the others stays free to vote for c in this term: its own term is lower, or it follows
/// in this one and has given its vote to no other. So it is as long as no other member of the group stands for
/// election, and c in no higher term.
pub fn votes_stay_free()
    ensures { (ids : List ℕ) (rows : List Row) → AreMembers ids → DoNoHarm (cluster ids) rows →
        VotesStayFree ids rows }
{
    what_elections_stand_on();
}

/// Logs stay in a calm as they are, and what members have committed, as long as no member of the group leads. This asks
/// that no append request from one member of the group to another waits when the calm begins. Nothing is asked of what
/// the receivers have by then of append requests: the last frame of such a request does not come.
pub fn logs_stay_in_calm()
    ensures { (ids : List ℕ) (rows : List Row) → AreMembers ids → DoNoHarm (cluster ids) rows → LogsStay ids rows }
{
    calls_ask_for_the_next_place();
    what_elections_stand_on();
}

/// And in such a calm no append request comes to a member of the group, in a row before which nobody led from the
/// beginning of the calm on.
pub fn no_appends_come()
    ensures { (ids : List ℕ) (rows : List Row) → AreMembers ids → DoNoHarm (cluster ids) rows →
        NoAppendsCome ids rows }
{
    calls_ask_for_the_next_place();
    what_elections_stand_on();
}

/// Who is asked for its vote answers. Where a member is delivered a vote request of a node on its list, it offers an
/// answer in that step: to the candidate, under the request's transfer ID, in the greater of the two terms, and with
/// its vote where it may grant it. It leaves the server with this term and the same log; a higher term makes it a
/// follower; and a vote that is given is stored, and begins the wait for an election anew.
pub fn votes_are_answered()
    ensures { VotesAreAnswered }
{}

/// A candidate takes the answer to its vote request, where it comes less than the call timeout after the request. A
/// higher term makes it a follower; a vote in its own term is counted, and with a quorum of them it leads.
pub fn votes_are_taken()
    ensures { VotesAreTaken }
{}

/// Who stands for election asks each other member of its list for its vote, in the same row: behind all rows that do no
/// harm, in a row that does none. It has stored its own vote, which is the only one that it counts, its log is as it
/// was, and its wait begins anew. Where its queue has room for a request, it waits for the answer since this moment.
pub fn who_stands_asks()
    ensures { (ids : List ℕ) (rows : List Row) → AreMembers ids → DoNoHarm (cluster ids) rows →
        StandingAsks ids rows }
{
    what_elections_stand_on();
}

/// A candidate stays one, in each row that does no harm: in its term, with the votes that it has. Or it leads in this
/// term, or is in a higher one behind the row, or hears a leader of its own term or a higher one.
pub fn candidates_stay()
    ensures { (ids : List ℕ) (rows : List Row) → CandidatesStay ids rows }
{}

/// Who waits for a vote waits on: behind all rows that do no harm, in a row that does none, a vote request that is
/// pending stays so. Else its answer comes in this row, or the call timeout is over, or the member stands anew, or
/// leads when the row is over.
pub fn who_asked_waits_on()
    ensures { (ids : List ℕ) (rows : List Row) → AreMembers ids → DoNoHarm (cluster ids) rows →
        WaitsOnForVotes ids rows }
{
    what_elections_stand_on();
}

/// A wait for an election that begins anew does so for a reason: an append request came that makes the member follow;
/// or the member did not follow before, and does behind the row; or it gave its vote to who asked for it. So it is
/// behind all rows that do no harm, in a row that does none, where the cluster has two members or more, and the member
/// does not stand for election in the row.
pub fn waits_have_reasons()
    ensures { (ids : List ℕ) (rows : List Row) → AreMembers ids → DoNoHarm (cluster ids) rows →
        WaitsHaveReasons ids rows }
{
    what_elections_stand_on();
}

/// A wait that begins anew begins at the moment of the step, by the member's own clock; and who stands for election has
/// waited for the least wait at least.
pub fn waits_begin_then()
    ensures { (ids : List ℕ) (rows : List Row) → AreMembers ids → DoNoHarm (cluster ids) rows →
        WaitsBeginThen ids rows }
{}

/// Who waits stands for election in time, in a calm. A member of the group that does not lead, knows all members of the
/// cluster, and for which a term is left, stands by a period behind the moment at which its wait is over by its clock;
/// or its wait began anew by then, or it leads, or the calm is over. The stretch begins at any row of the calm, so that
/// moment is no earlier than the row before, and than the member's last tick. Of harm in the calm rows nothing is
/// asked.
pub fn who_waits_stands()
    ensures { (ids : List ℕ) (rows : List Row) → AreMembers ids → DoNoHarm (cluster ids) rows →
        WhoWaitsStands ids rows }
{
    what_elections_stand_on();
}

/// Somebody stands for election in time, where all have just been opened. A group that has a quorum of the cluster's
/// members goes on calmly, each of which was told the members and has taken no step. Then one of them stands within the
/// longest wait and a period, or the calm is over by then; and nobody leads before. Whatever terms and logs they have
/// stored makes no difference.
pub fn somebody_stands_in_time()
    ensures { (ids : List ℕ) (rows : List Row) → AreMembers ids → DoNoHarm (cluster ids) rows →
        SomebodyStands ids rows }
{
    what_elections_stand_on();
}

/// A member whose log is furthest stands in time, or somebody leads. In a calm as for [`somebody_stands_in_time`],
/// whatever terms and logs the members have stored: within the longest wait and a period one of those members of the
/// group stands whose log is not behind any other; or a member leads by then; or the calm is over by then. For such a
/// member's wait begins anew only where it gives its vote, which it does for one whose log is not behind its own, and
/// which has stood in the calm before.
pub fn who_is_furthest_stands()
    ensures { (ids : List ℕ) (rows : List Row) → AreMembers ids → DoNoHarm (cluster ids) rows →
        WhoIsFurthestStands ids rows }
{
    logs_stay_in_calm();
    no_appends_come();
    vote_requests_read_as_said();
    waits_have_reasons();
    what_elections_stand_on();
    who_waits_stands();
}

/// Who is ahead and stands first wins. In a calm as for [`somebody_stands_in_time`], in which no two members stand for
/// election within four delays of each other: the wait of some member is over at a moment, and each member whose term
/// or log is behind that of another one waits for a period more. Then a member that is not behind stands by then, and
/// wins within four delays, or the calm is over.
pub fn who_is_ahead_wins()
    ensures { (ids : List ℕ) (rows : List Row) → AreMembers ids → DoNoHarm (cluster ids) rows →
        WhoIsAheadWins ids rows }
{
    logs_stay_in_calm();
    no_appends_come();
    terms_do_not_fall();
    terms_stay_in_calm();
    what_elections_stand_on();
    who_stands_first_wins();
}

/// Elections end in time, where all have just been opened and are in step: each has stored the same term, and no log is
/// above another. In a calm as for [`who_is_ahead_wins`] one of them leads within the longest wait, a period and four
/// delays, or the calm is over by then. Until it wins nobody leads, and each other member follows then, in no higher
/// term, and its wait began four delays before at most.
pub fn elections_end()
    ensures { (ids : List ℕ) (rows : List Row) → AreMembers ids → DoNoHarm (cluster ids) rows →
        ElectionsEnd ids rows }
{
    who_is_ahead_wins();
}

/// Elections end in time, where all have just been opened and have stored one term, whatever logs they have. In a calm
/// as for [`elections_end`], and within the same time, a member whose log is furthest stands, in a term above all
/// others, and wins; or some member leads by then, as one does that is not furthest and has the votes of a quorum; or
/// the calm is over by then.
pub fn elections_end_in_one_term()
    ensures { (ids : List ℕ) (rows : List Row) → AreMembers ids → DoNoHarm (cluster ids) rows →
        ElectionsEndInOneTerm ids rows }
{
    logs_stay_in_calm();
    no_appends_come();
    terms_do_not_fall();
    terms_stay_in_calm();
    vote_requests_come_back();
    what_elections_stand_on();
    who_is_furthest_stands();
    who_is_listed_stays();
    who_stands_alone_wins();
    who_stands_asks();
}

/// Who stands for election is heard. In a calm of rows that do no harm, in which a member of the group can ask another
/// one for its vote, and has room to ask: where it stands for election, the other one is in its term, or in a higher
/// one, two delays later. Who leads or stands meanwhile, and whom the member has asked before, makes no difference.
pub fn who_stands_is_heard()
    ensures { (ids : List ℕ) (rows : List Row) → AreMembers ids → DoNoHarm (cluster ids) rows →
        WhoStandsIsHeard ids rows }
{
    each_transfer_comes_whole();
    terms_do_not_fall();
    vote_requests_read_as_said();
    votes_are_answered();
    what_elections_stand_on();
    who_is_listed_stays();
    who_stands_asks();
}

/// Who stands for election knows the highest term in time, or somebody has led. In a calm as for
/// [`votes_come_alone`], in which for four delays no other member of the group stands: at the end of these some
/// member of the group leads, or has led since, or the one that stood is in a term that no other one is above.
pub fn who_stands_knows_terms()
    ensures { (ids : List ℕ) (rows : List Row) → AreMembers ids → DoNoHarm (cluster ids) rows →
        WhoStandsKnowsTerms ids rows }
{
    votes_come_alone();
    what_winners_stand_on();
}

/// Who stands for election alone wins. In a calm as for [`who_stands_knows_terms`]: where each other member of the
/// group is below the term in which the one stands, with a log that is not above its own, and wins no earlier election
/// within two delays, the one leads the group within four delays, each other member follows, and has begun its wait
/// anew since.
pub fn who_stands_alone_wins()
    ensures { (ids : List ℕ) (rows : List Row) → AreMembers ids → DoNoHarm (cluster ids) rows →
        WhoStandsAloneWins ids rows }
{
    votes_come_alone();
    what_winners_stand_on();
}

/// Who stands for election first wins. In a calm as for [`who_stands_alone_wins`], where each other member of the group
/// follows when the one stands: so none of them wins an earlier election.
pub fn who_stands_first_wins()
    ensures { (ids : List ℕ) (rows : List Row) → AreMembers ids → DoNoHarm (cluster ids) rows →
        WhoStandsFirstWins ids rows }
{
    votes_come_alone();
    what_winners_stand_on();
}

/// What the laws of elections stand on: what is said below of a calm, and of members.
pub fn what_elections_stand_on()
    ensures { ElectionLaws }
{
    followers_follow_on();
    law_members();
    members_of_a_step();
    what_calms_stand_on();
}

/// What the laws of who wins stand on: what is said below of steps, and above of elections.
pub fn what_winners_stand_on()
    ensures { WinLaws }
{
    candidates_stay();
    law_decisions();
    steps_are_in_time();
    terms_do_not_fall();
    terms_stay_in_calm();
    vote_answers_read_as_said();
    votes_are_taken();
    votes_stay_free();
    waits_begin_then();
    what_elections_stand_on();
    who_asked_waits_on();
    who_is_listed_stays();
    who_stands_asks();
}
