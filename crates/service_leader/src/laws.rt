//! The laws of this crate, each the contract of a function that does nothing.

ghost use Rattle.service_leader.specs.Answers.{AnswersAreTaken, AnswersComeInCalm, AnswersReadAsSaid, CallsAreAnswered};
ghost use Rattle.service_leader.specs.CallsAsk.{CallsAskNext};
ghost use Rattle.service_leader.specs.CallsComeBack.{CallsComeBack};
ghost use Rattle.service_leader.specs.CallsExample.{MayComeBack};
ghost use Rattle.service_leader.specs.Entries.{CallsInStepAreAccepted, CallsInStepAreAcceptedInRuns};
ghost use Rattle.service_leader.specs.Entries.{CallsReturnToWhoLeadsOn, EntriesAreCommittedInTime, EntriesComeInTime};
ghost use Rattle.service_leader.specs.EntriesBelow.{EntryLaws};
ghost use Rattle.service_leader.specs.EntriesExample.{EntriesMayCome};
ghost use Rattle.service_leader.specs.LeadsOn.{IsLed, LeadersLeadOn};
ghost use Rattle.service_leader.specs.NoElection.{CallsFit, ClocksGoOn, NoElectionComes, WillHear, greatest_wait};
ghost use Rattle.service_leader.specs.NoElection.{heard_within};
ghost use Rattle.service_leader.specs.NoElectionExample.{both, earlier_rows, heartbeat_rows, led_start, led_world};
ghost use Rattle.service_leader.specs.NoElectionExample.{slow_pace};
ghost use Rattle.service_leader.specs.WinnersCall.{WinnersCall};
ghost use Rattle.can_frame.specs.Timing.{election_wait};
ghost use Rattle.service_calm.specs.CallsInTime.{OffersCallBy};
ghost use Rattle.service_calm.specs.Calm.{AreCalm, AreRunning, Member, no_traffic};
ghost use Rattle.service_calm.specs.CalmExample.{clocks, receiver, sender, two};
ghost use Rattle.bus_rows.specs.Timed.{rows_in};
ghost use Rattle.alloc_spec.specs.ClusterMembers.{AreMembers};
ghost use Rattle.bus_spec.specs.Cluster.{cluster};
ghost use Rattle.bus_spec.specs.Lawful.{DoNoHarm};
ghost use Rattle.raft_model.specs.Lists.{In};
ghost use Rattle.bus_rows.specs.declared.row.Row.{Row};
ghost use Rattle.std.specs.Prelude.{◌≢◌, ℕ, List, [], ◌+◌, ◌<◌};

use alloc_spec_laws::laws::transfers_of_a_step_are_apart;
use bus_agreement::headline::rows_are_dutiful;
use raft_model::laws::{law_decisions, law_fit};
use service_calm::laws::{
    calls_are_heard, calls_read_as_said, calm_can_be, each_transfer_comes_whole,
    followers_follow_on_in_calm, leaders_call_in_time, what_calms_stand_on, who_is_listed_stays,
};
use service_steps::laws::{followers_follow_on, steps_are_in_time};

/// A call is accepted by a member that is in step with the leader: one that begins no further on than up to where the
/// leader knows the member's log to agree with its own, and whose term is that in which the leader leads now, where the
/// member's term is no higher. So it is at each moment of every run of the Raft model (`runs`), and where a row that
/// does no harm delivers the call, behind all rows that do none (`rows`).
pub fn calls_to_who_is_in_step_are_accepted()
    ensures runs { CallsInStepAreAcceptedInRuns }
    ensures rows { (ids : List ℕ) (rows : List Row) → AreMembers ids → DoNoHarm (cluster ids) rows →
        CallsInStepAreAccepted ids rows }
{
    law_decisions();
    law_fit();
    what_calms_stand_on();
}

/// Who leads leads on, and who follows follows on. In a calm as above, and from any moment of it on: a member of the
/// group leads in some term then, and each other member of the group follows in no higher term. As long as the rows
/// do no harm, and no other member reads its clock once its least wait for an election is over, so it is after each
/// row. So no term above the leader's comes up among them. Members that are not of the group may have higher terms:
/// no frame of theirs comes. Nothing is asked of who led before, or of elections before.
pub fn who_leads_leads_on()
    ensures { (ids : List ℕ) (rows : List Row) → AreMembers ids → DoNoHarm (cluster ids) rows →
        LeadersLeadOn ids rows }
{
    what_calms_stand_on();
}

/// In a calm no election comes where a leader is known, from any moment of the calm on. At that moment a member of
/// the group leads, and the others follow in no higher term. Then it leads on in this term, however long the calm
/// lasts, and each other member hears it before its least wait for an election is over, so it follows on. This asks
/// that a call comes in time: the call timeout, two periods and two delays are less than the least wait. It asks that
/// no clock has gone back when the calm begins; that each other member will hear a call (when the calm begins, the
/// two list each other, no frame of an earlier call waits, and the receiver's session does not refuse the first
/// call's ID; it has memory all the time; and its wait is not over by when it hears a call that is made from that
/// moment on); and that the calls that the leader offers from then on find room in its queue.
pub fn no_election_comes_in_calm()
    ensures { (ids : List ℕ) (rows : List Row) → AreMembers ids → DoNoHarm (cluster ids) rows →
        NoElectionComes ids rows }
{
    calls_are_heard();
    calls_read_as_said();
    followers_follow_on();
    followers_follow_on_in_calm();
    leaders_call_in_time();
    steps_are_in_time();
    what_calms_stand_on();
    who_is_listed_stays();
    who_leads_leads_on();
}

/// The premises of a calm without an election can be met, from its beginning on: of two members that are told their
/// list one leads, and the other one follows it, and in calm rows that do no harm the answer to its first call comes,
/// and it calls again.
pub fn no_election_can_be()
    ensures harmless { DoNoHarm (cluster two) earlier_rows }
    ensures listed { (p : ℕ) → In (Member p) both → In p two }
    ensures running { AreRunning both led_world }
    ensures leader { In (Member sender) both }
    ensures led { IsLed both sender 1 led_world }
    ensures short { greatest_wait slow_pace < election_wait }
    ensures clocks { ClocksGoOn both clocks led_start led_world }
    ensures will { (m : ℕ) → In (Member m) both → m ≢ sender →
        WillHear sender m (led_start + clocks (Member m) + heard_within slow_pace) led_world [] heartbeat_rows }
    ensures calm { AreCalm both clocks slow_pace (no_traffic led_start) led_world heartbeat_rows }
    ensures no_harm { DoNoHarm led_world (rows_in heartbeat_rows) }
    ensures fits { CallsFit sender led_world heartbeat_rows }
    ensures calls { OffersCallBy sender receiver 2414 led_world heartbeat_rows }
{}

/// Who is called answers. Where a member is delivered a call of a node on its list, it offers an answer in that step:
/// to the caller, under the call's transfer ID, and with the verdict of the Raft model on what it had before. Whether
/// its queue has room for the answer is not said here.
pub fn calls_are_answered()
    ensures { CallsAreAnswered }
{}

/// The bytes of an answer read as what it says in the Raft model: its term, and whether it says success. So it is
/// behind all rows that do no harm, in a row that does none, where the answering member runs and no call of its disk is
/// set to fail.
pub fn answers_read_as_said()
    ensures { (ids : List ℕ) (rows : List Row) → AreMembers ids → DoNoHarm (cluster ids) rows →
        AnswersReadAsSaid ids rows }
{
    what_calms_stand_on();
}

/// An answer that found room comes to the caller within two delays, in a calm as above, or the calm is over by then.
/// This asks the same of the responses from the one to the other as [`each_transfer_comes_whole`] does.
pub fn answers_come_in_calm()
    ensures { (ids : List ℕ) (rows : List Row) → AreMembers ids → DoNoHarm (cluster ids) rows →
        AnswersComeInCalm ids rows }
{
    each_transfer_comes_whole();
}

/// A caller takes the answer to its call. Where the answer comes while the caller leads in the term of the call, and
/// less than the call timeout after it called: if the answer is of that term, the caller knows by it how far the
/// member's log agrees with its own, or calls it with an earlier place next, and the call, which was pending until
/// then, is not any more. If the answer is of a higher term, the caller follows.
pub fn answers_are_taken()
    ensures { AnswersAreTaken }
{}

/// A call asks for the next place. Where a step offers an append request for which its queue has room, the member leads
/// when the step is over: the call says the request for the place before the peer's next one, with the entry at that
/// one where the log has one, and the member waits for the answer to this very request, since this moment and under
/// this transfer ID.
pub fn calls_ask_for_the_next_place()
    ensures { CallsAskNext }
{
    transfers_of_a_step_are_apart();
}

/// A leader's call comes back, in a calm as above of rows that do no harm, in which four delays are shorter than the
/// call timeout. A member may not lead when the calm begins, but once it leads, it leads on in one term. Another member
/// that it calls then hears the call within two delays and answers, and the leader is delivered that answer within four
/// delays and takes it, or the calm is over by then. So no call is given up, and no late answer is taken for another
/// one. This asks of the two what [`each_transfer_comes_whole`] asks, but nothing of the transfer IDs of the answers
/// behind the first; that each lists the other; and that the queue of the member that is called has a place left for
/// its answer all the time.
pub fn calls_come_back()
    ensures { (ids : List ℕ) (rows : List Row) → AreMembers ids → DoNoHarm (cluster ids) rows →
        CallsComeBack ids rows }
{
    answers_read_as_said();
    calls_read_as_said();
    what_calms_stand_on();
}

/// The premises of [`calls_come_back`] can be met: behind the rows of [`calm_can_be`] the answer to the append request
/// comes, and the rows go on for more than four delays.
pub fn calls_can_come_back()
    ensures { MayComeBack }
{
    calm_can_be();
}

/// So the calls of who leads on come back, in a calm as above and behind any first rows of it: where a member of the
/// group, once it leads in the calm, leads on in one term, and can exchange calls and answers with another member when
/// the calm begins, each call that it makes to that one behind the first rows comes back in time, or the calm is over
/// by then.
pub fn calls_return_to_who_leads_on()
    ensures { (ids : List ℕ) (rows : List Row) → AreMembers ids → DoNoHarm (cluster ids) rows →
        CallsReturnToWhoLeadsOn ids rows }
{
    calls_come_back();
}

/// The premises of [`entries_come_in_time`] can be met, also where the leader wins in the calm: behind the rows of
/// [`calls_can_come_back`], in which member 1 comes to lead, the two read their clocks, for longer than a period and
/// four delays.
pub fn entries_may_come()
    ensures { EntriesMayCome }
{
    calls_can_come_back();
    calls_return_to_who_leads_on();
    calm_can_be();
    winners_call();
}

/// A leader's entries come to a member in time, whatever the member's log is. In a calm as above, of rows that do no
/// harm, in which four delays are shorter than the call timeout: from behind some first rows on a member of the group
/// leads on in one term, and the others follow. Whether it led before, in this term or another, is not asked. It keeps
/// calling another member: behind the first rows it goes on calling it, and from some moment on its calls come back
/// ([`calls_return_to_who_leads_on`] says when that is so), and a call to it that waits for its answer behind the first
/// rows was made behind that moment. From any moment behind there on,
/// each place that the leader's log has by then is in the member's log too, and the leader knows so, within a period
/// and four delays, and four delays more for each call that is left: one for each place by which the next call is too
/// far on, and one for each place that the leader did not know the member to have; or the calm is over by then. A
/// member that refuses a call is called next with an earlier place; one that is called no further on than what the
/// leader knows it to have accepts.
pub fn entries_come_in_time()
    ensures { (ids : List ℕ) (rows : List Row) → AreMembers ids → DoNoHarm (cluster ids) rows →
        EntriesComeInTime ids rows }
{
    what_entries_stand_on();
}

/// A leader commits its entries in time. In a calm as for [`entries_come_in_time`], which holds of one or more members
/// that with the leader are a quorum: from any moment behind the first rows on, where the last entry of the leader's
/// log is of its own term, the leader has committed all entries that its log has by then, within the same time, or the
/// calm is over by then.
pub fn entries_are_committed_in_time()
    ensures { (ids : List ℕ) (rows : List Row) → AreMembers ids → DoNoHarm (cluster ids) rows →
        EntriesAreCommittedInTime ids rows }
{
    what_entries_stand_on();
}

/// Who comes to lead in a calm goes on calling. In a calm as above, in which the calls of a member find room in its
/// queue: in the row in which it comes to lead it calls each other node that it lists. So the premises of
/// [`entries_come_in_time`] on its calls hold behind that row.
pub fn winners_call()
    ensures { (ids : List ℕ) (rows : List Row) → AreMembers ids → DoNoHarm (cluster ids) rows → WinnersCall ids rows }
{
    what_entries_stand_on();
}

/// What the laws of entries stand on; the law of what a leader loses stands on it too.
pub fn what_entries_stand_on()
    ensures { (ids : List ℕ) (rows : List Row) → AreMembers ids → DoNoHarm (cluster ids) rows → EntryLaws ids rows }
{
    calls_ask_for_the_next_place();
    calls_read_as_said();
    calls_to_who_is_in_step_are_accepted();
    law_fit();
    rows_are_dutiful();
    steps_are_in_time();
    what_calms_stand_on();
    who_is_listed_stays();
}
