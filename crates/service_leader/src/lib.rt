//! A leader on a calm bus of several members and devices: it stays, its calls come back, and its entries come to its
//! followers and are committed, in time. There is no code in it that runs.
//!
//! The calm is that of `service_calm`. While nobody's least wait is over, who leads leads on, and the others follow
//! on in no higher term ([`laws::who_leads_leads_on`], `specs/LeadsOn`). So no election comes in a calm in which a
//! leader's calls find room, from whatever moment of it on ([`laws::no_election_comes_in_calm`], `specs/NoElection`);
//! rows that meet its premises are there ([`laws::no_election_can_be`]).
//!
//! Who is called answers, by the verdict of the Raft model ([`laws::calls_are_answered`], `specs/Answers`). The answer
//! comes to the caller within two delays more, which takes it ([`laws::answers_come_in_calm`],
//! [`laws::answers_are_taken`]): so a leader's call comes back within four ([`laws::calls_come_back`],
//! `specs/CallsComeBack`; [`laws::calls_can_come_back`]). What a call asks stands in `specs/CallsAsk`
//! ([`laws::calls_ask_for_the_next_place`]). A member accepts a call that begins no further on than what the leader
//! knows it to have ([`laws::calls_to_who_is_in_step_are_accepted`], `specs/Entries`); one that refuses is called with
//! an earlier place next. So the leader's entries come to it in time, whatever its log is, and from any moment of the
//! calm on at which the leader leads ([`laws::entries_come_in_time`]; [`laws::entries_may_come`]), and where they come
//! to a quorum they are committed by then ([`laws::entries_are_committed_in_time`]). Who comes to lead in a calm calls
//! all in that row, and so meets what these laws ask of its calls ([`laws::winners_call`], `specs/WinnersCall`).
//!
//! Why it holds: terms do not rise, since no message has a higher term than its maker has (`proofs/TermsSaid`), and
//! what comes in a calm is of the group (`proofs/LeadsOnWays`). Each follower hears the leader before its least wait is
//! over (`proofs/NextCall`). A request of one member comes to another one, and its answer back (`proofs/Exchange`,
//! which holds of votes too). Of a leader's calls to one member and its answers one is under way at most
//! (`proofs/CallsAlone`), so the answer that comes is that to the call that is pending; behind it the next call goes
//! out in the same step (`proofs/EntriesSteps`). While a call is pending the leader knows the same of the member
//! (`proofs/EntriesHold`), so each answer leaves one call less (`proofs/EntriesComing`).
//!
//! What a reader must believe: the files of `specs/`, and what they cite of `service_calm` and below.
#![tactic(auto)]

pub mod laws;
