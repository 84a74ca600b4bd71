//! An election on a calm bus of several members: who stands for election alone, in the highest term and with the log
//! that is furthest, leads in time. There is no code in it that runs.
//!
//! The calm is that of `service_calm`. A vote request comes back within four delays
//! ([`laws::vote_requests_come_back`], `specs/Votes`): who is asked answers by the rules of the Raft model
//! ([`laws::votes_are_answered`]), and who asked takes the answer ([`laws::votes_are_taken`]), since no other one
//! comes before ([`laws::votes_come_alone`], `specs/VotesAlone`). Terms stay within the highest one until a member
//! stands ([`laws::terms_stay_in_calm`], `specs/Terms`), and logs stay until a member leads
//! ([`laws::logs_stay_in_calm`]). So who stands first, above the terms of all others and with a log that is not
//! behind theirs, wins ([`laws::who_stands_first_wins`], `specs/Wins`).
//!
//! A member that hears no leader stands in time ([`laws::who_waits_stands`], `specs/Waits`). So where all members of
//! the group have just been opened, somebody stands ([`laws::somebody_stands_in_time`], `specs/Elections`); a member
//! that is ahead wins, where it stands first ([`laws::who_is_ahead_wins`]); and where all are in step, the election
//! ends in time ([`laws::elections_end`]). Where all have stored one term, one whose log is furthest wins in that
//! time, or somebody leads ([`laws::elections_end_in_one_term`]). Two members must not stand within four delays of
//! each other: of that nothing is promised.
//!
//! Why it holds: the vote requests from one member to another have transfer IDs that follow each other, and so have
//! the answers (`proofs/VotesAlone`, and `ExchangeAsks` of `service_leader`); what is delivered in a calm was made in it
//! (`proofs/MadeInCalm`); and each step is taken apart into what the event brings and what follows
//! (`proofs/TermsBrings`, and `RaftPhases` of `service_leader`).
//!
//! What a reader must believe: the files of `specs/`, and what they cite of `service_leader` and below.
#![tactic(auto)]

pub mod laws;
