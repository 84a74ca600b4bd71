//! The headline, as a law over the definitions of the world (`bus_spec`), and the laws that it stands on.
//! There is no code here that runs.
//!
//! The headline ([`headline::the_headline`]): for every cluster and every list of rows that do no harm each committed
//! log is a prefix of one injective list, at every cut; the list only grows, and has no member's node ID;
//! every Allocation with a node ID other than 0 that waits to go out, or was on the bus, is a pair of it by
//! then; and the log of every later leader whose term is at least a member's stored one begins with what that
//! member has committed. `specs/Headline` says it.
//!
//! Why it holds: a list of rows makes a world, and shows a run of the Raft model (`raft_model`), whose
//! laws have the rest. `specs/Shows` says what holds between the two: each member that runs is its server in
//! the run, stores what that server stores, and made, heard and called what its transfers say. So it is
//!
//! - the world without rows shows the beginning ([`rows::the_beginning_is_shown`]);
//! - rows without events leave the run: frames from outside, frames that are sent, armed disks
//!   ([`rows::rows_without_events_are_shown`]);
//! - stops between two steps, and those of members that failed ([`rows::stops_are_shown`]);
//! - openings, also those that fail or put ([`rows::openings_are_shown`]);
//! - steps that finish ([`rows::finished_steps_are_shown`]), of which the core is that what is delivered
//!   was made ([`transfers::what_is_delivered_was_made`]), and that requests and answers that a member takes
//!   were said, an answer to the very call that takes it or one that counts for nothing
//!   ([`transfers::what_a_member_takes_was_said`]);
//! - steps that a disk cuts off, with the member or without it ([`rows::cut_steps_are_shown`]);
//! - so for any row that does no harm ([`rows::a_row_is_shown`]), and for all rows, one after
//!   another ([`headline::rows_are_shown`]).
//!
//! A row of an allocatee leaves the run as it is ([`rows::rows_of_allocatees_are_shown`]).
//!
//! From a run to the headline: an Allocation with a node ID that waits in a queue or is on the bus is a pair in
//! the bag of the run ([`headline::offers_are_pairs`]), and two worlds that mirror a run and its continuation have the
//! headline ([`headline::what_is_mirrored_has_the_headline`]). What a failed step stored, only the next stop
//! finds: till then a choice says it, and one that fits every stop exists ([`headline::a_choice_fits`]).
//!
//! Beside it: the run is safe, and what a row delivers of a member's transfer is one that this member made
//! ([`headline::rows_are_safe`]); and each step does its duty ([`headline::rows_are_dutiful`], from
//! [`rows::steps_are_dutiful`]).
//!
//! From there to devices ([`allocatees::the_allocatees`], `specs/Allocatees`): the node ID that an allocatee
//! holds was given by an Allocation that a member made, and so by a pair in the bag, which the list has.
//!
//! What a reader must believe: `specs/Headline`, `specs/Allocatees`, `specs/Duty` and `specs/Safe`, and of the
//! definitions of the world what they cite. The other files of `specs/` are means of the proof.
#![tactic(auto)]

pub mod allocatees;
pub mod below;
pub mod headline;
pub mod rows;
pub mod transfers;
