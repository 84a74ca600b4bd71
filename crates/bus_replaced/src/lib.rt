//! The promise along traces in which lost members are replaced, as laws. There is no code in it that runs.
//!
//! A trace is a list of rows and of replacements. What a reader must believe, beside the definitions of `bus_spec` and
//! `bus_agreement`: `specs/Traces` (when a member may be replaced, what that leaves, and which frames come no more) and
//! `specs/Promises`. [`laws::the_headline_along`] and [`laws::the_allocatees_along`] are the theorems. `specs/Worked` is
//! a trace of three members, and `specs/LawsBelow` a means of the proof.
//!
//! Why it holds: as in `bus_agreement` a world shows a run of the Raft model, here one with copies (`raft_replaced`). A
//! copy forgets votes, so the world that shows it is one in which the frames of votes from before are hidden: in place of
//! each stands a frame without a source. A row does the same in both worlds, if it brings no member such a frame; a
//! device takes no vote at all.
#![tactic(auto)]

pub mod laws;
