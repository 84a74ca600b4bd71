//! The Raft model with members that are replaced, and its laws. There is no code in it that runs.
//!
//! A member whose store was lost gets a copy of another member's, while all are stopped. What a reader must believe
//! beside `raft_model`: `specs/Replacement` (when a copy may be made, and what it leaves of messages), and
//! `specs/Changes` (runs with copies). `specs/Worlds` has a world in which none may be made, since a vote is stale.
//!
//! [`laws::law_replacements`] is the theorem: such runs are as safe as those of `raft_model`, and nothing that was
//! committed before a copy is lost by it. Its idea: no term above the leader's was led, since the majorities share a
//! member; and in its own term the leader led, or those that back it might still elect it. So all that was committed is
//! in its log (Leader Completeness). What the lost member acknowledged the copy has as well, or the leader's term has
//! overruled it, as a log that an election overruled.
#![tactic(auto)]

pub mod laws;
