//! The handlers of Raft: what a member does with each message, at a tick, and with what it has to say.
//!
//! A [`Raft`] is what a member keeps in memory beside what its [`Durable`](raft_log::Durable) keeps
//! through stops. It is handed the moment and what came, makes its puts through the `Durable`, and
//! sends nothing: it says what is owed, and its caller sends.
//!
//! The model of a `Raft` is a server of the Raft model (`raft_model`), and beside it the times that the Raft
//! model does not know (`specs/Times.antt`): waits, and the moments and transfer IDs of calls. A `Raft` stands
//! for such a pair (`specs/Stands.antt`). The one contract: each call makes moves of the Raft model
//! (`specs/Handled.antt`), with exactly their puts, in order; and where no put fails, it leaves a `Raft`
//! that stands for the server and the times after those moves. Where a put fails, the puts before it are
//! done, and the `Raft` is not to be used again. The fault is one of the disk, counted in this call, and is
//! kept; where the stored state had failed before, nothing changes (`specs/StoredPuts.antt`).
//! [`laws`] joins the calls of a step.
//!
//! Each entry is stored with its origin, by which it came into this member's log: from a leader, by a
//! proposal, as a reservation or as the blank of a win. The Raft model knows no origins: a put of it is noted
//! with one beside it.
//!
//! A `Raft` fits what is stored (`specs/Fits.antt`); every call that takes the stored state asks for
//! this, and keeps it.
//!
//! The rules are those of the Raft paper ("In Search of an Understandable Consensus Algorithm", figure 2),
//! as libuavcan's distributed server of node IDs uses them: a leader sends one entry at a time, and it
//! appends a blank when it wins. A member that was told to wait (`wait_until_heard`) appends its blank only
//! once a quorum has its log: elections whose leader is heard by no quorum then leave the log as it is. An
//! entry may also keep a node ID back, of a node that tells no unique ID: it is replicated and committed as
//! a pair is, and told to nobody.
#![tactic(auto)]

mod append;
mod blank;
mod calls;
mod commit;
mod election;
pub mod laws;
mod peer;
mod propose;
mod raft;
mod tell;
mod votes;

pub use calls::{Call, Pending};
pub use can_frame::Role;
pub use propose::Proposed;
pub use raft::Raft;
pub use tell::Telling;
