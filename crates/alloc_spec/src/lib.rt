//! What one allocator's step is, and the parts that a server of it is made of.
//!
//! The definition (`specs/`): an allocator state is a server of the Raft model (`raft_model`) with
//! the moments and lists that its step goes by (`AllocatorState`). A step is a function of it: what
//! an event, with its moment, makes of a server where no put fails (`Step`). It says what the server
//! is afterwards, which moves of the Raft model it made, with which puts, and which transfers it
//! offered, in order (`StepState`). Whether a frame fits a server under test is said over the same
//! definition (`Judging`).
//!
//! The parts: the transfers that an allocator sends and receives ([`accept_rows`], [`ident_of`]),
//! the queue with its transfer IDs ([`Outbox`]), the list of what a step offered ([`Offered`]), and
//! what goes in and out of a step ([`Event`], [`Outcome`], [`View`]), and the test of a cluster's node IDs
//! ([`are_members`], `specs/ClusterMembers.antt`). [`laws`] says that phases of a step only add puts, and which
//! origin the entries have that a leader records.
#![tactic(auto)]

mod counters;
mod event;
pub mod laws;
mod members;
mod offered;
mod outbox;
mod rows;
mod transfers;

pub use can_frame::{Judged, Role, Seen, Sent, What};
pub use event::{Event, Outcome, View};
pub use members::are_members;
pub use offered::Offered;
pub use outbox::Outbox;
pub use rows::{accept, accept_rows, is_of_members};
pub use transfers::ident_of;
