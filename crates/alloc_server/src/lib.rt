//! One allocator of a cluster: what it does with its clock and with the frames of the bus.
//!
//! A [`Server`] is a member with its receiver. It opens with what its disk has stored, and stands
//! for an allocator state (`alloc_spec`) from then on. A server that stops and opens again can stay where
//! it is ([`Server::restart`], [`Server::reopen`]). [`Server::step`] is the step of that server:
//! what it sees, offers, gives and keeps, and the device calls of its puts, in order. A stop at any
//! moment of a step leaves the state after some of its puts, the first ones. Where a put fails, the
//! step ends there, what waited for the bus is lost, and each later step gives the same fault and
//! changes nothing. What a step does in the Raft model of a cluster is said of the definition,
//! in `alloc_spec_laws`.
//!
//! [`Server::another_log`] says whether an event brings a call that contradicts what the member has committed.
//! In a run of the Raft model no call does ([`laws::no_call_contradicts`]).
//! [`Server::judge`] says whether a frame may be given to a server under test.
#![tactic(auto)]

mod another_log;
mod judge;
pub mod laws;
mod server;
mod take;

pub use alloc_spec::{Event, Judged, Outcome, Role, Seen, Sent, View, What, accept, accept_rows};
pub use server::Server;
