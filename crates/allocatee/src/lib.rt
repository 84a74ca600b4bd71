//! A device that asks the allocators of a bus for a node ID: the other side of the exchange.
//!
//! An [`Allocatee`] is one device, with its receiver and its queue. Until it holds a node ID it sends requests: when
//! its request timer has passed, the first 6 bytes of its unique ID (the first stage); after an answer with a
//! beginning of its unique ID, the bytes behind that (the second and third stage). An answer with all 16 bytes and a
//! node ID gives it that ID, for good. Any Allocation restarts its request timer, so that devices do not ask at once.
//!
//! The definition stands in `specs/`: `Asking` has those rules, `Allocatee` adds the receiver. [`Allocatee::step`]
//! does what that definition says, for every state of it that the allocatee stands for (`Stands`);
//! [`Allocatee::judge`] is `Judging`.
//!
//! The rules are A to E of an allocatee in `uavcan.protocol.dynamic_node_id.Allocation`, of UAVCAN v0. [`laws`] and
//! [`times`] say what they are for: how a device comes to a node ID, and when it asks.
#![tactic(auto)]

mod allocatee;
mod applicant;
mod event;
pub mod laws;
mod rows;
mod timer;
pub mod times;

pub use allocatee::Allocatee;
pub use event::{AEvent, AOutcome};
pub use rows::{allocatee_accept, allocatee_rows};
