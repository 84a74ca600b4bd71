//! The exchange by which a node without an ID tells its unique ID to an allocator.
//!
//! The 16 bytes come in three requests of 6, 6 and 4 bytes. An allocator answers the first two with
//! the bytes so far, so that the node with these bytes goes on and all others wait, and the last one
//! with a node ID (UAVCAN v0 specification, "Dynamic node ID allocation").
//!
//! An [`Exchange`] keeps the bytes. What it answers is said by the list of the requests accepted since
//! the last clearing (`specs/Exchange.antt`), which it does not keep: [`Exchange::heard`] answers and
//! leaves what that definition says, for every list that the exchange stands for
//! (`specs/Stands.antt`).
#![tactic(auto)]

mod exchange;
mod heard;
pub mod laws;
mod stage;

pub use exchange::Exchange;
pub use heard::{Heard, Ignore};
