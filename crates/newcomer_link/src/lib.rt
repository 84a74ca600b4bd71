//! A link for a member that is told the list of its cluster: a burst of new devices or nodes uses up no log.
//!
//! A log forgets nothing, and a node ID that was given stays given. So a device that asks with one unique ID after the
//! other, or shows itself under one node ID after the other, would use up all of them in seconds. [`NewcomerLink`]
//! stands over another link, and lets everybody in while fewer than 100 places are taken. Beyond that it lets one
//! newcomer in each ten minutes, and those that stand in the log always (`specs/Standing.antt`). Which frames may take
//! a place stands in `specs/Approach.antt`, and how a unique ID is known by its parts in `specs/Partials.antt`.
//!
//! It reads the log in the store of its member, by a disk of its own, and writes nothing (`specs/Logs.antt`). What it
//! makes of the link, the clock and the disk below stands in `specs/Admission.antt`.
//!
//! Where the log cannot be read, a request is turned away, and a node that shows itself is let in. The other way round
//! a new device could be told the ID of a living node that was turned away. Each node that is let in costs one entry
//! at most, but no limit holds for nodes until the log is read again, and the next rise goes to one above all places
//! that are taken then.
//!
//! [`laws`] has what follows: how fast places can be taken, and who is never turned away.
#![tactic(auto)]

mod approach;
pub mod laws;
mod link;
mod log;
mod newcomers;
mod partial;
mod requests;

pub use link::NewcomerLink;
