//! Reassembly: from frames in any order, of any senders, to whole transfers.
//!
//! There are five ways to give a frame to a receiver:
//!
//! | call | changes the receiver | the transfer |
//! |---|---|---|
//! | [`Receiver::take`] | yes | comes as a copy |
//! | [`Receiver::hear`] | yes | stays in the receiver, and [`Receiver::delivered`] lends it |
//! | [`Receiver::hear_by`] | yes, as `hear`, with a closure that is handed in | the same |
//! | [`Receiver::peek`] | no | that `take` would deliver, as a copy |
//! | [`Receiver::foretell`] | no | that `hear` would deliver, its heading alone |
//!
//! A [`Receiver`] keeps sessions, one for each kind, number and source that it hears. Contracts see
//! its sessions by `specs/Reassembly.antt`: a list with different keys, in which each session has the
//! whole frames that it took since its last cut. There a transfer is delivered where its frames are
//! the cutting of a payload, as `can_frame` defines it for sending too; a frame that is not the next
//! of its session, or that makes no transfer, is dropped, and the definition says why.
//!
//! The one contract: for every list of sessions that a receiver stands for, a call that takes a frame
//! gives the definition's answer to it, and leaves a receiver that stands for the sessions afterwards;
//! a call that changes nothing tells what would be delivered. The code keeps places, counts, a moment,
//! a running CRC and the transfer's own for each (`specs/Places.antt`), and the bytes in chains of a
//! pool of blocks; none of these shows in a clause on what is answered. [`Receiver::pool`] and
//! [`Receiver::chain_of`] lend what is kept (`specs/Chains.antt`): each session has a chain of its own,
//! with the bytes of its frames, and every other chain is empty. [`laws`] says what the definition means:
//! it delivers exactly cuttings, and each undamaged transfer that comes in order.
//!
//! The rules are those of the UAVCAN v0 specification, "CAN bus transport layer", for one interface.
#![tactic(auto)]

mod accept;
mod age;
mod change;
mod judge;
mod key;
pub mod laws;
mod payload;
mod progress;
mod receiver;
mod search;
mod sessions;
mod standard;
mod transfer;
mod turn;
mod verdict;

pub use accept::AcceptRow;
pub use receiver::Receiver;
pub use transfer::{Heading, Heard, Took, Transfer};
