//! Cutting transfers into frames, and sending the frames in order.
//!
//! A [`Sender`] is a queue of frames. Contracts see it as the list of the queued frames in the order
//! in which they were offered (`specs/Queue.antt`). [`Sender::offer`] cuts a transfer into its frames
//! and puts all of them at the end, or none where they do not fit. [`Sender::pop`] takes the next one
//! out: among the frames with the least identifier, the one that was offered first. So a frame of a
//! higher priority overtakes, as it does on the bus, and the frames of one transfer stay in order
//! ([`laws`]).
//!
//! The frames of a payload are those of the UAVCAN v0 specification, "CAN bus transport layer",
//! defined in `can_frame`.
#![tactic(auto)]

mod cutting;
pub mod laws;
mod marked;
mod outgoing;
mod sender;

pub use cutting::frames_needed;
pub use marked::Marked;
pub use outgoing::Outgoing;
pub use sender::{NoRoom, Sender};
