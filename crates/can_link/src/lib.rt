//! Frames of a CAN bus of Linux, for the members of one process.
//!
//! [`RawSocket`] receives and sends by `read` and `write` on a raw CAN socket that is open already: the toolchain's
//! contracts allow none to be opened here. Whoever opens it sees that it is one (`PF_CAN`, `CAN_RAW`) that never
//! waits and gives back what is sent on it (`CAN_RAW_RECV_OWN_MSGS`). A frame on such a socket is 16 bytes
//! (`specs/Packet.antt`): the identifier with three flags, the number of data bytes, three bytes that mean nothing,
//! and room for 8 data bytes. [`CanBus`] has one frame on its way at a time (`specs/Way.antt`), and fails where its
//! echo is late. [`CanLink`] is the link of one member. What a member sends comes to the others of its process when
//! its echo does, once it was on the bus (`specs/Inboxes.antt`).
//!
//! What a raw socket gives and takes is not said by any contract. It is said that a packet is read and written as it
//! is defined, which frame is an echo and whose, to whom a frame is handed on, when an echo is late, and that a call
//! fails only where it is counted.
#![tactic(auto)]

mod bus;
mod inboxes;
pub mod laws;
mod link;
mod packet;
mod socket;

pub use bus::CanBus;
pub use link::CanLink;
pub use socket::{RawSocket, Socket, Written};
