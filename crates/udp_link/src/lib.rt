//! Frames between the nodes of one machine, as datagrams of UDP on the loopback interface.
//!
//! A datagram is one frame (`specs/Datagram.antt`): the identifier in 4 bytes, the high byte first; the
//! number of data bytes; and these, 1 to 8. Any other datagram is junk. The node with a node ID receives
//! at the port base + ID of 127.0.0.1, and what it sends goes to the ports of all other IDs.
//!
//! What a socket gives and takes is not said by any contract. It is said that a datagram is read and
//! written as it is defined, and that a call fails only where it is counted.
#![tactic(auto)]

mod datagram;
pub mod laws;
mod link;
mod senders;

pub use link::UdpLink;
