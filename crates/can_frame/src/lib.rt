//! Frames of the bus, and the words that every crate above speaks in.
//!
//! A frame has a 29-bit identifier ([`Ident`]) and 1 to 8 bytes, of which the last is the tail
//! ([`Tail`]). Identifiers and tails are field tables (`specs/Identifier.antt`, `specs/Tail.antt`),
//! read and written here, both ways. A transfer is a payload cut into frames (`specs/Cutting.antt`):
//! what is sent is such a cutting, and what is received is the payload of which the frames are one.
//! Its CRC is the remainder of a division of polynomials (`specs/TransferCrc.antt`). `specs/Log.antt`
//! has entries and logs: an entry is a blank, a reservation or a pair, and a log gives node IDs to unique
//! IDs, none of them twice, and never one that it reserves. The data types stand in one table, with what
//! each transfer of an allocator is ([`DataType`], `specs/DataTypes.antt`), times of an allocator in
//! another ([`timing`], `specs/Timing.antt`), and the sizes that bound everything in a third ([`sizes`],
//! `specs/Sizes.antt`). Code and definitions say these numbers apart, so that a slip in one of them is
//! refused. [`laws`] has what follows from the definitions.
//!
//! The rules are those of the UAVCAN v0 specification, "CAN bus transport layer".
#![tactic(auto)]

mod data_type;
mod entry;
mod frame;
mod identifier;
pub mod laws;
mod mark;
mod node_id;
pub mod sizes;
mod step;
mod tail;
pub mod timing;
mod transfer_crc;

pub use data_type::{
    ALLOCATION, APPEND_ENTRIES, DISCOVERY, DataType, GET_NODE_INFO, NODE_STATUS, REQUEST_VOTE,
    TransferType,
};
pub use entry::{Entry, Uid, has_node_id, has_uid, is_same_uid, is_zero};
pub use frame::{BadFrame, Frame};
pub use identifier::{Ident, Kind};
pub use mark::Mark;
pub use node_id::NodeId;
pub use step::{Judged, Role, Seen, Sent, What, Why};
pub use tail::Tail;
pub use transfer_crc::{crc, crc_more};
