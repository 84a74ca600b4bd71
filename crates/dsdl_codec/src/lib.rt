//! The data types that allocators exchange, and their bytes.
//!
//! Each type has one module in `specs/` that relates its values and their bytes: `TYPE_bytes` gives
//! the bytes of a value, `SpellsType` says that bytes are those of a value, and `TYPE_of` is the value
//! of bytes, where they are some value's. The bits of a byte are packed from the high one, numbers
//! have their low byte first, and an array at the end takes what is left. Padding bits are ignored
//! when read and written 0.
//!
//! `read` gives the value whose bytes a payload is, and `None` exactly where it is no value's. `write`
//! gives the bytes of a value whose small fields are within their bits. So who reads what another
//! wrote has the same value, by the clauses of the two alone.
//!
//! `numbers` lists a value's fields in order, a flag as 0 or 1 and each list of variable length behind its
//! count (`specs/Numbers.antt`).
//!
//! The types are those of the UAVCAN v0 specification, `uavcan.protocol.*`; a request of GetNodeInfo
//! is the empty payload, and needs no type.
//!
//! The numbers of a value, which each `numbers` gives, are its fields in their order, with its length in front of a
//! list.
#![tactic(auto)]

mod allocation;
mod append_answer;
mod append_request;
mod discovery;
mod entry;
mod hardware_version;
pub mod laws;
mod node_info;
mod node_status;
mod numbers;
mod payload;
mod software_version;
mod verdict;
mod vote_answer;
mod vote_request;

pub use allocation::Allocation;
pub use append_answer::AppendAnswer;
pub use append_request::AppendRequest;
pub use discovery::Discovery;
pub use node_info::NodeInfo;
pub use node_status::NodeStatus;
pub use numbers::Numbers;
pub use payload::Payload;
pub use vote_answer::VoteAnswer;
pub use vote_request::VoteRequest;
