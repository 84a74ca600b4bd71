//! How an entry came into the log of this member.

/// From a leader, or stored before origins were.
pub const LEADER: u8 = 0;

/// By the exchange of an allocatee with an allocator (uavcan.protocol.dynamic_node_id.Allocation).
pub const EXCHANGE: u8 = 1;

/// A node that has a node ID told its unique ID (uavcan.protocol.GetNodeInfo).
pub const NODE_INFO: u8 = 2;

/// A reservation of a node ID.
pub const RESERVATION: u8 = 3;

/// A leader's blank, which this member appended as the leader.
pub const WIN: u8 = 4;
