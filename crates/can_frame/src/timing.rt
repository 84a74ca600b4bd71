//! The times that an allocator goes by, in milliseconds, and what it counts up to.

/// The next request of a device comes at most so long after the last one that was accepted.
pub const STAGE_TIMEOUT: u64 = 500;

/// The least wait before an election.
pub const ELECTION_WAIT: u64 = 2_000;

/// What a random word leaves modulo this is added to the wait before an election.
pub const ELECTION_SPREAD: u64 = 2_001;

/// A leader that has nothing to send says so long after its last append request that it still leads.
pub const HEARTBEAT_INTERVAL: u64 = 400;

/// After it a call to a peer is given up.
pub const CALL_TIMEOUT: u64 = 1_000;

/// A node is online for so long after its last NodeStatus.
pub const ONLINE_TIMEOUT: u64 = 3_000;

/// The time between two queries of a node. A response counts for so long too.
pub const QUERY_INTERVAL: u64 = 1_000;

/// A node that answers none of so many queries counts as silent.
pub const QUERY_LIMIT: u8 = 5;

/// The time between two Discoveries.
pub const DISCOVERY_INTERVAL: u64 = 1_000;

/// The time between two NodeStatus.
pub const STATUS_INTERVAL: u64 = 1_000;

/// A transfer of which no frame came for more milliseconds is forgotten
/// (UAVCAN v0 specification, "CAN bus transport layer").
pub const TRANSFER_TIMEOUT: u64 = 2_000;
