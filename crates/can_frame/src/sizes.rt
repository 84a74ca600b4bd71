//! The sizes that bound an allocator.

/// A cluster has at most so many members: a Discovery of the standard names up to five.
pub const MOST_MEMBERS: usize = 5;

/// A log has at most so many entries.
pub const LOG_LIMIT: usize = 127;

/// Node IDs and what is counted by node: 0 is anonymous, 1 to 127 are nodes.
pub const NODE_IDS: usize = 128;

/// The longest payload of a transfer, in bytes.
pub const LONGEST_PAYLOAD: usize = 376;

/// The longest payload with the CRC that stands before it, in bytes.
pub const LONGEST_TRANSFER: usize = 378;

/// The receiver of an allocator follows at most so many transfers at once.
pub const SESSIONS: usize = 160;

/// The receiver of an allocator has so many blocks of memory for them.
pub const BLOCKS: usize = 128;
