//! The keys of the store.

pub const VERSION: u8 = 0;

pub const TERM: u8 = 1;

pub const VOTE: u8 = 2;

/// The place of the last entry.
pub const LAST: u8 = 3;

pub const COMMIT: u8 = 4;

/// The entry at place 1; the others follow.
pub const FIRST_ENTRY: u8 = 5;
