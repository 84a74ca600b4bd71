//! A device of four blocks, seen by what a stop may leave of it: the blocks that are being written may be lost.
//!
//! Cards and eMMC write and erase whole pages and blocks. One that loses power amid a write may lose all of the page
//! or block that it was writing, also bytes that were synced long before. So [`BlockDevice`] promises less than a disk
//! of `disk_model`: a stop may leave any bytes in a block that was written since the last sync that succeeded. Blocks
//! that were not written stay (`specs/Blocks.antt`).
//!
//! A block has 16,384 bytes. That whatever a device loses as one lies within a block is a premise, and one that cards
//! which erase larger units may break. Of a block 8,900 bytes are used. [`MemoryDevice`] is a device in memory,
//! [`FileDevice`] one in a file, which tells nothing.
#![tactic(auto)]

mod device;
mod file;
mod memory;

pub use device::{BLOCK, BLOCKS, BlockDevice, USED};
pub use file::FileDevice;
pub use memory::MemoryDevice;
