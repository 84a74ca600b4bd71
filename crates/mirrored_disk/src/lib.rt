//! A disk over a device that may lose the blocks that are being written, and on which time may change one block.
//!
//! The device has two pairs of blocks. A block may have a record: a head, a number, the whole image of a disk, and a
//! digest of all of these (`specs/Record.antt`). [`MirroredDisk`] has its image in memory. A sync writes a record with
//! the next number to both blocks of the pair that has not the newest one, and syncs the device once. An opening takes
//! the record with the highest number (`specs/Newest.antt`).
//!
//! A stop in a sync leaves the image of the sync before, or that of this sync, whatever the two blocks have then. From
//! the first sync on two copies of each record stand on the device, so one rotten block changes nothing ([`laws`]). Two
//! rotten blocks of the newest record look as a stop in the sync that wrote them: an opening takes the image before.
//!
//! That no bytes pass the check unless they were written is a premise of the laws (`IsHonest`). Nothing uses this disk
//! yet: stores are of version 2, over a `FileDisk`.
#![tactic(auto)]

mod bytes;
mod disk;
pub mod laws;
mod open;
mod pair;
mod record;
mod search;
#[cfg(test)]
mod tests;

pub use disk::MirroredDisk;
pub use open::{OpenRefused, Why};
pub use record::HEAD;
