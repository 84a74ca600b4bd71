//! Stores that are made: the mode `new`, and how members know such a store again.
//!
//! A new store says that it is one: its image has a version alone, or besides a term and the vote of its member for
//! itself (`specs/NewImage.antt`). One with a version alone is the image that an opening of zeros leaves, so nothing is
//! put when its member first opens it. [`make_stores`] writes the image to each of the disks that are handed in, by
//! [`write_image`], which also syncs it (`specs/Made.antt`). [`find_store`] tells a new store from one that was used, and
//! from a disk without a store, as one of zeros: that is how a lost block reads (`specs/Found.antt`).
//! [`look_for_stores`] asks it of all that a process runs (`specs/Looks.antt`), and [`mark_new_stores`] marks those that
//! are new before a member runs on them, which may put nothing (`specs/Marked.antt`).
#![tactic(auto)]

mod found;
mod image;
pub mod laws;
mod look;
mod make;
mod mark;

pub use found::{Found, find_store};
pub use look::look_for_stores;
pub use make::{make_stores, write_end, write_image};
pub use mark::{mark_as_used, mark_new_stores};
