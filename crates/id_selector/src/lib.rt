//! The choice of a node ID for a device that asks for one.
//!
//! A device says which ID it would like; a preference of 0 or above 125 counts as 125. It gets the least
//! free one from there up to 125, else the greatest free one below, else none (`specs/Choice.antt`):
//! [`choose`] promises this both as a function that computes the answer and as the relation that only
//! this answer satisfies.
#![tactic(auto)]

mod choice;
pub mod laws;

pub use choice::choose;
