//! A link for a member that is told the list of its cluster: with one transfer ID an Allocation goes out once in 8 s
//! at the most.
//!
//! Transfer IDs count to 32. Where one comes round too soon, and frames are lost just then, a receiver joins frames of
//! two transfers. [`SpacedLink`] stands over another link, and leaves out an Allocation with a transfer ID with which
//! another one went out less than 8 s before: the first frame, and those that follow (`specs/Spacing.antt`). What it
//! makes of the link and the clock below stands in `specs/LeftOut.antt`.
//!
//! [`laws`] has what follows of all that a member hands in.
#![tactic(auto)]

pub mod laws;
mod link;
mod spacing;

pub use link::SpacedLink;
