//! The mode `replace`: it makes the store of a member that was lost from the leader's.
//!
//! [`find_leader`] says by what the other members have stored whether that may be done (`specs/Guard.antt`), and which
//! member is the leader; or what stands in the way. [`replace`] is the mode of the program: it reads the stores of the
//! others, as `audit` does, and where it may it writes the image of the leader's to the disk of the lost member, and
//! syncs it (`specs/Replaced.antt`).
//!
//! Of the other disks none is written, and no memory is taken.
#![tactic(auto)]

mod guard;
pub mod laws;
mod left;
mod lines;
mod make;

pub use guard::{Obstacle, find_leader};
pub use make::replace;
