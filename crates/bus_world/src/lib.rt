//! A cluster of allocators on one bus, and devices that ask them for node IDs, under test.
//!
//! A [`World`] has 1 to 5 members, each on a disk in memory, a bus, and up to 8 allocatees. It takes rows of a
//! schedule one after another: a member opens, reads its clock, receives a frame of the bus or puts its next one
//! there, a frame comes from outside, a member stops at once, or a stop or a failure is armed at a call of its disk;
//! an allocatee comes, reads its clock, receives a frame, puts its next one on the bus, or leaves. [`World::row`]
//! takes exactly the lawful rows, and tells of each what it did; a row that is refused changes nothing, and is told
//! its cause. What a list of rows leaves, and what each tells, is the definition of `bus_spec`.
//!
//! The world has two parts. The members and their bus (`members`, with their rows in `rows` and `bus`) know nothing
//! of allocatees. The allocatees have a seat each (`seat`, with their rows in `allocatees`), and of the members they
//! touch the frames of the bus alone. `world` puts the two together.
//!
//! All memory is taken when the world is made. A server stays where it is for ever: an opening and a stop change it
//! there.
#![tactic(auto)]

mod allocatees;
mod bus;
pub mod laws;
mod lookup;
mod member;
mod members;
mod patterns;
mod place;
mod rows;
mod seat;
mod steps;
mod world;

pub use bus_spec::{Unlawful, WorldFault};
pub use world::World;
