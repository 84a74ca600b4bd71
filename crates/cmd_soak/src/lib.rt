//! The mode `soak` of the program: a cluster under stops, losses and repeats that a seed chooses.
//!
//! [`soak`] runs a cluster over rounds of rows, all of them given to a world (`bus_world`), and writes
//! six lines of what came of it. Which rows a seed makes, and what they leave, is a definition
//! (`specs/Rounds.antt`): a stop is armed by chance, members that are stopped open, a device asks for a
//! node ID, and each member reads its clock, is given the frames that came, and sends some. The lines
//! are counts of what is so at the end (`specs/Counts.antt`). [`laws`] says that the rows that were
//! taken are lawful rows of a cluster, so that what holds along such rows holds along these.
//!
//! The bus takes 41 frames a round, one from outside and eight of each of five members, and so never
//! fills up: nothing else than the world takes memory, and it takes it before the first row.
#![tactic(auto)]

mod counts;
mod hearing;
pub mod laws;
mod pairs;
mod requests;
mod run;
mod soaking;
mod stops;
mod turn;

pub use run::soak;
