//! The program: it reads its words and runs the mode that they name. The mode `replay` is here; each other
//! mode is in a crate of its own.
//!
//! [`run`] does all that the program does, over any objects; its clauses say exactly what is written and
//! when each status comes, and that the promise holds along the rows (`specs/Promise.antt`).
//!
//! `replay` runs a cluster of allocators over a schedule and reports every row: a row is taken from the
//! source, the world (`bus_world`) takes it and tells what it did, and its line is written
//! (`specs/Report.antt`).
#![tactic(auto)]

mod input;
pub mod laws;
mod plans;
mod program;
mod replay;
mod report;
mod rows;
mod told;
mod words;

pub use cmd_io::Status;
pub use plans::Plan;
pub use program::run;
pub use told::{REST, Told};
pub use words::plan;
