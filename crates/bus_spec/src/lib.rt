//! The world of a list of rows: a cluster of allocators on one bus, as a definition.
//!
//! `specs/` says it: members on disks (`Members`), their bus and what each row leaves (`Cluster`),
//! which rows are refused and why (`Lawful`), what a row tells, and the report of a list of rows
//! (`Report`), what is stored of a step that failed (`Choices`), the run of the Raft model that a world
//! shows (`Refinement`), what members have committed and offer (`Logs`), and that each keeps its word
//! (`OwnLogs`). `bus_world` shows that its code is this very world.
//!
//! The code here is what its users share: the causes of a refusal ([`Unlawful`]), and what a step tells
//! ([`told_of_step`]).
#![tactic(auto)]

mod told;
mod unlawful;

pub use told::told_of_step;
pub use unlawful::{Unlawful, WorldFault};
