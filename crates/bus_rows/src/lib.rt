//! The rows of a schedule, and what each of them told.
//!
//! A [`Row`] is one event of a cluster under test: a member opens, reads its clock, receives or sends a frame, stops,
//! or a device does. [`Told`] is what a row did; `specs/ReportLine.antt` has it as a plain value, with a frame seen as
//! its identifier and its bytes. The text of both stands in `replay_text`, what a row leaves in `bus_spec`.
#![tactic(auto)]

mod row;
mod told;

pub use row::Row;
pub use told::Told;
