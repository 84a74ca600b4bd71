//! The text of a schedule and of its report.
//!
//! A schedule is rows ([`Row`]), one a line; a report is a line for each row that was carried out, of
//! what it did ([`Told`]). Both grammars are definitions over bytes: `specs/Schedule.antt` says which
//! lines read as a row, and `specs/ReportText.antt` the bytes of each line. [`read_row`] answers exactly the
//! row as which a line reads, and `None` exactly where it reads as none; [`write_told`] gives exactly the
//! line. `specs/Lines.antt` takes rows from the front of some bytes.
//!
//! Words are parted by single spaces. A number is decimal without sign and without leading zeros; bytes
//! are two hexadecimal digits each, of either case where they are read and in lower case where they are
//! written.
#![tactic(auto)]

pub mod laws;
mod line;
mod report;
mod schedule;
mod word;

pub use bus_rows::{Row, Told};
pub use line::Line;
pub use report::{tell, write_told};
pub use schedule::{read_frame, read_row};
pub use word::{read_bytes, read_identifier, read_number};
