//! Recorded traffic: the lines of the logs of `candump`, and those of serial adapters (SLCAN).
//!
//! Both grammars are relations between bytes and values: `specs/Candump.antt` and `specs/Slcan.antt` say
//! which lines carry a frame of an extended identifier, with 1 to 8 bytes, and which ones something else
//! that a bus or an adapter says. [`read_candump`] and [`read_slcan`] answer exactly the value as which a
//! line reads, and `None` exactly where it reads as none; [`write_candump`] and [`write_slcan`] give the
//! line of a frame, and it reads as that frame again. [`Form`] names the two, and reads and writes a line by
//! its form (`specs/Forms.antt`). Two rules for a form stand where they are used: in which bytes a line begins
//! (`cmd_logs`), and how a caller in C names a form (`log_page`).
//!
//! A line is without the line feed, or the carriage return, that ends it. Hexadecimal digits are of either
//! case where they are read, and of upper case where they are written. Nothing here takes memory.
#![tactic(auto)]

mod candump;
mod form;
pub mod laws;
mod slcan;
mod word;

pub use candump::{LogLine, read_candump, write_candump};
pub use form::{Form, Line, Logged};
pub use slcan::{SlLine, read_slcan, write_slcan};
