//! What the program does with recorded traffic: [`watch`] lists the transfers of a log, and [`convert`] writes
//! its frames as a log of the same form or of the other one.
//!
//! A log is lines of one form (`can_logs::Form`), that of `candump` or that of a serial adapter (`specs/Lines.antt`).
//! It is read line by line, with at most 4,096 bytes that wait, and no memory is taken. A log has one report,
//! and one status that it comes with (`specs/Report.antt`); a run comes to them unless something fails.
//!
//! A line of `watch` tells the transfer, if any, that its frame delivers at the receiver that it comes to, by the
//! definition of reassembly, over the frames of the lines before. Where the source tells its contents:
//!
//! | answer | comes where | what is written |
//! |---|---|---|
//! | `Done` | no line begins after those that were read | exactly the report: what the lines tell, in their order, and the last line |
//! | `BadRow(r)` | line r may come and cannot be read | the same |
//! | `Limit(r)` | line r, one more than the words allow, begins | the same |
//! | `ReadFault` | the source counted a fault in a read that was needed: what waits is no whole line | exactly what those lines tell whose ends were read |
//! | `WriteFault` | the sink counted a fault | a prefix of what some lines tell that were read, or of the whole report |
//!
//! Of the bytes after the lines that were taken at most 4,096 were read. Where nothing fails, the run comes to the one
//! report of its log. A log of lines that can all be read, as many as may come at most, ends with `Done`.
#![tactic(auto)]

mod conversion;
mod front;
pub mod laws;
mod log;
mod receivers;
mod rows;
mod transfer_line;
mod watching;

pub use conversion::convert;
pub use watching::watch;
