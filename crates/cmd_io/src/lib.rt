//! What the modes of the program share: how a run ends, what is written to a sink and by which lines,
//! and the numbers that are drawn.
//!
//! [`Status`] is how a run ends, with the exit code of each way. [`Output`] gathers what is to be
//! written, and hands it to the sink in pieces of some kilobytes; where the sink fails it has a front of
//! what it was to have (`specs/Output.antt`). [`Input`] holds what was read and not yet taken, and
//! [`front_line`] finds the line at its front (`specs/Input.antt`). [`number_line`] and [`numbers_line`]
//! are the lines of a word and one number or two. [`Draws`] is the generator of the words that servers
//! are given, and of all that is drawn by chance (`specs/Draws.antt`).
#![tactic(auto)]

mod draws;
mod input;
mod lines;
mod output;
mod status;

pub use draws::Draws;
pub use input::{Front, Input, front_line};
pub use lines::{number_line, numbers_line};
pub use output::Output;
pub use status::Status;
