//! The mode `decode` of the program: a text in DSDL comes from a source, and the numbers of a payload
//! under a part of one of its types go to a sink.
//!
//! [`decode`] is the mode. `specs/Lines.antt` says which lines of the source are a text and where it
//! ends, `specs/Report.antt` what is answered and written, `specs/Ends.antt` how a run ends.
#![tactic(auto)]

mod answer;
mod decoding;
mod ending;
pub mod laws;
mod lines;
mod reading;
mod writing;

pub use decoding::decode;
