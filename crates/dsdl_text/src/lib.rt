//! Data types that are described in text, and the numbers of a payload under such a description.
//!
//! The text is in the DSDL of UAVCAN v0 (the UAVCAN specification 1.0, chapter 3, "Data structure
//! description language"), without cast words, floats, signed numbers, unions and types of other files;
//! one text holds several types, each behind a line `@ Name`.
//!
//! [`TextReader`] reads a text line by line. `specs/Lines.antt` says which bytes read as which [`Line`],
//! `specs/Text.antt` what a line makes of the text so far, and which [`LineFault`] it has. A type's layout
//! (`specs/Layout.antt`) is a tree; `specs/Numbers.antt` gives the numbers of a payload under a layout,
//! and `specs/Writing.antt` says which bits numbers have there.
//! [`Texts::find`] finds a part of a type by its name, and [`Texts::decode`] answers exactly the numbers.
#![tactic(auto)]

mod bits;
mod compact;
mod decode;
mod fault;
pub mod laws;
mod line;
mod parse;
mod reader;
mod section;
mod size;
mod texts;
mod width;
mod word;

pub use fault::LineFault;
pub use line::{Line, Shape};
pub use parse::read_line;
pub use reader::TextReader;
pub use section::Numbers;
pub use texts::Texts;
pub use word::is_name;
