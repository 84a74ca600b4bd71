//! Laws of the public data types: what their text, read as layouts, gives a payload is what the codecs
//! read.
//!
//! [`laws`] speaks of the definitions. The calls stand beside them: [`profile_types`] reads the text, and
//! what it decodes ([`numbers_by_text`]) is what each [`Codec`] reads.
#![tactic(auto)]

mod calls;
mod codec;
pub mod laws;
mod text;

pub use calls::{numbers_by_text, profile_types};
pub use codec::Codec;
pub use text::PROFILE;
