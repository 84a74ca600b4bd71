//! What the program takes from the world and gives to it, as traits, with a form in memory and a real
//! form of each.
//!
//! An object of the outside is seen as two things: its contents, where it tells them, and a count of
//! its faults. The forms in memory tell their contents, so a contract can name the very bytes; the real
//! ones tell none, but those over a std reader and a std writer do what these do. The count never falls,
//! a call answers [`Failed`] only where the count rose in that call, and the count stays where a call
//! succeeds (`specs/Faults.antt`): code that is generic over these traits cannot raise a count, so it can
//! neither invent a fault nor hide one. A clock cannot fail, and has no count.
#![tactic(auto)]

mod clock;
mod failed;
mod link;
mod pattern;
mod received;
mod sink;
mod source;

pub use clock::{Clock, MemoryClock, StdClock};
pub use failed::Failed;
pub use link::{Link, MemoryLink};
pub use pattern::Pattern;
pub use received::{RawFrame, Received};
pub use sink::{MemorySink, Sink, StdSink};
pub use source::{MemorySource, Source, StdSource};
