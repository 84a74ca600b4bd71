//! A link for a member that is told the list of its cluster: it hears that a list is wrong, and forgives what was held.
//!
//! [`ToldLink`] stands over another link. A frame shows that a premise is broken, as where lists differ or a member runs
//! twice: it has the member's own node ID, or is of a node that is not on the list, and members alone send such frames or
//! it says that this node is an allocator (`specs/Voice.antt`, `specs/AllocatorUid.antt`): each call fails then. Behind a
//! silence of another member its answers to calls of AppendEntries count for nothing for half a second, since one may
//! have been held until then (`specs/Silence.antt`). And a frame by which a leader gives a node ID goes out only where
//! more than half of the list follow it (`specs/Following.antt`). What it makes of the link and the clock below stands
//! in `specs/Hearing.antt`.
//!
//! [`TermLink`] stands below it. A call or an answer whose term is above a ceiling is not handed on: the ceiling stands
//! 1,000,000 above the first term that the member sent, and rises by as much once in ten minutes, where a higher one
//! comes (`specs/Terms.antt`, `specs/Taking.antt`).
//!
//! [`laws`] has what follows of frames of members and devices, of an allocator's answer, of answers behind a silence,
//! of followers, and of terms.
#![tactic(auto)]

mod allocator_uid;
mod following;
pub mod laws;
mod link;
mod past;
mod silence;
mod term_link;
mod terms;
mod voice;

pub use following::is_allocation;
pub use link::ToldLink;
pub use past::is_past;
pub use term_link::TermLink;
pub use voice::fields_of;
