//! What the stores of a cluster agree on, found without writing to them.
//!
//! [`audit`] compares the stored states of up to five stores: they agree, or at a place two of them have
//! committed different entries (`specs/Verdict.antt`). [`audit_stores`] is the mode of the program: it reads
//! the image of each disk by one call, and writes the list on which the stores agree, with the way by which
//! each entry came into each store, or one line of what it found (`specs/Report.antt`, `specs/Audits.antt`).
//!
//! No disk is written, and no memory is taken.
#![tactic(auto)]

mod compare;
pub mod laws;
mod lines;
mod marks;
mod read;
mod run;
mod verdict;

pub use read::{Refused, read_place};
pub use run::audit_stores;
pub use verdict::{Verdict, audit};
