//! The term, the vote, the log and the commit index of a member, and how each entry came into its log, kept
//! through stops.
//!
//! An image of the disk stands for a stored state where it keeps the rules of all keys
//! (`specs/Rules.antt`); else its first damaged key is named. [`Durable`] has the state that its disk
//! stands for. Each call that changes it makes puts in an order that is safe to cut off anywhere
//! (`specs/Stored.antt`): a stop at any moment of the call leaves the state after some of the first of
//! them. So a term is stored before its vote, and an entry before last counts it.
//!
//! [`Stored::read`] reads the state of an image alone, by the same rules; nothing is opened and nothing put.
//!
//! [`Durable::reopen`] opens a stored state where it stands, so that a member keeps its place in memory
//! through stops; [`Durable::open`] opens one of its own.
//!
//! Opening brings a store of an older version to version 2, in which each entry has its origin. Its puts are
//! puts like any other, and change nothing that is read of the state. Where it is cut off, the next opening
//! makes the puts that are left (`specs/Opening.antt`, [`laws::an_opening_goes_on`]).
//!
//! Each call says besides which device calls it made; [`laws::puts_in_turn`] joins what several calls say,
//! and [`laws::the_disk_by_states`] follows them on a disk in memory, with the stored state in place of
//! bytes (`specs/KeyDisk.antt`), [`laws::an_opening_on_the_disk_by_states`] an opening.
//!
//! The state is that of the Raft paper (term, vote, log) and the commit index, which the paper keeps in
//! memory; the keys are those of libuavcan's distributed server in a form of our own.
#![tactic(auto)]

mod change;
mod durable;
mod follow;
mod keys;
pub mod laws;
pub mod origin;
mod state;
mod stored;
mod values;

pub use durable::Durable;
pub use follow::may_follow;
pub use stored::Stored;
