//! What one allocator does with its clock and with whole transfers: the phases of its step.
//!
//! A [`Member`] is an allocator without its receiver. Its step begins, takes its event, and ends
//! ([`Member::begin`], [`Member::tick`] or [`Member::deliver`], [`Member::end`]). What a step offers
//! to the bus waits in the member's outbox, and is listed in its [`Offered`], which the beginning of
//! a step empties. The definition is that of `alloc_spec`: an allocator state and its step as it goes.
//!
//! A member stands for an allocator state, part for part (`specs/Stands.antt`). The one contract of a
//! phase: from a member that is in a step that has gone so far, it goes on to one that is in the
//! step with the phase behind it. That says the moves of the Raft model, their puts in order,
//! the transfers that were offered, and all that is kept. Where a put fails, the phase ends there,
//! with the puts before it done.
#![tactic(auto)]

mod calls;
mod delivery;
mod exchange;
mod known;
mod member;
mod puts;
mod services;
mod step;
mod tick;

pub use alloc_spec::Offered;
pub use member::Member;
