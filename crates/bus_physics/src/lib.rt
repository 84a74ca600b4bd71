//! What a bus must do so that no row is refused as torn or stale.
//!
//! A row is refused as torn or stale only where a member used a transfer ID twice, or where one transfer lost frames
//! ([`laws::what_is_refused`], `specs/Reuse.antt`). `specs/Physics.antt` says what a physical bus does with frames.
#![tactic(auto)]

pub mod laws;
