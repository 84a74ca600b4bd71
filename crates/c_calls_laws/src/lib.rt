//! The calls of a C caller stand for rows of a world.
//!
//! A caller makes calls of its node (`c_calls`), and on the same bus others do what they do. Where each frame that it
//! hears is one of the bus, and the rows of all of them do no harm, the headline holds along these rows, the node
//! stands for its member of that world, and what its caller takes is what that member sends (`specs/OnBus.antt`).
#![tactic(auto)]

pub mod laws;
