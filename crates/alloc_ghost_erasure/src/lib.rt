//! Marks of frames and numbers of steps do not change what an allocator does: they are ghosts, and can be erased.
//!
//! Marks and numbers are no part of a frame: a world gives them to what is on its bus, to judge it, and a
//! process has none. The laws here make of a server in a world the server in a process.
#![tactic(auto)]

pub mod laws;
