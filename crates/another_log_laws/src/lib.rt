//! While the premises hold no call of another log comes to a member.
//!
//! A member that is told its list, and is sent a call that contradicts what it has committed, ends
//! (`alloc_server::Server::another_log`). In no row of rows that do no harm does such a call come, nor in a turn of a
//! process whose trace keeps the premises ([`laws`]).
#![tactic(auto)]

pub mod laws;
