//! What an audit of stores finds after rows that do no harm: they agree.
//!
//! [`laws`] says so of the stores of a world at one moment, and of what a cluster of processes has stored,
//! processes that were killed among them (`specs/Left.antt`).
#![tactic(auto)]

pub mod laws;
