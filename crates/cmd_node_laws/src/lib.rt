//! Traces of a cluster whose members run in processes of their own stand for rows of a world that do no harm.
//!
//! A process opens members and lets them take turns, as `node` does; it ends or is killed at any moment, and
//! its members may be opened again by another one. Under the premises of `specs/Traces.antt` each such trace
//! stands for rows that do no harm, so the headline holds along it; and what a run of `node` sends and
//! stores is what the members of that world send and store.
#![tactic(auto)]

pub mod laws;
