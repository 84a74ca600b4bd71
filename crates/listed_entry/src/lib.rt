//! Stores of members that are told the list of their cluster: an entry may have no ID of the list.
//!
//! A leader gives no device a member's ID. So where an entry of a log has one, the list is not that of the cluster
//! whose log it is, and a device holds the ID. [`find_listed`] finds an entry with an ID of the list before its member
//! runs, by one read of each store, and [`write_listed`] writes the line that says so (`specs/Listed.antt`). No disk is
//! written.
#![tactic(auto)]

mod find;

pub use find::{Listed, find_listed, write_listed};
