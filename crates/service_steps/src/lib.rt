//! Laws of progress, over the definition of a step alone (`alloc_spec`). There is no code in it that runs.
//!
//! A leader calls its peers in time, where its queue has room for the calls ([`laws::steps_are_in_time`]). It answers a
//! device that asks ([`laws::a_leader_follows_up`], [`laws::a_leader_records_the_pair`],
//! [`laws::three_requests_are_served`]). What these laws say of a step, no clause of the code says; but the members of a
//! vehicle take these very steps.
#![tactic(auto)]

pub mod laws;
