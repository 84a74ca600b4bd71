//! Finding the members of a cluster of allocators.
//!
//! The allocators of a cluster know its size and their own node ID alone. Each tells the others whom it
//! knows by `uavcan.protocol.dynamic_node_id.server.Discovery`, until all know all. Elections wait for
//! a member's list to be complete. [`Cluster`] is what one member knows.
//!
//! The model is how the member began and the list of what it heard and sent, newest first
//! (`specs/Members.antt`). The member list is the fold of the heard messages: a message of the own
//! cluster size and from another node adds its source and then the nodes that it lists, in their
//! order, each where it is new, is 1 to 125, and the list is shorter than the size. Who tells a list
//! that is shorter than the size is owed a Discovery, so that one who starts again learns its cluster.
//!
//! The one contract: a new cluster stands for its start and the empty list, each call leaves a cluster
//! that stands for the list with what the call took in front, and answers what the list says, for each
//! list that the cluster stands for. Whatever was heard, the member list begins with the member
//! itself, has 1 to 125 alone and none twice, and is no longer than the size; who is new in it was named
//! by the message; and once it is complete it stays as it is. [`laws`] say this of the definitions, and
//! [`Cluster::members`], [`Cluster::complete`] and [`Cluster::heard`] of each value, without a list of
//! events.
//!
//! The rules are those of the UAVCAN v0 specification, "Redundant allocators"; a Discovery is due every
//! 1,000 ms while the list is not complete.
#![tactic(auto)]

mod cluster;
pub mod laws;

pub use cluster::Cluster;
