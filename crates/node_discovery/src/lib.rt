//! Which nodes of the bus are online, and which unique IDs they told.
//!
//! An allocator must not give out a node ID that a live node uses, and asks each node that its log
//! does not know for its unique ID. [`Watch`] is told what happens on the bus and answers both.
//!
//! The model is the list of what happened, newest first (`specs/Watch.antt`): statuses that were heard,
//! queries that were asked, and answers that were taken, each with its node and its moment in
//! milliseconds. One node's part of it is its history (`specs/History.antt`), and each word of a
//! contract is a small function of that. Nothing asks that moments rise: an age is 0 where the moment
//! is later than now. The code keeps a table of what the histories come to.
//!
//! The one contract: a new watch stands for the empty list, each call leaves a watch that stands for
//! the list with what the call took in front, and answers what the list says, for each list that the
//! watch stands for.
//!
//! A node is offline once its last status (`uavcan.protocol.NodeStatus`) is more than 3,000 ms old. Nodes are asked by
//! `uavcan.protocol.GetNodeInfo`; a query waits 1,000 ms for its answer, and a node is asked again no
//! sooner. A node that has answered none of five queries or more is silent 1,000 ms after the last of
//! them; [`Counting`] says whether those of its spell count, or those since its last answer. Who is asked
//! next, whether someone is unknown and who is silent are said twice, as functions of the list and as
//! relations, and [`laws`] say that these are one. Node IDs of devices are 1 to 125; 126 and 127 are kept
//! for tools.
#![tactic(auto)]

mod counting;
pub mod laws;
mod node;
mod query;
mod watch;

pub use counting::Counting;
pub use watch::Watch;
