//! A calm bus of several members and devices: what a member sends comes whole to each party that hears it, and in
//! time. There is no code in it that runs.
//!
//! In a calm (`specs/Calm`) the members of a group run, and its devices are there. They read their clocks, send what
//! waits, and receive each other's frames: each once, in the order of the bus, and within a delay; a queue in which
//! frames wait is empty within a delay; nobody stops, and nothing comes from outside. Such a calm can always go on
//! ([`laws::calm_goes_on`]), and one is there that meets all premises by which transfers come and calls are heard
//! ([`laws::calm_can_be`]).
//!
//! Then each transfer but Allocations that a member's queue took is delivered, as it was sent, by each other member
//! that hears it, within two delays ([`laws::each_transfer_comes_whole`], `specs/Comes`). So a leader's call is heard
//! by then, and its receiver's wait for an election begins anew ([`laws::calls_are_heard`], `specs/Calls`); until that
//! wait is over the receiver follows ([`laws::followers_follow_on_in_calm`]). A leader offers each member of its list a
//! call in time, for which its queue may have no room ([`laws::leaders_call_in_time`], `specs/CallsInTime`).
//!
//! Devices and members hear each other too (`specs/Devices`): each member what a device asks
//! ([`laws::requests_come_in_calm`]), and each device the Allocations of the members
//! ([`laws::allocations_come_in_calm`]), within two delays. Rows that meet these premises are there
//! ([`laws::devices_can_be_heard`]).
//!
//! Why it holds: frames of one identifier leave a queue in their order, come to the bus so, and to each receiver so.
//! Between a member and who hears it (`proofs/Hearers`), and for one identifier, `proofs/Pair` keeps which transfers are
//! under way, which frames of the first of them came, which are on the bus and which wait; `proofs/Pending` what the
//! receiver's session has of it. Transfer IDs follow each other, so the session admits the next one behind each that was
//! delivered (`proofs/Begins`).
//!
//! What a reader must believe: the files of `specs/`, and of the definitions of the world and of a receiver what they
//! cite.
#![tactic(auto)]

pub mod laws;
