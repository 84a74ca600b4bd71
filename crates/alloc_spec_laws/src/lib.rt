//! Laws of one allocator's step, over the definition of a step alone (`alloc_spec`). There is no
//! code in it that runs.
//!
//! They are what a cluster of allocators rests on, and each is said once, of the step as a
//! function: that the transfers of a step are told apart on the bus
//! ([`laws::transfers_of_a_step_are_apart`]), that ranges are kept ([`laws::steps_stay_in_range`]),
//! that messages of the Raft model are said by the bytes of their transfers
//! ([`laws::what_transfers_say`]), which request a response answers
//! ([`laws::responses_answer_what_was_delivered`]), what is known of the pending calls
//! ([`laws::calls_of_a_step`]), that a step is one of the Raft model (`raft_model`) where what
//! comes was said by members ([`laws::moves_of_a_step`]), what becomes of the list of members and
//! what is told of it ([`laws::members_of_a_step`]), that what is given to a device is committed
//! ([`laws::pairs_of_a_step`]), that unique IDs are whole ([`laws::proposals_of_a_step`]), what a
//! step owes that ends ([`laws::duty_of_a_step`]), when a leader's blank comes
//! ([`laws::blanks_wait_to_be_heard`]), what a step leaves for the bus and of it ([`bus`]),
//! and which node IDs it gives away ([`nodes`]). `alloc_server` shows that the code takes this very step.
//!
//! What a reader must believe: `specs/Apart` (two transfers of one step), `specs/Sound` (ranges),
//! `specs/Saying` (what a transfer says), `specs/Responses` (what a response answers),
//! `specs/Calls` (who made the pending calls), `specs/Coming` (when the moves of a step may come,
//! and what it means that they do), `specs/Giving` (what an Allocation gives, and a pair as an
//! entry), `specs/Listing` (who is new on the list), `specs/Proposals` (whole unique IDs),
//! `specs/Phases` (the step as far as it has come, and a leader's duty to tell), `specs/Blanks`
//! (when a leader's blank comes), `specs/Waiting`
//! (the frames of transfers that fitted), `specs/FreeNodes` (which node IDs may be given).
#![tactic(auto)]

pub mod bus;
pub mod laws;
pub mod nodes;
