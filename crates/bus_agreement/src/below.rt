//! What the crates below say, together: each law here is the contract of a function that does nothing, and the
//! other laws of this crate stand on them.

ghost use Rattle.bus_agreement.specs.LawsBelow.{CodecLaws, FrameLaws};
ghost use Rattle.bus_agreement.specs.StepLaws.{MoreLaws, StepLaws};

use alloc_spec_laws::bus::{a_step_leaves_the_server_up, queue_of_a_step, sessions_of_a_step};
use alloc_spec_laws::laws::{
    calls_of_a_step, members_of_a_step, moves_of_a_step, pairs_of_a_step, proposals_of_a_step,
    responses_answer_what_was_delivered, steps_stay_in_range, transfers_of_a_step_are_apart,
    what_transfers_say,
};
use can_frame::laws::{
    frames_give_the_payload, frames_in_order, frames_read_as_their_pieces, identifiers_both_ways,
    lengths_of_cuttings,
};
use cluster_discovery::laws::members_are_a_list;
use dsdl_codec::laws::{
    append_answers_both_ways, append_requests_both_ways, vote_answers_both_ways,
    vote_requests_both_ways,
};
use raft_core::laws::puts_are_stored;
use raft_log::laws::the_disk_by_states;
use raft_model::laws::law_handlers;
use transfer_rx::laws::{
    a_frame_comes_to_the_session_of_its_key, deliveries_are_whole_transfers,
    frames_are_kept_under_their_key,
};
use transfer_tx::laws::frames_by_place;

/// Frames: how a transfer is cut into them, how they wait, and how they are put together again.
pub fn what_is_said_of_frames()
    ensures { FrameLaws }
{
    a_frame_comes_to_the_session_of_its_key();
    deliveries_are_whole_transfers();
    frames_by_place();
    frames_give_the_payload();
    frames_in_order();
    frames_read_as_their_pieces();
    identifiers_both_ways();
    lengths_of_cuttings();
}

/// The requests and answers of Raft are read as they were written.
pub fn what_is_said_of_messages()
    ensures { CodecLaws }
{
    append_answers_both_ways();
    append_requests_both_ways();
    vote_answers_both_ways();
    vote_requests_both_ways();
}

/// What a step offers, what it calls, what it puts into the queue, and what its sessions keep.
pub fn what_is_said_of_a_step()
    ensures { StepLaws }
{
    calls_of_a_step();
    frames_are_kept_under_their_key();
    queue_of_a_step();
    responses_answer_what_was_delivered();
    sessions_of_a_step();
    steps_stay_in_range();
    transfers_of_a_step_are_apart();
    what_transfers_say();
}

/// What a step keeps, which moves of Raft it makes, and what its puts leave in the store.
pub fn what_a_step_keeps()
    ensures { MoreLaws }
{
    a_step_leaves_the_server_up();
    law_handlers();
    members_are_a_list();
    members_of_a_step();
    moves_of_a_step();
    pairs_of_a_step();
    proposals_of_a_step();
    puts_are_stored();
    steps_stay_in_range();
    the_disk_by_states();
}
