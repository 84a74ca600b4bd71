//! Which node IDs a step gives away, and who is answered.

ghost use Rattle.std.specs.Prelude.{◌≤◌, ◌⊎◌, ℕ, max};
ghost use Rattle.alloc_spec_laws.specs.Answering.{AnswersRequests};
ghost use Rattle.alloc_spec_laws.specs.FreeNodes.{GivesFreeNode, IsBlankOf, IsStatus, WasHeardAt};
ghost use Rattle.alloc_spec_laws.specs.Listing.{IsDelivered};
ghost use Rattle.alloc_spec_laws.specs.Phases.{when_seen};
ghost use Rattle.alloc_spec.specs.AllocatorState.{AllocatorState};
ghost use Rattle.alloc_spec.specs.Step.{Event, moment_of, step};
ghost use Rattle.alloc_spec.specs.Step.Event.{Rx};
ghost use Rattle.can_frame.specs.declared.entry.Entry.{Entry};
ghost use Rattle.raft_model.specs.Lists.{In};
ghost use Rattle.raft_model.specs.Moves.Move.{ProposeEntry};
ghost use Rattle.transfer_rx.specs.Reassembly.{Arrival, Delivery};

use id_selector::laws::chosen_is_the_choice;

/// What a step records when it takes a frame, which is how a device that asks comes to a node ID: an entry
/// whose node ID is none of a member, stands in no entry of the log, and of which no NodeStatus was heard
/// within the last 3,000 ms. It records none while a node is online that is no member, stands nowhere in
/// the log and has not told its unique ID. The only other entry that it records is a leader's blank, of
/// its term, which gives nothing to anyone. Each NodeStatus that a step is delivered is heard at its moment.
pub fn a_node_that_is_heard_keeps_its_id()
    ensures free { (t : AllocatorState) (number : ℕ) (arrival : Arrival) (entry : Entry) →
        In (ProposeEntry entry) (step t number (Rx arrival)).step_state.moves →
        IsBlankOf (when_seen t number (Rx arrival)).allocator.raft_server entry
        ⊎ GivesFreeNode t (max t.now arrival.moment) entry }
    ensures heard { (t : AllocatorState) (number : ℕ) (event : Event) (d : Delivery) →
        IsDelivered t number event d → IsStatus d → 1 ≤ d.ident.source → d.ident.source ≤ 125 →
        WasHeardAt (step t number event).step_state.allocator d.ident.source
        (max t.now (moment_of event)) }
{
    chosen_is_the_choice();
}

/// Who is asked answers: a step that is delivered a request of GetNodeInfo, or one of RequestVote or
/// AppendEntries from a node on the list of members, offers a response to its source, under its transfer ID.
pub fn who_is_asked_answers()
    ensures { (t : AllocatorState) (number : ℕ) (event : Event) → AnswersRequests t number event }
{}
