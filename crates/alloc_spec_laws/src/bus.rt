//! What a step leaves for the bus and of the bus: its queue, and the sessions of its receiver.

ghost use Rattle.std.specs.Prelude.{◌≡◌, ◌++◌, ℕ, max};
ghost use Rattle.alloc_spec_laws.specs.Waiting.{all_frames_put};
ghost use Rattle.alloc_spec.specs.Accepted.{setting_for};
ghost use Rattle.alloc_spec.specs.Step.{Event, step};
ghost use Rattle.alloc_spec.specs.Step.Event.{Rx, Tick};
ghost use Rattle.alloc_spec.specs.AllocatorState.{AllocatorState};
ghost use Rattle.transfer_rx.specs.Reassembly.{Arrival, next};

use alloc_spec::laws::phases_add_puts;

/// A step puts the frames of its transfers that fitted behind those that waited, and takes none
/// out.
pub fn queue_of_a_step()
    ensures { (t : AllocatorState) (number : ℕ) (event : Event) →
        let step_state = (step t number event).step_state in
        step_state.allocator.queue ≡ t.queue ++ all_frames_put number t.me step_state.offers }
{}

/// A frame comes to the receiver once, at the step's moment; a tick leaves its sessions.
pub fn sessions_of_a_step()
    ensures frame { (t : AllocatorState) (number : ℕ) (arrival : Arrival) →
        (step t number (Rx arrival)).step_state.allocator.sessions
        ≡ next (setting_for t.me) t.sessions
        (record arrival { moment = max t.now arrival.moment }) }
    ensures tick { (t : AllocatorState) (number now word : ℕ) →
        (step t number (Tick now word)).step_state.allocator.sessions ≡ t.sessions }
{
    phases_add_puts();
}

/// A server that runs still runs when its step is over.
pub fn a_step_leaves_the_server_up()
    ensures { (t : AllocatorState) (number : ℕ) (event : Event) →
        (step t number event).step_state.allocator.raft_server.memory.up ≡ t.raft_server.memory.up }
{}
