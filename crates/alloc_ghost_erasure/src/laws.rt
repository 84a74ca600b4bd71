//! Laws of the definitions, each the contract of a function that does nothing.

ghost use Rattle.std.specs.Prelude.{◌≡◌, ℕ, option_map};
ghost use Rattle.transfer_tx.specs.Queue.{next_out};
ghost use Rattle.alloc_ghost_erasure.specs.Unmarked.{unmarked_event, unmarked_frame, unmarked_server, unmarked_step_result};
ghost use Rattle.alloc_spec.specs.Step.{Event, after_pop, step};
ghost use Rattle.alloc_spec.specs.AllocatorState.{AllocatorState};

use transfer_rx::laws::marks_change_marks_alone as of_receivers;

/// Two servers that are alike but for marks and numbers of steps take steps that are alike too, at events
/// that are alike and whatever the numbers of these steps: with the same puts, transfers and frames.
pub fn marks_change_marks_alone()
    ensures step { (t u : AllocatorState) (m n : ℕ) (e f : Event) →
        unmarked_server t ≡ unmarked_server u → unmarked_event e ≡ unmarked_event f →
        unmarked_step_result (step t m e) ≡ unmarked_step_result (step u n f) }
    ensures popped { (t u : AllocatorState) → unmarked_server t ≡ unmarked_server u →
        unmarked_server (after_pop t) ≡ unmarked_server (after_pop u) }
    ensures next { (t u : AllocatorState) → unmarked_server t ≡ unmarked_server u →
        option_map unmarked_frame (next_out t.queue)
        ≡ option_map unmarked_frame (next_out u.queue) }
{
    of_receivers();
}
