//! Laws of the definition, each the contract of a function that does nothing.

ghost use Rattle.std.specs.Prelude.{◌≡◌, ◌⊎◌, ℕ, All, List, Some, false};
ghost use Rattle.can_frame.specs.declared.step.Judged.TheVariants.{Fine};
ghost use Rattle.transfer_rx.specs.Reassembly.{Arrival, Delivery, Gives, next};
ghost use Rattle.allocatee.specs.Accepted.{setting};
ghost use Rattle.allocatee.specs.Allocatee.{Device, Event, Rx, Tick, answer_to, at_step, opening, after_pop, step};
ghost use Rattle.allocatee.specs.Given.{IsAnonymous, IsGivenBy};
ghost use Rattle.allocatee.specs.Judging.{arrival_judgement};

use can_frame::laws::identifiers_both_ways;

/// A device comes to a node ID by an Allocation with a source that has its whole unique ID and that node ID, and by
/// nothing else. It holds the node ID from then on, and its unique ID stays.
pub fn a_node_id_is_given_for_good()
    ensures given { (d : Device) (number node : ℕ) (event : Event) →
        (step d number event).device.asking.holds ≡ Some node →
        (d.asking.holds ≡ Some node) ⊎ IsGivenBy d event node }
    ensures kept { (d : Device) (number node : ℕ) (event : Event) →
        d.asking.holds ≡ Some node →
        (step d number event).device.asking.holds ≡ Some node }
    ensures uid { (d : Device) (number : ℕ) (event : Event) →
        (step d number event).device.asking.uid ≡ d.asking.uid }
{}

/// All that waits in its queue is anonymous, from its opening on.
pub fn its_frames_are_anonymous()
    ensures none { (uid : List ℕ) (preferred now word : ℕ) →
        All IsAnonymous (opening uid preferred now word).asking.queue }
    ensures step { (d : Device) (number : ℕ) (event : Event) → All IsAnonymous d.asking.queue →
        All IsAnonymous (step d number event).device.asking.queue }
    ensures popped { (d : Device) → All IsAnonymous d.asking.queue →
        All IsAnonymous (after_pop d).asking.queue }
{
    identifiers_both_ways();
}

/// A frame leaves the sessions that its receiver has after it, at the moment of the step; a tick changes none.
pub fn sessions_of_a_step()
    ensures frame { (d : Device) (number word : ℕ) (arrival : Arrival) →
        (step d number (Rx arrival word)).device.sessions ≡ next setting d.sessions
        (at_step d arrival) }
    ensures tick { (d : Device) (number now word : ℕ) →
        (step d number (Tick now word)).device.sessions ≡ d.sessions }
{}

/// A frame that it may be given delivers a transfer whose frames were made together, or came from outside.
pub fn what_is_fine_is_not_torn()
    ensures { (d : Device) (arrival : Arrival) (delivery : Delivery) → arrival_judgement d arrival ≡ Fine →
        answer_to d arrival ≡ Gives delivery → delivery.whole ≡ false →
        arrival.mark.step ≡ 0 }
{}
