//! Laws of what a member is delivered, each the contract of a function that does nothing.

ghost use Rattle.std.specs.Prelude.{◌≡◌, ◌⊎◌, ◌≤◌, ℕ, Bool, List, Some, true, false};
ghost use Rattle.can_frame.specs.declared.identifier.Kind.TheVariants.{Message as Broadcast};
ghost use Rattle.raft_model.specs.Lists.{In};
ghost use Rattle.raft_model.specs.Messages.{Message};
ghost use Rattle.raft_model.specs.Runs.{World};
ghost use Rattle.bus_rows.specs.declared.row.Row.TheVariants.{Rx as RxRow};
ghost use Rattle.alloc_spec_laws.specs.Coming.{TakesFrom};
ghost use Rattle.alloc_spec.specs.Judging.{IsHarmless};
ghost use Rattle.alloc_spec.specs.Step.Event.{Rx};
ghost use Rattle.alloc_spec.specs.AllocatorState.{AllocatorState};
ghost use Rattle.alloc_spec.specs.Transfers.{SentTransfer};
ghost use Rattle.transfer_rx.specs.Reassembly.{Arrival, Delivery, Gives, Setting, answer};
ghost use Rattle.transfer_rx.specs.Sessions.{Session};
ghost use Rattle.transfer_tx.specs.Queue.{Queued};
ghost use Rattle.bus_agreement.specs.Frames.{AreHeard, AreTransfers, CameFrom, IsOnBus, WasMade};
ghost use Rattle.bus_agreement.specs.Safe.{IsDeliveredTo, IsOneTransfer};
ghost use Rattle.bus_agreement.specs.Shows.{HoldsOfMade, IsAtWork, Shows};
ghost use Rattle.alloc_spec.specs.ClusterMembers.{AreMembers};
ghost use Rattle.bus_spec.specs.Cluster.{Cluster};
ghost use Rattle.bus_spec.specs.Lawful.{DoesNoHarm, is_forged};

use crate::below::{what_is_said_of_frames, what_is_said_of_messages};

/// What is delivered of a member's frames is the transfer that this member made: step, kind, destination,
/// transfer ID and payload. The frames are those that stood on the bus; the delivery is whole, or has no step;
/// and its source is a member, or its data type one that members alone may send. The receiver is that of a
/// member, which has a node ID, or of an allocatee, which has none and is delivered messages alone.
pub fn what_is_delivered_was_made()
    ensures { (ids : List ℕ) (made : List SentTransfer) (frames : List Queued) (setting : Setting)
        (sessions : List Session) (arrival : Arrival) (d : Delivery) →
        AreMembers ids → AreTransfers ids made → (1 ≤ setting.me) ⊎ (d.ident.kind ≡ Broadcast) →
        ((frame : Queued) → In frame frames → IsOnBus made ids frame) →
        AreHeard frames setting sessions → CameFrom frames arrival →
        answer setting sessions arrival ≡ Gives d →
        (d.whole ≡ false → d.mark.step ≡ 0) → is_forged ids (Some d.ident) ≡ true → WasMade made d }
{
    what_is_said_of_frames();
}

/// What a row that does no harm delivers to a running member, with a member's source or of a data type that members
/// alone send, is one transfer that a member made by then, and no other; a request or a response is for the receiver;
/// and what it says is in the bag of the run that the world shows.
pub fn what_a_row_delivers_is_one_transfer()
    ensures { (choice : ℕ → Bool) (made : List SentTransfer) (w : Cluster) (run : World) → AreMembers w.ids →
        Shows choice made w run → (n k ms : ℕ) (d : Delivery) → DoesNoHarm w (RxRow n k ms) →
        IsDeliveredTo w n k ms d → IsOneTransfer made run.bag n d }
{
    what_is_said_of_frames();
}

/// A frame that does a member no harm brings what the Raft model allows: what it would deliver is not torn; a
/// request of a member is in the bag; and an answer that a pending call takes is in the bag as the answer to that very
/// call, or answers an earlier one and counts for nothing.
pub fn what_a_member_takes_was_said()
    ensures { (ids : List ℕ) (made : List SentTransfer) (frames : List Queued) (bag : List Message)
        (server : AllocatorState) (number : ℕ) (arrival : Arrival) →
        AreMembers ids → In server.me ids → HoldsOfMade made ids bag →
        ((frame : Queued) → In frame frames → IsOnBus made ids frame) →
        IsAtWork made ids frames server.me server → CameFrom frames arrival →
        IsHarmless server arrival → TakesFrom number bag server (Rx arrival) }
{
    what_is_said_of_frames();
    what_is_said_of_messages();
}
