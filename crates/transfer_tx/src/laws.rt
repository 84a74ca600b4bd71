//! Laws of the definitions, each the contract of a function that does nothing.

ghost use Rattle.std.specs.Prelude.{◌≡◌, ℕ, ◌<◌, Some, List, ◌++◌, length, remove, slice_index_or};
ghost use Rattle.can_frame.specs.Cutting.{Piece, frame_bytes, frame_count, frames_of};
ghost use Rattle.can_frame.specs.Identifier.{identifier_number};
ghost use Rattle.transfer_tx.specs.declared.outgoing.Outgoing.{Outgoing};
ghost use Rattle.transfer_tx.specs.Queue.{GoesNext, Queued, left_behind, next_out, queued_frames};
ghost use Rattle.transfer_tx.specs.Run.{Event, came_out, of_identifier, offered, still_queued};

use can_frame::laws::lengths_of_cuttings;

/// The frames of a transfer, one by one: each has the identifier of the transfer, the bytes that the
/// cutting gives to its place, and the mark of its place.
pub fn frames_by_place()
    ensures count { (what : Outgoing) (step re : ℕ) →
        length (queued_frames what step re) ≡ frame_count (length what.payload.items) }
    ensures frame { (what : Outgoing) (step re place : ℕ) (d : Queued) (e : Piece) →
        place < frame_count (length what.payload.items) →
        slice_index_or (queued_frames what step re) place d ≡ record {
          id = identifier_number what.ident;
          bytes = frame_bytes
              (slice_index_or (frames_of what.signature what.id what.payload.items) place e);
          mark = record { step = step; re = re; place = place };
        } }
{
    lengths_of_cuttings();
}

/// What goes out next is the frame than which none has a lower identifier and none before it the
/// same; the others stay in their order.
pub fn least_and_first_goes_next()
    ensures next { (frames : List Queued) (place : ℕ) (d : Queued) → GoesNext frames place →
        next_out frames ≡ Some (slice_index_or frames place d) }
    ensures rest { (frames : List Queued) (place : ℕ) → GoesNext frames place →
        left_behind frames ≡ remove frames place }
{}

/// Frames of one identifier come out in the order in which they were offered, whatever is offered
/// and taken out between.
pub fn one_identifier_stays_in_order()
    ensures { (id : ℕ) (frames : List Queued) (events : List Event) →
        of_identifier id (came_out frames events ++ still_queued frames events)
        ≡ of_identifier id (frames ++ offered events) }
{}

/// The frames of a transfer have one identifier: so they come out in their order.
pub fn a_transfer_has_one_identifier()
    ensures { (what : Outgoing) (step re : ℕ) →
        of_identifier (identifier_number what.ident) (queued_frames what step re)
        ≡ queued_frames what step re }
{}
