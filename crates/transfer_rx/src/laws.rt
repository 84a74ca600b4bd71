//! Laws of the definition, each the contract of a function that does nothing.

ghost use Rattle.std.specs.Prelude.{◌≡◌, ◌≤◌, ◌++◌, ℕ, true, false, All, List, Ok, [], length, map};
ghost use Rattle.can_frame.specs.Cutting.{Piece, frames_of};
ghost use Rattle.can_frame.specs.Sizes.{longest_payload};
ghost use Rattle.can_frame.specs.declared.tail.Tail.{Tail};
ghost use Rattle.transfer_rx.specs.declared.accept.Wanted.{Wanted};
ghost use Rattle.transfer_rx.specs.declared.key.Key.{Key};
ghost use Rattle.transfer_rx.specs.Keys.{key_of};
ghost use Rattle.transfer_rx.specs.Marks.{is_whole};
ghost use Rattle.transfer_rx.specs.Origin.{CameWithKey, IsIdleOrOf, IsKeptAfter};
ghost use Rattle.transfer_rx.specs.Outcome.{Delivers, assembled, fits_no_payload, sizes};
ghost use Rattle.transfer_rx.specs.Reassembly.{Arrival, Delivery, Gives, Setting, answer, next, piece_in};
ghost use Rattle.transfer_rx.specs.Run.{ComesWhole, of_key, run};
ghost use Rattle.transfer_rx.specs.Sessions.{Session, session_for};
ghost use Rattle.transfer_rx.specs.Sound.{ArePossible, IsDelivered};
ghost use Rattle.transfer_rx.specs.Unmarked.{unmarked, unmarked_answer, unmarked_arrival};

use can_frame::laws::{frames_carry_what_is_cut, frames_give_the_payload, lengths_of_cuttings};

/// Frames are delivered as a payload exactly where they are the cutting of it.
pub fn delivers_cuttings()
    ensures whole { (signature id : ℕ) (payload : List ℕ) (pieces : List Piece) →
        pieces ≡ frames_of signature id payload →
        assembled signature id pieces ≡ Delivers payload }
    ensures only { (signature id : ℕ) (payload : List ℕ) (pieces : List Piece) →
        assembled signature id pieces ≡ Delivers payload →
        pieces ≡ frames_of signature id payload }
{
    frames_give_the_payload();
}

/// Lengths are refused exactly where no payload has frames of these lengths.
pub fn refuses_lengths()
    ensures none { (signature id : ℕ) (pieces : List Piece) →
        fits_no_payload signature id pieces ≡ true →
        (payload : List ℕ) → length payload ≤ longest_payload →
        sizes pieces ≡ sizes (frames_of signature id payload) → ⊥ }
    ensures some { (signature id : ℕ) (pieces : List Piece) →
        fits_no_payload signature id pieces ≡ false →
        (payload : List ℕ) × (length payload ≤ longest_payload) ×
        (sizes pieces ≡ sizes (frames_of signature id payload)) }
{
    frames_give_the_payload();
    lengths_of_cuttings();
}

/// Completeness: a transfer that comes in order from its first frame to its last, among frames of
/// other sessions, is delivered, where it may begin, no frame comes later than the transfer
/// timeout after an earlier one, and the blocks suffice.
pub fn delivers_what_comes_whole()
    ensures { (setting : Setting) (sessions : List Session) (w : Wanted) (payload : List ℕ)
        (arrivals before : List Arrival) (first last : Arrival) →
        ComesWhole setting sessions w payload arrivals before first last →
        answer setting (run setting sessions before) last ≡ Gives (record {
          ident = w.ident;
          id = (piece_in last).tail.id;
          payload = payload;
          mark = last.mark;
          whole = is_whole (map
              (λ arrival. arrival.mark) (of_key setting (key_of w.ident) arrivals));
        }) }
{
    frames_carry_what_is_cut();
    frames_give_the_payload();
    lengths_of_cuttings();
}

/// Marks change nothing but the mark and `whole` of what is delivered.
pub fn marks_change_marks_alone()
    ensures answer { (setting : Setting) (a b : List Session) (x y : Arrival) →
        map unmarked a ≡ map unmarked b → unmarked_arrival x ≡ unmarked_arrival y →
        unmarked_answer (answer setting a x) ≡ unmarked_answer (answer setting b y) }
    ensures sessions { (setting : Setting) (a b : List Session) (x y : Arrival) →
        map unmarked a ≡ map unmarked b → unmarked_arrival x ≡ unmarked_arrival y →
        map unmarked (next setting a x) ≡ map unmarked (next setting b y) }
{}

/// The sessions of a receiver keep different keys, frames in their order, a mark for each, and are
/// no more than there is room for.
pub fn sessions_stay_possible()
    ensures none { (setting : Setting) → ArePossible setting [] }
    ensures step { (setting : Setting) (sessions : List Session) (arrival : Arrival) →
        ArePossible setting sessions → ArePossible setting (next setting sessions arrival) }
{}

/// What is delivered is the payload of whole frames: of an anonymous one alone, or of those that the
/// session of its key had taken and the one that completes them, which are its cutting.
pub fn deliveries_are_whole_transfers()
    ensures { (setting : Setting) (sessions : List Session) (arrival : Arrival)
        (delivery : Delivery) → answer setting sessions arrival ≡ Gives delivery →
        IsDelivered setting sessions arrival delivery }
{}

/// A frame comes to the session of its key, which has nothing in progress or is among the sessions.
pub fn a_frame_comes_to_the_session_of_its_key()
    ensures { (most now : ℕ) (key : Key) (tail : Tail) (sessions : List Session)
        (session : Session) →
        session_for most key tail now sessions ≡ Ok session → IsIdleOrOf key sessions session }
{}

/// What a session keeps came with its key: each frame adds at most itself to the session of its key,
/// and after any frames the sessions keep frames that came with their keys, in order.
pub fn frames_are_kept_under_their_key()
    ensures step { (setting : Setting) (sessions : List Session) (arrival : Arrival) →
        All (IsKeptAfter setting sessions arrival) (next setting sessions arrival) }
    ensures run { (setting : Setting) (before arrivals : List Arrival) (sessions : List Session) →
        All (CameWithKey setting before) sessions →
        All (CameWithKey setting (before ++ arrivals)) (run setting sessions arrivals) }
{}
