//! Laws of the definitions, each the contract of a function that does nothing.

ghost use Rattle.std.specs.Prelude.{◌≡◌, ℕ, ◌+◌, ◌<◌, ◌≤◌, ◌++◌, ◌∷◌, [], Bool, List, None, Option, Some, length, replicate, take, true, false};
ghost use Rattle.can_frame.specs.Cutting.{Piece, frame_bytes};
ghost use Rattle.can_frame.specs.DataTypes.{allocation};
ghost use Rattle.can_frame.specs.declared.identifier.Ident.{Ident};
ghost use Rattle.can_frame.specs.declared.identifier.Kind.TheVariants.{Message};
ghost use Rattle.can_frame.specs.declared.tail.Tail.{Tail};
ghost use Rattle.outside.specs.declared.received.RawFrame.{RawFrame};
ghost use Rattle.told_link.specs.Voice.{fields_of};
ghost use Rattle.spaced_link.specs.LeftOut.{GoesSpaced, IsHandedIn, StandForUses};
ghost use Rattle.spaced_link.specs.Spacing.{AreInner, IsFirstOf, GoesOnWith, OwnFrame, WentOutBefore, allocation_tail};
ghost use Rattle.spaced_link.specs.Spacing.{between_uses, goes_out};

use can_frame::laws::frames_read_as_their_pieces;
use outside::Clock;

/// Of all that a member hands in, two Allocations with one transfer ID begin to go out at least 8,000 ms apart,
/// whatever its clock reads.
pub fn allocations_go_out_apart()
    ensures { (id : ℕ) (x y : OwnFrame) (between before : List OwnFrame) → IsFirstOf id x → IsFirstOf id y →
        goes_out before x ≡ true → goes_out (between ++ x ∷ before) y ≡ true → x.now + between_uses ≤ y.now }
{}

/// An Allocation that is handed in frame by frame goes out whole, or not at all: what is behind its first frame goes
/// out where that did.
pub fn allocations_go_out_whole()
    ensures { (id : ℕ) (x y : OwnFrame) (inner before : List OwnFrame) → IsFirstOf id x → x.tail.end ≡ false →
        AreInner id inner → y.tail.start ≡ false → y.tail.id ≡ id →
        goes_out (inner ++ x ∷ before) y ≡ goes_out before x }
{}

/// Whatever is handed in, a frame that goes out and begins no Allocation goes on with one whose first frame went out.
pub fn no_frame_goes_out_without_its_first()
    ensures { (before : List OwnFrame) (frame : OwnFrame) → frame.tail.start ≡ false →
        goes_out before frame ≡ true → GoesOnWith frame.tail.id before }
{}

/// No other Allocation is left out: where each with its transfer ID that went out did so 8,000 ms before or earlier,
/// one goes out. Of a member that is told no list no frame counts as one of an Allocation.
pub fn what_is_apart_goes_out()
    ensures apart { (before : List OwnFrame) (frame : OwnFrame) → frame.tail.start ≡ true →
        WentOutBefore frame.tail.id frame.now before → goes_out before frame ≡ true }
    ensures untold { (raw : RawFrame) → allocation_tail false raw ≡ None }
{}

/// What a link keeps stands for all frames of Allocations that were handed in to it: at the beginning for none, and
/// behind each for that one and those before it. What goes out by its contract is what goes out by these.
pub fn what_is_kept_stands_for_all<C: Clock>()
    ensures first { StandForUses (replicate 32 None) None [] }
    ensures noted { (clock_old clock : C) (last_old last : List (Option ℕ)) (under_way_old under_way : Option ℕ)
        (before : List OwnFrame) (tail : Tail) (goes : Bool) → StandForUses last_old under_way_old before →
        length last_old ≡ 32 → tail.id < 32 → GoesSpaced C.readings clock_old clock last_old last under_way_old
        under_way (Some tail) goes → IsHandedIn C.readings clock_old clock last under_way before tail goes }
{}

/// A frame of an Allocation has the tail of its piece, where its member is told the list. No other frame counts as one.
pub fn frames_have_tails()
    ensures own { (raw : RawFrame) (ident : Ident) (piece : Piece) → fields_of raw ≡ Some ident → ident.kind ≡ Message →
        ident.number ≡ allocation.number → length raw.bytes ≡ 8 → take raw.len raw.bytes ≡ frame_bytes piece →
        piece.tail.id < 32 → allocation_tail true raw ≡ Some piece.tail }
    ensures alone { (is_told : Bool) (raw : RawFrame) (tail : Tail) → allocation_tail is_told raw ≡ Some tail →
        (is_told ≡ true) × ((ident : Ident) × (fields_of raw ≡ Some ident) × (ident.kind ≡ Message)
        × (ident.number ≡ allocation.number)) }
{
    frames_read_as_their_pieces();
}
