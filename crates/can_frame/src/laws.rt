//! Laws of the definitions, each the contract of a function that does nothing: what a crate above wants
//! to know of identifiers, tails, cuttings, entries and logs without proving it again.

ghost use Rattle.std.specs.Prelude.{◌≡◌, ◌≢◌, ◌⊎◌, ◌↔◌, ◌*◌, ◌/◌, ◌<◌, ◌≤◌, ◌^◌, ℕ, suc, true, false, Some, List, [], ◌∷◌, ◌++◌, length, sum, take, drop, get_or, slice_index_or};
ghost use Rattle.can_frame.specs.declared.entry.Entry.{Entry};
ghost use Rattle.can_frame.specs.declared.frame.Frame.{Frame};
ghost use Rattle.can_frame.specs.declared.identifier.Ident.{Ident};
ghost use Rattle.can_frame.specs.declared.tail.Tail.{Tail};
ghost use Rattle.can_frame.specs.Identifier.{Spells, IsIdentifier, identifier_number, identifier_of};
ghost use Rattle.can_frame.specs.Tail.{tail_byte, tail_of};
ghost use Rattle.can_frame.specs.Cutting.{Piece, IsCutting, bytes_cut, crc_bytes, cut_length, frame_bytes, frame_count, frame_lengths, frames_before_last, frames_of, joined, payload_of, piece_from, tail_at};
ghost use Rattle.can_frame.specs.Log.{HasNodeId, HasUid, IsBlank, IsDistinctFromAll, IsInjective, IsPair, IsReservation, IsWellFormed, blank};

/// Identifiers: what is read is in the table, what is in the table is read, and reading and writing
/// undo each other.
#[tactic(auto, unfolding(crate::specs::Identifier::identifier_of))]
pub fn identifiers_both_ways()
    ensures in_the_table { (id : ℕ) (ident : Ident) → id < 2 ^ 29 → identifier_of id ≡ Some ident →
        Spells ident id }
    ensures is_read { (id : ℕ) (ident : Ident) → Spells ident id → identifier_of id ≡ Some ident }
    ensures read_again { (ident : Ident) → IsIdentifier ident →
        identifier_of (identifier_number ident) ≡ Some ident }
    ensures written_again { (id : ℕ) (ident : Ident) → id < 2 ^ 29 → identifier_of id ≡ Some ident →
        identifier_number ident ≡ id }
{}

/// Tails: reading and writing undo each other.
pub fn tails_both_ways()
    ensures read_again { (tail : Tail) → tail.id < 32 → tail_of (tail_byte tail) ≡ tail }
    ensures written_again { (byte : ℕ) → byte < 256 → tail_byte (tail_of byte) ≡ byte }
{}

/// A frame is its identifier and its bytes: what it keeps beside them are facts.
pub fn frames_are_their_parts()
    ensures { (a b : Frame) → a.id ≡ b.id → a.bytes.items ≡ b.bytes.items → a ≡ b }
{}

/// Each frame of a cutting: seven bytes from seven times its place on, but for the last, which has
/// what is left.
pub fn frames_in_order()
    ensures count { (signature id : ℕ) (payload : List ℕ) →
        length (frames_of signature id payload) ≡ suc (frames_before_last signature payload) }
    ensures before_last { (signature id k : ℕ) (payload : List ℕ) (d : Piece) →
        k < frames_before_last signature payload →
        get_or (frames_of signature id payload) k d
        ≡ record {
          bytes = take 7 (drop (7 * k) (bytes_cut signature payload));
          tail = tail_at id k false;
        } }
    ensures last { (signature id : ℕ) (payload : List ℕ) (d : Piece) →
        let k = frames_before_last signature payload in
        get_or (frames_of signature id payload) k d
        ≡ record { bytes = drop (7 * k) (bytes_cut signature payload); tail = tail_at id k true } }
{}

/// The frames determine the payload, and a payload has one list of frames.
pub fn frames_give_the_payload()
    ensures payload { (signature id : ℕ) (payload : List ℕ) →
        payload_of (frames_of signature id payload) ≡ payload }
    ensures one_payload { (signature id : ℕ) (a b : List ℕ) (frames : List Piece) →
        IsCutting signature id a frames → IsCutting signature id b frames → a ≡ b }
    ensures one_cutting { (signature id : ℕ) (payload : List ℕ) (a b : List Piece) →
        IsCutting signature id payload a → IsCutting signature id payload b → a ≡ b }
{}

/// A frame that was made of a piece is that piece to who receives it.
pub fn frames_read_as_their_pieces()
    ensures { (piece : Piece) → piece.tail.id < 32 → piece_from (frame_bytes piece) ≡ piece }
{}

/// What frames carry, joined, and what of it is the payload: a payload of at most seven bytes is cut
/// as it is, into one frame, and a longer one behind the two bytes of its CRC.
pub fn frames_carry_what_is_cut()
    ensures carried { (signature id : ℕ) (payload : List ℕ) →
        joined (frames_of signature id payload) ≡ bytes_cut signature payload }
    ensures short { (signature : ℕ) (payload : List ℕ) → length payload ≤ 7 →
        bytes_cut signature payload ≡ payload }
    ensures long { (signature : ℕ) (payload : List ℕ) → 7 < length payload →
        bytes_cut signature payload ≡ crc_bytes signature payload ++ payload }
    ensures one_frame { (pieces : List Piece) → length pieces ≤ 1 →
        payload_of pieces ≡ joined pieces }
    ensures several_frames { (pieces : List Piece) → 1 < length pieces →
        payload_of pieces ≡ drop 2 (joined pieces) }
{}

/// The lengths of a cutting: those of the frames follow from that of the payload, and that of the
/// payload from those of the frames.
pub fn lengths_of_cuttings()
    ensures cut { (signature : ℕ) (payload : List ℕ) →
        length (bytes_cut signature payload) ≡ cut_length (length payload) }
    ensures count { (signature id : ℕ) (payload : List ℕ) →
        length (frames_of signature id payload) ≡ frame_count (length payload) }
    ensures carried { (pieces : List Piece) → length (joined pieces) ≡ sum (frame_lengths pieces) }
    ensures frames { (signature id : ℕ) (a b : List ℕ) → length a ≡ length b →
        frame_lengths (frames_of signature id a) ≡ frame_lengths (frames_of signature id b) }
    ensures payload { (a b : List Piece) → frame_lengths a ≡ frame_lengths b →
        length (payload_of a) ≡ length (payload_of b) }
{}

/// No entry is two of a blank, a reservation and a pair. That an entry is well formed has one proof, as a
/// ghost field of a struct has.
pub fn entries_are_of_one_kind()
    ensures blank { (entry : Entry) → IsBlank entry → (IsReservation entry → ⊥)
        × (IsPair entry → ⊥) }
    ensures reservation { (entry : Entry) → IsReservation entry → IsPair entry → ⊥ }
    ensures one { (entry : Entry) (a b : IsWellFormed entry) → a ≡ b }
{}

/// When a log stays injective as it grows: always by a blank, by a reservation where it has not the
/// node ID, by a pair where it has neither the node ID nor the unique ID. And as it is cut: always.
pub fn logs_stay_injective()
    ensures entry { (log : List Entry) (entry : Entry) →
        IsInjective (log ++ entry ∷ []) ↔ (IsInjective log × IsDistinctFromAll log entry) }
    ensures blank { (log : List Entry) (entry : Entry) → IsBlank entry →
        IsInjective (log ++ entry ∷ []) ↔ IsInjective log }
    ensures reservation { (log : List Entry) (entry : Entry) → IsReservation entry →
        IsInjective (log ++ entry ∷ []) ↔ (IsInjective log × (HasNodeId log entry.node → ⊥)) }
    ensures pair { (log : List Entry) (entry : Entry) → IsPair entry →
        IsInjective (log ++ entry ∷ [])
        ↔ (IsInjective log × (HasUid log entry.uid → ⊥) × (HasNodeId log entry.node → ⊥)) }
    ensures front { (log : List Entry) (count : ℕ) → IsInjective log →
        IsInjective (take count log) }
{}

/// In an injective log no two pairs have one node ID or one unique ID, and no pair has a node ID that
/// is reserved.
pub fn node_ids_are_given_once()
    ensures pairs { (log : List Entry) (i j : ℕ) → IsInjective log → i < length log →
        j < length log → i ≢ j →
        let a = slice_index_or log i (blank 0) in let b = slice_index_or log j (blank 0) in
        IsPair a → IsPair b → (a.node ≢ b.node) × (a.uid ≢ b.uid) }
    ensures reserved { (log : List Entry) (i j : ℕ) → IsInjective log → i < length log →
        j < length log →
        let a = slice_index_or log i (blank 0) in let b = slice_index_or log j (blank 0) in
        IsReservation a → IsPair b → a.node ≢ b.node }
{}
