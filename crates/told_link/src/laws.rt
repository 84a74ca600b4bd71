//! Laws of the definitions, each the contract of a function that does nothing.

ghost use Rattle.std.specs.Prelude.{◌≡◌, ◌≢◌, ℕ, ◌+◌, ◌*◌, ◌<◌, ◌≤◌, ◌++◌, ◌∷◌, ◌⊎◌, ◌||◌, true, false};
ghost use Rattle.std.specs.Prelude.{[], List, None, Option, Some, count_by, drop, length, nat_eq, nat_le, replicate};
ghost use Rattle.std.specs.Prelude.{slice_index_or, take};
ghost use Rattle.alloc_spec.specs.Accepted.{is_of_members};
ghost use Rattle.alloc_spec.specs.Services.{uid_of};
ghost use Rattle.bus_spec.specs.Cluster.{is_member};
ghost use Rattle.bus_spec.specs.Lawful.{is_forged};
ghost use Rattle.can_frame.specs.Identifier.{identifier_of};
ghost use Rattle.can_frame.specs.Kinds.{is_anonymous, is_service};
ghost use Rattle.can_frame.specs.declared.identifier.Ident.{Ident};
ghost use Rattle.can_frame.specs.Cutting.{Piece, frame_bytes, frames_before_last, frames_of, piece_from};
ghost use Rattle.can_frame.specs.DataTypes.{allocation, get_node_info};
ghost use Rattle.can_frame.specs.Sizes.{node_ids};
ghost use Rattle.can_frame.specs.declared.identifier.Kind.TheVariants.{Message, Response};
ghost use Rattle.cluster_discovery.specs.Members.{is_on_list};
ghost use Rattle.dsdl_codec.specs.Allocation.{allocation_bytes};
ghost use Rattle.dsdl_codec.specs.AppendAnswer.{append_answer_of};
ghost use Rattle.dsdl_codec.specs.AppendRequest.{append_request_of};
ghost use Rattle.dsdl_codec.specs.NodeInfo.{node_info_bytes};
ghost use Rattle.dsdl_codec.specs.VoteAnswer.{vote_answer_of};
ghost use Rattle.dsdl_codec.specs.VoteRequest.{vote_request_of};
ghost use Rattle.dsdl_codec.specs.declared.allocation.Allocation.{Allocation};
ghost use Rattle.dsdl_codec.specs.declared.append_answer.AppendAnswer.{AppendAnswer};
ghost use Rattle.dsdl_codec.specs.declared.append_request.AppendRequest.{AppendRequest};
ghost use Rattle.dsdl_codec.specs.declared.node_info.NodeInfo.{NodeInfo};
ghost use Rattle.dsdl_codec.specs.declared.vote_answer.VoteAnswer.{VoteAnswer};
ghost use Rattle.dsdl_codec.specs.declared.vote_request.VoteRequest.{VoteRequest};
ghost use Rattle.outside.specs.declared.received.RawFrame.{RawFrame};
ghost use Rattle.outside.specs.declared.received.Received.TheVariants.{Frame};
ghost use Rattle.told_link.specs.AllocatorUid.{allocator_spelling, answers_as_allocator, spells_allocator};
ghost use Rattle.told_link.specs.Following.{AnswerAt, ComeBefore, agrees, answered_by, answered_of, gives_node_id};
ghost use Rattle.told_link.specs.Following.{has_answered, is_followed, noted};
ghost use Rattle.told_link.specs.Hearing.{wants_followers};
ghost use Rattle.told_link.specs.Silence.{ComeSince, ComesBehindSilence, IsHeardOn, answer_counts, settling};
ghost use Rattle.told_link.specs.Terms.{CallsOn, Coming, ComeUntil, between_calls, between_rises, ceiling_above};
ghost use Rattle.told_link.specs.Terms.{ceiling_for, first_number, first_term, is_below_ceiling, most_terms};
ghost use Rattle.told_link.specs.Terms.{takes_term, term_in, term_of, term_to};
ghost use Rattle.told_link.specs.Voice.{fields_of, is_of_uavcan, voice_of};
ghost use Rattle.told_link.specs.declared.terms.Ceiling.{Ceiling};
ghost use Rattle.told_link.specs.declared.voice.Voice.TheVariants.{Other, Stranger};

use can_frame::laws::{frames_in_order, frames_read_as_their_pieces};

/// Which frames are a stranger's, to a member that is told a list: those with its own node ID; those that members alone
/// send, of a node that is not on the list; and of such a node the frame that spells an allocator, in an answer to it.
pub fn strangers_are_heard()
    ensures own { (me : ℕ) (ids : List ℕ) (raw : RawFrame) (ident : Ident) → ids ≢ [] → fields_of raw ≡ Some ident →
        is_anonymous ident.kind ≡ false → ident.source ≡ me → voice_of me ids raw ≡ Stranger }
    ensures unlisted { (me : ℕ) (ids : List ℕ) (raw : RawFrame) (ident : Ident) → ids ≢ [] →
        fields_of raw ≡ Some ident → is_of_members ident.kind ident.number ≡ true →
        is_on_list ids ident.source ≡ false → voice_of me ids raw ≡ Stranger }
    ensures allocators { (me : ℕ) (ids : List ℕ) (raw : RawFrame) (ident : Ident) → ids ≢ [] →
        fields_of raw ≡ Some ident → answers_as_allocator me raw ident ≡ true →
        is_on_list ids ident.source ≡ false → voice_of me ids raw ≡ Stranger }
{}

/// Frames of devices without a node ID and of the other members are no stranger's. Nor are those of anybody else that
/// are of no type that members alone send, and spell no allocator in an answer to this member. To a member that is told
/// no list none is.
pub fn others_are_no_strangers()
    ensures devices { (me : ℕ) (ids : List ℕ) (raw : RawFrame) (ident : Ident) → fields_of raw ≡ Some ident →
        is_anonymous ident.kind ≡ true → voice_of me ids raw ≡ Other }
    ensures members { (me : ℕ) (ids : List ℕ) (raw : RawFrame) (ident : Ident) → fields_of raw ≡ Some ident →
        is_on_list ids ident.source ≡ true → ident.source ≢ me → voice_of me ids raw ≢ Stranger }
    ensures nodes { (me : ℕ) (ids : List ℕ) (raw : RawFrame) (ident : Ident) → fields_of raw ≡ Some ident →
        is_of_members ident.kind ident.number ≡ false → answers_as_allocator me raw ident ≡ false →
        ident.source ≢ me → voice_of me ids raw ≢ Stranger }
    ensures untold { (me : ℕ) (raw : RawFrame) → voice_of me [] raw ≡ Other }
{}

/// A lawful frame from outside is no stranger's to a member that is on its list, but for one that spells an allocator
/// in an answer to this member: that is a stranger's. A forged frame is a stranger's, or is of another member of the
/// list.
#[tactic(auto, using(crate::proofs::Listed::is_a_member))]
pub fn forged_frames_are_heard()
    ensures lawful { (me : ℕ) (ids : List ℕ) (raw : RawFrame) → is_member ids me ≡ true →
        is_forged ids (identifier_of raw.id) ≡ false →
        ((ident : Ident) → fields_of raw ≡ Some ident → answers_as_allocator me raw ident ≡ false) →
        voice_of me ids raw ≢ Stranger }
    ensures excepted { (me : ℕ) (ids : List ℕ) (raw : RawFrame) (ident : Ident) → ids ≢ [] →
        is_forged ids (identifier_of raw.id) ≡ false → fields_of raw ≡ Some ident →
        answers_as_allocator me raw ident ≡ true → voice_of me ids raw ≡ Stranger }
    ensures forged { (me : ℕ) (ids : List ℕ) (raw : RawFrame) → ids ≢ [] → is_of_uavcan raw ≡ true →
        is_forged ids (identifier_of raw.id) ≡ true → (voice_of me ids raw ≡ Stranger)
        ⊎ ((ident : Ident) × (fields_of raw ≡ Some ident) × (is_on_list ids ident.source ≡ true)
        × (ident.source ≢ me)) }
{
    strangers_are_heard();
}

/// Frames of an answer spell an allocator where they have VCAN-AL from byte 12, 26, 40 and so on of its payload, in
/// steps of 14, and another frame comes behind them; no other frames do. So the fifth frame does of an answer to
/// GetNodeInfo that has the unique ID of an allocator.
pub fn allocators_answers_are_known()
    ensures spelt { (signature id j : ℕ) (payload : List ℕ) (d : Piece) →
        2 + 2 * j < frames_before_last signature payload →
        take 7 (drop (12 + 14 * j) payload) ≡ allocator_spelling →
        spells_allocator (slice_index_or (frames_of signature id payload) (2 + 2 * j) d) ≡ true }
    ensures only { (signature id place : ℕ) (payload : List ℕ) (d : Piece) →
        place ≤ frames_before_last signature payload →
        spells_allocator (slice_index_or (frames_of signature id payload) place d) ≡ true →
        (j : ℕ) × (place ≡ 2 + 2 * j) × (place < frames_before_last signature payload)
        × (take 7 (drop (12 + 14 * j) payload) ≡ allocator_spelling) }
    ensures fifth { (signature id node : ℕ) (info : NodeInfo) (d : Piece) → info.uid ≡ uid_of node →
        spells_allocator (slice_index_or (frames_of signature id (node_info_bytes info)) 4 d) ≡ true }
    // What a frame made of such a piece is to the member that asked; and to whom alone it is that.
    ensures heard { (me : ℕ) (raw : RawFrame) (ident : Ident) (piece : Piece) → ident.kind ≡ Response →
        ident.number ≡ get_node_info.number → ident.dest ≡ me → piece.tail.id < 32 →
        take raw.len raw.bytes ≡ frame_bytes piece → answers_as_allocator me raw ident ≡ spells_allocator piece }
    ensures others { (me : ℕ) (raw : RawFrame) (ident : Ident) → answers_as_allocator me raw ident ≡ true →
        (ident.kind ≡ Response) × (ident.number ≡ get_node_info.number) × (ident.dest ≡ me) }
{
    frames_in_order();
    frames_read_as_their_pieces();
}

/// An answer that comes within half a second behind a silence counts for nothing, whatever came meanwhile.
pub fn no_answer_counts_behind_a_silence()
    ensures { (now first : ℕ) (since before : List ℕ) → ComesBehindSilence first before → ComeSince first since →
        first ≤ now → now < first + settling → answer_counts now (since ++ first ∷ before) ≡ false }
{}

/// The first answer that comes behind a silence counts for nothing.
pub fn the_first_answer_counts_for_nothing()
    ensures { (now : ℕ) (before : List ℕ) → ComesBehindSilence now before → answer_counts now before ≡ false }
{}

/// Half a second behind a silence an answer counts, where the member was not silent since.
pub fn answers_count_again()
    ensures { (now first : ℕ) (since before : List ℕ) → ComesBehindSilence first before → IsHeardOn first since now →
        first + settling ≤ now → answer_counts now (since ++ first ∷ before) ≡ true }
{}

/// Where a frame that gives a node ID goes out, more than half of the list answered lately that their logs agree, the
/// leader counted.
pub fn who_gives_node_ids_was_answered()
    ensures { (now me : ℕ) (ids : List ℕ) (answers : List AnswerAt) →
        is_followed now me ids (answered_by answers) ≡ true →
        length ids < 2 * count_by (λ id. nat_eq id me || has_answered now answers id) ids }
{}

/// As long as more than half of the list answer so, the leader counted, nothing is withheld; from a member that is
/// alone on its list, or is told none, nothing ever is.
pub fn who_is_answered_withholds_nothing()
    ensures majority { (now me : ℕ) (ids : List ℕ) (answers : List AnswerAt) → ComeBefore now answers →
        length ids < 2 * count_by (λ id. nat_eq id me || has_answered now answers id) ids →
        is_followed now me ids (answered_by answers) ≡ true }
    ensures alone { (now me : ℕ) (answered : ℕ → Option ℕ) → is_followed now me (me ∷ []) answered ≡ true }
    ensures untold { (raw : RawFrame) → wants_followers [] raw ≡ false }
{}

/// An Allocation of several frames gives a node ID where its first frame says so, and its value has one.
pub fn first_frames_give_node_ids()
    ensures { (raw : RawFrame) (ident : Ident) (signature id : ℕ) (answer : Allocation) (first second : Piece)
        (rest : List Piece) → fields_of raw ≡ Some ident → ident.kind ≡ Message → ident.number ≡ allocation.number →
        frames_of signature id (allocation_bytes answer) ≡ first ∷ second ∷ rest → id < 32 →
        take raw.len raw.bytes ≡ frame_bytes first → gives_node_id raw ≡ nat_le 1 answer.node }
{}

/// An answer to a call of AppendEntries agrees where it says success, and no other frame does.
pub fn answers_of_success_agree()
    ensures answers { (raw : RawFrame) (signature id : ℕ) (payload : List ℕ) (answer : AppendAnswer) (first : Piece)
        (rest : List Piece) → append_answer_of payload ≡ Some answer → frames_of signature id payload ≡ first ∷ rest →
        id < 32 → length raw.bytes ≡ 8 → take raw.len raw.bytes ≡ frame_bytes first → agrees raw ≡ answer.success }
    ensures alone { (raw : RawFrame) → agrees raw ≡ true → (raw.len ≡ 6) × ((answer : AppendAnswer)
        × (append_answer_of (take 5 raw.bytes) ≡ Some answer) × (answer.success ≡ true)) }
{}

/// The reading that is kept of each node is that at the last of its answers that agreed.
pub fn answers_are_noted()
    ensures first { (id : ℕ) → answered_of (replicate node_ids None) id ≡ answered_by [] id }
    ensures noted { (all : List (Option ℕ)) (answers : List AnswerAt) (answer : AnswerAt) (id : ℕ) →
        answer.node < length all → answered_of all id ≡ answered_by answers id →
        answered_of (noted answer.node answer.at true all) id ≡ answered_by (answer ∷ answers) id }
    ensures others { (node now : ℕ) (all : List (Option ℕ)) → noted node now false all ≡ all }
{}

/// A term that is at most 1,000,000 above the first one that the member sent is taken, whatever came before. One that
/// is further above it is not, within ten minutes.
pub fn a_million_terms_are_taken()
    ensures taken { (own first : ℕ) (before : List Coming) (coming : Coming) → coming.term ≤ own + most_terms →
        takes_term (ceiling_above first own) before coming ≡ true }
    ensures refused { (own first last : ℕ) (before : List Coming) (coming : Coming) → ComeUntil last (coming ∷ before) →
        first ≤ last → last < first + between_rises → own + most_terms < coming.term →
        takes_term (ceiling_above first own) before coming ≡ false }
    // Before the member sent a term.
    ensures unsent { (now term : ℕ) → 1000000 < term → is_below_ceiling term (ceiling_for now term None) ≡ false }
    ensures unsent_taken { (now term : ℕ) → term ≤ 1000000 → is_below_ceiling term (ceiling_for now term None) ≡ true }
{}

/// A term that is taken is above the first one of the member by 1,000,000, and by as much for each ten minutes since
/// then at the most. So the highest term, 2^32 - 1, takes 29 days.
pub fn terms_go_up_slowly()
    ensures { (own first : ℕ) (before : List Coming) (coming : Coming) → ComeUntil coming.now before →
        first ≤ coming.now → takes_term (ceiling_above first own) before coming ≡ true →
        (rises : ℕ) × (first + rises * between_rises ≤ coming.now) ×
        (coming.term ≤ own + most_terms + rises * most_terms) }
{}

/// Whoever is far ahead, and calls on, once in a minute at least, is taken in the end, whatever else comes: within 11
/// minutes for each million terms above the ceiling, also where its terms rise, within the last of these millions.
pub fn who_calls_on_is_taken()
    ensures { (ceiling : Ceiling) (low spans : ℕ) (before : List Coming) (coming : Coming) →
        CallsOn ceiling low (coming ∷ before) → low ≤ coming.term →
        coming.term ≤ ceiling.term + spans * most_terms → ceiling.term + spans * most_terms < low + most_terms →
        ceiling.since + spans * (between_rises + between_calls) ≤ coming.now →
        takes_term ceiling before coming ≡ true }
{}

/// The term that is judged is the one that the member would read: the first frame of a payload has the number with
/// which the payload begins, and with that each call and each answer begins.
pub fn first_frames_have_the_term()
    ensures frames { (signature id : ℕ) (payload : List ℕ) (first : Piece) (rest : List Piece) →
        frames_of signature id payload ≡ first ∷ rest → term_of first ≡ first_number payload }
    ensures terms { (raw : RawFrame) (ident : Ident) → fields_of raw ≡ Some ident → is_service ident.kind ≡ true →
        is_of_members ident.kind ident.number ≡ true → term_in raw ≡ term_of (piece_from (take raw.len raw.bytes)) }
    ensures listed { (me : ℕ) (ids : List ℕ) (raw : RawFrame) (ident : Ident) → fields_of raw ≡ Some ident →
        is_anonymous ident.kind ≡ false → is_on_list ids ident.source ≡ true → ident.source ≢ me →
        term_to me ids (Frame raw) ≡ term_in raw }
    // The first one that a member sends, which is told a list.
    ensures own { (ids : List ℕ) (raw : RawFrame) → ids ≢ [] → first_term ids None raw ≡ term_in raw }
    ensures once { (ids : List ℕ) (ceiling : Ceiling) (raw : RawFrame) → first_term ids (Some ceiling) raw ≡ None }
    ensures vote_requests { (payload : List ℕ) (request : VoteRequest) → vote_request_of payload ≡ Some request →
        first_number payload ≡ Some request.term }
    ensures vote_answers { (payload : List ℕ) (answer : VoteAnswer) → vote_answer_of payload ≡ Some answer →
        first_number payload ≡ Some answer.term }
    ensures append_requests { (payload : List ℕ) (request : AppendRequest) →
        append_request_of payload ≡ Some request → first_number payload ≡ Some request.term }
    ensures append_answers { (payload : List ℕ) (answer : AppendAnswer) → append_answer_of payload ≡ Some answer →
        first_number payload ≡ Some answer.term }
{}
