//! How the payload of a transfer is put together.

ghost use Rattle.std.specs.Prelude.{◌≡◌, ◌≤◌, ◌<◌, ◌+◌, ◌++◌, [], ◌∷◌, ℕ, List, Some, option_map, drop, get_or, length, IfSome};
ghost use Rattle.can_frame.specs.Cutting.{payload_of};
ghost use Rattle.can_frame.specs.Identifier.{IsIdentifier};
ghost use Rattle.can_frame.specs.Piece.{piece_of};
ghost use Rattle.can_frame.specs.Sizes.{longest_payload, longest_transfer};
ghost use Rattle.transfer_rx.specs.Filled.{Fills};
ghost use Rattle.transfer_rx.specs.Fronts.{HasFront, front_bytes};
ghost use Rattle.transfer_rx.specs.Heard.{IfDelivers, UnlessDelivers, delivery_with, told_with};
ghost use Rattle.transfer_rx.specs.Keys.{key_of};
ghost use Rattle.transfer_rx.specs.Places.{Places};
ghost use Rattle.transfer_rx.specs.Progress.{IsProgressOf};
ghost use Rattle.transfer_rx.specs.Ranges.{IsInRange};
ghost use Rattle.transfer_rx.specs.Reassembly.{alone, answer_of, delivered, session_step};
ghost use Rattle.transfer_rx.specs.Sessions.{Session};
ghost use Rattle.transfer_rx.specs.Told.{delivery_of};
ghost use Rattle.transfer_rx.specs.Turns.{Completes, IsRoomy, IsTurn};
ghost use Rattle.transfer_rx.specs.Verdicts.{IfWhole, says};

use crate::progress::Found;
use crate::sessions::Sessions;
use crate::standard::CRC_BYTES;
use crate::transfer::{Heard, Transfer};
use crate::turn::{Coming, Turn, alone};
use crate::verdict::Verdict;
use arrayvec::ArrayVec;
use can_frame::sizes::{LONGEST_PAYLOAD, LONGEST_TRANSFER};
use can_frame::{Frame, Ident, Mark};

impl<const S: usize, const N: usize> Sessions<S, N> {
    /// The transfer that a frame would complete in its turn.
    pub fn foretell(&self, turn: Turn, ident: Ident, frame: &Frame, mark: Mark) -> Option<Coming>
        requires ident { IsIdentifier ident }
        requires room { IsRoomy S self.now.pool (piece_of frame.now) turn }
        ensures ident { IfSome result (λ coming. IsIdentifier coming.heading.ident) }
        ensures id { IfSome result (λ coming. coming.heading.id < 32) }
        ensures front { IfSome result (λ coming.
            HasFront S self.now.pool coming.front (length (piece_of frame.now).bytes)) }
        ensures delivery { (most blocks signature now : ℕ) (places : Places)
            (sessions : List Session) →
            IsTurn most self.now.pool blocks (key_of ident) signature
            (piece_of frame.now) now places sessions turn →
            option_map (λ coming. delivery_with coming.heading
            (front_bytes self.now.pool coming.front ++ (piece_of frame.now).bytes)) result ≡
            delivered (session_step most blocks
            (record { ident = ident; signature = signature })
            (piece_of frame.now) mark now sessions).answer }
    {
        match turn {
            Turn::Refused(_) => None,
            Turn::Out(_, _) => None,
            Turn::Next(found, verdict) => completed(found, verdict, ident, frame, mark),
        }
    }

    /// Delivers an anonymous frame, where it stands alone.
    pub fn hear_alone(
        &self,
        ident: Ident,
        frame: &Frame,
        mark: Mark,
        delivered: &mut Transfer,
    ) -> Heard
        requires { IsIdentifier ident }
        ensures answer { told_with delivered.new result ≡ alone ident (piece_of frame.now) mark }
        ensures ranges { IfDelivers result (IsInRange delivered.new) }
        ensures kept { UnlessDelivers result (delivered.new ≡ delivered.old) }
    {
        match alone(ident, frame, mark) {
            Ok(coming) => {
                self.fill(coming, frame.data(), delivered);
                Heard::Delivered
            }
            Err(why) => Heard::Dropped(why),
        }
    }

    /// Puts a transfer together, with the bytes of its last frame.
    pub fn fill(&self, coming: Coming, last: &[u8], transfer: &mut Transfer)
        requires { HasFront S self.now.pool coming.front (length last.now) }
        ensures { delivery_of transfer.new ≡
            delivery_with coming.heading (front_bytes self.now.pool coming.front ++ last.now) }
    {
        transfer.begin(coming.heading);
        if let Some(place) = coming.front {
            self.add_front(place, &mut transfer.payload);
        }
        add(&mut transfer.payload, last);
    }

    /// Adds what is kept at a place, without the CRC at its front.
    fn add_front(&self, place: usize, payload: &mut ArrayVec<u8, LONGEST_PAYLOAD>)
        requires place { place < S }
        requires behind_crc { 2 ≤ length (get_or self.now.pool place []) }
        requires empty { payload.old.items ≡ [] }
        ensures { payload.new.items ≡ drop 2 (get_or self.now.pool place []) }
    {
        let mut bytes = [0; LONGEST_TRANSFER];
        let len = self.len_at(place);
        self.pool.copy_out(place, &mut bytes[..len]);
        add(payload, &bytes[CRC_BYTES..len]);
    }

    fn len_at(&self, place: usize) -> usize
        requires { place < S }
        ensures len { result ≡ length (get_or self.now.pool place []) }
        ensures most { result ≤ longest_transfer }
    {
        self.pool.len(place)
    }
}

fn add(payload: &mut ArrayVec<u8, LONGEST_PAYLOAD>, more: &[u8])
    requires { length payload.old.items + length more.now ≤ longest_payload }
    ensures { payload.new.items ≡ payload.old.items ++ more.now }
{
    match payload.try_extend_from_slice(more) {
        Ok(()) => {}
        Err(_) => unreachable!(),
    }
}

/// The transfer that a frame completes, where its verdict says so.
fn completed(
    found: Found,
    verdict: Verdict,
    ident: Ident,
    frame: &Frame,
    mark: Mark,
) -> Option<Coming>
    requires { IsIdentifier ident }
    ensures ident { IfSome result (λ coming. IsIdentifier coming.heading.ident) }
    ensures id { IfSome result (λ coming. coming.heading.id < 32) }
    ensures front { (places : ℕ) (chains : List (List ℕ)) → found.place < places →
        Fills found.progress (get_or chains found.place []) →
        IfWhole verdict (Completes found (piece_of frame.now)) →
        IfSome result (λ coming.
        HasFront places chains coming.front (length (piece_of frame.now).bytes)) }
    ensures delivery { (chains : List (List ℕ)) (session : Session) →
        Fills found.progress (get_or chains found.place []) →
        IsProgressOf found.progress (get_or chains found.place []) session →
        option_map (λ coming. delivery_with coming.heading
        (front_bytes chains coming.front ++ (piece_of frame.now).bytes)) result ≡
        delivered (answer_of ident (piece_of frame.now) mark session
        (says (payload_of (session.taken ++ piece_of frame.now ∷ [])) verdict)) }
{
    match verdict {
        Verdict::Whole => Some(found.completed(ident, frame, mark)),
        Verdict::Open => None,
        Verdict::Spoiled(_) => None,
    }
}
