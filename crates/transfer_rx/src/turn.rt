ghost use Rattle.std.specs.Prelude.{◌≡◌, ◌<◌, ◌≤◌, ◌++◌, ◌∷◌, [], ℕ, IfOk, List, None, get_or, length};
ghost use Rattle.can_frame.specs.Cutting.{payload_of};
ghost use Rattle.can_frame.specs.Identifier.{IsIdentifier};
ghost use Rattle.can_frame.specs.Piece.{piece_of};
ghost use Rattle.transfer_rx.specs.Filled.{Fills};
ghost use Rattle.transfer_rx.specs.Fronts.{HasFront, front_bytes, front_of};
ghost use Rattle.transfer_rx.specs.Heard.{delivery_with, told_alone};
ghost use Rattle.transfer_rx.specs.Reassembly.{alone, answer_of, Gives};
ghost use Rattle.transfer_rx.specs.Outcome.{Delivers};
ghost use Rattle.transfer_rx.specs.Sessions.{Session};
ghost use Rattle.transfer_rx.specs.Progress.{IsProgressOf};
ghost use Rattle.transfer_rx.specs.Turns.{Completes};

use crate::progress::Found;
use crate::transfer::Heading;
use crate::verdict::{Verdict, is_alone};
use can_frame::laws::frames_carry_what_is_cut;
use can_frame::{Frame, Ident, Mark, Why};

/// Where a frame of a session comes: to no session, to one that waits for another frame, or as the next.
#[derive(Clone, Copy, Debug)]
pub enum Turn {
    Refused(Why),
    Out(Found, Why),
    Next(Found, Verdict),
}

/// A transfer that a frame completes. Its payload is the bytes of that frame; where `front` is a place,
/// those of the chain there stand before them, without the CRC.
#[derive(Clone, Copy, Debug)]
pub struct Coming {
    pub heading: Heading,
    pub front: Option<usize>,
}

impl Found {
    /// The transfer that the last frame completes.
    pub fn completed(&self, ident: Ident, frame: &Frame, mark: Mark) -> Coming
        requires { IsIdentifier ident }
        ensures ident { result.heading.ident ≡ ident }
        ensures id { result.heading.id < 32 }
        ensures front { (places : ℕ) (chains : List (List ℕ)) → self.now.place < places →
            Fills self.now.progress (get_or chains self.now.place []) →
            Completes self.now (piece_of frame.now) →
            HasFront places chains result.front (length (piece_of frame.now).bytes) }
        ensures delivery { (chains : List (List ℕ)) (session : Session) →
            Fills self.now.progress (get_or chains self.now.place []) →
            IsProgressOf self.now.progress (get_or chains self.now.place []) session →
            Gives (delivery_with result.heading
            (front_bytes chains result.front ++ (piece_of frame.now).bytes)) ≡
            answer_of ident (piece_of frame.now) mark session
            (Delivers (payload_of (session.taken ++ piece_of frame.now ∷ []))) }
    {
        frames_carry_what_is_cut();
        Coming {
            heading: Heading {
                ident,
                id: frame.tail().id,
                mark,
                whole: self.progress.is_whole_with(mark),
            },
            front: self.front(),
        }
    }

    /// The place whose chain has the front of the payload, if anything was taken.
    fn front(&self) -> Option<usize>
        ensures { result ≡ front_of self.now }
    {
        if self.progress.taken == 0 {
            None
        } else {
            Some(self.place)
        }
    }
}

/// The transfer that an anonymous frame is by itself.
pub fn alone(ident: Ident, frame: &Frame, mark: Mark) -> Result<Coming, Why>
    requires { IsIdentifier ident }
    ensures answer { told_alone (piece_of frame.now).bytes result ≡
        alone ident (piece_of frame.now) mark }
    ensures none { IfOk result (λ coming. coming.front ≡ None) }
    ensures short { length (piece_of frame.now).bytes ≤ 7 }
    ensures ident { IfOk result (λ coming. coming.heading.ident ≡ ident) }
    ensures id { IfOk result (λ coming. coming.heading.id < 32) }
{
    let tail = frame.tail();
    if !is_alone(&tail) {
        return Err(Why::Start);
    }
    if tail.toggle {
        return Err(Why::Toggle);
    }
    Ok(Coming {
        heading: Heading {
            ident,
            id: tail.id,
            mark,
            whole: mark.place == 0,
        },
        front: None,
    })
}
