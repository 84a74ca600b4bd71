ghost use Rattle.std.specs.Prelude.{◌≡◌, [], ◌∷◌};

use can_frame::{Frame, Mark};

/// A frame, and the mark that rides beside it.
#[derive(Debug, Drop, PartialEq, Eq)]
pub struct Marked {
    pub frame: Frame,
    pub mark: Mark,
}

/// A blank for the unused places of a list of fixed capacity: a blank frame, marked by no step.
impl Default for Marked {
    ghost is_default = { λ marked. (marked.frame.id ≡ 0) × (marked.frame.bytes.items ≡ 0 ∷ [])
        × (marked.mark ≡ record { step = 0; re = 0; place = 0 }) };

    fn default() -> Marked {
        Marked {
            frame: Frame::default(),
            mark: Mark {
                step: 0,
                re: 0,
                place: 0,
            },
        }
    }
}
