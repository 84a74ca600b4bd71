ghost use Rattle.std.specs.Prelude.{◌≡◌};
ghost use Rattle.told_link.specs.Silence as silences;

use crate::past::is_past;

/// A silence is at least so long, in milliseconds. Transfer IDs have 5 bits, and a call that is not answered is given
/// up after 1,000 ms: so they come round after 32 s, and this is a third of it. Members that are heard speak each
/// second.
pub const SHORTEST_SILENCE: u64 = 10_000;

/// For so long behind a silence, in milliseconds, no answer counts. A queue of an interface is empty long before, and
/// the next call goes out after 1,000 ms.
pub const SETTLING: u64 = 500;

/// What is known of a member that was heard, in milliseconds of the link's clock.
#[derive(Clone, Copy, Debug, PartialEq, Eq)]
pub struct Heard {
    /// The reading at its last frame.
    pub last: u64,

    /// The reading at the first frame behind its last silence.
    pub back: u64,
}

/// What is known of a member of which a frame comes now.
pub fn heard_at(now: u64, before: Option<Heard>) -> Heard
    ensures { result ≡ silences.heard_at now before }
{
    match before {
        Some(heard) => Heard {
            last: now,
            back: if is_past(now, heard.last, SHORTEST_SILENCE) {
                now
            } else {
                heard.back
            },
        },
        None => Heard {
            last: now,
            back: now,
        },
    }
}

/// Whether its answers count now.
pub fn counts(now: u64, heard: Heard) -> bool
    ensures { result ≡ silences.answers_count now heard }
{
    is_past(now, heard.back, SETTLING)
}
