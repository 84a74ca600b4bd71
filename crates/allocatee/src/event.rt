use arrayvec::ArrayVec;
use can_frame::{Frame, Mark, Seen, Sent};

/// What happens at an allocatee. Moments are milliseconds, and may fall. Its waits, and the discriminators of what it
/// sends, come from the random word.
#[derive(Debug, Drop)]
pub enum AEvent {
    /// It reads its clock.
    Tick {
        now: u64,
        word: u32,
    },

    /// A frame of the bus comes, with its mark.
    Rx {
        frame: Frame,
        mark: Mark,
        now: u64,
        word: u32,
    },
}

/// What a step of an allocatee did.
#[derive(Debug, Drop, PartialEq, Eq)]
pub struct AOutcome {
    pub seen: Seen,

    /// The transfer that it offered to its queue, if any.
    pub sent: ArrayVec<Sent, 1>,
}
