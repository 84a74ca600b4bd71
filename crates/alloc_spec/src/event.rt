use arrayvec::ArrayVec;
use can_frame::{Frame, Mark, NodeId, Role, Seen, Sent, Uid};

/// What happens at an allocator. Moments are milliseconds, and may fall.
#[derive(Debug, Drop)]
pub enum Event {
    /// The allocator reads its clock. The word is for its next wait for an election.
    Tick { now: u64, word: u32 },

    /// A frame of the bus comes, with its mark.
    Rx { frame: Frame, mark: Mark, now: u64 },
}

/// What a step did.
#[derive(Debug, Drop, PartialEq, Eq)]
pub struct Outcome {
    pub seen: Seen,

    /// The transfers that it offered to its queue, in order.
    pub sent: ArrayVec<Sent, 12>,

    /// The unique IDs and node IDs that it gave to devices: those of the Allocations that fitted.
    pub answers: ArrayVec<(Uid, NodeId), 2>,
}

/// What an allocator shows of itself.
#[derive(Clone, Copy, Debug, PartialEq, Eq)]
pub struct View {
    pub role: Role,
    pub term: u32,

    /// The node that it voted for in this term, 0 for none.
    pub vote: u8,

    /// The place of the last entry of its log.
    pub last: u8,

    /// The entries up to this place are committed.
    pub commit: u8,

    /// How many frames wait for the bus.
    pub queued: u8,
}
