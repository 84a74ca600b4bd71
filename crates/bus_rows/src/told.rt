use arrayvec::ArrayVec;
use can_frame::{Frame, NodeId, Role, Seen, Sent};

/// What a row did, as a report tells it. `n` is the node, `a` the allocatee, and the other numbers are those after
/// the row.
#[derive(Debug, Drop, PartialEq, Eq)]
pub enum Told {
    /// A node opened, with this stored term, vote (0 for none), last index and commit index.
    Opened {
        n: u8,
        term: u32,
        vote: u8,
        last: u8,
        commit: u8,
    },

    /// A node made a step: what it saw, and the transfers that it offered to its queue of `queued` frames.
    Stepped {
        n: u8,
        role: Role,
        term: u32,
        last: u8,
        commit: u8,
        queued: u8,
        seen: Seen,
        sent: ArrayVec<Sent, 12>,
    },

    /// A step or an opening failed.
    Failed {
        n: u8,
    },

    /// A node stopped.
    Stopped {
        n: u8,
    },

    /// A stop or a failure is armed.
    Armed {
        n: u8,
    },

    /// A node put a frame on the bus, as frame `k`.
    Popped {
        n: u8,
        k: u32,
        frame: Frame,
    },

    /// A frame from outside is on the bus, as frame `k`.
    Outside {
        k: u32,
    },

    /// An allocatee came to the bus.
    AOpened {
        a: u8,
    },

    /// An allocatee made a step: the node ID that it holds, what it saw, and the transfer that it offered to its
    /// queue of `queued` frames.
    AStepped {
        a: u8,
        holds: Option<NodeId>,
        queued: u8,
        seen: Seen,
        sent: ArrayVec<Sent, 1>,
    },

    /// An allocatee put a frame on the bus, as frame `k`.
    APopped {
        a: u8,
        k: u32,
        frame: Frame,
    },

    /// An allocatee left the bus.
    AEnded {
        a: u8,
    },
}
