ghost use Rattle.std.specs.Prelude.{◌≡◌};

use can_frame::sizes::MOST_MEMBERS;
use thiserror::Error;

/// Why a row is refused: the first of these that holds. The number that a report shows is the one written here.
#[derive(Clone, Copy, Debug, PartialEq, Eq)]
pub enum Unlawful {
    /// The row's node is no member.
    NoNode = 1,

    /// The node does not run.
    Stopped = 2,

    /// The node runs, and cannot open.
    Running = 3,

    /// No frame has this number yet.
    NoFrame = 4,

    /// Nothing waits in the queue of the node or allocatee.
    NothingQueued = 5,

    /// The frame from outside has a member's source, or is of a data type that members alone send.
    Forged = 6,

    /// The node or allocatee would take a transfer whose frames were not made together.
    Torn = 7,

    /// The node would take the response to an earlier call.
    Stale = 8,

    /// No allocatee has this number.
    NoAllocatee = 9,

    /// The allocatee is not there.
    Absent = 10,

    /// The allocatee is there, and cannot come.
    Present = 11,
}

impl Unlawful {
    ghost use Rattle.bus_spec.specs.Lawful.{number_of};

    /// 1 to 11.
    pub fn number(self) -> u8
        ensures { result ≡ number_of self }
    {
        self as u8
    }
}

/// Why no world was made.
#[derive(Clone, Copy, Debug, Error, PartialEq, Eq)]
pub enum WorldFault {
    #[error("the members are not 1 to {most} different node IDs of 1 to 125", most = MOST_MEMBERS)]
    BadIds,

    #[error("there is not enough memory")]
    Memory,
}
