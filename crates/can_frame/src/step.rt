ghost use Rattle.std.specs.Prelude.{◌≡◌, false};

/// What a member of the cluster is to the others (Raft paper, figure 2).
#[derive(Clone, Copy, Debug, PartialEq, Eq)]
pub enum Role {
    Follower,
    Candidate,
    Leader,
}

/// Why a receiver dropped a frame. The number that a report shows is the one written here.
#[derive(Clone, Copy, Debug, PartialEq, Eq)]
pub enum Why {
    /// The kind and number are not received, or the frame is for another node or from this one.
    NotWanted = 1,

    /// A transfer does not begin here, or must not begin here.
    Start = 2,

    Toggle = 3,
    TransferId = 4,
    Crc = 5,
    Length = 6,

    /// No block is free for the bytes.
    NoBlock = 7,

    /// No session is free.
    NoSession = 8,

    /// The identifier is that of no frame.
    BadIdent = 9,
}

/// What a step of an allocator saw.
#[derive(Clone, Copy, Debug, PartialEq, Eq)]
pub enum Seen {
    /// The clock.
    Ticked,

    /// A whole transfer.
    Took,

    /// A whole transfer that is no value of its data type.
    Bad,

    /// A frame of a transfer that goes on.
    Part,

    Dropped(Why),
}

/// What a transfer of an allocator is, by its data type and direction.
#[derive(Clone, Copy, Debug, PartialEq, Eq)]
pub enum What {
    /// Allocation.
    Alloc,

    /// Discovery.
    Disc,

    /// NodeStatus.
    Stat,

    /// The request of GetNodeInfo.
    InfoQ,

    /// The response of GetNodeInfo.
    Info,

    /// The request of RequestVote.
    VoteQ,

    /// The response of RequestVote.
    Vote,

    /// The request of AppendEntries.
    AppQ,

    /// The response of AppendEntries.
    App,
}

/// A transfer that a step offered to its queue: what, to which node (0 for messages), and whether it
/// fitted.
#[derive(Clone, Copy, Debug, PartialEq, Eq)]
pub struct Sent {
    pub what: What,
    pub to: u8,
    pub fitted: bool,
}

/// A blank for the unused places of a list of fixed capacity: an Allocation that did not fit.
impl Default for Sent {
    ghost use Rattle.can_frame.specs.declared.step.What.TheVariants.{Alloc};

    ghost is_default = { λ sent. sent ≡ record { what = Alloc; to = 0; fitted = false } };

    fn default() -> Sent {
        Sent {
            what: What::Alloc,
            to: 0,
            fitted: false,
        }
    }
}

/// Whether a node under test may be given a frame.
#[derive(Clone, Copy, Debug, PartialEq, Eq)]
pub enum Judged {
    Fine,

    /// It would deliver a transfer whose frames were not made together.
    Torn,

    /// It would deliver a response to an earlier call than the one that is pending.
    Stale,
}
