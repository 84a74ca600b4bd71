ghost use Rattle.std.specs.Prelude.{◌≡◌};
ghost use Rattle.cmd_io.specs.Codes.{status_code};

/// How a run ended.
#[derive(Clone, Copy, Debug, PartialEq, Eq)]
pub enum Status {
    /// The input was used up.
    Done,

    /// The words are none that the program reads, or objects were handed in that they do not ask for.
    Usage,

    /// The row with this number, within the limit, is the first that reads as none: also a last line
    /// without its line feed, and a line of more than 120 bytes.
    BadRow(u64),

    /// The row with this number is refused, for the cause with that number (`bus_world::Unlawful`).
    Unlawful(u64, u8),

    /// The source failed.
    ReadFault,

    /// The sink failed.
    WriteFault,

    /// There is not enough memory. It comes from the start of a run alone.
    Memory,

    /// The row with this number begins, and is one more than the schedule may have.
    Limit(u64),

    /// The link of this node failed.
    LinkFault(u8),

    /// The disk of this node failed.
    DiskFault(u8),

    /// The store of this node is damaged, first at this key.
    Damaged(u8, u8),

    /// A member is to be replaced, and no other one is the leader by what they stored.
    NoLeader,

    /// A member is to be replaced, and this one, the leader, has not committed all of its log.
    Uncommitted(u8),

    /// At this index, the least such, the committed logs of these two nodes differ.
    Differ(u8, u8, u8),

    /// This node has committed another entry than the one that the second node sent it.
    AnotherLog(u8, u8),

    /// The text has no such part.
    NoPart,

    /// The bytes have no value under that part.
    NoValue,
}

impl Status {
    /// The exit code of the program.
    pub fn code(self) -> u8
        ensures { result ≡ status_code self }
    {
        match self {
            Status::Done => 0,
            Status::Usage => 2,
            Status::BadRow(_) => 3,
            Status::Unlawful(..) => 4,
            Status::ReadFault => 5,
            Status::WriteFault => 6,
            Status::Memory => 7,
            Status::Limit(_) => 8,
            Status::LinkFault(_) => 9,
            Status::DiskFault(_) => 10,
            Status::Damaged(..) => 11,
            Status::NoLeader | Status::Uncommitted(_) => 13,
            Status::Differ(..) => 14,
            Status::NoPart => 15,
            Status::NoValue => 16,
            Status::AnotherLog(..) => 19,
        }
    }
}
