ghost use Rattle.std.specs.Prelude.{◌≡◌, ◌≤◌, length};
ghost use Rattle.cmd_node.specs.Ends.{fault_status};
ghost use Rattle.cmd_node.specs.Report.{line_of};

use cmd_io::{Status, number_line, numbers_line};
use replay_text::Line;

/// Why a run ended before its last turn. The first number is the node ID.
#[derive(Clone, Copy, Debug, PartialEq, Eq)]
pub(crate) enum Fault {
    /// A call of its link failed.
    Link(u8),

    /// A call of its disk failed.
    Disk(u8),

    /// Its store is damaged, first at this key.
    Damaged(u8, u8),

    /// It has committed another entry than the one that the second node sent it.
    AnotherLog(u8, u8),
}

impl Fault {
    /// The status of the run.
    pub fn status(self) -> Status
        ensures { result ≡ fault_status self }
    {
        match self {
            Fault::Link(id) => Status::LinkFault(id),
            Fault::Disk(id) => Status::DiskFault(id),
            Fault::Damaged(id, key) => Status::Damaged(id, key),
            Fault::AnotherLog(id, node) => Status::AnotherLog(id, node),
        }
    }

    /// The one line that is written.
    pub fn line(self) -> Line
        ensures short { length result ≤ 400 }
        ensures text { result ≡ line_of (fault_status self) }
    {
        match self {
            Fault::Link(id) => number_line(b"link fault ", u64::from(id)),
            Fault::Disk(id) => number_line(b"disk fault ", u64::from(id)),
            Fault::Damaged(id, key) => numbers_line(b"damaged ", u64::from(id), u64::from(key)),
            Fault::AnotherLog(id, node) => {
                numbers_line(b"another log ", u64::from(id), u64::from(node))
            }
        }
    }
}
