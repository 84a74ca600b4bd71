ghost use Rattle.std.specs.Prelude.{◌≡◌};
ghost use Rattle.allocator.specs.declared.refusal.Refusal.TheVariants.{Memory};

use allocator_app::Status;
use std::alloc::{AllocError, AllocFailed};
use std::io;
use std::io::ErrorKind;

/// Why the program ends with no status of [`allocator_app::run`].
#[derive(Clone, Copy, Debug, Drop, PartialEq, Eq)]
pub enum Refusal {
    /// There is not enough memory.
    Memory,

    /// A word is not UTF-8.
    Usage,

    /// A link or a disk was not opened.
    NotOpened,

    /// The echo of a frame is late: it waits in the CAN interface.
    LateEcho,

    /// A member that is told the list of its cluster heard a stranger.
    Stranger,

    /// The log of a member that is told the list of its cluster has an entry with an ID of the list.
    Listed,
}

impl Refusal {
    /// The exit code: that of the status of this name, or one of the program's own.
    pub fn code(self) -> u8 {
        match self {
            Refusal::Memory => Status::Memory.code(),
            Refusal::Usage | Refusal::Listed => Status::Usage.code(),
            Refusal::NotOpened => 12,
            Refusal::LateEcho => 17,
            Refusal::Stranger => 18,
        }
    }
}

impl From<AllocError> for Refusal {
    ghost from_gives = { λ _ refusal. refusal ≡ Memory };

    fn from(_: AllocError) -> Refusal {
        Refusal::Memory
    }
}

impl<T: Drop> From<AllocFailed<T>> for Refusal {
    ghost from_gives = { λ _ refusal. refusal ≡ Memory };

    fn from(_: AllocFailed<T>) -> Refusal {
        Refusal::Memory
    }
}

impl From<io::Error> for Refusal {
    fn from(error: io::Error) -> Refusal {
        if error.kind() == ErrorKind::OutOfMemory {
            Refusal::Memory
        } else {
            Refusal::Usage
        }
    }
}
