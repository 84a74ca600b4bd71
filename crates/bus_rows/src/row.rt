use can_frame::{Frame, Uid};
use outside::Pattern;

/// A row of a schedule: one event of a cluster under test. `n` is a node, `a` an allocatee, `ms` a moment in
/// milliseconds, 0 to 10^15. Frames on the bus are numbered from 1.
#[derive(Debug, Drop, PartialEq, Eq)]
pub enum Row {
    /// A stopped node starts, with a random word. It is told how many members its cluster has, and where `told`
    /// also which.
    Open {
        n: u8,
        told: bool,
        ms: u64,
        word: u32,
    },

    /// A node reads its clock, with a random word.
    Tick {
        n: u8,
        ms: u64,
        word: u32,
    },

    /// A node receives frame `k`.
    Rx {
        n: u8,
        k: u32,
        ms: u64,
    },

    /// A node puts the next frame of its queue on the bus.
    Send {
        n: u8,
    },

    /// A frame from outside is put on the bus.
    Ext {
        frame: Frame,
    },

    /// A node stops now (`calls` 0), or in place of that call of its disk, counted from here, up to
    /// 1,000,000; then the pattern is what its disk makes of the bytes that were not yet safe.
    Crash {
        n: u8,
        calls: u32,
        pattern: Pattern,
    },

    /// That call of a node's disk, counted from here, 1 to 1,000,000, fails.
    Fault {
        n: u8,
        call: u32,
    },

    /// An allocatee comes to the bus, with its unique ID, the node ID that it prefers (1 to 127, or 0 for none), and
    /// a random word.
    AOpen {
        a: u8,
        uid: Uid,
        pref: u8,
        ms: u64,
        word: u32,
    },

    /// An allocatee reads its clock, with a random word.
    ATick {
        a: u8,
        ms: u64,
        word: u32,
    },

    /// An allocatee receives frame `k`, with a random word.
    ARx {
        a: u8,
        k: u32,
        ms: u64,
        word: u32,
    },

    /// An allocatee puts the next frame of its queue on the bus.
    ASend {
        a: u8,
    },

    /// An allocatee leaves the bus.
    AEnd {
        a: u8,
    },
}
