//! A sink that keeps what is written in itself.

ghost use Rattle.std.specs.Prelude.{◌≡◌, ◌≤◌, [], Some, length};

use arrayvec::ArrayVec;
use outside::{Failed, Sink};

/// How many bytes it keeps.
pub const MOST: usize = 1048576;

/// Keeps the first `MOST` bytes that are written, in itself. It holds no borrow: code that is generic over sinks may
/// put another sink of its type in its place, and nothing would then be known of a slice behind it.
#[derive(Drop)]
pub struct ArraySink {
    bytes: ArrayVec<u8, MOST>,
    faults: u64,
}

impl ArraySink {
    /// An empty sink.
    pub fn new() -> ArraySink
        ensures empty { result.bytes.items ≡ [] }
        ensures faults { result.faults ≡ 0 }
    {
        ArraySink {
            bytes: ArrayVec::new(),
            faults: 0,
        }
    }

    /// What was written.
    pub fn written(&self) -> &[u8]
        ensures { result.now ≡ self.now.bytes.items }
    {
        self.bytes.as_slice()
    }
}

impl Sink for ArraySink {
    ghost written = { λ s. Some s.bytes.items };

    ghost faults = { λ s. s.faults };

    /// The answer is how many bytes it took, as many as fit. `Failed` comes where it is full, at 1,048,576 bytes, and
    /// the piece is not empty; each `Failed` is counted.
    fn write(&mut self, piece: &[u8]) -> Result<usize, Failed> {
        let room = MOST - self.bytes.len();
        let count = room.min(piece.len());
        if count == 0 && !piece.is_empty() {
            self.faults = self.faults.saturating_add(1);
            return Err(Failed);
        }
        match self.bytes.try_extend_from_slice(&piece[..count]) {
            Ok(()) => Ok(count),
            Err(_) => {
                self.faults = self.faults.saturating_add(1);
                Err(Failed)
            }
        }
    }
}
