ghost use Rattle.std.specs.Prelude.{◌≡◌, ◌≤◌, ◌<◌, [], List, ℕ, length, OnOk, OnErr};
ghost use Rattle.std.specs.Io.KnownBytes.{Appends};
ghost use Rattle.cmd_io.specs.Counting.{CountsFaults};
ghost use Rattle.cmd_io.specs.Output.{StillWaits, WaitsBehind, Writes, WritesFront, WritesLast};

use arrayvec::ArrayVec;
use outside::{Failed, Sink};
use std::marker::Model;

/// What waits to be written: it is handed to the sink in pieces of some kilobytes.
#[derive(Drop)]
pub struct Output {
    bytes: ArrayVec<u8, 8192>,
}

impl Model for Output {
    ghost use Rattle.std.specs.Prelude.{List, ℕ, length, ◌≤◌};

    ghost Value = { List ℕ };

    ghost view = { λ output. output.bytes.items };

    ghost invariant = { λ output. length output.bytes.items ≤ 8192 };
}

impl Output {
    pub fn new() -> Output
        ensures { result ≡ [] }
    {
        Output {
            bytes: ArrayVec::new(),
        }
    }

    /// Writes a line of at most 400 bytes behind what waits.
    pub fn line<K: Sink>(&mut self, sink: &mut K, line: &[u8]) -> Result<(), Failed>
        requires { length line.now ≤ 400 }
        ensures told { Writes (K.written sink.old) self.old (K.written sink.new) self.new line.now result }
        ensures waits { OnOk result
            (WaitsBehind (K.written sink.old) self.old (K.written sink.new) self.new line.now) }
        ensures unchanged { OnErr result (self.new ≡ self.old) }
        ensures faults { CountsFaults (K.faults sink.old) (K.faults sink.new) result }
    {
        if line.len() > self.bytes.remaining_capacity() {
            self.flush(sink)?;
        }
        self.bytes.try_extend_from_slice(line).unwrap();
        Ok(())
    }

    /// Writes the last line, and all that waits before it. After a failure what waited still waits, or the
    /// line waits too.
    pub fn last<K: Sink>(&mut self, sink: &mut K, line: &[u8]) -> Result<(), Failed>
        requires { length line.now ≤ 400 }
        ensures told { WritesLast (K.written sink.old) self.old (K.written sink.new) line.now result }
        ensures none_waits { OnOk result (self.new ≡ []) }
        ensures waits { OnErr result
            (StillWaits (K.written sink.old) self.old (K.written sink.new) self.new line.now) }
        ensures faults { CountsFaults (K.faults sink.old) (K.faults sink.new) result }
    {
        self.line(sink, line)?;
        self.flush(sink)
    }

    /// Hands all that waits to the sink.
    pub fn flush<K: Sink>(&mut self, sink: &mut K) -> Result<(), Failed>
        ensures ok { OnOk result (Appends (K.written sink.old) (K.written sink.new) self.old) }
        ensures none_waits { OnOk result (self.new ≡ []) }
        ensures err { OnErr result (WritesFront (K.written sink.old) (K.written sink.new) self.old) }
        ensures unchanged { OnErr result (self.new ≡ self.old) }
        ensures faults { CountsFaults (K.faults sink.old) (K.faults sink.new) result }
    {
        write_all(sink, self.bytes.as_slice())?;
        self.bytes.clear();
        Ok(())
    }
}

/// Writes all of a piece.
fn write_all<K: Sink>(sink: &mut K, piece: &[u8]) -> Result<(), Failed>
    ensures ok { OnOk result (Appends (K.written sink.old) (K.written sink.new) piece.now) }
    ensures err { OnErr result (WritesFront (K.written sink.old) (K.written sink.new) piece.now) }
    ensures faults { CountsFaults (K.faults sink.old) (K.faults sink.new) result }
{
    let mut rest = piece;
    while !rest.is_empty() {
        match sink.write(rest) {
            Ok(0) | Err(Failed) => return Err(Failed),
            Ok(count) => {
                let (_, more) = rest.split_at(count);
                rest = more;
            }
        }
    }
    Ok(())
}
