ghost use Rattle.std.specs.Prelude.{◌≡◌, ◌↔◌, ℕ, ◌≤◌, ◌<◌, ◌⊎◌, length, List, [], Option, Some, None, IfOk, OnOk, OnErr, IsErr, vec_len, vec_capacity};
ghost use Rattle.std.specs.Io.{WritesAtMost};
ghost use Rattle.std.specs.Io.KnownBytes.{WriteAppends};
ghost use Rattle.outside.specs.Faults.{HasWriteCause, one_more};
ghost use Rattle.outside.specs.Contents.{TellsAsBefore, MemoryOutput, KeepsSettings, IsToFail, IsToTake, IsToTakeNothing, IsTooMuchFor};

use crate::Failed;
use std::alloc::{AllocError, Global};
use std::io::Write;
use std::marker::Model;

/// Where bytes go.
pub trait Sink {
    /// The bytes written, where the sink tells them.
    ghost written: { Self → Option (List ℕ) };

    /// How many of its calls failed, or took nothing of a piece that was not empty.
    ghost faults: { Self → ℕ };

    /// Takes leading bytes of the piece, and answers how many. Nothing, of a piece that is not empty,
    /// is a fault of the sink, and is counted; where it takes something, the count stays.
    fn write(&mut self, piece: &[u8]) -> Result<usize, Failed>
        ensures bound { WritesAtMost result piece.now }
        ensures bytes { WriteAppends (written self.old) (written self.new) result piece.now }
        ensures tells { TellsAsBefore (written self.old) (written self.new) }
        ensures cause { HasWriteCause (faults self.old) (faults self.new) piece.now result }
        ensures kept { IfOk result (λ count. 0 < count → faults self.new ≡ faults self.old) };
}

/// Keeps what is written, up to its capacity. One write can be made to fail and one to take nothing,
/// for tests.
#[derive(Drop)]
pub struct MemorySink {
    bytes: Vec<u8>,
    capacity: usize,
    fail_at: Option<u64>,
    zero_at: Option<u64>,
    calls: u64,
    faults: u64,
}

impl Model for MemorySink {
    ghost Value = { MemoryOutput };

    ghost view = { λ s. record {
      written = s.bytes.items;
      capacity = s.capacity;
      fail_at = s.fail_at;
      zero_at = s.zero_at;
      calls = s.calls;
      faults = s.faults;
    } };

    ghost invariant = { λ s. (vec_len s.bytes ≤ s.capacity) × (s.capacity ≤ vec_capacity s.bytes) };
}

impl MemorySink {
    /// An empty sink for `capacity` bytes; it takes its memory here, once. Writes are numbered from 1.
    /// The one with the number `fail_at` fails. The one with the number `zero_at`, if it is another,
    /// takes nothing, whether it fits or not, and counts as a fault. Any other that does not fit fails
    /// too, and takes nothing.
    ///
    /// `Err(AllocError)` comes where there is not enough memory. No clause says when.
    pub fn new(
        alloc: Global,
        capacity: usize,
        fail_at: Option<u64>,
        zero_at: Option<u64>,
    ) -> Result<MemorySink, AllocError>
        ensures { IfOk result
            (λ sink. sink
            ≡ record {
              written = [];
              capacity = capacity;
              fail_at = fail_at;
              zero_at = zero_at;
              calls = 0;
              faults = 0;
            }) }
    {
        Ok(MemorySink {
            bytes: Vec::with_capacity(alloc, capacity)?,
            capacity,
            fail_at,
            zero_at,
            calls: 0,
            faults: 0,
        })
    }

    /// What was written so far.
    pub fn written(&self) -> &[u8]
        ensures { result.now ≡ self.now.written }
    {
        &self.bytes
    }
}

impl Sink for MemorySink {
    ghost written = { λ s. Some s.written };

    ghost faults = { λ s. s.faults };

    fn write(&mut self, piece: &[u8]) -> Result<usize, Failed>
        ensures bound { WritesAtMost result piece.now }
        ensures bytes { WriteAppends (Some self.old.written)
            (Some self.new.written) result piece.now }
        ensures tells { TellsAsBefore (Some self.old.written) (Some self.new.written) }
        ensures cause { HasWriteCause self.old.faults self.new.faults piece.now result }
        ensures kept { IfOk result (λ count. 0 < count → self.new.faults ≡ self.old.faults) }
        ensures calls { self.new.calls ≡ one_more self.old.calls }
        ensures settings { KeepsSettings self.old self.new }
        ensures fails { IsErr result ↔ (IsToFail self.old ⊎
            IsToTake self.old × IsTooMuchFor self.old (length piece.now)) }
        ensures takes_nothing { IsToTakeNothing self.old → IfOk result (λ count. count ≡ 0) }
        ensures takes_all { IsToTake self.old → IfOk result (λ count. count ≡ length piece.now) }
        ensures counted { IsErr result ⊎ IsToTakeNothing self.old →
            self.new.faults ≡ one_more self.old.faults }
        ensures uncounted { OnOk result (IsToTake self.old → self.new.faults ≡ self.old.faults) }
    {
        self.calls = self.calls.saturating_add(1);
        if self.fail_at == Some(self.calls) {
            self.faults = self.faults.saturating_add(1);
            return Err(Failed);
        }
        if self.zero_at == Some(self.calls) {
            self.faults = self.faults.saturating_add(1);
            return Ok(0);
        }
        if piece.len() > self.capacity - self.bytes.len() {
            self.faults = self.faults.saturating_add(1);
            return Err(Failed);
        }
        match self.bytes.extend_from_slice(piece) {
            Ok(()) => Ok(piece.len()),
            Err(_) => unreachable!(),
        }
    }
}

/// A std writer, with a count of its faults. It tells no contents, but takes and answers what the writer
/// does.
#[derive(Drop)]
pub struct StdSink<W> {
    writer: W,
    faults: u64,
}

impl<W: Write> StdSink<W> {
    /// A sink into this writer. No fault is counted yet.
    pub fn new(writer: W) -> StdSink<W>
        ensures writer { result.writer ≡ writer }
        ensures faults { result.faults ≡ 0 }
    {
        StdSink { writer, faults: 0 }
    }
}

impl<W: Write> Sink for StdSink<W> {
    ghost written = { λ _. None };

    ghost faults = { λ s. s.faults };

    fn write(&mut self, piece: &[u8]) -> Result<usize, Failed>
        ensures bound { WritesAtMost result piece.now }
        ensures bytes { WriteAppends None None result piece.now }
        ensures tells { TellsAsBefore {A = List ℕ} None None }
        ensures cause { HasWriteCause self.old.faults self.new.faults piece.now result }
        ensures kept { IfOk result (λ count. 0 < count → self.new.faults ≡ self.old.faults) }
        ensures empty { length piece.now ≡ 0 → OnOk result (self.new.faults ≡ self.old.faults) }
        ensures failed { OnErr result (self.new.faults ≡ one_more self.old.faults) }
        ensures nothing { IfOk result (λ count. count ≡ 0 → 0 < length piece.now →
            self.new.faults ≡ one_more self.old.faults) }
        ensures writer { WriteAppends (W.contents self.old.writer)
            (W.contents self.new.writer) result piece.now }
    {
        match self.writer.write(piece) {
            Ok(count) => {
                if count == 0 && !piece.is_empty() {
                    self.faults = self.faults.saturating_add(1);
                }
                Ok(count)
            }
            Err(_) => {
                self.faults = self.faults.saturating_add(1);
                Err(Failed)
            }
        }
    }
}
