ghost use Rattle.std.specs.Prelude.{◌≡◌, ◌↔◌, ℕ, ◌^◌, ◌<◌, min, length, List, [], Option, Some, None, Ok, IfOk, IsErr, OnOk, true, false};
ghost use Rattle.std.specs.Io.{ReadsAtMost};
ghost use Rattle.std.specs.Io.KnownBytes.{ReadConsumes};
ghost use Rattle.outside.specs.Faults.{HasCause, counted, one_more};
ghost use Rattle.outside.specs.Contents.{TellsAsBefore, MemoryInput};

use crate::Failed;
use std::io::Read;
use std::marker::Model;

/// Where bytes come from.
pub trait Source {
    /// The bytes that are left, where the source tells them.
    ghost left: { Self → Option (List ℕ) };

    /// How many of its calls failed.
    ghost faults: { Self → ℕ };

    /// Takes bytes from the front into the start of `buf`, and answers how many: at most as many as
    /// `buf` has. Nothing, for a buffer that is not empty, is the end of the input. What `buf` holds
    /// behind those bytes, or after a call that failed, is not said.
    fn read(&mut self, buf: &mut [u8]) -> Result<usize, Failed>
        ensures bound { ReadsAtMost result buf.new }
        ensures bytes { ReadConsumes (left self.old) (left self.new) result buf.new }
        ensures tells { TellsAsBefore (left self.old) (left self.new) }
        ensures cause { HasCause (faults self.old) (faults self.new) result }
        ensures kept { OnOk result (faults self.new ≡ faults self.old) };
}

/// The bytes of a slice. One call can be made to fail, for tests.
#[derive(Drop)]
pub struct MemorySource<'a> {
    bytes: &'a [u8],
    fail_at: Option<u64>,
    calls: u64,
    faults: u64,
}

impl<'a> Model for MemorySource<'a> {
    ghost Value = { MemoryInput };

    ghost view = { λ s. record {
      left = s.bytes.now;
      fail_at = s.fail_at;
      calls = s.calls;
      faults = s.faults;
    } };

    ghost invariant = { λ s. length s.bytes.now < 2 ^ 64 };
}

impl<'a> MemorySource<'a> {
    /// A source of these bytes. The call of `read` with the number `fail_at`, counted from 1, fails.
    pub fn new(bytes: &'a [u8], fail_at: Option<u64>) -> MemorySource<'a>
        ensures { result
            ≡ record { left = bytes.entry.now; fail_at = fail_at; calls = 0; faults = 0 } }
    {
        MemorySource {
            bytes,
            fail_at,
            calls: 0,
            faults: 0,
        }
    }
}

impl Source for MemorySource<'_> {
    ghost left = { λ s. Some s.left };

    ghost faults = { λ s. s.faults };

    fn read(&mut self, buf: &mut [u8]) -> Result<usize, Failed>
        ensures bound { ReadsAtMost result buf.new }
        ensures bytes { ReadConsumes (Some self.old.left) (Some self.new.left) result buf.new }
        ensures tells { TellsAsBefore (Some self.old.left) (Some self.new.left) }
        ensures cause { HasCause self.old.faults self.new.faults result }
        ensures kept { OnOk result (self.new.faults ≡ self.old.faults) }
        ensures faults { self.new.faults ≡ counted result self.old.faults }
        ensures setting { self.new.fail_at ≡ self.old.fail_at }
        ensures calls { self.new.calls ≡ one_more self.old.calls }
        ensures fails { IsErr result ↔ (self.old.fail_at ≡ Some self.new.calls) }
        ensures count { IfOk result (λ count. count ≡ min (length self.old.left) (length buf.old)) }
    {
        self.calls = self.calls.saturating_add(1);
        if self.fail_at == Some(self.calls) {
            self.faults = self.faults.saturating_add(1);
            return Err(Failed);
        }
        let count = self.bytes.len().min(buf.len());
        let (front, rest) = self.bytes.split_at(count);
        buf[..count].copy_from_slice(front);
        self.bytes = rest;
        Ok(count)
    }
}

/// A std reader, with a count of its faults. It tells no contents, but takes and answers what the reader
/// does. Behind its end the reader is not read again, so a terminal needs its end once.
#[derive(Drop)]
pub struct StdSource<R: Read> {
    reader: R,
    has_ended: bool,
    faults: u64,
    ghost end: { (bytes : List ℕ) → has_ended ≡ true → R.remaining reader ≡ Some bytes → bytes ≡ [] },
}

impl<R: Read> StdSource<R> {
    /// A source of what this reader gives. No fault is counted yet.
    pub fn new(reader: R) -> StdSource<R>
        ensures reader { result.reader ≡ reader }
        ensures open { result.has_ended ≡ false }
        ensures faults { result.faults ≡ 0 }
    {
        StdSource {
            reader,
            has_ended: false,
            faults: 0,
        }
    }
}

impl<R: Read> Source for StdSource<R> {
    ghost left = { λ _. None };

    ghost faults = { λ s. s.faults };

    fn read(&mut self, buf: &mut [u8]) -> Result<usize, Failed>
        ensures bound { ReadsAtMost result buf.new }
        ensures bytes { ReadConsumes None None result buf.new }
        ensures tells { TellsAsBefore {A = List ℕ} None None }
        ensures cause { HasCause self.old.faults self.new.faults result }
        ensures kept { OnOk result (self.new.faults ≡ self.old.faults) }
        ensures faults { self.new.faults ≡ counted result self.old.faults }
        ensures reader { ReadConsumes (R.remaining self.old.reader)
            (R.remaining self.new.reader) result buf.new }
        ensures end { IfOk result (λ count. count ≡ 0 → 0 < length buf.new →
            self.new.has_ended ≡ true) }
        ensures ended { self.old.has_ended ≡ true → (result ≡ Ok 0) × (self.new ≡ self.old) }
    {
        if self.has_ended {
            return Ok(0);
        }
        match self.reader.read(buf) {
            Ok(count) => {
                self.has_ended = count == 0 && !buf.is_empty();
                Ok(count)
            }
            Err(_) => {
                self.faults = self.faults.saturating_add(1);
                Err(Failed)
            }
        }
    }
}
