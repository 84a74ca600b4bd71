ghost use Rattle.std.specs.Prelude.{◌≡◌, ◌≤◌, ◌<◌, ◌↔◌, ◌+◌, ◌-◌, [], List, ℕ, length, OnErr, IfOk, IfSome, IsNone, IsTrue, slice_range, take, drop};
ghost use Rattle.std.specs.Io.KnownBytes.{Keeps, ReadConsumes};
ghost use Rattle.cmd_io.specs.Counting.{CountsFaults};
ghost use Rattle.cmd_io.specs.Input.{HasNoLineEnd, IsLineEnd, ReadsMore, StandsInFront};

use outside::{Failed, Source};
use std::marker::Model;

/// How many bytes of the input wait at the most.
const SIZE: usize = 4096;

/// The part of the input that was read and not yet taken: at most 4,096 bytes.
#[derive(Drop)]
pub struct Input {
    bytes: [u8; SIZE],
    start: usize,
    end: usize,
}

impl Model for Input {
    ghost use Rattle.std.specs.Prelude.{◌≡◌, ◌≤◌, List, ℕ, length, slice_range};

    ghost Value = { List ℕ };

    ghost view = { λ input. slice_range input.bytes input.start input.end };

    ghost invariant = { λ input. (length input.bytes ≡ 4096) × (input.start ≤ input.end) × (input.end ≤ 4096) };
}

impl Input {
    pub fn new() -> Input
        ensures { result ≡ [] }
    {
        Input {
            bytes: [0; SIZE],
            start: 0,
            end: 0,
        }
    }

    /// Reads more behind what waits; false at the end of the input. After a failure the same bytes wait.
    pub fn fill<S: Source>(&mut self, source: &mut S) -> Result<bool, Failed>
        requires { length self.old < 4096 }
        ensures more { IfOk result (λ more. ReadsMore (S.left source.old) (S.left source.new) self.old self.new more) }
        ensures err { OnErr result (Keeps (S.left source.old) (S.left source.new)) }
        ensures unchanged { OnErr result (self.new ≡ self.old) }
        ensures faults { CountsFaults (S.faults source.old) (S.faults source.new) result }
    {
        let waiting = self.end - self.start;
        move_to_front(&mut self.bytes, self.start, self.end);
        self.start = 0;
        self.end = waiting;
        let count = read_behind(source, &mut self.bytes, waiting)?;
        self.end = waiting + count;
        Ok(count > 0)
    }

    pub fn is_empty(&self) -> bool
        ensures { IsTrue result ↔ (self.now ≡ []) }
    {
        self.start == self.end
    }

    /// What waits.
    pub fn waiting(&self) -> &[u8]
        ensures bytes { result.now ≡ self.now }
        ensures few { length result.now ≤ 4096 }
    {
        &self.bytes[self.start..self.end]
    }

    /// Takes so many bytes from the front of what waits.
    pub fn take(&mut self, size: usize)
        requires { size ≤ length self.old }
        ensures { self.new ≡ drop size self.old }
    {
        self.start += size;
    }
}

/// What stands at the front of bytes that are lines.
#[derive(Clone, Copy, Debug, PartialEq, Eq)]
pub enum Front {
    /// A line of so many bytes, and the byte that ends it.
    Line(usize),

    /// More bytes than a line may have.
    TooLong,

    /// The beginning of a line, or nothing.
    Incomplete,
}

/// The line at the front of the bytes, where `end` ends a line, and it has at most `longest` bytes
/// without it.
pub fn front_line(bytes: &[u8], end: u8, longest: usize) -> Front
    ensures { StandsInFront result end longest bytes.now }
{
    match line_end(bytes, end) {
        Some(size) if size <= longest => Front::Line(size),
        None if bytes.len() <= longest => Front::Incomplete,
        _ => Front::TooLong,
    }
}

/// Where the first byte stands that ends a line. It is not inlined: the code of the search is long.
#[inline(never)]
fn line_end(bytes: &[u8], end: u8) -> Option<usize>
    ensures found { IfSome result (IsLineEnd end bytes.now) }
    ensures none { IsNone result → HasNoLineEnd end bytes.now }
{
    memchr::memchr(end, bytes)
}

/// Moves the bytes from `start` to `end` to the front.
fn move_to_front(bytes: &mut [u8; SIZE], start: usize, end: usize)
    requires order { start ≤ end }
    requires within { end ≤ 4096 }
    ensures size { length bytes.new ≡ 4096 }
    ensures front { take (end - start) bytes.new ≡ slice_range bytes.old start end }
{
    bytes.copy_within(start..end, 0);
}

/// Reads behind the first `len` bytes.
fn read_behind<S: Source>(
    source: &mut S,
    bytes: &mut [u8; SIZE],
    len: usize,
) -> Result<usize, Failed>
    requires { len ≤ 4096 }
    ensures size { length bytes.new ≡ 4096 }
    ensures front { take len bytes.new ≡ take len bytes.old }
    ensures count { IfOk result (λ count. len + count ≤ 4096) }
    ensures bytes { ReadConsumes (S.left source.old) (S.left source.new) result (drop len bytes.new) }
    ensures faults { CountsFaults (S.faults source.old) (S.faults source.new) result }
{
    source.read(&mut bytes[len..])
}
