ghost use Rattle.std.specs.Prelude.{◌≡◌, ◌<◌, ◌≤◌, ◌+◌, ◌*◌, ◌++◌, ◌∷◌, [], length, decimal, codes};
ghost use Rattle.hex.specs.Hex.{encode_lower};

use arrayvec::ArrayVec;
use std::marker::Model;

/// How many bytes a line has at the most.
const LONGEST: usize = 400;

/// A line of a report while it is written, of at most 400 bytes.
#[derive(Drop)]
pub struct Line {
    bytes: [u8; LONGEST],
    len: usize,
}

impl Model for Line {
    ghost use Rattle.std.specs.Prelude.{ℕ, List, ◌≡◌, ◌≤◌, length, take};

    ghost Value = { List ℕ };

    ghost view = { λ line. take line.len line.bytes };

    ghost invariant = { λ line. (length line.bytes ≡ 400) × (line.len ≤ 400) };
}

impl Line {
    /// An empty line.
    pub fn new() -> Line
        ensures { result ≡ [] }
    {
        Line {
            bytes: [0; LONGEST],
            len: 0,
        }
    }

    /// Takes all bytes away.
    pub fn clear(&mut self)
        ensures { self.new ≡ [] }
    {
        self.len = 0;
    }

    /// Appends a byte.
    pub fn byte(&mut self, byte: u8)
        requires { length self.old < 400 }
        ensures text { self.new ≡ self.old ++ byte ∷ [] }
        ensures len { length self.new ≡ length self.old + 1 }
    {
        self.bytes[self.len] = byte;
        self.len += 1;
    }

    /// Appends a text.
    pub fn text(&mut self, text: &[u8])
        requires { length self.old + length text.now ≤ 400 }
        ensures text { self.new ≡ self.old ++ text.now }
        ensures len { length self.new ≡ length self.old + length text.now }
    {
        let end = self.len + text.len();
        self.bytes[self.len..end].copy_from_slice(text);
        self.len = end;
    }

    /// Appends a number in decimal. Most have one digit.
    pub fn number(&mut self, n: u64)
        requires { length self.old + 20 ≤ 400 }
        ensures text { self.new ≡ self.old ++ decimal n }
        ensures len { length self.new ≤ length self.old + 20 }
        ensures short { n < 1000 → length self.new ≤ length self.old + 3 }
    {
        if n < 10 {
            self.byte(b'0' + n as u8);
            return;
        }
        let end = self.len + count_digits(n);
        itoa::write_digits(n, &mut self.bytes, end);
        self.len = end;
    }

    /// Appends a space and a number in decimal.
    pub fn field(&mut self, n: u64)
        requires { length self.old + 21 ≤ 400 }
        ensures text { self.new ≡ self.old ++ codes " " ++ decimal n }
        ensures len { length self.new ≤ length self.old + 21 }
        ensures short { n < 1000 → length self.new ≤ length self.old + 4 }
    {
        self.byte(b' ');
        self.number(n);
    }

    /// Appends up to 16 bytes in hexadecimal, two lower case digits each, the high half first.
    pub fn hex(&mut self, bytes: &[u8])
        requires few { length bytes.now ≤ 16 }
        requires room { length self.old + 2 * length bytes.now ≤ 400 }
        ensures text { self.new ≡ self.old ++ encode_lower bytes.now }
        ensures len { length self.new ≡ length self.old + 2 * length bytes.now }
    {
        let end = self.len + 2 * bytes.len();
        match hex::encode_to_slice(bytes, &mut self.bytes[self.len..end]) {
            Ok(()) => self.len = end,
            Err(_) => unreachable!(),
        }
    }

    /// The bytes so far.
    pub fn as_bytes(&self) -> &[u8]
        ensures bytes { result.now ≡ self.now }
    {
        &self.bytes[..self.len]
    }

    /// The bytes, at most 400.
    pub fn into_bytes(self) -> ArrayVec<u8, 400>
        ensures bytes { result.items ≡ self }
        ensures fits { length result.items ≤ 400 }
    {
        let mut bytes = ArrayVec::new();
        bytes.try_extend_from_slice(self.as_bytes()).unwrap();
        bytes
    }
}

/// How many digits a number has in decimal.
fn count_digits(n: u64) -> usize
    ensures { result ≡ length (decimal n) }
{
    if n < 10 {
        1
    } else if n < 100 {
        2
    } else if n < 1_000 {
        3
    } else if n < 10_000 {
        4
    } else {
        4 + count_digits(n / 10_000)
    }
}
