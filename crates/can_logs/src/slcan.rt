ghost use Rattle.std.specs.Prelude.{◌≡◌, ◌≤◌, ◌+◌, ◌∷◌, ℕ, List, Option, Some, IfSome, IsNone, IsSomeAnd, Contains, length};
ghost use Rattle.can_logs.specs.declared.slcan.SlLine.{SlLine as LineValue};
ghost use Rattle.can_logs.specs.Slcan.{IsWritable, Reads, ReadsBytes, SpellsStamp, other_letters, slcan_text};

use crate::word::{put_hex, split_byte, split_front};
use arrayvec::ArrayVec;
use can_frame::Frame;
use can_frame::laws::frames_are_their_parts;
use replay_text::{read_bytes, read_identifier};

/// The letters of other frames, and of what an adapter answers or tells of its state.
const OTHER_LETTERS: &[u8] = b"trRzZVvNFse";

/// A line of a serial adapter.
#[derive(Debug, Drop, PartialEq, Eq)]
pub enum SlLine {
    /// A frame, with the adapter's time stamp where it gives one.
    Data { frame: Frame, stamp: Option<u16> },

    /// Something else: a frame with an identifier of 11 bits, one without bytes, a remote frame, or what
    /// an adapter answers or tells of its state.
    Skipped,
}

/// What a line reads as, without its carriage return; `None` where it reads as nothing.
pub fn read_slcan(line: &[u8]) -> Option<SlLine>
    ensures found { IfSome result (λ read. Reads read line.now) }
    ensures none { IsNone result → (read : LineValue) → Reads read line.now → ⊥ }
    ensures only { (read : LineValue) → Reads read line.now → result ≡ Some read }
{
    let Some((letter, text)) = split_byte(line) else {
        return Some(SlLine::Skipped);
    };
    if letter == b'T' {
        return read_extended(text);
    }
    skipped(letter)
}

/// A line that is passed over, by its letter.
fn skipped(letter: u8) -> Option<SlLine>
    ensures found { IfSome result
        (λ read. (read ≡ LineValue.Skipped) × Contains other_letters letter) }
    ensures only { Contains other_letters letter → result ≡ Some LineValue.Skipped }
{
    if OTHER_LETTERS.contains(&letter) {
        Some(SlLine::Skipped)
    } else {
        None
    }
}

/// What a line reads as behind its `T`.
fn read_extended(text: &[u8]) -> Option<SlLine>
    ensures found { IfSome result (λ read. Reads read (84 ∷ text.now)) }
    ensures only { (read : LineValue) → Reads read (84 ∷ text.now) → result ≡ Some read }
{
    frames_are_their_parts();
    let (id, bytes, stamp) = read_parts(text)?;
    if bytes.is_empty() {
        return Some(SlLine::Skipped);
    }
    let frame = Frame::from_parts(id, &bytes).ok()?;
    Some(SlLine::Data { frame, stamp })
}

/// The identifier, the bytes and the stamp of a line, behind its `T`.
fn read_parts(text: &[u8]) -> Option<(u32, ArrayVec<u8, 8>, Option<u16>)>
    ensures found { IfSome result (λ read. ReadsBytes read.0 read.1.items read.2 (84 ∷ text.now)) }
    ensures only { (id : ℕ) (bytes : List ℕ) (stamp : Option ℕ) → length bytes ≤ 8 →
        ReadsBytes id bytes stamp (84 ∷ text.now) → IsSomeAnd result
        (λ read. (read.0 ≡ id) × (read.1.items ≡ bytes) × (read.2 ≡ stamp)) }
{
    let (id, sized) = split_front(text, 8)?;
    let (digit, rest) = split_byte(sized)?;
    let count = read_count(digit)?;
    let (bytes, stamp) = split_front(rest, 2 * count)?;
    let id = read_identifier(id)?;
    if id >= 1 << 29 {
        return None;
    }
    let bytes = read_bytes::<8>(bytes)?;
    let stamp = read_stamp(stamp)?;
    Some((id, bytes, stamp))
}

/// The number of bytes, 0 to 8.
fn read_count(digit: u8) -> Option<usize>
    ensures found { IfSome result (λ count. (count ≤ 8) × (digit ≡ 48 + count)) }
    ensures only { (count : ℕ) → count ≤ 8 → digit ≡ 48 + count → result ≡ Some count }
{
    match digit {
        b'0'..=b'8' => Some(usize::from(digit - b'0')),
        _ => None,
    }
}

/// The stamp of a word of four digits, or of none.
fn read_stamp(word: &[u8]) -> Option<Option<u16>>
    ensures found { IfSome result (λ stamp. SpellsStamp stamp word.now) }
    ensures only { (stamp : Option ℕ) → SpellsStamp stamp word.now → result ≡ Some stamp }
{
    if word.is_empty() {
        return Some(None);
    }
    let bytes = read_bytes::<2>(word)?;
    match bytes.as_slice() {
        [high, low] => Some(Some(u16::from_be_bytes([*high, *low]))),
        _ => None,
    }
}

/// The line of a frame, without its carriage return, in upper case.
pub fn write_slcan(line: &SlLine) -> ArrayVec<u8, 40>
    requires { IsWritable line.now }
    ensures line { result.items ≡ slcan_text line.now }
    ensures short { length result.items ≤ 30 }
{
    let SlLine::Data { frame, stamp } = line else {
        unreachable!()
    };
    let mut text = ArrayVec::new();
    text.push(b'T');
    put_hex(&mut text, &frame.id.to_be_bytes());
    text.push(b'0' + frame.bytes.len() as u8);
    put_hex(&mut text, &frame.bytes);
    if let Some(stamp) = stamp {
        put_hex(&mut text, &stamp.to_be_bytes());
    }
    text
}
