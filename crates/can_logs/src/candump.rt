ghost use Rattle.std.specs.Prelude.{◌≡◌, ◌≢◌, ◌≤◌, ◌↔◌, ◌⊎◌, ◌∷◌, ℕ, List, All, Some, IfSome, IsNone, IsTrue, IsSomeAnd, length};
ghost use Rattle.can_frame.specs.declared.frame.Frame.{Frame as FrameValue};
ghost use Rattle.can_logs.specs.declared.candump.LogLine.{LogLine as LineValue};
ghost use Rattle.can_logs.specs.Candump.{BeginsWithFront, BeginsWithMoment, BeginsWithName, IsBeforeDirection, IsBytesWord, IsIdentifier, IsMoment, IsName, IsTail, IsWritable, Reads, SpellsAny, SpellsData, candump_text};

use crate::word::{
    behind_byte, put, put_hex, put_padded, read_decimal, split_at_byte, split_byte, without_spaces,
};
use arrayvec::ArrayVec;
use can_frame::Frame;
use replay_text::read_frame;

/// A line of a log that `candump -l` or `candump -L` wrote.
#[derive(Debug, Drop, PartialEq, Eq)]
pub enum LogLine {
    /// A frame, of the interface with that name, 1 to 15 bytes from 33 to 126, at that moment: seconds of
    /// up to ten digits, and millionths of a second.
    Data {
        sec: u64,
        micros: u32,
        iface: ArrayVec<u8, 15>,
        frame: Frame,
    },

    /// Something else that a bus carries: a frame with an identifier of 11 bits, one without bytes, a
    /// remote frame, an error frame, a frame of CAN FD.
    Skipped,
}

/// The most digits that the seconds of a moment have.
const MOST_DIGITS: usize = 10;

/// What a line reads as, without its line feed; `None` where it reads as nothing.
pub fn read_candump(line: &[u8]) -> Option<LogLine>
    ensures found { IfSome result (λ read. Reads read line.now) }
    ensures none { IsNone result → (read : LineValue) → Reads read line.now → ⊥ }
    ensures only { (read : LineValue) → Reads read line.now → result ≡ Some read }
{
    let (sec, micros, iface, rest) = read_front(line)?;
    match read_data(rest) {
        Some(frame) => Some(LogLine::Data {
            sec,
            micros,
            iface,
            frame,
        }),
        None => skipped(rest),
    }
}

/// A line that is passed over, by what stands behind its front.
fn skipped(rest: &[u8]) -> Option<LogLine>
    ensures found { IfSome result (λ read. (read ≡ LineValue.Skipped) × SpellsAny rest.now) }
    ensures only { SpellsAny rest.now → result ≡ Some LineValue.Skipped }
{
    if is_any(rest) {
        Some(LogLine::Skipped)
    } else {
        None
    }
}

/// The moment and the name with which a line begins, and what stands behind them.
fn read_front(line: &[u8]) -> Option<(u64, u32, ArrayVec<u8, 15>, &[u8])>
    ensures found { IfSome result
        (λ read. BeginsWithFront read.0 read.1 read.2.items line.now read.3.now) }
    ensures only { (sec micros : ℕ) (name rest : List ℕ) →
        BeginsWithFront sec micros name line.now rest → IsSomeAnd result (λ read.
        (read.0 ≡ sec) × (read.1 ≡ micros) × (read.2.items ≡ name) × (read.3.now ≡ rest)) }
{
    let (sec, micros, named) = read_moment(line)?;
    let (iface, rest) = read_name(named)?;
    Some((sec, micros, iface, rest))
}

/// The moment with which a line begins, in seconds and millionths, and what stands behind it.
fn read_moment(line: &[u8]) -> Option<(u64, u32, &[u8])>
    ensures found { IfSome result (λ read. BeginsWithMoment read.0 read.1 line.now read.2.now) }
    ensures only { (sec micros : ℕ) (rest : List ℕ) → BeginsWithMoment sec micros line.now rest →
        IsSomeAnd result (λ read. (read.0 ≡ sec) × (read.1 ≡ micros) × (read.2.now ≡ rest)) }
{
    let moment = behind_byte(line, b'(')?;
    let (whole, behind) = split_at_byte(moment, b'.')?;
    let (part, rest) = split_at_byte(behind, b')')?;
    let (sec, micros) = read_digits(whole, part)?;
    Some((sec, micros, rest))
}

/// Seconds and millionths of a second, of the digits of a moment.
fn read_digits(whole: &[u8], part: &[u8]) -> Option<(u64, u32)>
    ensures found { IfSome result (λ read. IsMoment read.0 read.1 whole.now part.now) }
    ensures only { (sec micros : ℕ) → IsMoment sec micros whole.now part.now →
        IsSomeAnd result (λ read. (read.0 ≡ sec) × (read.1 ≡ micros)) }
{
    if whole.len() > MOST_DIGITS || part.len() != 6 {
        return None;
    }
    let sec = read_decimal(whole)?;
    let micros = read_decimal(part)?;
    Some((sec, micros as u32))
}

/// The name behind a moment, and what stands behind it and its space.
fn read_name(named: &[u8]) -> Option<(ArrayVec<u8, 15>, &[u8])>
    ensures found { IfSome result (λ read. BeginsWithName read.0.items named.now read.1.now) }
    ensures only { (name rest : List ℕ) → BeginsWithName name named.now rest →
        IsSomeAnd result (λ read. (read.0.items ≡ name) × (read.1.now ≡ rest)) }
{
    let padded = behind_byte(named, b' ')?;
    let (word, rest) = split_at_byte(without_spaces(padded), b' ')?;
    let name = name_of(word)?;
    Some((name, rest))
}

/// The name that a word is.
fn name_of(word: &[u8]) -> Option<ArrayVec<u8, 15>>
    ensures found { IfSome result (λ name. (name.items ≡ word.now) × IsName word.now) }
    ensures only { IsName word.now → IsSomeAnd result (λ name. name.items ≡ word.now) }
{
    if is_name(word) {
        ArrayVec::try_from(word).ok()
    } else {
        None
    }
}

/// Whether a word is a name of an interface.
fn is_name(word: &[u8]) -> bool
    ensures { IsTrue result ↔ IsName word.now }
{
    !word.is_empty() && word.len() <= 15 && word.iter().all(|byte| byte.is_ascii_graphic())
}

/// The frame of what stands behind the front of a line.
fn read_data(rest: &[u8]) -> Option<Frame>
    ensures found { IfSome result (λ frame. SpellsData frame rest.now) }
    ensures only { (frame : FrameValue) → SpellsData frame rest.now → result ≡ Some frame }
{
    let (id, whole) = split_at_byte(rest, b'#')?;
    read_frame(id, without_direction(whole))
}

/// Whether the rest of a line has an identifier of 3 or of 8 digits, and behind it what may stand there.
fn is_any(rest: &[u8]) -> bool
    ensures { IsTrue result ↔ SpellsAny rest.now }
{
    match split_at_byte(rest, b'#') {
        Some((id, whole)) => is_identifier(id) && is_tail(whole),
        None => false,
    }
}

/// The text without the direction that may stand at its end.
fn without_direction(text: &[u8]) -> &[u8]
    ensures found { IsBeforeDirection result.now text.now }
    ensures only { (front : List ℕ) → All (λ byte. byte ≢ 32) front →
        IsBeforeDirection front text.now → result.now ≡ front }
{
    match text {
        [front @ .., b' ', b'T' | b'R'] => front,
        _ => text,
    }
}

/// Whether a word is an identifier of 3 or of 8 digits.
fn is_identifier(word: &[u8]) -> bool
    ensures { IsTrue result ↔ IsIdentifier word.now }
{
    (word.len() == 3 || word.len() == 8) && word.iter().all(|byte| byte.is_ascii_hexdigit())
}

/// Whether a text, but for a direction, may stand behind the `#` of an identifier.
fn is_tail(text: &[u8]) -> bool
    ensures { IsTrue result ↔ ((tail : List ℕ) × IsBeforeDirection tail text.now × IsTail tail) }
{
    is_other(text) || is_bytes_word(without_direction(text))
}

/// Whether a text begins as that of CAN FD, or of a remote frame.
fn is_other(text: &[u8]) -> bool
    ensures { IsTrue result ↔ (((more : List ℕ) × (text.now ≡ 35 ∷ more)) ⊎
        ((more : List ℕ) × (text.now ≡ 82 ∷ more))) }
{
    match split_byte(text) {
        Some((byte, _)) => byte == b'#' || byte == b'R',
        None => false,
    }
}

/// Whether a word has two digits for each of 0 to 8 bytes.
fn is_bytes_word(word: &[u8]) -> bool
    ensures { IsTrue result ↔ IsBytesWord word.now }
{
    word.len() <= 16 && word.len() % 2 == 0 && word.iter().all(|byte| byte.is_ascii_hexdigit())
}

/// The line of a frame, without its line feed: the seconds with ten digits, one space before the name,
/// upper case, and nothing at the end.
///
/// `IsWritable` owes that the line is one of a frame: seconds of at most 10 digits, microseconds of at most 6, and a
/// name of the form.
pub fn write_candump(line: &LogLine) -> ArrayVec<u8, 80>
    requires { IsWritable line.now }
    ensures line { result.items ≡ candump_text line.now }
    ensures short { length result.items ≤ 61 }
{
    let LogLine::Data {
        sec,
        micros,
        iface,
        frame,
    } = line
    else {
        unreachable!()
    };
    let mut text = ArrayVec::new();
    put(&mut text, b"(");
    put_padded(&mut text, *sec, 10);
    put(&mut text, b".");
    put_padded(&mut text, u64::from(*micros), 6);
    put(&mut text, b") ");
    put(&mut text, iface);
    put(&mut text, b" ");
    put_hex(&mut text, &frame.id.to_be_bytes());
    put(&mut text, b"#");
    put_hex(&mut text, &frame.bytes);
    text
}
