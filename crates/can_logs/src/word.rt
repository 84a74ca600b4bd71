ghost use Rattle.std.specs.Prelude.{◌≡◌, ◌≢◌, ◌==◌, ◌<◌, ◌≤◌, ◌+◌, ◌*◌, ◌∷◌, ◌++◌, ◌^◌, [], ℕ, List, All, decimal, length, replicate, slice_index, Some, IfSome, IsNone, IsSomeAnd};
ghost use Rattle.std.specs.List.{position_or_len, prefix_len};
ghost use Rattle.hex.specs.Hex.{encode_upper};
ghost use Rattle.can_logs.specs.Words.{IsDecimal, zero_padded};

use arrayvec::ArrayVec;
use itoa::Buffer;
use std::str;

/// Zeros that stand in front of a number.
const ZEROS: &[u8; 10] = b"0000000000";

/// The digits that are written.
const DIGITS: &[u8; 16] = b"0123456789ABCDEF";

/// The first byte of a text, and what stands behind it; `None` where there is none.
pub fn split_byte(text: &[u8]) -> Option<(u8, &[u8])>
    ensures found { IfSome result (λ parts. text.now ≡ parts.0 ∷ parts.1.now) }
    ensures none { IsNone result → text.now ≡ [] }
    ensures only { (byte : ℕ) (rest : List ℕ) → text.now ≡ byte ∷ rest →
        IsSomeAnd result (λ parts. (parts.0 ≡ byte) × (parts.1.now ≡ rest)) }
{
    match text {
        [] => None,
        [byte, rest @ ..] => Some((*byte, rest)),
    }
}

/// What stands behind such a byte; `None` where the text does not begin with it.
pub fn behind_byte(text: &[u8], byte: u8) -> Option<&[u8]>
    ensures found { IfSome result (λ rest. text.now ≡ byte ∷ rest.now) }
    ensures only { (rest : List ℕ) → text.now ≡ byte ∷ rest →
        IsSomeAnd result (λ own. own.now ≡ rest) }
{
    let (first, rest) = split_byte(text)?;
    if first == byte { Some(rest) } else { None }
}

/// So many bytes at the front of a text, and what stands behind them; `None` where it has fewer.
pub fn split_front(text: &[u8], count: usize) -> Option<(&[u8], &[u8])>
    ensures found { IfSome result (λ parts. text.now ≡ parts.0.now ++ parts.1.now) }
    ensures size { IfSome result (λ parts. length parts.0.now ≡ count) }
    ensures only { (front rest : List ℕ) → length front ≡ count → text.now ≡ front ++ rest →
        IsSomeAnd result (λ parts. (parts.0.now ≡ front) × (parts.1.now ≡ rest)) }
{
    if count > text.len() {
        return None;
    }
    Some((&text[..count], &text[count..]))
}

/// What stands before the first such byte, and what stands behind it; `None` where there is none.
pub fn split_at_byte(text: &[u8], byte: u8) -> Option<(&[u8], &[u8])>
    ensures found { IfSome result (λ parts. text.now ≡ parts.0.now ++ byte ∷ parts.1.now) }
    ensures first { IfSome result (λ parts. All (λ other. other ≢ byte) parts.0.now) }
    ensures only { (front rest : List ℕ) → All (λ other. other ≢ byte) front →
        text.now ≡ front ++ byte ∷ rest →
        IsSomeAnd result (λ parts. (parts.0.now ≡ front) × (parts.1.now ≡ rest)) }
{
    let place = place_or_end(text, byte);
    if place == text.len() {
        return None;
    }
    Some((&text[..place], &text[place + 1..]))
}

/// Where the first such byte stands; the length where there is none.
fn place_or_end(text: &[u8], byte: u8) -> usize
    ensures place { result ≡ position_or_len (λ other. other == byte) text.now }
    ensures within { result ≤ length text.now }
{
    text.iter()
        .position(|other| *other == byte)
        .unwrap_or(text.len())
}

/// The text without the spaces at its front.
pub fn without_spaces(text: &[u8]) -> &[u8]
    ensures front { (count : ℕ) × (text.now ≡ replicate count 32 ++ result.now) }
    ensures none_left { slice_index result.now 0 ≢ 32 }
{
    &text[spaces(text)..]
}

/// How many spaces stand at the front of a text.
fn spaces(text: &[u8]) -> usize
    ensures count { result ≡ prefix_len (λ byte. byte == 32) text.now }
    ensures within { result ≤ length text.now }
{
    text.iter()
        .position(|byte| *byte != b' ')
        .unwrap_or(text.len())
}

/// The number that up to ten decimal digits spell; zeros may lead.
pub fn read_decimal(word: &[u8]) -> Option<u64>
    requires { length word.now ≤ 10 }
    ensures found { IfSome result (λ n. IsDecimal n word.now) }
    ensures only { (n : ℕ) → IsDecimal n word.now → result ≡ Some n }
{
    if word.first() == Some(&b'+') {
        return None;
    }
    match str::from_utf8(word) {
        Ok(digits) => parsed(digits),
        Err(_) => None,
    }
}

fn parsed(digits: &str) -> Option<u64>
    requires few { length digits.now ≤ 10 }
    requires plain { slice_index digits.now 0 ≢ 43 }
    ensures found { IfSome result (λ n. IsDecimal n digits.now) }
    ensures only { (n : ℕ) → IsDecimal n digits.now → result ≡ Some n }
{
    match digits.parse() {
        Ok(n) => Some(n),
        Err(_) => None,
    }
}

/// Appends a text.
pub fn put<const N: usize>(text: &mut ArrayVec<u8, N>, more: &[u8])
    requires { length text.old.items + length more.now ≤ N }
    ensures text { text.new.items ≡ text.old.items ++ more.now }
    ensures len { length text.new.items ≡ length text.old.items + length more.now }
{
    text.try_extend_from_slice(more).unwrap();
}

/// Appends a number with zeros in front, in at most ten digits.
pub fn put_padded(text: &mut ArrayVec<u8, 80>, n: u64, width: usize)
    requires some { 1 ≤ width }
    requires width { width ≤ 10 }
    requires fits { n < 10 ^ width }
    requires room { length text.old.items + width ≤ 80 }
    ensures text { text.new.items ≡ text.old.items ++ zero_padded width n }
    ensures len { length text.new.items ≡ length text.old.items + width }
{
    let mut buffer = Buffer::new();
    let digits = buffer.format(n).as_bytes();
    put(text, zeros(width - digits.len()));
    put(text, digits);
}

/// So many zeros, at most ten.
fn zeros(count: usize) -> &'static [u8]
    requires { count ≤ 10 }
    ensures { result.now ≡ replicate count 48 }
{
    &ZEROS[..count]
}

/// Appends up to 8 bytes in hexadecimal, two upper case digits each, the high half first.
pub fn put_hex<const N: usize>(text: &mut ArrayVec<u8, N>, bytes: &[u8])
    requires few { length bytes.now ≤ 8 }
    requires room { length text.old.items + 2 * length bytes.now ≤ N }
    ensures text { text.new.items ≡ text.old.items ++ encode_upper bytes.now }
    ensures len { length text.new.items ≡ length text.old.items + 2 * length bytes.now }
{
    for byte in bytes {
        text.push(DIGITS[usize::from(byte / 16)]);
        text.push(DIGITS[usize::from(byte % 16)]);
    }
}
