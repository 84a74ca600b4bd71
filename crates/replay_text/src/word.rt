ghost use Rattle.std.specs.Prelude.{◌≡◌, ◌<◌, ◌≤◌, ◌∷◌, ◌^◌, ◌↔◌, [], ℕ, List, decimal, length, take, slice_index, Some, IfSome, IsNone, IsTrue, ◌==◌};
ghost use Rattle.std.specs.List.{position_or_len};
ghost use Rattle.std.specs.Str.Parse.{AllDigits, IsNumeral, digits_value};
ghost use Rattle.arrayvec.specs.ArrayVec.{ArrayVec as Items};
ghost use Rattle.replay_text.specs.Digits.{digits_in_front};
ghost use Rattle.replay_text.specs.Schedule.{IsUid, last_moment};
ghost use Rattle.replay_text.specs.Words.{IsHex, identifier_bytes, words};

use arrayvec::ArrayVec;
use can_frame::Uid;

/// The number that a word spells in decimal, without sign and without leading zeros, where it is at most
/// `most`.
pub fn read_number(word: &[u8], most: u64) -> Option<u64>
    ensures found { IfSome result (λ n. (n ≤ most) × (word.now ≡ decimal n)) }
    ensures none { IsNone result → (n : ℕ) → n ≤ most → word.now ≡ decimal n → ⊥ }
    ensures only { (n : ℕ) → n ≤ most → word.now ≡ decimal n → result ≡ Some n }
{
    if has_leading_zero(word) {
        return None;
    }
    let n = value_of_digits(word)?;
    if n > most {
        return None;
    }
    Some(n)
}

/// Whether digits are those of a number: there are some, and no zero leads more of them.
fn is_numeral(digits: &[u8]) -> bool
    ensures { IsTrue result ↔ ((0 < length digits.now)
        × (slice_index digits.now 0 ≡ 48 → length digits.now ≡ 1)) }
{
    !digits.is_empty() && !has_leading_zero(digits)
}

fn has_leading_zero(word: &[u8]) -> bool
    ensures { IsTrue result ↔ ((1 < length word.now) × (slice_index word.now 0 ≡ 48)) }
{
    word.len() > 1 && word[0] == b'0'
}

/// The number that the digits of a word write; `None` where another byte is in it, where it is empty, and
/// from 2^64 on.
fn value_of_digits(word: &[u8]) -> Option<u64>
    ensures found { IfSome result (λ n. IsNumeral 10 word.now × (n ≡ digits_value 10 word.now)) }
    ensures none { IsNone result → IsNumeral 10 word.now → digits_value 10 word.now < 2 ^ 64 → ⊥ }
{
    if word.is_empty() {
        return None;
    }
    let mut n = 0u64;
    for byte in word {
        if !byte.is_ascii_digit() {
            return None;
        }
        n = n.checked_mul(10)?.checked_add(u64::from(*byte - b'0'))?;
    }
    Some(n)
}

/// The number that the first word of a text spells, where it is at most `most`, and what stands behind
/// the space after it; `None` also where no space follows the word.
pub fn front_number(text: &[u8], most: u64) -> Option<(u64, &[u8])>
    requires { most ≤ last_moment }
    ensures found { IfSome result (λ parts. (parts.0 ≤ most)
        × (words text.now ≡ decimal parts.0 ∷ words parts.1.now)) }
    ensures none { IsNone result → (n : ℕ) (next : List ℕ) (more : List (List ℕ)) → n ≤ most →
        words text.now ≡ decimal n ∷ next ∷ more → ⊥ }
    ensures only { IfSome result (λ parts. (n : ℕ) → n ≤ most → decimal parts.0 ≡ decimal n → parts.0 ≡ n) }
{
    let (n, size) = front_digits(text, most)?;
    if size == text.len() || text[size] != b' ' {
        return None;
    }
    if !is_numeral(&text[..size]) {
        return None;
    }
    Some((n, &text[size + 1..]))
}

/// The number that a text of one word spells, where it is at most `most`.
pub fn last_number(text: &[u8], most: u64) -> Option<u64>
    requires { most ≤ last_moment }
    ensures found { IfSome result (λ n. (n ≤ most) × (words text.now ≡ decimal n ∷ [])) }
    ensures only { (n : ℕ) → n ≤ most → words text.now ≡ decimal n ∷ [] → result ≡ Some n }
{
    let (n, size) = front_digits(text, most)?;
    if size < text.len() || !is_numeral(text) {
        return None;
    }
    Some(n)
}

/// The digits at the front of a text: the number that they write, and how many they are; `None` where it
/// is above `most`.
fn front_digits(text: &[u8], most: u64) -> Option<(u64, usize)>
    requires { most ≤ last_moment }
    ensures found { IfSome result (λ front. (front.0 ≤ most) × (front.1 ≤ length text.now)
        × AllDigits 10 (take front.1 text.now) × (front.0 ≡ digits_value 10 (take front.1 text.now))) }
    ensures exact { result ≡ digits_in_front most 0 0 text.now }
{
    let mut n = 0;
    let mut size = 0;
    for byte in text {
        if !byte.is_ascii_digit() {
            return Some((n, size));
        }
        n = 10 * n + u64::from(*byte - b'0');
        if n > most {
            return None;
        }
        size += 1;
    }
    Some((n, size))
}

/// The bytes that a word of hexadecimal digits spells, where they are at most `N`.
pub fn read_bytes<const N: usize>(word: &[u8]) -> Option<ArrayVec<u8, N>>
    ensures found { IfSome result (λ bytes. (length bytes.items ≤ N) × IsHex bytes.items word.now) }
    ensures only { (bytes : Items ℕ) → length bytes.items ≤ N → IsHex bytes.items word.now →
        result ≡ Some bytes }
{
    let count = word.len() / 2;
    if count > N {
        return None;
    }
    let mut bytes = [0; N];
    match hex::decode_to_slice(word, &mut bytes[..count]) {
        Ok(()) => {
            let mut kept = ArrayVec::new();
            match kept.try_extend_from_slice(&bytes[..count]) {
                Ok(()) => Some(kept),
                Err(_) => None,
            }
        }
        Err(_) => None,
    }
}

/// The identifier that a word of eight hexadecimal digits spells.
pub fn read_identifier(word: &[u8]) -> Option<u32>
    ensures found { IfSome result (λ id. IsHex (identifier_bytes id) word.now) }
    ensures only { (id : ℕ) → id < 2 ^ 32 → IsHex (identifier_bytes id) word.now →
        result ≡ Some id }
{
    let bytes = read_bytes::<4>(word)?;
    match bytes.as_slice() {
        [a, b, c, d] => Some(u32::from_be_bytes([*a, *b, *c, *d])),
        _ => None,
    }
}

/// The first word and what stands behind the space after it; `None` where there is no space.
pub fn split_word(text: &[u8]) -> Option<(&[u8], &[u8])>
    ensures some { IfSome result (λ parts. words text.now ≡ parts.0.now ∷ words parts.1.now) }
    ensures none { IsNone result → words text.now ≡ text.now ∷ [] }
{
    let end = space_or_end(text);
    if end == text.len() {
        return None;
    }
    Some((&text[..end], &text[end + 1..]))
}

/// Where the first space stands, or the end. It is not inlined: in a large caller its loop over the bytes
/// takes twice the instructions.
#[inline(never)]
fn space_or_end(text: &[u8]) -> usize
    ensures place { result ≡ position_or_len (λ byte. byte == 32) text.now }
    ensures within { result ≤ length text.now }
{
    text.iter()
        .position(|&byte| byte == b' ')
        .unwrap_or(text.len())
}

/// The one word of a text; `None` where it has more.
pub fn one_word(text: &[u8]) -> Option<&[u8]>
    ensures some { IfSome result (λ word. words text.now ≡ word.now ∷ []) }
    ensures none { IsNone result → (a : List ℕ) → words text.now ≡ a ∷ [] → ⊥ }
{
    match split_word(text) {
        None => Some(text),
        Some(_) => None,
    }
}

/// The two words of a text; `None` where it has fewer or more.
pub fn two_words(text: &[u8]) -> Option<(&[u8], &[u8])>
    ensures some { IfSome result (λ parts. words text.now ≡ parts.0.now ∷ parts.1.now ∷ []) }
    ensures none { IsNone result → (a b : List ℕ) → words text.now ≡ a ∷ b ∷ [] → ⊥ }
{
    let (first, rest) = split_word(text)?;
    let second = one_word(rest)?;
    Some((first, second))
}

/// A unique ID: 16 bytes.
pub fn read_uid(word: &[u8]) -> Option<Uid>
    ensures found { IfSome result (λ uid. IsUid uid × IsHex uid word.now) }
    ensures only { (uid : List ℕ) → IsUid uid → IsHex uid word.now → result ≡ Some uid }
{
    let bytes = read_bytes::<16>(word)?;
    match bytes.into_inner() {
        Ok(uid) => Some(uid),
        Err(_) => None,
    }
}
