ghost use Rattle.std.specs.Prelude.{◌≡◌, ◌≢◌, ◌≤◌, ◌∷◌, ◌==◌, [], ℕ, List, length, Some, IfSome, IsNone, IsTrue};
ghost use Rattle.std.specs.List.{list_all, position_or_len};
ghost use Rattle.std.specs.Char.{is_ascii_digit};
ghost use Rattle.arrayvec.specs.ArrayVec.{ArrayVec as Items};
ghost use Rattle.dsdl_text.specs.Words as text_words;
ghost use Rattle.dsdl_text.specs.Words.{words_of};

use crate::line::Name;
use arrayvec::ArrayVec;

/// The first word of a text, and what is left behind it; `None` where there is no word.
pub fn next_word(text: &[u8]) -> Option<(&[u8], &[u8])>
    ensures some { IfSome result (λ parts. words_of text.now ≡ parts.0.now ∷ words_of parts.1.now) }
    ensures none { IsNone result → words_of text.now ≡ [] }
{
    let text = without_spaces(text);
    if text.is_empty() {
        return None;
    }
    let end = place_or_end(text, b' ');
    Some((&text[..end], &text[end..]))
}

/// The text behind the spaces in front of it.
fn without_spaces(text: &[u8]) -> &[u8]
    ensures words { words_of result.now ≡ words_of text.now }
    ensures front { (first : ℕ) (rest : List ℕ) → result.now ≡ first ∷ rest → first ≢ 32 }
{
    let mut rest = text;
    while let [b' ', more @ ..] = rest {
        rest = more;
    }
    rest
}

/// A line without its remark: the bytes in front of its first `#`.
pub fn without_remark(line: &[u8]) -> &[u8]
    ensures { result.now ≡ text_words.without_remark line.now }
{
    &line[..place_or_end(line, b'#')]
}

/// Where the byte first stands; the end where it does not.
pub fn place_or_end(text: &[u8], byte: u8) -> usize
    ensures place { result ≡ position_or_len (λ other. other == byte) text.now }
    ensures within { result ≤ length text.now }
{
    text.iter()
        .position(|&other| other == byte)
        .unwrap_or(text.len())
}

/// Whether a word is a name: a letter, and then letters, digits and `_`; 40 bytes at most.
pub fn is_name(word: &[u8]) -> bool
    ensures { result ≡ text_words.is_name word.now }
{
    match word {
        [] => false,
        [first, rest @ ..] => {
            first.is_ascii_alphabetic() && rest.len() < 40 && are_name_bytes(rest)
        }
    }
}

fn are_name_bytes(bytes: &[u8]) -> bool
    ensures { result ≡ list_all text_words.is_name_byte bytes.now }
{
    bytes.iter().all(|&byte| is_name_byte(byte))
}

fn is_name_byte(byte: u8) -> bool
    ensures { result ≡ text_words.is_name_byte byte }
{
    byte.is_ascii_alphanumeric() || byte == b'_'
}

/// The name that a word is.
pub fn read_name(word: &[u8]) -> Option<Name>
    ensures found { IfSome result
        (λ name. (name.items ≡ word.now) × IsTrue (text_words.is_name name.items)) }
    ensures only { (name : Items ℕ) → name.items ≡ word.now → IsTrue (text_words.is_name name.items) →
        result ≡ Some name }
{
    if is_name(word) {
        ArrayVec::try_from(word).ok()
    } else {
        None
    }
}

/// Whether a word has digits alone, and no leading zero.
pub fn is_numeral(word: &[u8]) -> bool
    ensures { result ≡ text_words.is_numeral word.now }
{
    match word {
        [] => false,
        [only] => only.is_ascii_digit(),
        [first, ..] => *first > b'0' && are_digits(word),
    }
}

fn are_digits(word: &[u8]) -> bool
    ensures { result ≡ list_all is_ascii_digit word.now }
{
    word.iter().all(|byte| byte.is_ascii_digit())
}
