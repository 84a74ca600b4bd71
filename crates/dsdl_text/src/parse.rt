ghost use Rattle.std.specs.Prelude.{◌≡◌, ◌<◌, ◌≤◌, ◌∷◌, ◌++◌, [], ℕ, List, Option, Some, IfSome, IsNone, IsSomeAnd, IsTrue, decimal};
ghost use Rattle.arrayvec.specs.ArrayVec.{ArrayVec as Items};
ghost use Rattle.dsdl_text.specs.declared.line.Line.{Line as LineValue};
ghost use Rattle.dsdl_text.specs.declared.line.Shape.{Shape as ShapeValue};
ghost use Rattle.dsdl_text.specs.Lines.{Reads, Spells, SpellsValue, IsShape, shape_text};
ghost use Rattle.dsdl_text.specs.Words as text_words;

use crate::line::{Line, Name, Shape};
use crate::word::{is_numeral, next_word, place_or_end, read_name, without_remark};
use replay_text::read_number;

/// What a line reads as, without its line feed; `None` where it has no form.
pub fn read_line(line: &[u8]) -> Option<Line>
    ensures found { IfSome result (λ value. Reads value line.now) }
    ensures none { IsNone result → (value : LineValue) → Reads value line.now → ⊥ }
    ensures only { (value : LineValue) → Reads value line.now → result ≡ Some value }
{
    let Some((first, rest)) = next_word(without_remark(line)) else {
        return Some(Line::Empty);
    };
    let Some((second, rest)) = next_word(rest) else {
        return read_alone(first);
    };
    let Some((third, rest)) = next_word(rest) else {
        return read_pair(first, second);
    };
    let (fourth, rest) = next_word(rest)?;
    match next_word(rest) {
        None => read_constant(first, second, third, fourth),
        Some(_) => None,
    }
}

/// A line of one word.
fn read_alone(word: &[u8]) -> Option<Line>
    ensures found { IfSome result (λ line. Spells line (word.now ∷ [])) }
    ensures only { (line : LineValue) → Spells line (word.now ∷ []) → result ≡ Some line }
{
    match word {
        b"---" => Some(Line::Divider),
        [b'v', b'o', b'i', b'd', digits @ ..] => {
            let bits = read_number(digits, 64)?;
            if bits == 0 {
                return None;
            }
            Some(Line::Void { bits: bits as u8 })
        }
        _ => None,
    }
}

/// A line of two words.
fn read_pair(first: &[u8], second: &[u8]) -> Option<Line>
    ensures found { IfSome result (λ line. Spells line (first.now ∷ second.now ∷ [])) }
    ensures only { (line : LineValue) → Spells line (first.now ∷ second.now ∷ []) →
        result ≡ Some line }
{
    let name = read_name(second)?;
    if first == b"@".as_slice() {
        return Some(Line::Section { name });
    }
    let (type_name, shape) = read_type(first)?;
    Some(Line::Field {
        type_name,
        shape,
        name,
    })
}

/// A type's name, and how many values there are: `type`, `type[N]` or `type[<=N]`.
fn read_type(word: &[u8]) -> Option<(Name, Shape)>
    ensures found { IfSome result (λ type. (word.now ≡ type.0.items ++ shape_text type.1)
        × IsTrue (text_words.is_name type.0.items) × IsShape type.1) }
    ensures only { (name : Items ℕ) (shape : ShapeValue) → word.now ≡ name.items ++ shape_text shape →
        IsTrue (text_words.is_name name.items) → IsShape shape → result ≡ Some (name, shape) }
{
    let open = place_or_end(word, b'[');
    let type_name = read_name(&word[..open])?;
    let shape = read_shape(&word[open..])?;
    Some((type_name, shape))
}

/// How many values there are, behind the name of a type.
fn read_shape(text: &[u8]) -> Option<Shape>
    ensures found { IfSome result (λ shape. (text.now ≡ shape_text shape) × IsShape shape) }
    ensures only { (shape : ShapeValue) → text.now ≡ shape_text shape → IsShape shape →
        result ≡ Some shape }
{
    if text.is_empty() {
        return Some(Shape::One);
    }
    let inner = in_brackets(text)?;
    match behind_at_most(inner) {
        Some(digits) => Some(Shape::UpTo(read_count(digits)?)),
        None => Some(Shape::Exactly(read_count(inner)?)),
    }
}

/// What stands between brackets.
fn in_brackets(text: &[u8]) -> Option<&[u8]>
    ensures found { IfSome result (λ inner. text.now ≡ 91 ∷ (inner.now ++ 93 ∷ [])) }
    ensures only { (inner : List ℕ) → text.now ≡ 91 ∷ (inner ++ 93 ∷ []) →
        IsSomeAnd result (λ found. found.now ≡ inner) }
{
    match text {
        [b'[', inner @ .., b']'] => Some(inner),
        _ => None,
    }
}

/// What stands behind `<=`.
fn behind_at_most(text: &[u8]) -> Option<&[u8]>
    ensures found { IfSome result (λ digits. text.now ≡ 60 ∷ 61 ∷ digits.now) }
    ensures none { IsNone result → (digits : List ℕ) → text.now ≡ 60 ∷ 61 ∷ digits → ⊥ }
{
    match text {
        [b'<', b'=', digits @ ..] => Some(digits),
        _ => None,
    }
}

/// A number of 1 to 255.
fn read_count(digits: &[u8]) -> Option<u8>
    ensures found { IfSome result (λ count. (1 ≤ count) × (digits.now ≡ decimal count)) }
    ensures only { (count : ℕ) → 1 ≤ count → count < 256 → digits.now ≡ decimal count →
        result ≡ Some count }
{
    let count = read_number(digits, 255)?;
    if count == 0 {
        return None;
    }
    Some(count as u8)
}

/// A line of four words.
fn read_constant(first: &[u8], second: &[u8], third: &[u8], fourth: &[u8]) -> Option<Line>
    ensures found { IfSome result
        (λ line. Spells line (first.now ∷ second.now ∷ third.now ∷ fourth.now ∷ [])) }
    ensures only { (line : LineValue) →
        Spells line (first.now ∷ second.now ∷ third.now ∷ fourth.now ∷ []) → result ≡ Some line }
{
    let type_name = read_name(first)?;
    let name = read_name(second)?;
    if third != b"=".as_slice() {
        return None;
    }
    let value = read_value(fourth)?;
    Some(Line::Constant {
        type_name,
        name,
        value,
    })
}

/// A number; `Some(None)` where it is of 2^64 or more.
fn read_value(word: &[u8]) -> Option<Option<u64>>
    ensures found { IfSome result (λ value. SpellsValue value word.now) }
    ensures only { (value : Option ℕ) → SpellsValue value word.now → result ≡ Some value }
{
    match read_number(word, u64::MAX) {
        Some(value) => Some(Some(value)),
        None if is_numeral(word) => Some(None),
        None => None,
    }
}
