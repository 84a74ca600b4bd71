ghost use Rattle.std.specs.Prelude.{◌≡◌, ◌<◌, ◌≤◌, [], ◌∷◌, ◌++◌, codes, length, Some, None, IfSome, IsNone, MatchOption, is_some, slice_get};
ghost use Rattle.std.specs.List.{list_any, position_from};
ghost use Rattle.std.specs.Str.{bytes_eq};
ghost use Rattle.dsdl_text.specs.Sections.{kind_layout, types_of};
ghost use Rattle.dsdl_text.specs.Text as texts;
ghost use Rattle.dsdl_text.specs.Text.{layout_named, type_named};

use crate::line::{Name, Shape};
use crate::width::Width;
use arrayvec::ArrayVec;

/// The numbers of a payload, in order.
pub type Numbers = ArrayVec<u64, 400>;

/// The type of a field.
#[derive(Clone, Copy, Debug, PartialEq, Eq)]
pub enum Kind {
    /// A number; a `bool` is a number of one bit.
    Number(Width),

    /// The type at that place of the text.
    Section(usize),
}

/// A field of a part.
#[derive(Clone, Copy, Debug, PartialEq, Eq)]
pub enum Field {
    /// So many bits of no meaning.
    Void(u8),

    Data { kind: Kind, shape: Shape },
}

impl Default for Field {
    fn default() -> Field {
        Field::Void(0)
    }
}

/// The fields of a part, without its constants.
pub type Part = ArrayVec<Field, 32>;

/// A type of a text.
#[derive(Debug, Default, Drop, PartialEq, Eq)]
pub struct Section {
    pub name: Name,
    pub first: Part,
    pub second: Option<Part>,
}

/// How many bits a number of that type has: `bool`, or `uintB` with `B` of 1 to 8, 16, 32 or 64.
pub fn number_bits(type_name: &[u8]) -> Option<u8>
    ensures value { result ≡ texts.number_bits type_name.now }
    ensures fits { IfSome result (λ bits. bits < 65) }
{
    match type_name {
        [b'b', b'o', b'o', b'l'] => Some(1),
        [b'u', b'i', b'n', b't', digit] => digit_bits(*digit),
        [b'u', b'i', b'n', b't', b'1', b'6'] => Some(16),
        [b'u', b'i', b'n', b't', b'3', b'2'] => Some(32),
        [b'u', b'i', b'n', b't', b'6', b'4'] => Some(64),
        _ => None,
    }
}

/// How many bits a number has whose type ends with that digit.
fn digit_bits(digit: u8) -> Option<u8>
    ensures value { result ≡ texts.number_bits (codes "uint" ++ digit ∷ []) }
    ensures fits { IfSome result (λ bits. bits < 65) }
{
    match digit {
        b'1'..=b'8' => Some(digit - b'0'),
        _ => None,
    }
}

/// The type of that name: a number, or one of these types, if it has no second part.
pub fn kind_named(earlier: &[Section], type_name: &[u8]) -> Option<Kind>
    ensures { MatchOption result (layout_named (types_of earlier.now) type_name.now ≡ None)
        (λ kind. layout_named (types_of earlier.now) type_name.now
        ≡ Some (kind_layout (types_of earlier.now) kind)) }
{
    match number_bits(type_name) {
        Some(bits) => Some(Kind::Number(Width { bits })),
        None => section_named(earlier, type_name),
    }
}

/// The type of that name among these, if it has no second part.
fn section_named(earlier: &[Section], type_name: &[u8]) -> Option<Kind>
    ensures { MatchOption result (texts.layout_of (type_named (types_of earlier.now) type_name.now) ≡ None)
        (λ kind. texts.layout_of (type_named (types_of earlier.now) type_name.now)
        ≡ Some (kind_layout (types_of earlier.now) kind)) }
{
    let place = place_of(earlier, type_name)?;
    if earlier[place].second.is_some() {
        return None;
    }
    Some(Kind::Section(place))
}

/// Where the type of that name stands.
pub fn place_of(sections: &[Section], name: &[u8]) -> Option<usize>
    ensures found { IfSome result (λ place. (place < length sections.now)
        × (type_named (types_of sections.now) name.now ≡ slice_get (types_of sections.now) place)) }
    ensures none { IsNone result → type_named (types_of sections.now) name.now ≡ None }
{
    position_of(sections, name)
}

/// Whether one of the sections has that name.
pub fn has_section(sections: &[Section], name: &[u8]) -> bool
    ensures { result ≡ is_some (type_named (types_of sections.now) name.now) }
{
    any_section(sections, name)
}

fn any_section(sections: &[Section], name: &[u8]) -> bool
    ensures { result ≡ list_any (λ section. bytes_eq section.name.items name.now) sections.now }
{
    sections
        .iter()
        .any(|section| section.name.as_slice() == name)
}

fn position_of(sections: &[Section], name: &[u8]) -> Option<usize>
    ensures { result ≡ position_from (λ section. bytes_eq section.name.items name.now) 0 sections.now }
{
    sections
        .iter()
        .position(|section| section.name.as_slice() == name)
}
