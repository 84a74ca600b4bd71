ghost use Rattle.std.specs.Prelude.{◌≡◌, ◌≤◌, ◌<◌, List, length, nat_le, true, IsTrue};
ghost use Rattle.dsdl_text.specs.Layout.{DataType, Layout, exactly, joined, pair};
ghost use Rattle.dsdl_text.specs.Numbers as numbers;
ghost use Rattle.dsdl_text.specs.Sections.{field_layout, kind_layout, part_layout, types_of};
ghost use Rattle.dsdl_text.specs.Sizes.{size_of, sizes_in, takes_bits};

use crate::line::Shape;
use crate::section::{Field, Kind, Section};
use arrayvec::ArrayVec;

/// So many bits are counted at the most; no payload has as many.
const MOST_BITS: u32 = 4096;

/// How long the values of a type are.
#[derive(Clone, Copy, Debug, Default, PartialEq, Eq)]
pub struct Size {
    /// The least number of bits, or 4096 where it is more.
    pub bits: u32,

    /// Whether it has no numbers: each of its values has the same number of bits, of no meaning.
    pub blank: bool,
}

impl Size {
    /// Nothing at all.
    const NOTHING: Size = Size {
        bits: 0,
        blank: true,
    };

    /// Whether such a value is passed over at once.
    pub fn is_passed_over(self) -> bool
        ensures blank { IsTrue result → self.blank ≡ true }
        ensures counted { IsTrue result → self.bits < 4096 }
    {
        self.blank && self.bits < MOST_BITS
    }

    /// Whether there is anything in such a value, a bit or a number.
    pub fn takes_bits(self) -> bool
        ensures { result ≡ takes_bits self }
    {
        !(self.blank && self.bits == 0)
    }

    /// The size of so many values.
    pub fn times(self, count: u8) -> Size
        ensures { (element : Layout) → self ≡ size_of element → result ≡ size_of (exactly count element) }
    {
        Size {
            bits: self.bits.saturating_mul(u32::from(count)).min(MOST_BITS),
            blank: self.blank,
        }
    }

    /// The size of a value with another behind it.
    fn and(self, back: Size) -> Size
        ensures { (first second : Layout) → self ≡ size_of first → back ≡ size_of second →
            result ≡ size_of (pair first second) }
    {
        Size {
            bits: self.bits.saturating_add(back.bits).min(MOST_BITS),
            blank: self.blank && back.blank,
        }
    }
}

/// The sizes of the types of a text.
pub type Sizes = ArrayVec<Size, 16>;

/// The sizes of the types: each is found once, by those of the types in front of it.
pub fn sizes_of(sections: &[Section]) -> Sizes
    requires { length sections.now ≤ 16 }
    ensures { result.items ≡ sizes_in (types_of sections.now) }
{
    let mut sizes = ArrayVec::new();
    for section in sections {
        let size = size_of_fields(&sizes, &section.first);
        sizes.push(size);
    }
    sizes
}

fn size_of_fields(sizes: &[Size], fields: &[Field]) -> Size
    ensures { (types : List DataType) → sizes.now ≡ sizes_in types →
        result ≡ size_of (joined (part_layout types fields.now)) }
{
    match fields {
        [] => Size::NOTHING,
        [field, fields @ ..] => size_of_field(sizes, *field).and(size_of_fields(sizes, fields)),
    }
}

/// The size of the values of a field, by those of the types in front.
pub fn size_of_field(sizes: &[Size], field: Field) -> Size
    ensures { (types : List DataType) → sizes.now ≡ sizes_in types → result ≡ size_of (field_layout types field) }
{
    match field {
        Field::Void(width) => Size {
            bits: u32::from(width),
            blank: true,
        },
        Field::Data { kind, shape } => match shape {
            Shape::One => size_of_kind(sizes, kind),
            Shape::Exactly(count) => size_of_kind(sizes, kind).times(count),
            Shape::UpTo(most) => Size {
                bits: u32::from(count_width(most)),
                blank: false,
            },
        },
    }
}

/// The size of the values of a type, by those of the types in front.
pub fn size_of_kind(sizes: &[Size], kind: Kind) -> Size
    ensures { (types : List DataType) → sizes.now ≡ sizes_in types → result ≡ size_of (kind_layout types kind) }
{
    match kind {
        Kind::Number(width) => Size {
            bits: u32::from(width.bits),
            blank: false,
        },
        Kind::Section(place) => match sizes.get(place) {
            None => Size::NOTHING,
            Some(size) => *size,
        },
    }
}

/// Whether each value of a type has 8 bits at least.
pub fn has_byte(sizes: &[Size], kind: Kind) -> bool
    ensures { (types : List DataType) → sizes.now ≡ sizes_in types →
        result ≡ nat_le 8 (numbers.least_bits (kind_layout types kind)) }
{
    size_of_kind(sizes, kind).bits >= 8
}

/// The bits of a count of at most so many: the least number of bits that holds it.
pub fn count_width(most: u8) -> u8
    ensures value { result ≡ numbers.count_width most }
    ensures fits { result ≤ 8 }
{
    match most {
        0..2 => 1,
        2..4 => 2,
        4..8 => 3,
        8..16 => 4,
        16..32 => 5,
        32..64 => 6,
        64..128 => 7,
        128..=255 => 8,
    }
}
