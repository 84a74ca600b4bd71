ghost use Rattle.std.specs.Prelude.{◌≡◌, ◌≤◌, List, filter, length};
ghost use Rattle.dsdl_text.specs.Layout.{DataType};
ghost use Rattle.dsdl_text.specs.Sections.{types_of};
ghost use Rattle.dsdl_text.specs.Sizes.{IsCompact, has_bits, sizes_in, with_bits};

use crate::section::{Field, Part, Section};
use crate::size::{Size, size_of_field};
use arrayvec::ArrayVec;

/// The types without the fields that take no bits, so that no reading of a value visits one, but for the last
/// field of a type: what stands at the end of a payload goes by it.
///
/// Names and second parts are left out too: a value is read by neither.
pub fn compact_types(sections: &[Section], sizes: &[Size]) -> ArrayVec<Section, 16>
    requires few { length sections.now ≤ 16 }
    requires sizes { sizes.now ≡ sizes_in (types_of sections.now) }
    ensures { IsCompact sections.now result.items }
{
    let mut types = ArrayVec::new();
    for section in sections {
        let first = fields_with_bits(&sizes[..types.len()], &section.first);
        types.push(Section {
            name: ArrayVec::new(),
            first,
            second: None,
        });
    }
    types
}

/// The fields whose values take bits, by the sizes of the types in front, and the last field.
fn fields_with_bits(sizes: &[Size], fields: &[Field]) -> Part
    requires { length fields.now ≤ 32 }
    ensures { (types : List DataType) → sizes.now ≡ sizes_in types → result.items ≡ with_bits types fields.now }
{
    let Some((last, front)) = fields.split_last() else {
        return ArrayVec::new();
    };
    let mut kept = those_with_bits(sizes, front);
    kept.push(*last);
    kept
}

fn those_with_bits(sizes: &[Size], fields: &[Field]) -> Part
    requires { length fields.now ≤ 32 }
    ensures kept { (types : List DataType) → sizes.now ≡ sizes_in types →
        result.items ≡ filter (has_bits types) fields.now }
    ensures few { length result.items ≤ length fields.now }
{
    let mut kept = ArrayVec::new();
    for &field in fields {
        if size_of_field(sizes, field).takes_bits() {
            kept.push(field);
        }
    }
    kept
}
