ghost use Rattle.std.specs.Prelude.{◌≡◌, ◌≤◌, ◌+◌, ◌++◌, List, length, Some, None, IfSome, IsNone, IsSome};
ghost use Rattle.std.specs.Option.{option_map, option_to_list};
ghost use Rattle.can_frame.specs.Sizes.{longest_payload};
ghost use Rattle.dsdl_text.specs.Layout.{Layout};
ghost use Rattle.dsdl_text.specs.Numbers as numbers;
ghost use Rattle.dsdl_text.specs.Sections.{count_of, latest_of, part_at, part_layout, part_named, types_of};
ghost use Rattle.dsdl_text.specs.Sizes.{sizes_in};

use crate::bits::bits_of;
use crate::compact::compact_types;
use crate::decode::read_part;
use crate::section::{Numbers, Part, Section, place_of};
use crate::size::{Size, sizes_of};
use arrayvec::ArrayVec;

/// The types of a text.
#[derive(Drop)]
pub struct Texts {
    sections: ArrayVec<Section, 16>,
}

impl Texts {
    ghost use Rattle.dsdl_text.specs.Reader.{data_types};

    /// The types in front of the latest one, and the latest one.
    #[tactic(auto, using(crate::proofs::Types::types_of_push, crate::proofs::Types::append_none))]
    pub(crate) fn new(earlier: ArrayVec<Section, 16>, latest: Option<Section>) -> Texts
        requires { length earlier.items + count_of latest ≤ 16 }
        ensures { data_types result ≡
            types_of earlier.items ++ option_to_list (latest_of (types_of earlier.items) latest) }
    {
        match latest {
            None => Texts { sections: earlier },
            Some(section) => {
                let mut sections = earlier;
                sections.push(section);
                Texts { sections }
            }
        }
    }

    /// Where that part of the type stands, 1 or 2; `None` where there is no such type or part.
    pub fn find(&self, name: &[u8], part: u8) -> Option<usize>
        ensures found { IfSome result (λ at. IsSome (part_at (data_types self.now) at)
            × (part_at (data_types self.now) at ≡ part_named (data_types self.now) name.now part)) }
        ensures none { IsNone result → part_named (data_types self.now) name.now part ≡ None }
    {
        find_in(&self.sections, name, part)
    }

    /// The numbers of a payload under the part that stands there; `None` where it has no reading.
    ///
    /// It ends soon, whatever the text. The size of each type is found once, and the fields that take no bits
    /// are left out of it once, but for a last one, which is passed over at once. So each other value inside a
    /// field of the part takes one bit of the payload at least.
    /// Bits of no meaning are passed over at once, also an array of them. With the numbers and the counts they
    /// are at most 3,008 values, as many as a payload has bits. Any other value or array has a number in it, or
    /// the reading breaks off in it: there are at most 401 of each at each of 16 depths, since there is room for
    /// 400 numbers.
    ///
    /// That it ends soon is so by reading, and tried by `bench/fuzz`: no clause counts steps.
    pub fn decode(&self, at: usize, payload: &[u8]) -> Option<Numbers>
        requires at { IsSome (part_at (data_types self.now) at) }
        requires size { length payload.now ≤ longest_payload }
        ensures { (part : List Layout) → part_at (data_types self.now) at ≡ Some part →
            option_map (λ found. found.items) result ≡ numbers.numbers_of part payload.now }
    {
        prove!(self.sections.len() <= 16);
        decode_in(&self.sections, at, payload)
    }
}

fn find_in(sections: &[Section], name: &[u8], part: u8) -> Option<usize>
    ensures found { IfSome result (λ at. IsSome (part_at (types_of sections.now) at)
        × (part_at (types_of sections.now) at ≡ part_named (types_of sections.now) name.now part)) }
    ensures none { IsNone result → part_named (types_of sections.now) name.now part ≡ None }
{
    let place = place_of(sections, name)?;
    let section = &sections[place];
    match part {
        1 => Some(2 * place),
        2 if section.second.is_some() => Some(2 * place + 1),
        _ => None,
    }
}

#[tactic(auto, using(crate::proofs::Types::within))]
fn decode_in(sections: &[Section], at: usize, payload: &[u8]) -> Option<Numbers>
    requires few { length sections.now ≤ 16 }
    requires at { IsSome (part_at (types_of sections.now) at) }
    requires size { length payload.now ≤ longest_payload }
    ensures { (part : List Layout) → part_at (types_of sections.now) at ≡ Some part →
        option_map (λ found. found.items) result ≡ numbers.numbers_of part payload.now }
{
    let place = at / 2;
    let section = &sections[place];
    let earlier = &sections[..place];
    if at % 2 == 0 {
        return numbers_under(earlier, &section.first, payload);
    }
    match &section.second {
        None => None,
        Some(part) => numbers_under(earlier, part, payload),
    }
}

/// The numbers of a payload under a part, whose types are these.
fn numbers_under(earlier: &[Section], part: &Part, payload: &[u8]) -> Option<Numbers>
    requires few { length earlier.now ≤ 16 }
    requires size { length payload.now ≤ longest_payload }
    ensures { option_map (λ found. found.items) result
        ≡ numbers.numbers_of (part_layout (types_of earlier.now) part.now.items) payload.now }
{
    let sizes = sizes_of(earlier);
    let types = compact_types(earlier, &sizes);
    numbers_by(&types, &sizes, part, payload)
}

/// The numbers of a payload under a part, by its types and their sizes.
fn numbers_by(types: &[Section], sizes: &[Size], part: &Part, payload: &[u8]) -> Option<Numbers>
    requires sizes { sizes.now ≡ sizes_in (types_of types.now) }
    requires size { length payload.now ≤ longest_payload }
    ensures { option_map (λ found. found.items) result
        ≡ numbers.numbers_of (part_layout (types_of types.now) part.now.items) payload.now }
{
    let bits = bits_of(payload);
    let mut numbers = ArrayVec::new();
    let rest = read_part(types, sizes, part, &bits, &mut numbers)?;
    if rest.len() < 8 { Some(numbers) } else { None }
}
