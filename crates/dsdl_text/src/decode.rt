ghost use Rattle.std.specs.Prelude.{◌≡◌, ◌≤◌, ◌∷◌, [], Some, None, IfSome, MatchOption};
ghost use Rattle.dsdl_text.specs.Layout.{exactly, joined, up_to};
ghost use Rattle.dsdl_text.specs.Numbers as numbers_in;
ghost use Rattle.dsdl_text.specs.Numbers.{Gives, GivesTail, reads};
ghost use Rattle.dsdl_text.specs.Sections.{field_layout, kind_layout, part_layout, types_of};
ghost use Rattle.dsdl_text.specs.Sizes.{sizes_in};

use crate::bits::number_of;
use crate::line::Shape;
use crate::section::{Field, Kind, Numbers, Section};
use crate::size::{Size, count_width, has_byte, size_of_kind};

/// Reads the part that is decoded, and gives the bits behind it. An array at its end may have the tail form.
#[cycle(last)]
pub fn read_part<'a>(
    earlier: &[Section],
    sizes: &[Size],
    part: &[Field],
    bits: &'a [bool],
    numbers: &mut Numbers,
) -> Option<&'a [bool]>
    requires { sizes.now ≡ sizes_in (types_of earlier.now) }
    ensures { Gives result numbers.old.items numbers.new.items
        (numbers_in.read_part (part_layout (types_of earlier.now) part.now) bits.now) }
{
    let Some((field, fields)) = part.split_first() else {
        return keep(bits, numbers);
    };
    if fields.is_empty() {
        return read_last(earlier, sizes, *field, bits, numbers);
    }
    let bits = read_field(earlier, sizes, *field, bits, numbers)?;
    read_part(earlier, sizes, fields, bits, numbers)
}

/// Reads a field that stands at the end.
#[cycle(last)]
fn read_last<'a>(
    earlier: &[Section],
    sizes: &[Size],
    field: Field,
    bits: &'a [bool],
    numbers: &mut Numbers,
) -> Option<&'a [bool]>
    requires { sizes.now ≡ sizes_in (types_of earlier.now) }
    ensures { Gives result numbers.old.items numbers.new.items
        (numbers_in.read_last (field_layout (types_of earlier.now) field) bits.now) }
{
    match field {
        Field::Void(_) => read_field(earlier, sizes, field, bits, numbers),
        Field::Data { kind, shape } => match shape {
            Shape::One => read_last_kind(earlier, sizes, kind, bits, numbers),
            Shape::Exactly(count) => read_to_last(earlier, sizes, kind, count, bits, numbers),
            Shape::UpTo(most) => {
                if has_byte(sizes, kind) {
                    read_tail(earlier, sizes, kind, most, bits, numbers)
                } else {
                    read_counted_to_last(earlier, sizes, kind, most, bits, numbers)
                }
            }
        },
    }
}

/// Reads a value of a type that stands at the end.
#[cycle(last)]
fn read_last_kind<'a>(
    earlier: &[Section],
    sizes: &[Size],
    kind: Kind,
    bits: &'a [bool],
    numbers: &mut Numbers,
) -> Option<&'a [bool]>
    requires { sizes.now ≡ sizes_in (types_of earlier.now) }
    ensures { Gives result numbers.old.items numbers.new.items
        (numbers_in.read_last (kind_layout (types_of earlier.now) kind) bits.now) }
{
    match kind {
        Kind::Number(width) => read_number(width.bits, bits, numbers),
        Kind::Section(place) => {
            if place >= earlier.len() {
                return keep(bits, numbers);
            }
            read_part(
                &earlier[..place],
                &sizes[..place],
                &earlier[place].first,
                bits,
                numbers,
            )
        }
    }
}

/// Reads so many values of a type, the last of which stands at the end.
#[cycle(last)]
fn read_to_last<'a>(
    earlier: &[Section],
    sizes: &[Size],
    kind: Kind,
    count: u8,
    bits: &'a [bool],
    numbers: &mut Numbers,
) -> Option<&'a [bool]>
    requires { sizes.now ≡ sizes_in (types_of earlier.now) }
    ensures { let element = kind_layout (types_of earlier.now) kind in
        Gives result numbers.old.items numbers.new.items
        (numbers_in.read_to_last count (reads element) (numbers_in.read_last element) bits.now) }
{
    if count == 0 {
        return keep(bits, numbers);
    }
    let bits = read_times(earlier, sizes, kind, count - 1, bits, numbers)?;
    read_last_kind(earlier, sizes, kind, bits, numbers)
}

/// Reads a count, and so many values of a type, the last of which stands at the end.
#[cycle(last)]
fn read_counted_to_last<'a>(
    earlier: &[Section],
    sizes: &[Size],
    kind: Kind,
    most: u8,
    bits: &'a [bool],
    numbers: &mut Numbers,
) -> Option<&'a [bool]>
    requires { sizes.now ≡ sizes_in (types_of earlier.now) }
    ensures { let element = kind_layout (types_of earlier.now) kind in
        Gives result numbers.old.items numbers.new.items
        (numbers_in.read_array_to_last most (reads element) (numbers_in.read_last element) bits.now) }
{
    let (count, rest) = split_number(count_width(most), bits)?;
    if count > u64::from(most) {
        return None;
    }
    match numbers.try_push(count) {
        Ok(()) => read_to_last(earlier, sizes, kind, count as u8, rest, numbers),
        Err(_) => None,
    }
}

/// Reads elements up to the end, and puts their count in front of their numbers.
fn read_tail<'a>(
    earlier: &[Section],
    sizes: &[Size],
    kind: Kind,
    most: u8,
    bits: &'a [bool],
    numbers: &mut Numbers,
) -> Option<&'a [bool]>
    requires { sizes.now ≡ sizes_in (types_of earlier.now) }
    ensures { Gives result numbers.old.items numbers.new.items
        (numbers_in.told_tail
        (numbers_in.read_tail most (reads (kind_layout (types_of earlier.now) kind)) bits.now)) }
{
    let place = numbers.len();
    let (count, rest) = read_elements(earlier, sizes, kind, most, bits, numbers)?;
    if numbers.is_full() {
        return None;
    }
    numbers.insert(place, u64::from(count));
    Some(rest)
}

/// Reads at most so many elements, until fewer than 8 bits are left, and counts them.
fn read_elements<'a>(
    earlier: &[Section],
    sizes: &[Size],
    kind: Kind,
    most: u8,
    bits: &'a [bool],
    numbers: &mut Numbers,
) -> Option<(u8, &'a [bool])>
    requires { sizes.now ≡ sizes_in (types_of earlier.now) }
    ensures within { IfSome result (λ found. found.0 ≤ most) }
    ensures tail { GivesTail result numbers.old.items numbers.new.items
        (numbers_in.read_tail most (reads (kind_layout (types_of earlier.now) kind)) bits.now) }
{
    if bits.len() < 8 {
        prove!(numbers.len() <= 400);
        return Some((0, bits));
    }
    if most == 0 {
        return None;
    }
    let bits = read_kind(earlier, sizes, kind, bits, numbers)?;
    let (count, rest) = read_elements(earlier, sizes, kind, most - 1, bits, numbers)?;
    Some((count + 1, rest))
}

/// Reads fields with more behind them, none of which has the tail form.
#[cycle(reading)]
fn read_fields<'a>(
    earlier: &[Section],
    sizes: &[Size],
    fields: &[Field],
    bits: &'a [bool],
    numbers: &mut Numbers,
) -> Option<&'a [bool]>
    requires { sizes.now ≡ sizes_in (types_of earlier.now) }
    ensures { Gives result numbers.old.items numbers.new.items
        (reads (joined (part_layout (types_of earlier.now) fields.now)) bits.now) }
{
    match fields.split_first() {
        None => keep(bits, numbers),
        Some((field, fields)) => {
            let bits = read_field(earlier, sizes, *field, bits, numbers)?;
            read_fields(earlier, sizes, fields, bits, numbers)
        }
    }
}

#[cycle(reading)]
fn read_field<'a>(
    earlier: &[Section],
    sizes: &[Size],
    field: Field,
    bits: &'a [bool],
    numbers: &mut Numbers,
) -> Option<&'a [bool]>
    requires { sizes.now ≡ sizes_in (types_of earlier.now) }
    ensures { Gives result numbers.old.items numbers.new.items
        (reads (field_layout (types_of earlier.now) field) bits.now) }
{
    match field {
        Field::Void(width) => skip(usize::from(width), bits, numbers),
        Field::Data { kind, shape } => match shape {
            Shape::One => read_kind(earlier, sizes, kind, bits, numbers),
            Shape::Exactly(count) => read_times(earlier, sizes, kind, count, bits, numbers),
            Shape::UpTo(most) => read_counted(earlier, sizes, kind, most, bits, numbers),
        },
    }
}

/// Reads a count, and so many values of a type.
#[cycle(reading)]
fn read_counted<'a>(
    earlier: &[Section],
    sizes: &[Size],
    kind: Kind,
    most: u8,
    bits: &'a [bool],
    numbers: &mut Numbers,
) -> Option<&'a [bool]>
    requires { sizes.now ≡ sizes_in (types_of earlier.now) }
    ensures { Gives result numbers.old.items numbers.new.items
        (reads (up_to most (kind_layout (types_of earlier.now) kind)) bits.now) }
{
    let (count, rest) = split_number(count_width(most), bits)?;
    if count > u64::from(most) {
        return None;
    }
    match numbers.try_push(count) {
        Ok(()) => read_times(earlier, sizes, kind, count as u8, rest, numbers),
        Err(_) => None,
    }
}

/// Reads so many values of a type. Values without a number are passed over at once.
#[cycle(reading)]
fn read_times<'a>(
    earlier: &[Section],
    sizes: &[Size],
    kind: Kind,
    count: u8,
    bits: &'a [bool],
    numbers: &mut Numbers,
) -> Option<&'a [bool]>
    requires { sizes.now ≡ sizes_in (types_of earlier.now) }
    ensures { Gives result numbers.old.items numbers.new.items
        (reads (exactly count (kind_layout (types_of earlier.now) kind)) bits.now) }
{
    let size = size_of_kind(sizes, kind).times(count);
    if size.is_passed_over() {
        return skip(size.bits as usize, bits, numbers);
    }
    if count == 0 {
        return keep(bits, numbers);
    }
    let bits = read_kind(earlier, sizes, kind, bits, numbers)?;
    read_times(earlier, sizes, kind, count - 1, bits, numbers)
}

/// Reads a value of a type. One without a number is passed over at once.
#[cycle(reading)]
fn read_kind<'a>(
    earlier: &[Section],
    sizes: &[Size],
    kind: Kind,
    bits: &'a [bool],
    numbers: &mut Numbers,
) -> Option<&'a [bool]>
    requires { sizes.now ≡ sizes_in (types_of earlier.now) }
    ensures { Gives result numbers.old.items numbers.new.items
        (reads (kind_layout (types_of earlier.now) kind) bits.now) }
{
    match kind {
        Kind::Number(width) => read_number(width.bits, bits, numbers),
        Kind::Section(place) => {
            if place >= earlier.len() {
                return keep(bits, numbers);
            }
            let size = size_of_kind(sizes, kind);
            if size.is_passed_over() {
                return skip(size.bits as usize, bits, numbers);
            }
            read_fields(
                &earlier[..place],
                &sizes[..place],
                &earlier[place].first,
                bits,
                numbers,
            )
        }
    }
}

/// Skips bits of no meaning.
fn skip<'a>(width: usize, bits: &'a [bool], numbers: &Numbers) -> Option<&'a [bool]>
    ensures { Gives result numbers.now.items numbers.now.items
        (numbers_in.read_void width bits.now) }
{
    if width > bits.len() {
        return None;
    }
    keep(&bits[width..], numbers)
}

/// Reads no number, for which there is always room.
fn keep<'a>(bits: &'a [bool], numbers: &Numbers) -> Option<&'a [bool]>
    ensures { Gives result numbers.now.items numbers.now.items (Some ([], bits.now)) }
{
    prove!(numbers.len() <= 400);
    Some(bits)
}

fn read_number<'a>(width: u8, bits: &'a [bool], numbers: &mut Numbers) -> Option<&'a [bool]>
    requires { width ≤ 64 }
    ensures { Gives result numbers.old.items numbers.new.items (numbers_in.read_number width bits.now) }
{
    let (number, rest) = split_number(width, bits)?;
    numbers.try_push(number).ok()?;
    Some(rest)
}

/// A number of so many bits, and what is left.
fn split_number(width: u8, bits: &[bool]) -> Option<(u64, &[bool])>
    requires { width ≤ 64 }
    ensures { MatchOption result (numbers_in.read_number width bits.now ≡ None)
        (λ found. numbers_in.read_number width bits.now ≡ Some (found.0 ∷ [], found.1.now)) }
{
    let width = usize::from(width);
    if width > bits.len() {
        return None;
    }
    Some((number_of(&bits[..width]), &bits[width..]))
}
