//! The numbers of a value: those of its fields in order, each list behind its count.

ghost use Rattle.std.specs.Prelude.{◌≡◌, ◌≤◌, ◌+◌, ◌++◌, length, Option};
ghost use Rattle.arrayvec.specs.ArrayVec.{array_vec_len};
ghost use Rattle.dsdl_codec.specs.Numbers.{counted, optional_entry_numbers, verdict_numbers};

use arrayvec::ArrayVec;
use can_frame::Entry;

/// The numbers of a value.
pub type Numbers = ArrayVec<u64, 400>;

/// Appends bytes, each a number, for which there is room.
pub fn append_bytes(numbers: &mut Numbers, bytes: &[u8])
    requires { array_vec_len numbers.old + length bytes.now ≤ 400 }
    ensures items { numbers.new.items ≡ numbers.old.items ++ bytes.now }
    ensures len { array_vec_len numbers.new ≡ array_vec_len numbers.old + length bytes.now }
{
    for &byte in bytes {
        numbers.push(u64::from(byte));
    }
}

/// Appends the count of a list of bytes, and the bytes.
pub fn append_counted(numbers: &mut Numbers, bytes: &[u8])
    requires { array_vec_len numbers.old + 1 + length bytes.now ≤ 400 }
    ensures items { numbers.new.items ≡ numbers.old.items ++ counted bytes.now }
    ensures len { array_vec_len numbers.new ≡ array_vec_len numbers.old + 1 + length bytes.now }
{
    numbers.push(bytes.len() as u64);
    append_bytes(numbers, bytes);
}

/// Appends 1 and the fields of an entry, or 0 where there is none.
pub fn append_optional_entry(numbers: &mut Numbers, entry: &Option<Entry>)
    requires { array_vec_len numbers.old ≤ 100 }
    ensures { numbers.new.items ≡ numbers.old.items ++ optional_entry_numbers entry.now }
{
    match entry {
        None => numbers.push(0),
        Some(entry) => {
            numbers.push(1);
            numbers.push(u64::from(entry.term));
            append_bytes(numbers, &entry.uid);
            numbers.push(u64::from(entry.node));
        }
    }
}

/// The numbers of a term and a flag.
pub fn of_verdict(term: u32, flag: bool) -> Numbers
    ensures { result.items ≡ verdict_numbers term flag }
{
    let mut numbers = Numbers::new();
    numbers.push(u64::from(term));
    numbers.push(u64::from(flag));
    numbers
}
