ghost use Rattle.std.specs.Prelude.{◌≡◌, ◌<◌, ◌≤◌, ◌+◌, ◌*◌, ◌^◌, ◌++◌, length};
ghost use Rattle.can_frame.specs.Sizes.{longest_payload};
ghost use Rattle.dsdl_text.specs.Numbers as numbers;

use arrayvec::ArrayVec;
use can_frame::sizes::LONGEST_PAYLOAD;

/// No payload has more bits.
const MOST_BITS: usize = 8 * LONGEST_PAYLOAD;

/// The bits of a payload.
pub type Bits = ArrayVec<bool, MOST_BITS>;

/// The bits of a payload, those of each byte from the high one.
pub fn bits_of(payload: &[u8]) -> Bits
    requires { length payload.now ≤ longest_payload }
    ensures { result.items ≡ numbers.bits_of payload.now }
{
    let mut bits = ArrayVec::new();
    for &byte in payload {
        push_byte(&mut bits, byte);
    }
    bits
}

/// Appends the bits of a byte, from the high one.
fn push_byte(bits: &mut Bits, byte: u8)
    requires { length bits.old.items + 8 ≤ 8 * longest_payload }
    ensures items { bits.new.items ≡ bits.old.items ++ numbers.byte_bits byte }
    ensures len { length bits.new.items ≡ length bits.old.items + 8 }
{
    let bits_of_byte = [
        byte / 128 % 2 == 1,
        byte / 64 % 2 == 1,
        byte / 32 % 2 == 1,
        byte / 16 % 2 == 1,
        byte / 8 % 2 == 1,
        byte / 4 % 2 == 1,
        byte / 2 % 2 == 1,
        byte % 2 == 1,
    ];
    match bits.try_extend_from_slice(&bits_of_byte) {
        Ok(()) => {}
        Err(_) => unreachable!(),
    }
}

/// The number that up to 64 bits are: eight at a time are its bytes, the low one first.
pub fn number_of(bits: &[bool]) -> u64
    requires { length bits.now ≤ 64 }
    ensures value { result ≡ numbers.number_of bits.now }
    ensures fits { result < 2 ^ length bits.now }
{
    if bits.len() < 8 {
        return high_first(bits);
    }
    high_first(&bits[..8]) + 256 * number_of(&bits[8..])
}

/// The number that up to 8 bits are, from the high one.
fn high_first(bits: &[bool]) -> u64
    requires { length bits.now ≤ 8 }
    ensures value { result ≡ numbers.number_onto 0 bits.now }
    ensures fits { result < 2 ^ length bits.now }
{
    let mut number = 0;
    for &bit in bits {
        number = 2 * number + u64::from(bit);
    }
    number
}
