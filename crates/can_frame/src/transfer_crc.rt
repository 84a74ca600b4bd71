ghost use Rattle.std.specs.Prelude.{◌≡◌, ◌++◌, ℕ, List, false};
ghost use Rattle.can_frame.specs.TransferCrc.{bits_of, crc_of, message_bits, transfer_crc};
ghost use Rattle.can_frame.specs.Register.{shift, run};

/// What the register holds before any byte.
const CRC_OF_NOTHING: u16 = 0xffff;

/// The CRC of a payload under the signature of its data type: CRC-16/CCITT-FALSE over the eight bytes
/// of the signature, low byte first, and the payload.
pub fn crc(signature: u64, payload: &[u8]) -> u16
    ensures { result ≡ transfer_crc signature payload.now }
{
    let begun = crc_more(CRC_OF_NOTHING, &signature.to_le_bytes());
    crc_more(begun, payload)
}

/// The CRC of bytes with more behind them, from the CRC of those in front, which are not looked at
/// again.
pub fn crc_more(crc: u16, more: &[u8]) -> u16
    ensures { (bytes : List ℕ) → crc ≡ crc_of bytes → result ≡ crc_of (bytes ++ more.now) }
{
    take_bytes(crc, more)
}

fn take_bytes(register: u16, bytes: &[u8]) -> u16
    ensures { bits_of 16 result ≡ run (bits_of 16 register) (message_bits bytes.now) }
{
    let mut register = register;
    for byte in bytes {
        register = take_byte(register, *byte);
    }
    register
}

/// All bits of the byte are added to the register, and then shifted out.
fn take_byte(register: u16, byte: u8) -> u16
    ensures { bits_of 16 result ≡ run (bits_of 16 register) (bits_of 8 byte) }
{
    let register = register ^ u16::from(byte) * 256;
    let register = shifted(register);
    let register = shifted(register);
    let register = shifted(register);
    let register = shifted(register);
    let register = shifted(register);
    let register = shifted(register);
    let register = shifted(register);
    shifted(register)
}

fn shifted(register: u16) -> u16
    ensures { bits_of 16 result ≡ shift (bits_of 16 register) false }
{
    let moved = register % 32768 * 2;
    if register / 32768 == 1 {
        moved ^ 0x1021
    } else {
        moved
    }
}
