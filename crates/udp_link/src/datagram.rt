ghost use Rattle.std.specs.Prelude.{◌≡◌, ◌^◌, ◌<◌, ◌≤◌, ◌⊎◌, ℕ};
ghost use Rattle.outside.specs.declared.received.RawFrame.{RawFrame};
ghost use Rattle.outside.specs.declared.received.Received.TheVariants.{Frame, Junk, Nothing};
ghost use Rattle.udp_link.specs.Datagram.{IsDatagram, most_data};

use arrayvec::ArrayVec;
use outside::{RawFrame, Received};

/// The bytes of a datagram before the data: the identifier, and the number of data bytes.
const HEAD: usize = 5;

/// The most data bytes of a frame.
const MOST_DATA: usize = 8;

/// The most bytes of a datagram that is a frame.
pub const MOST: usize = HEAD + MOST_DATA;

/// The first number that is no identifier, which has 29 bits.
const FIRST_WIDE: u32 = 1 << 29;

/// The frame of a datagram. A datagram with an identifier of more than 29 bits is junk.
pub fn frame_of(datagram: &[u8]) -> Received
    ensures frame { (frame : RawFrame) → result ≡ Frame frame → IsDatagram frame datagram.now }
    ensures junk { result ≡ Junk → (frame : RawFrame) → IsDatagram frame datagram.now → ⊥ }
    ensures some { result ≡ Nothing → ⊥ }
{
    let [a, b, c, d, len, data @ ..] = datagram else {
        return Received::Junk;
    };
    if data.is_empty() || data.len() > MOST_DATA || data.len() != *len as usize {
        return Received::Junk;
    }
    let id = u32::from_be_bytes([*a, *b, *c, *d]);
    if id >= FIRST_WIDE {
        return Received::Junk;
    }
    let mut bytes = [0; MOST_DATA];
    bytes[..data.len()].copy_from_slice(data);
    Received::Frame(RawFrame {
        id,
        len: *len,
        bytes,
    })
}

/// The datagram of a frame. One without data, with more than 8 bytes of it, or with an identifier of
/// more than 29 bits, gives one that is junk.
pub fn datagram_of(frame: &RawFrame) -> ArrayVec<u8, MOST>
    ensures frame { 0 < frame.now.len → frame.now.len ≤ most_data → frame.now.id < 2 ^ 29 →
        IsDatagram frame.now result.items }
    ensures junk { (frame.now.len ≡ 0) ⊎ (most_data < frame.now.len) →
        (other : RawFrame) → IsDatagram other result.items → ⊥ }
    ensures wide { 2 ^ 29 ≤ frame.now.id → (other : RawFrame) → IsDatagram other result.items → ⊥ }
{
    let mut bytes = [0; MOST];
    bytes[..4].copy_from_slice(&frame.id.to_be_bytes());
    bytes[4] = frame.len;
    bytes[HEAD..].copy_from_slice(&frame.bytes);
    let mut datagram = ArrayVec::from(bytes);
    datagram.truncate(HEAD + MOST_DATA.min(usize::from(frame.len)));
    datagram
}
