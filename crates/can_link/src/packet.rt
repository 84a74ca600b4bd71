ghost use Rattle.std.specs.Prelude.{◌≡◌, ◌^◌, ◌<◌, ◌≤◌, ◌↔◌, ◌⊎◌, ℕ, IfSome, IsNone};
ghost use Rattle.can_link.specs.Packet.{IsPacket, most_data};
ghost use Rattle.outside.specs.declared.received.RawFrame.{RawFrame};
ghost use Rattle.outside.specs.declared.received.Received.TheVariants.{Frame, Junk, Nothing};

use outside::{RawFrame, Received};

/// The bytes of a frame on the socket.
pub const PACKET: usize = 16;

/// The bytes of a packet before the data.
const HEAD: usize = 8;

/// The most data bytes of a frame.
const MOST_DATA: u8 = 8;

/// The flag of an identifier of 29 bits.
const EXTENDED: u32 = 1 << 31;

/// The first number that is no identifier, which has 29 bits.
const FIRST_WIDE: u32 = 1 << 29;

/// The frame of what was read from the socket. A frame with an identifier of 11 bits, one that asks for data, and one
/// that tells of an error of the bus are junk.
pub fn frame_of(packet: &[u8]) -> Received
    ensures frame { (frame : RawFrame) → result ≡ Frame frame → IsPacket frame packet.now }
    ensures junk { result ≡ Junk → (frame : RawFrame) → IsPacket frame packet.now → ⊥ }
    ensures some { result ≡ Nothing → ⊥ }
{
    let [a, b, c, d, len, _, _, _, data @ ..] = packet else {
        return Received::Junk;
    };
    if data.len() != usize::from(MOST_DATA) || *len > MOST_DATA {
        return Received::Junk;
    }
    let head = u32::from_le_bytes([*a, *b, *c, *d]);
    if head < EXTENDED || head - EXTENDED >= FIRST_WIDE {
        return Received::Junk;
    }
    let mut bytes = [0; MOST_DATA as usize];
    bytes.copy_from_slice(data);
    Received::Frame(RawFrame {
        id: head - EXTENDED,
        len: *len,
        bytes,
    })
}

/// A frame as the socket takes it: none where it has more than 8 data bytes, or an identifier of more than 29 bits.
pub fn packet_of(frame: &RawFrame) -> Option<[u8; PACKET]>
    ensures some { IfSome result (λ packet. IsPacket frame.now packet) }
    ensures none { IsNone result ↔ ((most_data < frame.now.len) ⊎ (2 ^ 29 ≤ frame.now.id)) }
{
    if frame.len > MOST_DATA || frame.id >= FIRST_WIDE {
        return None;
    }
    let mut packet = [0; PACKET];
    packet[..4].copy_from_slice(&(EXTENDED + frame.id).to_le_bytes());
    packet[4] = frame.len;
    packet[HEAD..].copy_from_slice(&frame.bytes);
    Some(packet)
}
