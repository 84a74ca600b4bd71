ghost use Rattle.std.specs.Prelude.{◌≡◌, ◌↔◌, IfSome, IsNone, IsTrue};
ghost use Rattle.std.specs.Net.Socket.{socket_port};
ghost use Rattle.outside.specs.declared.received.RawFrame.{RawFrame};
ghost use Rattle.outside.specs.declared.received.Received.TheVariants.{Frame, Junk, Nothing};
ghost use Rattle.udp_link.specs.Datagram.{IsDatagram};
ghost use Rattle.udp_link.specs.Senders.{IsHere, MaySend, Takes};

use crate::datagram::frame_of;
use arrayvec::ArrayVec;
use can_frame::sizes::MOST_MEMBERS;
use outside::Received;
use std::net::SocketAddr;

/// The port of the bridge to the bus is that of this node ID.
const BRIDGE: u16 = 119;

/// How many node IDs there are, with 0, which stands for none.
const NODES: u32 = 128;

/// The frame of a datagram that came from this address to a link of this base. Where the link is strict, `here`
/// has the node IDs that run here, and a frame from an address that it may not come from is junk.
pub fn frame_from(
    base: u16,
    here: &Option<ArrayVec<u8, MOST_MEMBERS>>,
    from: &SocketAddr,
    datagram: &[u8],
) -> Received
    ensures frame { (frame : RawFrame) → result ≡ Frame frame → IsDatagram frame datagram.now ×
        Takes here.now base from.now frame }
    ensures junk { result ≡ Junk → (frame : RawFrame) → IsDatagram frame datagram.now →
        Takes here.now base from.now frame → ⊥ }
    ensures some { result ≡ Nothing → ⊥ }
{
    let received = frame_of(datagram);
    let Some(here) = here else {
        return received;
    };
    let Received::Frame(frame) = received else {
        return Received::Junk;
    };
    let Some(port) = port_here(from) else {
        return Received::Junk;
    };
    if may_send(base, here, port, (frame.id % NODES) as u8) {
        Received::Frame(frame)
    } else {
        Received::Junk
    }
}

/// The port of 127.0.0.1 that this address is.
fn port_here(from: &SocketAddr) -> Option<u16>
    ensures some { IfSome result (λ port. IsHere from.now × (socket_port from.now ≡ port)) }
    ensures none { IsNone result → IsHere from.now → ⊥ }
{
    match from {
        SocketAddr::V4(address) if address.ip().octets() == [127, 0, 0, 1] => Some(address.port()),
        _ => None,
    }
}

/// Whether a frame of this source may come from this port.
fn may_send(base: u16, here: &[u8], port: u16, source: u8) -> bool
    ensures { IsTrue result ↔ MaySend base here.now port source }
{
    if source == 0 {
        return true;
    }
    let Some(place) = port.checked_sub(base) else {
        return false;
    };
    place == u16::from(source) || (place == BRIDGE && !here.contains(&source))
}
