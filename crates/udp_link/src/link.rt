ghost use Rattle.std.specs.Prelude.{◌≡◌, ◌↔◌, ◌⊎◌, ◌≤◌, ◌+◌, ℕ, List, None, true, length, IfOk, IfSome, IsErr, IsSome, OnOk};
ghost use Rattle.can_frame.specs.Sizes.{most_members};
ghost use Rattle.outside.specs.Contents.{WhereTold};
ghost use Rattle.outside.specs.Faults.{HasCause, counted, one_more};
ghost use Rattle.outside.specs.Traffic.{Receives, Sends};

use crate::datagram::{MOST, datagram_of};
use crate::senders::frame_from;
use arrayvec::ArrayVec;
use can_frame::sizes::MOST_MEMBERS;
use outside::{Failed, Link, RawFrame, Received};
use std::io::ErrorKind;
use std::net::{Ipv4Addr, Net, UdpSocket};

/// The highest node ID that has a port.
const LAST: u8 = 125;

/// How often a call is made that told of something else: a port without a listener may be told of at a later call, and
/// a signal may come first. Such a call neither sent nor received.
const TRIES: u8 = 3;

/// The link of a node over UDP on this machine. It tells no contents.
///
/// One that [`UdpLink::open`] gives takes each datagram for what it is, whoever sent it. One that
/// [`UdpLink::open_strict`] gives looks at the sender (`MaySend`): a frame of a node has to come from that node's
/// port of 127.0.0.1, or from that of the bridge to the bus, `base + 119`, if it is of none of the nodes that run
/// here. An anonymous frame may come from any port of 127.0.0.1. All else is junk.
#[derive(Drop)]
pub struct UdpLink {
    socket: UdpSocket,
    base: u16,
    id: u8,
    faults: u64,

    /// The node IDs that run here, where the link is strict.
    here: Option<ArrayVec<u8, MOST_MEMBERS>>,
}

impl UdpLink {
    /// The link of the node with this ID, 1 to 125: it receives at port `base + id` of 127.0.0.1, and
    /// never waits. It fails where the socket cannot be made, as where the port is taken, or is none.
    ///
    /// The clause `port` is about a port that is none. When else a socket cannot be made is trusted, and shown by a
    /// test.
    pub fn open<R: Net>(rt: &R, base: u16, id: u8) -> Result<UdpLink, Failed>
        ensures base { IfOk result (λ link. link.base ≡ base) }
        ensures id { IfOk result (λ link. link.id ≡ id) }
        ensures faults { IfOk result (λ link. link.faults ≡ 0) }
        ensures here { IfOk result (λ link. link.here ≡ None) }
        ensures port { 65536 ≤ base + id → IsErr result }
    {
        let Some(port) = base.checked_add(u16::from(id)) else {
            return Err(Failed);
        };
        let Ok(socket) = UdpSocket::bind(rt, (Ipv4Addr::LOCALHOST, port)) else {
            return Err(Failed);
        };
        if socket.set_nonblocking(true).is_err() {
            return Err(Failed);
        }
        Ok(UdpLink {
            socket,
            base,
            id,
            faults: 0,
            here: None,
        })
    }

    /// The strict link of the node with this ID, which [`UdpLink::open`] gives else, in a process in which the nodes
    /// with these IDs run.
    pub fn open_strict<R: Net>(rt: &R, base: u16, id: u8, here: &[u8]) -> Result<UdpLink, Failed>
        requires { length here.now ≤ most_members }
        ensures base { IfOk result (λ link. link.base ≡ base) }
        ensures id { IfOk result (λ link. link.id ≡ id) }
        ensures faults { IfOk result (λ link. link.faults ≡ 0) }
        ensures here { IfOk result (λ link. IfSome link.here (λ nodes. nodes.items ≡ here.now)) }
        ensures strict { IfOk result (λ link. IsSome link.here) }
    {
        let mut nodes = ArrayVec::new();
        nodes.try_extend_from_slice(here).unwrap();
        let mut link = UdpLink::open(rt, base, id)?;
        link.here = Some(nodes);
        Ok(link)
    }

    /// Counts a call that failed.
    fn fault(&mut self) -> Failed
        ensures later { self.old.faults ≤ self.new.faults }
        ensures faults { self.new.faults ≡ one_more self.old.faults }
        ensures base { self.new.base ≡ self.old.base }
        ensures id { self.new.id ≡ self.old.id }
        ensures here { self.new.here ≡ self.old.here }
    {
        self.faults = self.faults.saturating_add(1);
        Failed
    }

    /// What has come, unless the socket failed.
    fn received(&self) -> Option<Received> {
        // One byte more than a frame has: a longer datagram is cut to that, and is junk.
        let mut datagram = [0; MOST + 1];
        for _ in 0..TRIES {
            match self.socket.recv_from(&mut datagram) {
                Ok((count, from)) => {
                    return Some(frame_from(self.base, &self.here, &from, &datagram[..count]));
                }
                Err(error) if error.kind() == ErrorKind::WouldBlock => break,
                Err(error) if may_be_made_again(error.kind()) => {}
                Err(_) => return None,
            }
        }
        Some(Received::Nothing)
    }

    /// Sends a datagram to the port of a node, where there is such a port, and tells whether the socket
    /// works.
    fn send_to(&self, node: u8, datagram: &[u8]) -> bool {
        let Some(port) = self.base.checked_add(u16::from(node)) else {
            return true;
        };
        for _ in 0..TRIES {
            match self.socket.send_to(datagram, (Ipv4Addr::LOCALHOST, port)) {
                Ok(_) => break,
                Err(error) if may_be_made_again(error.kind()) => {}
                Err(_) => return false,
            }
        }
        true
    }

    /// Sends a datagram to the port of each other node, up to the first where the socket fails, and tells whether it
    /// works. Where it does not, the nodes before have the datagram.
    fn send_to_others(&self, datagram: &[u8]) -> bool {
        for node in 1..=LAST {
            if node != self.id && !self.send_to(node, datagram) {
                return false;
            }
        }
        true
    }
}

/// Whether a call that failed so says nothing of the socket: std tells `ECONNREFUSED` and `EINTR` by these kinds.
fn may_be_made_again(kind: ErrorKind) -> bool
    ensures { (result ≡ true) ↔ (kind ≡ ErrorKind.ConnectionRefused) ⊎ (kind ≡ ErrorKind.Interrupted) }
{
    matches!(kind, ErrorKind::ConnectionRefused | ErrorKind::Interrupted)
}

impl Link for UdpLink {
    ghost coming = { λ _. None };

    ghost sent = { λ _. None };

    ghost faults = { λ l. l.faults };

    fn recv(&mut self) -> Result<Received, Failed>
        ensures items { WhereTold {A = List Received} (Receives result) None None }
        ensures cause { HasCause self.old.faults self.new.faults result }
        ensures kept { OnOk result (self.new.faults ≡ self.old.faults) }
        ensures faults { self.new.faults ≡ counted result self.old.faults }
        ensures base { self.new.base ≡ self.old.base }
        ensures id { self.new.id ≡ self.old.id }
        ensures here { self.new.here ≡ self.old.here }
    {
        match self.received() {
            Some(received) => Ok(received),
            None => Err(self.fault()),
        }
    }

    fn send(&mut self, frame: &RawFrame) -> Result<(), Failed>
        ensures frames { WhereTold {A = List RawFrame} (Sends frame.now result) None None }
        ensures cause { HasCause self.old.faults self.new.faults result }
        ensures kept { OnOk result (self.new.faults ≡ self.old.faults) }
        ensures faults { self.new.faults ≡ counted result self.old.faults }
        ensures base { self.new.base ≡ self.old.base }
        ensures id { self.new.id ≡ self.old.id }
        ensures here { self.new.here ≡ self.old.here }
    {
        if self.send_to_others(&datagram_of(frame)) {
            Ok(())
        } else {
            Err(self.fault())
        }
    }
}
