ghost use Rattle.std.specs.Prelude.{◌≡◌, List, Option, None};
ghost use Rattle.outside.specs.Contents.{WhereTold};
ghost use Rattle.outside.specs.declared.received.RawFrame.{RawFrame};
ghost use Rattle.outside.specs.declared.received.Received.{Received};
ghost use Rattle.can_link.specs.Socket.{Gives, Takes};

use crate::packet::{PACKET, frame_of, packet_of};
use libc::net::{POLLIN, poll};
use libc::types::pollfd;
use outside::{RawFrame, Received};

/// `errno` where a signal came first, where nothing waits, where the interface is down, and where it has no room.
const EINTR: i32 = 4;

const EAGAIN: i32 = 11;

const ENETDOWN: i32 = 100;

const ENOBUFS: i32 = 105;

/// What became of a frame that was handed to a socket.
#[derive(Clone, Copy, Debug, PartialEq, Eq)]
pub enum Written {
    /// The socket took it.
    Taken,

    /// The socket did not take it, and works: the interface had no room, or is down.
    Lost,

    /// The socket failed.
    Failed,
}

/// Where the frames of a bus come from and go to. What it takes it gives back once that was on the bus.
pub trait Socket {
    /// The items still to come, where the socket tells them. A gap among them is [`Received::Nothing`].
    ghost coming: { Self → Option (List Received) };

    /// The frames that it took, where the socket tells them.
    ghost taken: { Self → Option (List RawFrame) };

    /// The next item, without waiting; none where the socket failed.
    fn read(&mut self) -> Option<Received>
        ensures items { WhereTold (Gives result) (coming self.old) (coming self.new) }
        ensures taken { taken self.new ≡ taken self.old };

    /// Hands a frame in, without waiting.
    fn write(&mut self, frame: &RawFrame) -> Written
        ensures taken { WhereTold (Takes frame.now result) (taken self.old) (taken self.new) }
        ensures items { coming self.new ≡ coming self.old };

    /// Waits until something comes, a millisecond at most.
    fn wait(&self);
}

/// A raw CAN socket of Linux that is open. It tells nothing of what it has.
#[derive(Drop)]
pub struct RawSocket {
    fd: i32,
}

impl RawSocket {
    /// The socket behind this descriptor. Whoever opened it sees that it is such a socket, never waits, and gives back
    /// what is sent on it.
    pub fn new(fd: i32) -> RawSocket
        ensures { result.fd ≡ fd }
    {
        RawSocket { fd }
    }
}

impl Socket for RawSocket {
    ghost coming = { λ _. None };

    ghost taken = { λ _. None };

    fn read(&mut self) -> Option<Received> {
        let mut packet = [0; PACKET];
        let count = libc::read(self.fd, &mut packet);
        if count < 0 {
            let error = os::errno();
            return if error == EAGAIN || error == EINTR {
                Some(Received::Nothing)
            } else {
                None
            };
        }
        if count == 0 {
            return None;
        }
        Some(frame_of(&packet[..count as usize]))
    }

    fn write(&mut self, frame: &RawFrame) -> Written {
        let Some(packet) = packet_of(frame) else {
            return Written::Lost;
        };
        if libc::write(self.fd, &packet) == PACKET as isize {
            return Written::Taken;
        }
        let error = os::errno();
        if error == EAGAIN || error == EINTR || error == ENETDOWN || error == ENOBUFS {
            Written::Lost
        } else {
            Written::Failed
        }
    }

    fn wait(&self) {
        let mut waits = [pollfd {
            fd: self.fd,
            events: POLLIN,
            revents: 0,
        }];
        let _ = poll(&mut waits, 1);
    }
}
