ghost use Rattle.std.specs.Prelude.{◌≡◌, ◌≤◌, ℕ, List, None, OnOk};
ghost use Rattle.outside.specs.Contents.{WhereTold};
ghost use Rattle.outside.specs.Faults.{HasCause, counted, one_more};
ghost use Rattle.outside.specs.Traffic.{Receives, Sends};

use crate::bus::CanBus;
use crate::socket::Socket;
use outside::{Clock, Failed, Link, RawFrame, Received};
use std::cell::RefCell;

/// The link of one member over a bus that it may share with others of its process. It tells no contents.
#[derive(Drop)]
pub struct CanLink<'a, S, C> {
    bus: &'a RefCell<CanBus<S, C>>,

    /// Of the members of this process, the first one has 0.
    place: usize,
    faults: u64,
}

impl<'a, S: Socket, C: Clock> CanLink<'a, S, C> {
    /// The link of the member at a place, 0 to 4.
    pub fn new(bus: &'a RefCell<CanBus<S, C>>, place: usize) -> CanLink<'a, S, C>
        ensures place { result.place ≡ place }
        ensures faults { result.faults ≡ 0 }
    {
        CanLink {
            bus,
            place,
            faults: 0,
        }
    }

    /// Counts a call that failed.
    fn fault(&mut self) -> Failed
        ensures later { self.old.faults ≤ self.new.faults }
        ensures faults { self.new.faults ≡ one_more self.old.faults }
        ensures place { self.new.place ≡ self.old.place }
    {
        self.faults = self.faults.saturating_add(1);
        Failed
    }

    /// What has come, unless the socket failed or an echo is late.
    fn received(&self) -> Option<Received> {
        match self.bus.try_borrow_mut() {
            Ok(mut bus) => bus.recv(self.place),
            Err(_) => None,
        }
    }

    /// Whether the socket works, after a frame was sent.
    fn is_sent(&self, frame: &RawFrame) -> bool {
        match self.bus.try_borrow_mut() {
            Ok(mut bus) => bus.send(self.place, frame),
            Err(_) => false,
        }
    }
}

impl<S: Socket, C: Clock> Link for CanLink<'_, S, C> {
    ghost coming = { λ _. None };

    ghost sent = { λ _. None };

    ghost faults = { λ l. l.faults };

    fn recv(&mut self) -> Result<Received, Failed>
        ensures items { WhereTold {A = List Received} (Receives result) None None }
        ensures cause { HasCause self.old.faults self.new.faults result }
        ensures kept { OnOk result (self.new.faults ≡ self.old.faults) }
        ensures faults { self.new.faults ≡ counted result self.old.faults }
        ensures place { self.new.place ≡ self.old.place }
    {
        match self.received() {
            Some(received) => Ok(received),
            None => Err(self.fault()),
        }
    }

    fn send(&mut self, frame: &RawFrame) -> Result<(), Failed>
        ensures frames { WhereTold {A = List RawFrame} (Sends frame.now result) None None }
        ensures cause { HasCause self.old.faults self.new.faults result }
        ensures kept { OnOk result (self.new.faults ≡ self.old.faults) }
        ensures faults { self.new.faults ≡ counted result self.old.faults }
        ensures place { self.new.place ≡ self.old.place }
    {
        if self.is_sent(frame) {
            Ok(())
        } else {
            Err(self.fault())
        }
    }
}
