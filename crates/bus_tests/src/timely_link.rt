//! A link that lets no old frame pass.

use crate::frame::FRAME;
use crate::same::same;
use host_pace::TimelyLink;
use outside::{Failed, Link, MemoryClock, MemoryLink, RawFrame, Received};
use std::cell::Cell;

/// A link that nothing comes to, which counts what is sent.
#[derive(Drop)]
struct Counts<'a> {
    sent: &'a Cell<u64>,
}

impl Link for Counts<'_> {
    ghost use Rattle.std.specs.Prelude.{None};

    ghost coming = { λ _. None };

    ghost sent = { λ _. None };

    ghost faults = { λ _. 0 };

    fn recv(&mut self) -> Result<Received, Failed> {
        Ok(Received::Nothing)
    }

    fn send(&mut self, _frame: &RawFrame) -> Result<(), Failed> {
        self.sent.set(self.sent.get().saturating_add(1));
        Ok(())
    }
}

#[test]
fn a_frame_that_waited_in_the_link_below_is_junk(rt: HostRuntime) {
    let items = [
        Received::Nothing,
        Received::Frame(FRAME),
        Received::Frame(FRAME),
        Received::Junk,
        Received::Nothing,
        Received::Frame(FRAME),
    ];
    let idle = Cell::new(0);
    let below = MemoryLink::new(&items, None);
    // The first reading is that of the beginning.
    let clock = MemoryClock::new(&[4000, 4000, 5000, 5001, 5001, 5001, 6001]);
    let mut link = TimelyLink::new(below, clock, &idle);
    assert!(rt; same(&link.recv(), &Ok(Received::Nothing)));
    assert_eq!(rt; idle.get(), 1);
    assert!(rt; same(&link.recv(), &Ok(Received::Frame(FRAME))));
    assert_eq!(rt; idle.get(), 0);
    assert!(rt; same(&link.recv(), &Ok(Received::Junk)));
    assert!(rt; same(&link.recv(), &Ok(Received::Junk)));
    assert!(rt; same(&link.recv(), &Ok(Received::Nothing)));
    assert!(rt; same(&link.recv(), &Ok(Received::Frame(FRAME))));
}

#[test]
fn a_frame_that_waited_to_be_sent_is_not_sent(rt: HostRuntime) {
    let sent = Cell::new(0);
    let idle = Cell::new(0);
    let below = Counts { sent: &sent };
    let clock = MemoryClock::new(&[0, 1000, 1001, 1001, 1002, 1100, 1200, 2100]);
    let mut link = TimelyLink::new(below, clock, &idle);
    assert!(rt; link.send(&FRAME).is_ok());
    assert_eq!(rt; sent.get(), 1);
    assert!(rt; link.send(&FRAME).is_ok());
    assert_eq!(rt; sent.get(), 1);
    // Frames were handed in before this call, and before the next.
    assert!(rt; same(&link.recv(), &Ok(Received::Nothing)));
    assert!(rt; link.send(&FRAME).is_ok());
    assert_eq!(rt; sent.get(), 1);
    assert!(rt; same(&link.recv(), &Ok(Received::Nothing)));
    assert!(rt; same(&link.recv(), &Ok(Received::Nothing)));
    assert!(rt; link.send(&FRAME).is_ok());
    assert_eq!(rt; sent.get(), 2);
    assert_eq!(rt; idle.get(), 3);
}
