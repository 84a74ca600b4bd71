//! The clock of the system.

use outside::{Clock, StdClock};
use std::cell::Cell;
use std::time::Duration;
use std::{io, time};

/// A system's clock that can be read once.
#[derive(Drop)]
struct Once {
    was_read: Cell<bool>,
}

impl time::Clock for Once {
    fn monotonic(&self) -> io::Result<Duration> {
        if self.was_read.replace(true) {
            return Err(io::Error::from(io::ErrorKind::Other));
        }
        Ok(Duration::new(1234, 567_999_999))
    }

    fn since_1970(&self) -> io::Result<Duration> {
        Err(io::Error::from(io::ErrorKind::Other))
    }
}

#[test]
fn a_system_clock_that_cannot_be_read_gives_its_last_reading(rt: HostRuntime) {
    let system = Once {
        was_read: Cell::new(false),
    };
    let mut clock = StdClock::new(&system);
    assert_eq!(rt; clock.now(), 1_234_567);
    assert_eq!(rt; clock.now(), 1_234_567);
    assert_eq!(rt; StdClock::new(&system).now(), 0);
}

#[test]
fn the_system_has_a_clock(rt: HostRuntime) {
    let mut clock = StdClock::new(&rt);
    let first = clock.now();
    assert!(rt; 0 < first);
    assert!(rt; first <= clock.now());
}
