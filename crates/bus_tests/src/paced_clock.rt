//! A clock that sleeps while nothing comes.

use host_pace::PacedClock;
use outside::{Clock, MemoryClock, StdClock};
use std::cell::Cell;

/// The most that ten idle turns may take, in milliseconds.
const LONGEST: u64 = 5000;

#[test]
fn while_nothing_comes_no_millisecond_is_told_twice(rt: HostRuntime) {
    let idle = Cell::new(0);
    let mut clock = PacedClock::new(StdClock::new(&rt), &rt, 2, &idle);
    let first = clock.now();
    let mut last = first;
    for _ in 0..10 {
        idle.set(2);
        let now = clock.now();
        assert!(rt; last < now);
        last = now;
    }
    assert!(rt; last.saturating_sub(first) < LONGEST);
}

#[test]
fn a_reading_is_taken_anew_where_all_links_are_idle(rt: HostRuntime) {
    let idle = Cell::new(1);
    let below = MemoryClock::new(&[5, 5, 5, 6, 9]);
    let mut clock = PacedClock::new(below, &rt, 2, &idle);
    assert_eq!(rt; clock.now(), 5);
    assert_eq!(rt; clock.now(), 5);
    idle.set(2);
    assert_eq!(rt; clock.now(), 6);
    assert_eq!(rt; idle.get(), 0);
    assert_eq!(rt; clock.now(), 9);
}
