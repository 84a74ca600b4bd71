ghost use Rattle.std.specs.Prelude.{◌≡◌, List, None, ℕ};
ghost use Rattle.outside.specs.Contents.{WhereTold};
ghost use Rattle.outside.specs.Readings.{Reads};
ghost use Rattle.host_pace.specs.Paced.{Paces};

use outside::Clock;
use std::cell::Cell;
use std::time::Duration;
use std::{thread, time};

/// A clock over another one. Where that gives the same millisecond again, and so many calls of links in a
/// row found nothing as there are links, it sleeps until the next one. So turns that have nothing to
/// take leave the processor to others, and a frame that waits is not held up. It tells no readings; its
/// clauses say that they are those of the clock below.
#[derive(Drop)]
pub struct PacedClock<'a, C, R> {
    clock: C,
    system: &'a R,
    idle: &'a Cell<usize>,
    links: usize,
    last: u64,
}

impl<'a, C: Clock, R: time::Clock> PacedClock<'a, C, R> {
    /// A clock over this one, which sleeps by the system that runs the program, for so many links that count
    /// in the cell.
    pub fn new(clock: C, system: &'a R, links: usize, idle: &'a Cell<usize>) -> PacedClock<'a, C, R>
        ensures clock { result.clock ≡ clock }
        ensures last { result.last ≡ 0 }
    {
        PacedClock {
            clock,
            system,
            idle,
            links,
            last: 0,
        }
    }
}

impl<'a, C: Clock, R: time::Clock> Clock for PacedClock<'a, C, R> {
    ghost readings = { λ _. None };

    fn now(&mut self) -> u64
        ensures readings { WhereTold {A = List ℕ} (Reads result) None None }
        ensures paces { Paces self.old.last result (C.readings self.old.clock) (C.readings self.new.clock) }
        ensures last { self.new.last ≡ result }
    {
        let now = self.clock.now();
        if now != self.last || self.idle.get() < self.links {
            self.last = now;
            return now;
        }
        thread::sleep(self.system, Duration::from_millis(1));
        self.idle.set(0);
        self.last = self.clock.now();
        self.last
    }
}
