ghost use Rattle.std.specs.Prelude.{◌≡◌, ℕ, List, Option, Some, None};
ghost use Rattle.outside.specs.Contents.{WhereTold};
ghost use Rattle.outside.specs.Readings.{Reads};

use std::marker::Model;
use std::time;

/// Tells the moment, in milliseconds from a moment of its own. Readings may fall. It cannot fail.
pub trait Clock {
    /// The readings still to come, where the clock tells them: the last one is repeated for ever, and
    /// without any it gives 0.
    ghost readings: { Self → Option (List ℕ) };

    /// The next reading, in milliseconds.
    fn now(&mut self) -> u64
        ensures { WhereTold (Reads result) (readings self.old) (readings self.new) };
}

/// The readings of a slice; the last is repeated for ever, and without any it is 0.
#[derive(Drop)]
pub struct MemoryClock<'a> {
    readings: &'a [u64],
}

impl<'a> Model for MemoryClock<'a> {
    ghost Value = { List ℕ };

    ghost view = { λ c. c.readings.now };
}

impl<'a> MemoryClock<'a> {
    /// A clock of these readings, in milliseconds.
    pub fn new(readings: &'a [u64]) -> MemoryClock<'a>
        ensures { result ≡ readings.entry.now }
    {
        MemoryClock { readings }
    }
}

impl Clock for MemoryClock<'_> {
    ghost readings = { λ c. Some c };

    fn now(&mut self) -> u64
        ensures { Reads result self.old self.new }
    {
        match self.readings {
            [] => 0,
            [last] => *last,
            [first, rest @ ..] => {
                self.readings = rest;
                *first
            }
        }
    }
}

/// The system's monotonic clock. Where it cannot be read, its last reading is given again, or 0 where
/// there is none. It tells no readings.
///
/// The last reading is given again where the system cannot be read: that is trusted, and shown by a test.
#[derive(Drop)]
pub struct StdClock<C> {
    system: C,
    last: u64,
}

impl<'a, R: time::Clock> StdClock<&'a R> {
    /// The clock of the system that runs the program.
    pub fn new(rt: &'a R) -> StdClock<&'a R>
        ensures { result.last ≡ 0 }
    {
        StdClock {
            system: rt,
            last: 0,
        }
    }
}

impl<C: time::Clock> Clock for StdClock<C> {
    ghost readings = { λ _. None };

    fn now(&mut self) -> u64
        ensures last { result ≡ self.new.last }
    {
        if let Ok(time) = self.system.monotonic() {
            self.last = u64::try_from(time.as_millis()).unwrap_or(u64::MAX);
        }
        self.last
    }
}
