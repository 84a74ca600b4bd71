ghost use Rattle.std.specs.Prelude.{◌≡◌, ◌≤◌, ◌<◌, ◌+◌, ℕ, List, None, true, false, Err, IfOk, IfErr, OnOk, if◌then◌else◌};
ghost use Rattle.outside.specs.Contents.{WhereTold};
ghost use Rattle.outside.specs.Faults.{HasCause};
ghost use Rattle.outside.specs.Readings.{Reads};
ghost use Rattle.outside.specs.Traffic.{Receives, Sends};
ghost use Rattle.outside.specs.declared.received.Received.{Received};
ghost use Rattle.outside.specs.declared.received.RawFrame.{RawFrame};
ghost use Rattle.host_pace.specs.Timely as timely;
ghost use Rattle.host_pace.specs.Timely.{Goes, Hears};

use outside::{Clock, Failed, Link, RawFrame, Received};
use std::cell::Cell;

/// The longest that a frame may have waited in the process, in milliseconds: in the link below, and again
/// from there to the bus.
const LONGEST_WAIT: u64 = 1000;

/// A link over another one that lets no old frame pass. What may have waited too long in the link below is
/// junk, and what may have waited too long to be sent is not sent, as where the process was stopped or its
/// disk took long: an answer that comes after its transfer ID was used again would be taken for that
/// to a later call. It counts how many calls of the links of its cell found nothing, in a row. It tells
/// no contents; its clauses say what it makes of those of the link and the clock below.
#[derive(Drop)]
pub struct TimelyLink<'a, L, C> {
    link: L,
    clock: C,
    idle: &'a Cell<usize>,

    /// The reading at the last call of `recv`.
    last: u64,

    /// All that waits in the link below came after this reading.
    heard_all: u64,

    /// All that waits to be sent was made after this reading.
    sent_all: u64,

    /// Whether a frame was handed in since the last call of `recv`, which comes once a turn. A turn in
    /// which none was leaves nothing that waits.
    is_sending: bool,
}

impl<'a, L: Link, C: Clock> TimelyLink<'a, L, C> {
    /// This link, which nothing came to yet, at this clock.
    pub fn new(link: L, mut clock: C, idle: &'a Cell<usize>) -> TimelyLink<'a, L, C>
        ensures link { result.link ≡ link }
        ensures reading { WhereTold (Reads result.last) (C.readings clock) (C.readings result.clock) }
        ensures heard_all { result.heard_all ≡ result.last }
        ensures sent_all { result.sent_all ≡ result.last }
        ensures is_sending { result.is_sending ≡ false }
    {
        let now = clock.now();
        TimelyLink {
            link,
            clock,
            idle,
            last: now,
            heard_all: now,
            sent_all: now,
            is_sending: false,
        }
    }
}

impl<'a, L: Link, C: Clock> Link for TimelyLink<'a, L, C> {
    ghost coming = { λ _. None };

    ghost sent = { λ _. None };

    ghost faults = { λ l. L.faults l.link };

    /// A frame that may have waited in the link below for more than 1,000 ms comes as junk (`hears`).
    fn recv(&mut self) -> Result<Received, Failed>
        ensures items { WhereTold {A = List Received} (Receives result) None None }
        ensures cause { HasCause (L.faults self.old.link) (L.faults self.new.link) result }
        ensures kept { OnOk result (L.faults self.new.link ≡ L.faults self.old.link) }
        // What the link below gave, and what is made of it.
        ensures hears { IfOk result (λ handed. Hears (L.coming self.old.link) (L.coming self.new.link)
            self.old.last self.new.last self.old.heard_all self.new.heard_all handed) }
        ensures failed { IfErr result (λ error. WhereTold (Receives (Err error))
            (L.coming self.old.link) (L.coming self.new.link)) }
        ensures unsent { L.sent self.new.link ≡ L.sent self.old.link }
        ensures reading { OnOk result (WhereTold (Reads self.new.last)
            (C.readings self.old.clock) (C.readings self.new.clock)) }
        ensures sent_all { OnOk result (self.new.sent_all
            ≡ (if self.old.is_sending then self.old.sent_all else self.old.last)) }
        ensures is_sending { OnOk result (self.new.is_sending ≡ false) }
    {
        let received = self.link.recv()?;
        let before = self.last;
        self.last = self.clock.now();
        if !self.is_sending {
            self.sent_all = before;
        }
        self.is_sending = false;
        self.idle.set(idle_after(self.idle.get(), received));
        let handed = handed_on(self.last, self.heard_all, received);
        self.heard_all = waits_since(before, self.heard_all, received);
        Ok(handed)
    }

    /// A frame that may have waited for more than 1,000 ms is not sent, and the answer is `Ok` (`goes`).
    fn send(&mut self, frame: &RawFrame) -> Result<(), Failed>
        ensures frames { WhereTold {A = List RawFrame} (Sends frame.now result) None None }
        ensures cause { HasCause (L.faults self.old.link) (L.faults self.new.link) result }
        ensures kept { OnOk result (L.faults self.new.link ≡ L.faults self.old.link) }
        // Whether the frame goes to the link below: once, and where the time allows.
        ensures goes { Goes frame.now result L.sent L.coming self.old.link self.new.link
            (C.readings self.old.clock) (C.readings self.new.clock) self.old.sent_all }
        ensures last { self.new.last ≡ self.old.last }
        ensures heard_all { self.new.heard_all ≡ self.old.heard_all }
        ensures sent_all { self.new.sent_all ≡ self.old.sent_all }
        ensures is_sending { self.new.is_sending ≡ true }
    {
        self.is_sending = true;
        if is_late(self.clock.now(), self.sent_all) {
            return Ok(());
        }
        self.link.send(frame)
    }
}

/// Whether too long has passed, now, since an earlier reading.
fn is_late(now: u64, after: u64) -> bool
    ensures late { result ≡ true → after + timely.longest_wait < now }
    ensures in_time { result ≡ false → now ≤ after + timely.longest_wait }
{
    now.saturating_sub(after) > LONGEST_WAIT
}

/// What is handed on of an item.
fn handed_on(now: u64, after: u64, item: Received) -> Received
    ensures { timely.IsHandedOn now after item result }
{
    match item {
        Received::Nothing => Received::Nothing,
        Received::Junk => Received::Junk,
        Received::Frame(frame) => {
            if is_late(now, after) {
                Received::Junk
            } else {
                Received::Frame(frame)
            }
        }
    }
}

/// After which reading all came that waits behind an item.
fn waits_since(before: u64, after: u64, item: Received) -> u64
    ensures { result ≡ timely.waits_since before after item }
{
    match item {
        Received::Nothing => before,
        Received::Junk | Received::Frame(_) => after,
    }
}

/// How many calls in a row found nothing, with one that gave this item.
fn idle_after(idle: usize, item: Received) -> usize
    ensures { result ≡ timely.idle_after idle item }
{
    match item {
        Received::Nothing => idle.saturating_add(1),
        Received::Junk | Received::Frame(_) => 0,
    }
}
