ghost use Rattle.std.specs.Prelude.{◌≡◌, ◌↔◌, ℕ, ◌≤◌, ◌⊎◌, length, List, [], Option, Some, IsErr, OnOk, true};
ghost use Rattle.arrayvec.specs.ArrayVec.{array_vec_len};
ghost use Rattle.outside.specs.Contents.{WhereTold, MemoryTraffic};
ghost use Rattle.outside.specs.Faults.{HasCause, counted, one_more};
ghost use Rattle.outside.specs.Traffic.{Receives, Sends, most_sent};
ghost use Rattle.outside.specs.declared.received.RawFrame.{RawFrame};
ghost use Rattle.outside.specs.declared.received.Received.{Received};

use crate::{Failed, RawFrame, Received};
use arrayvec::ArrayVec;
use std::marker::Model;

/// Where frames come from and go to, without waiting.
pub trait Link {
    /// The items still to come, where the link tells them. A gap among them is [`Received::Nothing`].
    ghost coming: { Self → Option (List Received) };

    /// The frames sent, where the link tells them.
    ghost sent: { Self → Option (List RawFrame) };

    /// How many of its calls failed.
    ghost faults: { Self → ℕ };

    /// Takes the next item. [`Received::Nothing`] is no failure: nothing came since the last call.
    fn recv(&mut self) -> Result<Received, Failed>
        ensures items { WhereTold (Receives result) (coming self.old) (coming self.new) }
        ensures sent { sent self.new ≡ sent self.old }
        ensures cause { HasCause (faults self.old) (faults self.new) result }
        ensures kept { OnOk result (faults self.new ≡ faults self.old) };

    /// Sends a frame to all others on the link. Nobody needs to listen.
    fn send(&mut self, frame: &RawFrame) -> Result<(), Failed>
        ensures frames { WhereTold (Sends frame.now result) (sent self.old) (sent self.new) }
        ensures items { coming self.new ≡ coming self.old }
        ensures cause { HasCause (faults self.old) (faults self.new) result }
        ensures kept { OnOk result (faults self.new ≡ faults self.old) };
}

/// How many frames a link in memory keeps.
const MOST_SENT: usize = 256;

/// The items of a slice, and the frames that were sent. One call can be made to fail, for tests.
#[derive(Drop)]
pub struct MemoryLink<'a> {
    items: &'a [Received],
    sent: ArrayVec<RawFrame, MOST_SENT>,
    fail_at: Option<u64>,
    calls: u64,
    faults: u64,
}

impl<'a> Model for MemoryLink<'a> {
    ghost Value = { MemoryTraffic };

    ghost view = { λ l. record {
      coming = l.items.now;
      sent = l.sent.items;
      fail_at = l.fail_at;
      calls = l.calls;
      faults = l.faults;
    } };

    ghost invariant = { λ l. array_vec_len l.sent ≤ most_sent };
}

impl<'a> MemoryLink<'a> {
    /// A link to which these items come, in their order, and then nothing. Calls of `recv` and `send`
    /// are counted together from 1: the one with the number `fail_at` fails, and takes or sends
    /// nothing. It keeps 256 frames; a further `send` fails too.
    pub fn new(items: &'a [Received], fail_at: Option<u64>) -> MemoryLink<'a>
        ensures { result
            ≡ record {
              coming = items.entry.now;
              sent = [];
              fail_at = fail_at;
              calls = 0;
              faults = 0;
            } }
    {
        MemoryLink {
            items,
            sent: ArrayVec::new(),
            fail_at,
            calls: 0,
            faults: 0,
        }
    }

    /// The frames sent so far.
    pub fn sent(&self) -> &[RawFrame]
        ensures { result.now ≡ self.now.sent }
    {
        &self.sent
    }

    /// Counts a call, and tells whether it is the one that fails.
    fn is_to_fail(&mut self) -> bool
        ensures calls { self.new ≡ record self.old { calls = one_more self.old.calls } }
        ensures fails { (result ≡ true) ↔ (self.old.fail_at ≡ Some self.new.calls) }
    {
        self.calls = self.calls.saturating_add(1);
        self.fail_at == Some(self.calls)
    }

    /// Counts a call that failed.
    fn fault(&mut self) -> Failed
        ensures faults { self.new ≡ record self.old { faults = one_more self.old.faults } }
        ensures later { self.old.faults ≤ self.new.faults }
    {
        self.faults = self.faults.saturating_add(1);
        Failed
    }
}

impl Link for MemoryLink<'_> {
    ghost coming = { λ l. Some l.coming };

    ghost sent = { λ l. Some l.sent };

    ghost faults = { λ l. l.faults };

    fn recv(&mut self) -> Result<Received, Failed>
        ensures items { Receives result self.old.coming self.new.coming }
        ensures sent { self.new.sent ≡ self.old.sent }
        ensures cause { HasCause self.old.faults self.new.faults result }
        ensures kept { OnOk result (self.new.faults ≡ self.old.faults) }
        ensures faults { self.new.faults ≡ counted result self.old.faults }
        ensures calls { self.new.calls ≡ one_more self.old.calls }
        ensures setting { self.new.fail_at ≡ self.old.fail_at }
        ensures fails { IsErr result ↔ (self.old.fail_at ≡ Some self.new.calls) }
    {
        if self.is_to_fail() {
            return Err(self.fault());
        }
        match self.items {
            [] => Ok(Received::Nothing),
            [first, rest @ ..] => {
                self.items = rest;
                Ok(*first)
            }
        }
    }

    fn send(&mut self, frame: &RawFrame) -> Result<(), Failed>
        ensures frames { Sends frame.now result self.old.sent self.new.sent }
        ensures items { self.new.coming ≡ self.old.coming }
        ensures cause { HasCause self.old.faults self.new.faults result }
        ensures kept { OnOk result (self.new.faults ≡ self.old.faults) }
        ensures faults { self.new.faults ≡ counted result self.old.faults }
        ensures calls { self.new.calls ≡ one_more self.old.calls }
        ensures setting { self.new.fail_at ≡ self.old.fail_at }
        ensures fails { IsErr result
            ↔ ((self.old.fail_at ≡ Some self.new.calls) ⊎ (most_sent ≤ length self.old.sent)) }
    {
        if self.is_to_fail() || self.sent.is_full() {
            return Err(self.fault());
        }
        self.sent.push(*frame);
        Ok(())
    }
}
