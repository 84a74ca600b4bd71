ghost use Rattle.std.specs.Prelude.{◌≡◌, ◌<◌, ◌||◌, Bool, true, false, not, List, Option, None, Ok, length, replicate, IfOk, OnErr, OnOk};
ghost use Rattle.outside.specs.Contents.{WhereTold};
ghost use Rattle.outside.specs.Faults.{HasCause};
ghost use Rattle.outside.specs.Traffic.{Receives, Sends};
ghost use Rattle.outside.specs.declared.received.RawFrame.{RawFrame};
ghost use Rattle.outside.specs.declared.received.Received.{Received};
ghost use Rattle.outside.specs.declared.received.Received.TheVariants.{Nothing};
ghost use Rattle.spaced_link.specs.LeftOut.{FrameGoes, GoesSpaced};
ghost use Rattle.spaced_link.specs.Spacing as spacings;
ghost use Rattle.told_link.specs.Hearing.{IsSent};

use crate::spacing::{ALL_IDS, allocation_tail, has_rested, is_under_way, under_way_behind};
use outside::{Clock, Failed, Link, RawFrame, Received};

/// A link over another one, for a member that is told the list of its cluster. An Allocation whose transfer ID went out
/// with another one less than 8 s before is left out, with all its frames: it is as good as lost, and who asked for it
/// asks again. All that comes is handed on. A member that is told no list says so: all it sends goes as it is, and no
/// clock is read.
///
/// What fails is the link below. It tells no contents; its clauses say what it makes of those of the link and the clock
/// below.
#[derive(Drop)]
pub struct SpacedLink<L, C> {
    link: L,
    clock: C,

    /// Whether its member is told the list.
    is_told: bool,

    /// The reading at which the first frame of an Allocation with each transfer ID went out last.
    last: [Option<u64>; ALL_IDS],

    /// The transfer ID of the Allocation that is on its way out: its first frame was let out, and its last one did not
    /// come yet.
    under_way: Option<u8>,

    /// Whether a frame was left out since the last call of `recv`. To a link below, a call of `recv` with none of
    /// `send` since the one before says that no frame waits to be sent: so the next one does not reach it.
    has_left_out: bool,
    ghost all: { length last ≡ 32 },
}

impl<L: Link, C: Clock> SpacedLink<L, C> {
    /// This link, for a member that is told the list of its cluster, or is not. It has sent no Allocation yet.
    pub fn new(link: L, clock: C, is_told: bool) -> SpacedLink<L, C>
        ensures link { result.link ≡ link }
        ensures clock { result.clock ≡ clock }
        ensures is_told { result.is_told ≡ is_told }
        ensures last { result.last ≡ replicate 32 None }
        ensures under_way { result.under_way ≡ None }
        ensures has_left_out { result.has_left_out ≡ false }
    {
        SpacedLink {
            link,
            clock,
            is_told,
            last: [None; ALL_IDS],
            under_way: None,
            has_left_out: false,
        }
    }
}

impl<L: Link, C: Clock> Link for SpacedLink<L, C> {
    ghost coming = { λ _. None };

    ghost sent = { λ _. None };

    ghost faults = { λ l. L.faults l.link };

    /// It fails where the link below does. That is not asked by the first call behind a frame that was left out, which
    /// gives nothing.
    fn recv(&mut self) -> Result<Received, Failed>
        ensures items { WhereTold {A = List Received} (Receives result) None None }
        ensures cause { HasCause (L.faults self.old.link) (L.faults self.new.link) result }
        ensures kept { OnOk result (L.faults self.new.link ≡ L.faults self.old.link) }
        ensures heard { self.old.has_left_out ≡ false →
            WhereTold (Receives result) (L.coming self.old.link) (L.coming self.new.link) }
        ensures passed_over { self.old.has_left_out ≡ true →
            (result ≡ Ok Nothing) × (self.new.link ≡ self.old.link) }
        ensures has_left_out { self.new.has_left_out ≡ false }
        ensures unsent { L.sent self.new.link ≡ L.sent self.old.link }
        ensures clock { self.new.clock ≡ self.old.clock }
        ensures is_told { self.new.is_told ≡ self.old.is_told }
        ensures last { self.new.last ≡ self.old.last }
        ensures under_way { self.new.under_way ≡ self.old.under_way }
    {
        if self.has_left_out {
            self.has_left_out = false;
            return Ok(Received::Nothing);
        }
        self.link.recv()
    }

    /// It fails where the link below does. A frame that is left out is none of its frames, and the answer is `Ok`. One
    /// at which the link below failed counts as gone out.
    fn send(&mut self, frame: &RawFrame) -> Result<(), Failed>
        ensures frames { WhereTold {A = List RawFrame} (Sends frame.now result) None None }
        ensures cause { HasCause (L.faults self.old.link) (L.faults self.new.link) result }
        ensures kept { OnOk result (L.faults self.new.link ≡ L.faults self.old.link) }
        // Whether it goes, and what the link below makes of it then.
        ensures goes { (goes : Bool) × GoesSpaced C.readings self.old.clock self.new.clock self.old.last self.new.last
            self.old.under_way self.new.under_way (spacings.allocation_tail self.old.is_told frame.now) goes
            × IsSent L.sent L.faults self.old.link self.new.link frame.now result goes
            × (self.new.has_left_out ≡ (self.old.has_left_out || not goes)) }
        ensures coming { L.coming self.new.link ≡ L.coming self.old.link }
        ensures is_told { self.new.is_told ≡ self.old.is_told }
    {
        if !self.goes(frame) {
            self.has_left_out = true;
            return Ok(());
        }
        self.link.send(frame)
    }
}

impl<L, C: Clock> SpacedLink<L, C> {
    /// Whether a frame of its member goes out now.
    fn goes(&mut self, frame: &RawFrame) -> bool
        ensures goes { GoesSpaced C.readings self.old.clock self.new.clock self.old.last self.new.last
            self.old.under_way self.new.under_way (spacings.allocation_tail self.old.is_told frame.now) result }
        ensures link { self.new.link ≡ self.old.link }
        ensures is_told { self.new.is_told ≡ self.old.is_told }
        ensures has_left_out { self.new.has_left_out ≡ self.old.has_left_out }
    {
        let Some(tail) = allocation_tail(self.is_told, frame) else {
            return true;
        };
        let goes = self.is_let_out(tail.id, tail.start);
        self.under_way = under_way_behind(tail, goes);
        goes
    }

    /// Whether a frame of an Allocation with this transfer ID goes out now, which begins it or does not.
    fn is_let_out(&mut self, id: u8, start: bool) -> bool
        requires { id < 32 }
        ensures goes { FrameGoes C.readings self.old.clock self.new.clock self.old.last self.new.last
            self.old.under_way id start result }
        ensures link { self.new.link ≡ self.old.link }
        ensures is_told { self.new.is_told ≡ self.old.is_told }
        ensures under_way { self.new.under_way ≡ self.old.under_way }
        ensures has_left_out { self.new.has_left_out ≡ self.old.has_left_out }
    {
        if !start {
            return is_under_way(self.under_way, id);
        }
        let now = self.clock.now();
        let goes = has_rested(now, self.last[usize::from(id)]);
        if goes {
            self.last[usize::from(id)] = Some(now);
        }
        goes
    }
}
