ghost use Rattle.std.specs.Prelude.{◌≡◌, ◌≤◌, ◌<◌, ℕ, ◌||◌, Bool, true, false, not, List, Option, None, length, replicate, IsErr, IsSome, IfOk, IfErr, OnOk, OnErr};
ghost use Rattle.can_frame.specs.Sizes.{most_members, node_ids};
ghost use Rattle.outside.specs.Contents.{WhereTold};
ghost use Rattle.outside.specs.Faults.{HasCause, Rose, counted, one_more};
ghost use Rattle.outside.specs.Traffic.{Receives, Sends};
ghost use Rattle.outside.specs.declared.received.Received.{Received};
ghost use Rattle.outside.specs.declared.received.RawFrame.{RawFrame};
ghost use Rattle.told_link.specs.Following.{answered_of, is_followed, noted};
ghost use Rattle.told_link.specs.Following as followings;
ghost use Rattle.told_link.specs.Hearing.{FailsToHear, GoesOut, Hears, IsHeardAt, IsPassedOver, IsSent, known_of, wants_followers};
ghost use Rattle.told_link.specs.Silence.{answers_count, heard_at as known_at};

use crate::following::{agrees, gives_node_id, is_followed};
use crate::silence::{Heard, counts, heard_at};
use crate::voice::{Voice, voice_of};
use arrayvec::ArrayVec;
use can_frame::sizes::{MOST_MEMBERS, NODE_IDS};
use outside::{Clock, Failed, Link, RawFrame, Received};

/// A link over another one, for a member that is told the list of its cluster. Once it has heard a stranger, each call
/// fails: a frame with the member's own node ID; or one of a node that is not on the list, which members alone send, or
/// by which the node answers this member as an allocator. An answer to a call of AppendEntries that comes shortly
/// behind a silence of its sender is junk: it may have been held since an earlier call. A frame by which a leader gives
/// a node ID goes out only where, with itself, more than half of the list follow it. A member that is told no list has
/// an empty one: all is handed on, and no clock is read.
///
/// It tells no contents; its clauses say what it makes of those of the link and the clock below.
#[derive(Drop)]
pub struct ToldLink<L, C> {
    link: L,
    clock: C,
    me: u8,
    ids: ArrayVec<u8, MOST_MEMBERS>,

    /// What is known of each other member, by its node ID.
    known: [Option<Heard>; NODE_IDS],

    /// The reading at the last answer of each other member that was handed on and said that the logs agree.
    answered: [Option<u64>; NODE_IDS],

    /// The identifier of the frame by which a stranger was heard.
    stranger: Option<u32>,

    /// Whether a frame was withheld since the last call of `recv`: others may wait behind it.
    has_withheld: bool,
    faults: u64,
    ghost all: { length known ≡ node_ids },
    ghost each: { length answered ≡ node_ids },
}

impl<L: Link, C: Clock> ToldLink<L, C> {
    /// This link, for the member with a node ID that is told a list. Nobody was heard yet.
    pub fn new(link: L, clock: C, me: u8, ids: &[u8]) -> ToldLink<L, C>
        requires { length ids.now ≤ most_members }
        ensures link { result.link ≡ link }
        ensures clock { result.clock ≡ clock }
        ensures me { result.me ≡ me }
        ensures ids { result.ids.items ≡ ids.now }
        ensures known { result.known ≡ replicate node_ids None }
        ensures answered { result.answered ≡ replicate node_ids None }
        ensures stranger { result.stranger ≡ None }
        ensures has_withheld { result.has_withheld ≡ false }
        ensures faults { result.faults ≡ 0 }
    {
        let mut list = ArrayVec::new();
        list.try_extend_from_slice(ids).unwrap();
        ToldLink {
            link,
            clock,
            me,
            ids: list,
            known: [None; NODE_IDS],
            answered: [None; NODE_IDS],
            stranger: None,
            has_withheld: false,
            faults: 0,
        }
    }

    /// The node ID of its member.
    pub fn member(&self) -> u8
        ensures { result ≡ self.now.me }
    {
        self.me
    }

    /// The identifier of the frame by which a stranger was heard, if one was.
    pub fn stranger(&self) -> Option<u32>
        ensures { result ≡ self.now.stranger }
    {
        self.stranger
    }
}

impl<L: Link, C: Clock> Link for ToldLink<L, C> {
    ghost coming = { λ _. None };

    ghost sent = { λ _. None };

    ghost faults = { λ l. l.faults };

    /// It fails where the link below does, and from the first frame of a stranger on, without asking the link below. That
    /// is not asked either by the first call behind a frame that was withheld, which gives nothing.
    fn recv(&mut self) -> Result<Received, Failed>
        ensures items { WhereTold {A = List Received} (Receives result) None None }
        ensures cause { HasCause self.old.faults self.new.faults result }
        ensures kept { OnOk result (self.new.faults ≡ self.old.faults) }
        ensures faults { self.new.faults ≡ counted result self.old.faults }
        // What the link below gave, and what is made of it.
        ensures hears { self.old.has_withheld ≡ false → IfOk result (λ handed. Hears C.readings
            self.old.clock self.new.clock self.old.known self.new.known self.old.answered self.new.answered
            (L.coming self.old.link) (L.coming self.new.link) self.old.me self.old.ids.items handed) }
        ensures passed_over { self.old.stranger ≡ None → self.old.has_withheld ≡ true →
            IsPassedOver self.old.link self.new.link self.old.clock self.new.clock self.old.known self.new.known
            self.old.answered self.new.answered result }
        ensures has_withheld { OnOk result (self.new.has_withheld ≡ false) }
        ensures stranger { OnOk result ((self.old.stranger ≡ None) × (self.new.stranger ≡ None)) }
        ensures below { OnOk result (L.faults self.new.link ≡ L.faults self.old.link) }
        ensures ends { IfErr result (λ error. self.old.stranger ≡ None →
            FailsToHear (L.faults self.old.link) (L.faults self.new.link) (L.coming self.old.link)
            (L.coming self.new.link) self.old.me self.old.ids.items self.new.stranger error) }
        ensures ended { IsSome self.old.stranger → IsErr result × (self.new.link ≡ self.old.link)
            × (self.new.stranger ≡ self.old.stranger) }
        ensures unheard { OnErr result ((self.new.clock ≡ self.old.clock) × (self.new.known ≡ self.old.known)
            × (self.new.answered ≡ self.old.answered) × (self.new.has_withheld ≡ self.old.has_withheld)) }
        ensures unsent { L.sent self.new.link ≡ L.sent self.old.link }
        ensures me { self.new.me ≡ self.old.me }
        ensures ids { self.new.ids ≡ self.old.ids }
    {
        if self.stranger.is_some() {
            return Err(self.fault());
        }
        if self.has_withheld {
            self.has_withheld = false;
            return Ok(Received::Nothing);
        }
        let Ok(item) = self.link.recv() else {
            return Err(self.fault());
        };
        let Received::Frame(frame) = item else {
            return Ok(item);
        };
        match voice_of(self.me, &self.ids, &frame) {
            Voice::Stranger => {
                self.stranger = Some(frame.id);
                Err(self.fault())
            }
            Voice::Answer(node) => {
                let now = self.clock.now();
                if hear(&mut self.known, node, now) {
                    note(&mut self.answered, node, now, &frame);
                    Ok(item)
                } else {
                    Ok(Received::Junk)
                }
            }
            Voice::Member(node) => {
                hear(&mut self.known, node, self.clock.now());
                Ok(item)
            }
            Voice::Other => Ok(item),
        }
    }

    /// It fails where the link below does, and where a stranger was heard: nothing is sent then. A frame that gives a
    /// node ID is left out where not more than half of the list follow.
    fn send(&mut self, frame: &RawFrame) -> Result<(), Failed>
        ensures frames { WhereTold {A = List RawFrame} (Sends frame.now result) None None }
        ensures cause { HasCause self.old.faults self.new.faults result }
        ensures kept { OnOk result (self.new.faults ≡ self.old.faults) }
        ensures faults { self.new.faults ≡ counted result self.old.faults }
        // Whether it goes, and what the link below makes of it then.
        ensures goes { self.old.stranger ≡ None → (goes : Bool) × GoesOut C.readings self.old.clock self.new.clock
            self.old.me self.old.ids.items self.old.answered (wants_followers self.old.ids.items frame.now) goes
            × IsSent L.sent L.faults self.old.link self.new.link frame.now result goes
            × (self.new.has_withheld ≡ (self.old.has_withheld || not goes)) }
        ensures ended { IsSome self.old.stranger → IsErr result × (self.new.link ≡ self.old.link)
            × (self.new.clock ≡ self.old.clock) × (self.new.has_withheld ≡ self.old.has_withheld) }
        ensures coming { L.coming self.new.link ≡ L.coming self.old.link }
        ensures stranger { self.new.stranger ≡ self.old.stranger }
        ensures known { self.new.known ≡ self.old.known }
        ensures answered { self.new.answered ≡ self.old.answered }
        ensures me { self.new.me ≡ self.old.me }
        ensures ids { self.new.ids ≡ self.old.ids }
    {
        if self.stranger.is_some() {
            return Err(self.fault());
        }
        if !self.goes(frame) {
            self.has_withheld = true;
            return Ok(());
        }
        match self.link.send(frame) {
            Ok(()) => Ok(()),
            Err(Failed) => Err(self.fault()),
        }
    }
}

impl<L, C: Clock> ToldLink<L, C> {
    /// Whether a frame of its member goes out now.
    fn goes(&mut self, frame: &RawFrame) -> bool
        ensures goes { GoesOut C.readings self.old.clock self.new.clock self.old.me self.old.ids.items
            self.old.answered (wants_followers self.old.ids.items frame.now) result }
        ensures link { self.new.link ≡ self.old.link }
        ensures me { self.new.me ≡ self.old.me }
        ensures ids { self.new.ids ≡ self.old.ids }
        ensures known { self.new.known ≡ self.old.known }
        ensures answered { self.new.answered ≡ self.old.answered }
        ensures stranger { self.new.stranger ≡ self.old.stranger }
        ensures has_withheld { self.new.has_withheld ≡ self.old.has_withheld }
        ensures faults { self.new.faults ≡ self.old.faults }
    {
        if self.ids.is_empty() || !gives_node_id(frame) {
            return true;
        }
        is_followed(self.clock.now(), self.me, &self.ids, &self.answered)
    }
}

impl<L, C> ToldLink<L, C> {
    /// Counts a call that failed.
    fn fault(&mut self) -> Failed
        ensures later { self.old.faults ≤ self.new.faults }
        ensures faults { self.new.faults ≡ one_more self.old.faults }
        ensures link { self.new.link ≡ self.old.link }
        ensures clock { self.new.clock ≡ self.old.clock }
        ensures me { self.new.me ≡ self.old.me }
        ensures ids { self.new.ids ≡ self.old.ids }
        ensures known { self.new.known ≡ self.old.known }
        ensures answered { self.new.answered ≡ self.old.answered }
        ensures stranger { self.new.stranger ≡ self.old.stranger }
        ensures has_withheld { self.new.has_withheld ≡ self.old.has_withheld }
    {
        self.faults = self.faults.saturating_add(1);
        Failed
    }
}

/// A frame of a node comes now: what is known of the node then, and whether its answers count.
fn hear(known: &mut [Option<Heard>; NODE_IDS], node: u8, now: u64) -> bool
    requires all { length known.old ≡ node_ids }
    requires node { node < node_ids }
    ensures all { length known.new ≡ node_ids }
    ensures heard { IsHeardAt node now known.old known.new }
    ensures counts { result ≡ answers_count now (known_at now (known_of known.old node)) }
{
    let heard = heard_at(now, known[usize::from(node)]);
    known[usize::from(node)] = Some(heard);
    counts(now, heard)
}

/// An answer of a node is handed on now: it is noted where it says that the logs agree.
fn note(answered: &mut [Option<u64>; NODE_IDS], node: u8, now: u64, answer: &RawFrame)
    requires all { length answered.old ≡ node_ids }
    requires node { node < node_ids }
    ensures all { length answered.new ≡ node_ids }
    ensures noted { answered.new ≡ noted node now (followings.agrees answer.now) answered.old }
{
    if agrees(answer) {
        answered[usize::from(node)] = Some(now);
    }
}
