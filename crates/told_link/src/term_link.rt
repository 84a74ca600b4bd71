ghost use Rattle.std.specs.Prelude.{◌≡◌, ◌≤◌, List, Option, None, length, IfOk, OnErr, OnOk};
ghost use Rattle.can_frame.specs.Sizes.{most_members};
ghost use Rattle.outside.specs.Contents.{WhereTold};
ghost use Rattle.outside.specs.Faults.{HasCause};
ghost use Rattle.outside.specs.Traffic.{Receives, Sends};
ghost use Rattle.outside.specs.declared.received.Received.{Received};
ghost use Rattle.told_link.specs.Taking.{IsTold, Takes};
ghost use Rattle.told_link.specs.Terms as terms;

use crate::terms::{Ceiling, ceiling_above, ceiling_for, first_term, is_below_ceiling, term_to};
use arrayvec::ArrayVec;
use can_frame::sizes::MOST_MEMBERS;
use outside::{Clock, Failed, Link, RawFrame, Received};

/// A link over another one, for a member that is told the list of its cluster. The first frame of a call or an answer
/// whose term is above the ceiling is junk, so that the rest of it makes no transfer. What its member sends goes as it
/// is. A member that is told no list has an empty one: all is handed on to it, and no clock is read.
///
/// What is sent and what fails is that of the link below. It does not tell what comes; its clauses say what it makes of
/// that.
#[derive(Drop)]
pub struct TermLink<L, C> {
    link: L,
    clock: C,
    me: u8,
    ids: ArrayVec<u8, MOST_MEMBERS>,

    /// What is known of terms, once the member has sent one.
    ceiling: Option<Ceiling>,
}

impl<L: Link, C: Clock> TermLink<L, C> {
    /// This link, for the member with a node ID that is told a list. It has sent no term yet.
    pub fn new(link: L, clock: C, me: u8, ids: &[u8]) -> TermLink<L, C>
        requires { length ids.now ≤ most_members }
        ensures link { result.link ≡ link }
        ensures clock { result.clock ≡ clock }
        ensures me { result.me ≡ me }
        ensures ids { result.ids.items ≡ ids.now }
        ensures ceiling { result.ceiling ≡ None }
    {
        let mut list = ArrayVec::new();
        list.try_extend_from_slice(ids).unwrap();
        TermLink {
            link,
            clock,
            me,
            ids: list,
            ceiling: None,
        }
    }
}

impl<L: Link, C: Clock> Link for TermLink<L, C> {
    ghost coming = { λ _. None };

    ghost sent = { λ l. L.sent l.link };

    ghost faults = { λ l. L.faults l.link };

    /// It fails where the link below does.
    fn recv(&mut self) -> Result<Received, Failed>
        ensures items { WhereTold {A = List Received} (Receives result) None None }
        ensures cause { HasCause (L.faults self.old.link) (L.faults self.new.link) result }
        ensures kept { OnOk result (L.faults self.new.link ≡ L.faults self.old.link) }
        // What the link below gave, and what is made of it.
        ensures takes { IfOk result (λ handed. Takes C.readings self.old.clock self.new.clock
            self.old.ceiling self.new.ceiling (L.coming self.old.link) (L.coming self.new.link)
            self.old.me self.old.ids.items handed) }
        ensures failed { OnErr result (WhereTold (Receives result) (L.coming self.old.link) (L.coming self.new.link)) }
        ensures unheard { OnErr result ((self.new.clock ≡ self.old.clock) × (self.new.ceiling ≡ self.old.ceiling)) }
        ensures unsent { L.sent self.new.link ≡ L.sent self.old.link }
        ensures me { self.new.me ≡ self.old.me }
        ensures ids { self.new.ids ≡ self.old.ids }
    {
        let item = self.link.recv()?;
        let Some(term) = term_to(self.me, &self.ids, &item) else {
            return Ok(item);
        };
        self.ceiling = ceiling_for(self.clock.now(), term, self.ceiling);
        if is_below_ceiling(term, self.ceiling) {
            Ok(item)
        } else {
            Ok(Received::Junk)
        }
    }

    /// It fails where the link below does.
    fn send(&mut self, frame: &RawFrame) -> Result<(), Failed>
        ensures frames { WhereTold (Sends frame.now result) (L.sent self.old.link) (L.sent self.new.link) }
        ensures cause { HasCause (L.faults self.old.link) (L.faults self.new.link) result }
        ensures kept { OnOk result (L.faults self.new.link ≡ L.faults self.old.link) }
        ensures told { OnOk result (IsTold C.readings self.old.clock self.new.clock self.old.ceiling self.new.ceiling
            (terms.first_term self.old.ids.items self.old.ceiling frame.now)) }
        ensures untold { OnErr result ((self.new.clock ≡ self.old.clock) × (self.new.ceiling ≡ self.old.ceiling)) }
        ensures coming { L.coming self.new.link ≡ L.coming self.old.link }
        ensures me { self.new.me ≡ self.old.me }
        ensures ids { self.new.ids ≡ self.old.ids }
    {
        self.link.send(frame)?;
        if let Some(term) = first_term(&self.ids, self.ceiling, frame) {
            self.ceiling = Some(ceiling_above(self.clock.now(), u64::from(term)));
        }
        Ok(())
    }
}
