ghost use Rattle.std.specs.Prelude.{◌≡◌, ◌≤◌, ◌<◌, ℕ, List, Option, None, length, IfOk, OnErr, OnOk, true};
ghost use Rattle.can_frame.specs.Sizes.{most_members, node_ids};
ghost use Rattle.outside.specs.Contents.{WhereTold};
ghost use Rattle.outside.specs.Faults.{HasCause};
ghost use Rattle.outside.specs.Readings.{Reads};
ghost use Rattle.outside.specs.Traffic.{Receives, Sends};
ghost use Rattle.outside.specs.declared.received.Received.{Received};
ghost use Rattle.newcomer_link.specs.Admission.{IsRefreshed, IsRuled, LetsIn};
ghost use Rattle.newcomer_link.specs.Standing.{is_reading_due, standing_at};
ghost use Rattle.newcomer_link.specs.declared.approach.Approach.TheVariants.{Shows};

use crate::approach::{Approach, approach_in};
use crate::log::log_of;
use crate::newcomers::Newcomers;
use arrayvec::ArrayVec;
use can_frame::sizes::MOST_MEMBERS;
use disk_model::Disk;
use outside::{Clock, Failed, Link, RawFrame, Received};

/// A link over another one, for a member that is told the list of its cluster. A frame of a newcomer for whom there is
/// no room is junk: a NodeStatus of a node that its log does not have, and a request with a unique ID that it does not
/// have. What its member sends goes as it is. A member that is told no list has an empty one: all is handed on to it,
/// and no clock and no store is read behind the first reading of the clock.
///
/// What is sent and what fails is that of the link below; a store that cannot be read is no fault of the link. It does
/// not tell what comes; its clauses say what it makes of that.
#[derive(Drop)]
pub struct NewcomerLink<L, C, D> {
    link: L,
    clock: C,

    /// The store of its member, to be read.
    place: Option<D>,
    ids: ArrayVec<u8, MOST_MEMBERS>,
    newcomers: Newcomers,
}

impl<L: Link, C: Clock, D: Disk> NewcomerLink<L, C, D> {
    /// This link, for a member that is told a list, whose store is on the disk at this place. The limit is set at the
    /// first reading of the clock.
    pub fn new(link: L, clock: C, place: Option<D>, ids: &[u8]) -> NewcomerLink<L, C, D>
        requires { length ids.now ≤ most_members }
        ensures link { result.link ≡ link }
        ensures place { result.place ≡ place }
        ensures ids { result.ids.items ≡ ids.now }
        ensures newcomers { WhereTold (Reads result.newcomers.since) (C.readings clock) (C.readings result.clock) }
        ensures standing { result.newcomers ≡ standing_at result.newcomers.since }
    {
        let mut clock = clock;
        let now = clock.now();
        let mut list = ArrayVec::new();
        list.try_extend_from_slice(ids).unwrap();
        NewcomerLink {
            link,
            clock,
            place,
            ids: list,
            newcomers: Newcomers::new(now),
        }
    }

    /// Whether one who comes now is let in. The log is read first, where that is due.
    fn rule(&mut self, now: u64, approach: Approach) -> bool
        requires { (node : ℕ) → approach ≡ Shows node → node < node_ids }
        ensures ruled { IsRuled D.Disk now self.old.place self.new.place approach self.old.newcomers
            self.new.newcomers result }
        ensures link { self.new.link ≡ self.old.link }
        ensures clock { self.new.clock ≡ self.old.clock }
        ensures ids { self.new.ids ≡ self.old.ids }
    {
        self.refresh(now);
        self.newcomers.rule(now, approach)
    }

    /// Reads the log, where that is due.
    fn refresh(&mut self, now: u64)
        ensures refreshed { IsRefreshed D.Disk now self.old.place self.new.place
            (is_reading_due now self.old.newcomers.read_at) self.old.newcomers self.new.newcomers }
        ensures link { self.new.link ≡ self.old.link }
        ensures clock { self.new.clock ≡ self.old.clock }
        ensures ids { self.new.ids ≡ self.old.ids }
    {
        if self.newcomers.is_reading_due(now) {
            self.read(now);
        }
    }
}

impl<L, C, D: Disk> NewcomerLink<L, C, D> {
    fn read(&mut self, now: u64)
        ensures refreshed { IsRefreshed D.Disk now self.old.place self.new.place true self.old.newcomers
            self.new.newcomers }
        ensures link { self.new.link ≡ self.old.link }
        ensures clock { self.new.clock ≡ self.old.clock }
        ensures ids { self.new.ids ≡ self.old.ids }
    {
        let log = log_of(&mut self.place);
        self.newcomers.read(now, log);
    }
}

impl<L: Link, C: Clock, D: Disk> Link for NewcomerLink<L, C, D> {
    ghost coming = { λ _. None };

    ghost sent = { λ l. L.sent l.link };

    ghost faults = { λ l. L.faults l.link };

    /// It fails where the link below does.
    fn recv(&mut self) -> Result<Received, Failed>
        ensures items { WhereTold {A = List Received} (Receives result) None None }
        ensures cause { HasCause (L.faults self.old.link) (L.faults self.new.link) result }
        ensures kept { OnOk result (L.faults self.new.link ≡ L.faults self.old.link) }
        // What the link below gave, and what is made of it.
        ensures lets_in { IfOk result (λ handed. LetsIn C.readings self.old.clock self.new.clock D.Disk
            self.old.place self.new.place self.old.newcomers self.new.newcomers
            (L.coming self.old.link) (L.coming self.new.link) self.old.ids.items handed) }
        ensures failed { OnErr result (WhereTold (Receives result) (L.coming self.old.link) (L.coming self.new.link)) }
        ensures unheard { OnErr result ((self.new.clock ≡ self.old.clock) × (self.new.place ≡ self.old.place)
            × (self.new.newcomers ≡ self.old.newcomers)) }
        ensures unsent { L.sent self.new.link ≡ L.sent self.old.link }
        ensures ids { self.new.ids ≡ self.old.ids }
    {
        let item = self.link.recv()?;
        let Some(approach) = approach_in(&self.ids, &item) else {
            return Ok(item);
        };
        if self.newcomers.is_known(approach) {
            return Ok(item);
        }
        let now = self.clock.now();
        if self.rule(now, approach) {
            Ok(item)
        } else {
            Ok(Received::Junk)
        }
    }

    /// It fails where the link below does.
    fn send(&mut self, frame: &RawFrame) -> Result<(), Failed>
        ensures frames { WhereTold (Sends frame.now result) (L.sent self.old.link) (L.sent self.new.link) }
        ensures cause { HasCause (L.faults self.old.link) (L.faults self.new.link) result }
        ensures kept { OnOk result (L.faults self.new.link ≡ L.faults self.old.link) }
        ensures coming { L.coming self.new.link ≡ L.coming self.old.link }
        ensures clock { self.new.clock ≡ self.old.clock }
        ensures place { self.new.place ≡ self.old.place }
        ensures newcomers { self.new.newcomers ≡ self.old.newcomers }
        ensures ids { self.new.ids ≡ self.old.ids }
    {
        self.link.send(frame)
    }
}
