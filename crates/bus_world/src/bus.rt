//! The rows by which frames come to the bus and from it.

ghost use Rattle.std.specs.Prelude.{◌≡◌, ◌≤◌, ◌<◌, ◌+◌, ◌++◌, ◌∷◌, [], None, Some, IfOk, IfErr, IsErr, OnOk, length, vec_capacity};
ghost use Rattle.can_frame.specs.Identifier.{identifier_of};
ghost use Rattle.bus_rows.specs.declared.row.Row.TheVariants.{Rx, Send, Ext};
ghost use Rattle.alloc_server.specs.Server.{event_of};
ghost use Rattle.bus_spec.specs.Cluster.{Cluster, receipt_of};
ghost use Rattle.bus_spec.specs.Lawful.{cause, is_forged, no_node, not_running, or_else};
ghost use Rattle.bus_spec.specs.Receivers.{MemberReceives};

use crate::members::Members;
use alloc_server::Event;
use alloc_spec::is_of_members;
use bus_rows::Told;
use bus_spec::Unlawful;
use can_frame::{Frame, Ident, Judged, Kind, Mark};
use transfer_tx::Marked;

impl<F: Fn(Kind, u16) -> Option<u64> + Copy> Members<F> {
    ghost use Rattle.bus_world.specs.MemberRows.{Keeps, Leaves, Refuses, Tells};
    ghost use Rattle.bus_world.specs.Members.{StandsFor, ids_of, place_of};

    /// A running member receives frame `k`.
    pub(crate) fn receive(&mut self, n: u8, k: u32, moment: u64) -> Result<Told, Unlawful>
        requires receives { MemberReceives F.row F.IsAlwaysCallable F.post self.old.accept }
        requires room { self.old.taken < 18446744073709551615 }
        ensures refused { IfErr result (Refuses self.old (Rx n k moment)) }
        ensures told { IfOk result (Tells self.old (Rx n k moment)) }
        ensures leaves { OnOk result (Leaves self.old self.new (Rx n k moment)) }
        ensures unchanged { IsErr result → self.new ≡ self.old }
        ensures keeps { Keeps self.old self.new }
    {
        let number = self.taken + 1;
        match self.arrival(n, k, moment) {
            Ok((place, event)) => Ok(self.members[place].step(event, number)),
            Err(why) => Err(why),
        }
    }

    /// The member that may take a frame, and the event that it is.
    fn arrival(&self, n: u8, k: u32, moment: u64) -> Result<(usize, Event), Unlawful>
        requires receives { MemberReceives F.row F.IsAlwaysCallable F.post self.now.accept }
        ensures place { IfOk result (λ found. place_of self.now.members.items n ≡ Some found.0) }
        ensures inside { IfOk result (λ found. found.0 < length self.now.members.items) }
        ensures event { IfOk result (λ found. (c : Cluster) → StandsFor self.now c →
            event_of found.1 ≡ receipt_of c k moment) }
        ensures lawful { OnOk result ((c : Cluster) → StandsFor self.now c →
            (or_else (no_node c n) (not_running c n) ≡ None) × (cause c (Rx n k moment) ≡ None)) }
        ensures refused { IfErr result (Refuses self.now (Rx n k moment)) }
    {
        let place = match self.running(n) {
            Ok(place) => place,
            Err(why) => return Err(why),
        };
        if k == 0 || k as usize > self.frames.as_slice().len() {
            return Err(Unlawful::NoFrame);
        }
        let marked = &self.frames[k as usize - 1];
        match self.members[place].judge(&marked.frame, marked.mark, moment) {
            Judged::Fine => {}
            Judged::Torn => return Err(Unlawful::Torn),
            Judged::Stale => return Err(Unlawful::Stale),
        }
        let event = Event::Rx {
            frame: marked.frame.copy(),
            mark: marked.mark,
            now: moment,
        };
        Ok((place, event))
    }

    /// A running member's next frame goes to the bus.
    pub(crate) fn send(&mut self, n: u8) -> Result<Told, Unlawful>
        requires room { length self.old.frames.items < self.old.room }
        ensures refused { IfErr result (Refuses self.old (Send n)) }
        ensures told { IfOk result (Tells self.old (Send n)) }
        ensures leaves { OnOk result (Leaves self.old self.new (Send n)) }
        ensures unchanged { IsErr result → self.new ≡ self.old }
        ensures keeps { Keeps self.old self.new }
    {
        let place = match self.running(n) {
            Ok(place) => place,
            Err(why) => return Err(why),
        };
        let Some(next) = self.members[place].pop() else {
            return Err(Unlawful::NothingQueued);
        };
        let frame = next.frame.copy();
        let k = put_on(&mut self.frames, next);
        Ok(Told::Popped { n, k, frame })
    }

    /// A frame from outside comes to the bus.
    pub(crate) fn hear_outside(&mut self, frame: &Frame) -> Result<Told, Unlawful>
        requires room { length self.old.frames.items < self.old.room }
        ensures refused { IfErr result (Refuses self.old (Ext frame.now)) }
        ensures told { IfOk result (Tells self.old (Ext frame.now)) }
        ensures leaves { OnOk result (Leaves self.old self.new (Ext frame.now)) }
        ensures unchanged { IsErr result → self.new ≡ self.old }
        ensures keeps { Keeps self.old self.new }
    {
        if self.is_forged(frame) {
            return Err(Unlawful::Forged);
        }
        let marked = Marked {
            frame: frame.copy(),
            mark: Mark {
                step: 0,
                re: 0,
                place: 0,
            },
        };
        let k = put_on(&mut self.frames, marked);
        Ok(Told::Outside { k })
    }

    /// Whether a frame from outside is one that no stranger may send: it has a member's source, or is
    /// of a data type that members alone send.
    fn is_forged(&self, frame: &Frame) -> bool
        ensures { result ≡ is_forged (ids_of self.now.members.items)
            (identifier_of frame.now.id) }
    {
        let Some(ident) = Ident::read(frame.id) else {
            return false;
        };
        match ident.kind {
            Kind::Anonymous => false,
            kind => self.is_member(ident.source) || is_of_members(kind, ident.number),
        }
    }
}

/// Puts a frame on the bus; its number there.
pub(crate) fn put_on(frames: &mut Vec<Marked>, frame: Marked) -> u32
    requires room { length frames.old.items < vec_capacity frames.old }
    requires few { length frames.old.items < 4294967295 }
    ensures frames { frames.new.items ≡ frames.old.items ++ frame ∷ [] }
    ensures number { result ≡ length frames.old.items + 1 }
    ensures capacity { vec_capacity frames.old ≤ vec_capacity frames.new }
{
    let number = frames.as_slice().len() as u32 + 1;
    match frames.push(frame) {
        Ok(()) => number,
        Err(_) => unreachable!(),
    }
}
