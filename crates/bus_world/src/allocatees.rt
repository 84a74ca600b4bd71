//! The rows that are for one allocatee.

ghost use Rattle.std.specs.Prelude.{◌≡◌, ◌<◌, suc, None, Some, IfOk, IfErr, IsErr, OnOk, length};
ghost use Rattle.bus_rows.specs.declared.row.Row.TheVariants.{AOpen, ATick, ARx, ASend, AEnd};
ghost use Rattle.allocatee.specs.Stands.{event_of};
ghost use Rattle.bus_spec.specs.Cluster.{Cluster, receipt_at};
ghost use Rattle.bus_spec.specs.Lawful.{absent, cause, no_allocatee, or_else, present};
ghost use Rattle.bus_spec.specs.Receivers.{AllocateeReceives};

use crate::rows::copy_of;
use crate::world::World;
use allocatee::AEvent;
use bus_rows::Told;
use bus_spec::Unlawful;
use can_frame::{Judged, Kind, Uid};

impl<F: Fn(Kind, u16) -> Option<u64> + Copy, G: Fn(Kind, u16) -> Option<u64> + Copy> World<F, G> {
    ghost use Rattle.bus_world.specs.Rows.{Keeps, Leaves, Refuses, Tells};
    ghost use Rattle.bus_world.specs.World.{StandsFor};

    /// Where the place of an allocatee stands, or the cause for which the row is refused.
    fn seat(&self, a: u8) -> Result<usize, Unlawful>
        ensures place { IfOk result (λ i. suc i ≡ a) }
        ensures inside { IfOk result (λ i. i < 8) }
        ensures lawful { OnOk result (no_allocatee a ≡ None) }
        ensures refused { IfErr result (λ why. no_allocatee a ≡ Some why) }
    {
        if a == 0 || a > 8 {
            return Err(Unlawful::NoAllocatee);
        }
        Ok(a as usize - 1)
    }

    /// Where an allocatee stands that is there.
    fn taken(&self, a: u8) -> Result<usize, Unlawful>
        ensures place { IfOk result (λ i. suc i ≡ a) }
        ensures inside { IfOk result (λ i. i < 8) }
        ensures lawful { OnOk result ((c : Cluster) → StandsFor self.now c →
            or_else (no_allocatee a) (absent c a) ≡ None) }
        ensures refused { IfErr result (λ why. (c : Cluster) → StandsFor self.now c →
            or_else (no_allocatee a) (absent c a) ≡ Some why) }
    {
        let place = match self.seat(a) {
            Ok(place) => place,
            Err(why) => return Err(why),
        };
        if !self.seats[place].is_taken() {
            return Err(Unlawful::Absent);
        }
        Ok(place)
    }

    /// Where an allocatee may come, as none is there.
    fn free(&self, a: u8) -> Result<usize, Unlawful>
        ensures place { IfOk result (λ i. suc i ≡ a) }
        ensures inside { IfOk result (λ i. i < 8) }
        ensures lawful { OnOk result ((c : Cluster) → StandsFor self.now c →
            or_else (no_allocatee a) (present c a) ≡ None) }
        ensures refused { IfErr result (λ why. (c : Cluster) → StandsFor self.now c →
            or_else (no_allocatee a) (present c a) ≡ Some why) }
    {
        let place = match self.seat(a) {
            Ok(place) => place,
            Err(why) => return Err(why),
        };
        if self.seats[place].is_taken() {
            return Err(Unlawful::Present);
        }
        Ok(place)
    }

    /// An allocatee comes. It is not inlined: no other row is to pay for the place of a whole allocatee on the
    /// stack.
    #[inline(never)]
    pub(crate) fn come(
        &mut self,
        a: u8,
        uid: Uid,
        preferred: u8,
        moment: u64,
        word: u32,
    ) -> Result<Told, Unlawful>
        requires preferred { preferred < 128 }
        requires receives { AllocateeReceives G.row G.IsAlwaysCallable G.post self.old.accept }
        ensures refused { IfErr result (Refuses self.old (AOpen a uid preferred moment word)) }
        ensures told { IfOk result (Tells self.old (AOpen a uid preferred moment word)) }
        ensures leaves { OnOk result (Leaves self.old self.new
            (AOpen a uid preferred moment word)) }
        ensures unchanged { IsErr result → self.new ≡ self.old }
        ensures keeps { Keeps self.old self.new }
    {
        let rows = copy_of(&self.rows);
        let accept = self.accept;
        match self.free(a) {
            Ok(place) => {
                Ok(self.seats[place].open(a, uid, preferred, moment, word, rows, accept))
            }
            Err(why) => Err(why),
        }
    }

    /// An allocatee reads its clock.
    pub(crate) fn ask(&mut self, a: u8, moment: u64, word: u32) -> Result<Told, Unlawful>
        requires receives { AllocateeReceives G.row G.IsAlwaysCallable G.post self.old.accept }
        requires room { self.old.members.taken < 18446744073709551615 }
        ensures refused { IfErr result (Refuses self.old (ATick a moment word)) }
        ensures told { IfOk result (Tells self.old (ATick a moment word)) }
        ensures leaves { OnOk result (Leaves self.old self.new (ATick a moment word)) }
        ensures unchanged { IsErr result → self.new ≡ self.old }
        ensures keeps { Keeps self.old self.new }
    {
        let number = self.members.taken + 1;
        match self.taken(a) {
            Ok(place) => {
                let event = AEvent::Tick { now: moment, word };
                Ok(self.seats[place].step(a, event, number))
            }
            Err(why) => Err(why),
        }
    }

    /// An allocatee receives frame `k`.
    pub(crate) fn hear(&mut self, a: u8, k: u32, moment: u64, word: u32) -> Result<Told, Unlawful>
        requires receives { AllocateeReceives G.row G.IsAlwaysCallable G.post self.old.accept }
        requires room { self.old.members.taken < 18446744073709551615 }
        ensures refused { IfErr result (Refuses self.old (ARx a k moment word)) }
        ensures told { IfOk result (Tells self.old (ARx a k moment word)) }
        ensures leaves { OnOk result (Leaves self.old self.new (ARx a k moment word)) }
        ensures unchanged { IsErr result → self.new ≡ self.old }
        ensures keeps { Keeps self.old self.new }
    {
        let number = self.members.taken + 1;
        match self.coming(a, k, moment, word) {
            Ok((place, event)) => Ok(self.seats[place].step(a, event, number)),
            Err(why) => Err(why),
        }
    }

    /// Where the allocatee stands that may take a frame, and the event that it is.
    fn coming(&self, a: u8, k: u32, moment: u64, word: u32) -> Result<(usize, AEvent), Unlawful>
        requires receives { AllocateeReceives G.row G.IsAlwaysCallable G.post self.now.accept }
        ensures place { IfOk result (λ found. suc found.0 ≡ a) }
        ensures inside { IfOk result (λ found. found.0 < 8) }
        ensures event { IfOk result (λ found. (c : Cluster) → StandsFor self.now c →
            event_of found.1 ≡ receipt_at c k moment word) }
        ensures lawful { OnOk result ((c : Cluster) → StandsFor self.now c →
            cause c (ARx a k moment word) ≡ None) }
        ensures refused { IfErr result (Refuses self.now (ARx a k moment word)) }
    {
        let place = match self.taken(a) {
            Ok(place) => place,
            Err(why) => return Err(why),
        };
        if k == 0 || k as usize > self.members.frames.as_slice().len() {
            return Err(Unlawful::NoFrame);
        }
        let marked = &self.members.frames[k as usize - 1];
        match self.seats[place].judge(&marked.frame, marked.mark, moment) {
            Judged::Fine => {}
            Judged::Torn => return Err(Unlawful::Torn),
            Judged::Stale => return Err(Unlawful::Stale),
        }
        let event = AEvent::Rx {
            frame: marked.frame.copy(),
            mark: marked.mark,
            now: moment,
            word,
        };
        Ok((place, event))
    }

    /// The next frame of an allocatee goes to the bus.
    pub(crate) fn put(&mut self, a: u8) -> Result<Told, Unlawful>
        requires room { length self.old.members.frames.items < self.old.members.room }
        ensures refused { IfErr result (Refuses self.old (ASend a)) }
        ensures told { IfOk result (Tells self.old (ASend a)) }
        ensures leaves { OnOk result (Leaves self.old self.new (ASend a)) }
        ensures unchanged { IsErr result → self.new ≡ self.old }
        ensures keeps { Keeps self.old self.new }
    {
        let place = match self.taken(a) {
            Ok(place) => place,
            Err(why) => return Err(why),
        };
        let Some(next) = self.seats[place].pop() else {
            return Err(Unlawful::NothingQueued);
        };
        let frame = next.frame.copy();
        let k = self.members.put(next);
        Ok(Told::APopped { a, k, frame })
    }

    /// An allocatee leaves.
    pub(crate) fn leave(&mut self, a: u8) -> Result<Told, Unlawful>
        ensures refused { IfErr result (Refuses self.old (AEnd a)) }
        ensures told { IfOk result (Tells self.old (AEnd a)) }
        ensures leaves { OnOk result (Leaves self.old self.new (AEnd a)) }
        ensures unchanged { IsErr result → self.new ≡ self.old }
        ensures keeps { Keeps self.old self.new }
    {
        match self.taken(a) {
            Ok(place) => Ok(self.seats[place].end(a)),
            Err(why) => Err(why),
        }
    }
}
