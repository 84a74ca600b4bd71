//! The rows that are for one member.

ghost use Rattle.std.specs.Prelude.{◌≡◌, ◌<◌, ◌≤◌, length, IfOk, IfErr, IsErr, OnOk};
ghost use Rattle.can_frame.specs.Sizes.{blocks, most_members, sessions};
ghost use Rattle.bus_rows.specs.declared.row.Row.TheVariants.{Open, Tick, Crash, Fault};
ghost use Rattle.transfer_rx.specs.Memory.{ReceiverFitsInMemory};
ghost use Rattle.bus_world.specs.Members.{ids_of};
ghost use Rattle.bus_world.specs.Patterns.{IsFilled};
ghost use Rattle.bus_spec.specs.Cluster.{rules_of};
ghost use Rattle.bus_spec.specs.Receivers.{MemberReceives};

use crate::member::Member;
use crate::members::Members;
use alloc_server::Event;
use arrayvec::ArrayVec;
use bus_rows::Told;
use bus_spec::Unlawful;
use can_frame::Kind;
use can_frame::sizes::MOST_MEMBERS;
use outside::Pattern;
use transfer_rx::AcceptRow;

impl<F: Fn(Kind, u16) -> Option<u64> + Copy> Members<F> {
    ghost use Rattle.bus_world.specs.MemberRows.{Keeps, Leaves, Refuses, Tells};

    /// A stopped member opens. Where `told`, it is told who the members are.
    pub(crate) fn open(
        &mut self,
        n: u8,
        told: bool,
        moment: u64,
        word: u32,
    ) -> Result<Told, Unlawful>
        requires memory { ReceiverFitsInMemory F.row sessions blocks }
        ensures refused { IfErr result (Refuses self.old (Open n told moment word)) }
        ensures told { IfOk result (Tells self.old (Open n told moment word)) }
        ensures leaves { OnOk result (Leaves self.old self.new (Open n told moment word)) }
        ensures unchanged { IsErr result → self.new ≡ self.old }
        ensures keeps { Keeps self.old self.new }
    {
        let members = self.members.as_slice();
        let size = members.len() as u8;
        let list = told_ids(members, told);
        match self.stopped(n) {
            Ok(place) => Ok(self.members[place].open(size, &list, moment, word)),
            Err(why) => Err(why),
        }
    }

    /// A running member reads its clock.
    pub(crate) fn tick(&mut self, n: u8, moment: u64, word: u32) -> Result<Told, Unlawful>
        requires receives { MemberReceives F.row F.IsAlwaysCallable F.post self.old.accept }
        requires room { self.old.taken < 18446744073709551615 }
        ensures refused { IfErr result (Refuses self.old (Tick n moment word)) }
        ensures told { IfOk result (Tells self.old (Tick n moment word)) }
        ensures leaves { OnOk result (Leaves self.old self.new (Tick n moment word)) }
        ensures unchanged { IsErr result → self.new ≡ self.old }
        ensures keeps { Keeps self.old self.new }
    {
        let number = self.taken + 1;
        match self.running(n) {
            Ok(place) => Ok(self.members[place].step(Event::Tick { now: moment, word }, number)),
            Err(why) => Err(why),
        }
    }

    /// A running member stops now, or a stop is armed at a member.
    pub(crate) fn crash(&mut self, n: u8, calls: u32, pattern: &Pattern) -> Result<Told, Unlawful>
        requires filled { IsFilled pattern.now }
        ensures refused { IfErr result (Refuses self.old (Crash n calls pattern.now)) }
        ensures told { IfOk result (Tells self.old (Crash n calls pattern.now)) }
        ensures leaves { OnOk result (Leaves self.old self.new (Crash n calls pattern.now)) }
        ensures unchanged { IsErr result → self.new ≡ self.old }
        ensures keeps { Keeps self.old self.new }
    {
        if calls == 0 {
            return match self.running(n) {
                Ok(place) => Ok(self.members[place].stop(pattern)),
                Err(why) => Err(why),
            };
        }
        match self.member(n) {
            Ok(place) => Ok(self.members[place].stop_at(calls, pattern)),
            Err(why) => Err(why),
        }
    }

    /// A failure is armed at a member.
    pub(crate) fn fault(&mut self, n: u8, call: u32) -> Result<Told, Unlawful>
        ensures refused { IfErr result (Refuses self.old (Fault n call)) }
        ensures told { IfOk result (Tells self.old (Fault n call)) }
        ensures leaves { OnOk result (Leaves self.old self.new (Fault n call)) }
        ensures unchanged { IsErr result → self.new ≡ self.old }
        ensures keeps { Keeps self.old self.new }
    {
        match self.member(n) {
            Ok(place) => Ok(self.members[place].fail_at(call)),
            Err(why) => Err(why),
        }
    }
}

/// Whom a member is told: all of these members, in their order, or nobody.
fn told_ids<F>(members: &[Member<F>], told: bool) -> ArrayVec<u8, MOST_MEMBERS>
    requires { length members.now ≤ most_members }
    ensures told { result.items ≡ (rules_of (ids_of members.now) told).told }
    ensures few { length result.items ≤ most_members }
{
    if told {
        ids_of(members)
    } else {
        ArrayVec::new()
    }
}

/// The node IDs of these members, in their order.
fn ids_of<F>(members: &[Member<F>]) -> ArrayVec<u8, MOST_MEMBERS>
    requires { length members.now ≤ most_members }
    ensures ids { result.items ≡ ids_of members.now }
    ensures few { length result.items ≤ most_members }
{
    let mut ids = ArrayVec::new();
    for member in members {
        ids.push(member.id);
    }
    ids
}

/// The rows that the receiver of a server or an allocatee is handed.
pub(crate) fn copy_of(rows: &ArrayVec<AcceptRow, 16>) -> ArrayVec<AcceptRow, 16>
    ensures { result.items ≡ rows.now.items }
{
    let _few = rows.remaining_capacity();
    let mut copy = ArrayVec::new();
    match copy.try_extend_from_slice(rows) {
        Ok(()) => copy,
        Err(_) => unreachable!(),
    }
}
