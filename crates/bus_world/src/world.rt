ghost use Rattle.std.specs.Prelude.{◌≡◌, ◌≤◌, ◌<◌, ◌+◌, ◌++◌, ◌∷◌, ◌↔◌, ◌^◌, ℕ, List, [], None, Some, IfOk, IfErr, IfSome, IsErr, OnOk, length, slice_index_or};
ghost use Rattle.disk_model.specs.Pattern.{IsUsable};
ghost use Rattle.outside.specs.declared.pattern.Pattern.{Pattern};
ghost use Rattle.bus_rows.specs.declared.row.Row.{Row};
ghost use Rattle.bus_rows.specs.declared.row.Row.TheVariants.{AOpen, Crash};
ghost use Rattle.allocatee.specs.Accepted as device;
ghost use Rattle.alloc_spec.specs.Accepted as accepted;
ghost use Rattle.bus_agreement.specs.Allocatees.{HasAllocatees};
ghost use Rattle.bus_agreement.specs.Duty.{AreDutiful};
ghost use Rattle.bus_agreement.specs.Headline.{HasHeadline};
ghost use Rattle.bus_agreement.specs.Safe.{AreSafe};
ghost use Rattle.alloc_spec.specs.ClusterMembers.{AreMembers};
ghost use Rattle.bus_spec.specs.Cluster.{Cluster, cluster, after_row, world_of};
ghost use Rattle.bus_spec.specs.Lawful.{AreLawful, cause};
ghost use Rattle.bus_spec.specs.OwnLogs.{OffersItsOwn};
ghost use Rattle.bus_spec.specs.Receivers.{AllocateeReceives, MemberReceives};
ghost use Rattle.bus_spec.specs.Report.{entry_of, line_of_row as told_by, view_at};
ghost use Rattle.bus_rows.specs.ReportLine.{report_line_of};
ghost use Rattle.bus_spec.specs.declared.unlawful.WorldFault.TheVariants.{BadIds};
ghost use Rattle.bus_world.specs.Seats.{Accepts, AreEmpty};
ghost use Rattle.bus_world.specs.declared.seat.Seat.{Seat};

use crate::members::Members;
use crate::seat::Seat;
use alloc_server::View;
use alloc_spec_laws::laws::pairs_of_a_step;
use arrayvec::ArrayVec;
use bus_agreement::allocatees::the_allocatees;
use bus_agreement::headline::{
    lawful_rows_do_no_harm, rows_are_dutiful, rows_are_safe, rows_grow_by_one, the_headline,
};
use bus_rows::{Row, Told};
use bus_spec::{Unlawful, WorldFault};
use can_frame::{Entry, Kind};
use std::alloc::Global;
use transfer_rx::AcceptRow;

/// How many allocatees there may be at once.
const SEATS: usize = 8;

/// A cluster of 1 to 5 members, and up to 8 allocatees, on one bus.
///
/// A world stands for a cluster: its members, its allocatees, its bus and the rows that were taken. `members` owes of
/// the members' receivers and their closure what a server's calls owe: that a receiver fits in memory, and that the
/// closure may be called and answers as the rows. `allocatees` owes it of the allocatees'.
#[derive(Drop)]
pub struct World<F, G> {
    pub(crate) members: Members<F>,

    /// The places of the allocatees: the first is that of number 1.
    pub(crate) seats: Vec<Seat<G>>,

    /// What each allocatee's receiver accepts, as rows and as a closure.
    pub(crate) rows: ArrayVec<AcceptRow, 16>,
    pub(crate) accept: G,
    ghost eight: { length seats.items ≡ 8 },
    ghost by_rows: { rows.items ≡ device.rows },
    ghost alike: { (i : ℕ) (d : Seat G) → i < 8 →
        Accepts (slice_index_or seats.items i d) accept },
}

impl<F: Fn(Kind, u16) -> Option<u64> + Copy, G: Fn(Kind, u16) -> Option<u64> + Copy> World<F, G> {
    ghost use Rattle.bus_world.specs.Rows.{Keeps, Leaves, Refuses, Tells};
    ghost use Rattle.bus_world.specs.World.{StandsFor, accepts, allocatees_accept, frame_room, frames_left, rows_taken};

    /// A world of these members, all stopped, on disks of zeros, without allocatees, with an empty bus
    /// that takes so many frames. All memory is taken here: with too little of it the answer is `Memory`.
    pub fn new(
        alloc: Global,
        ids: &[u8],
        frames: usize,
        rows: ArrayVec<AcceptRow, 16>,
        accept: F,
        arows: ArrayVec<AcceptRow, 16>,
        aaccept: G,
    ) -> Result<World<F, G>, WorldFault>
        requires frames { frames < 2 ^ 32 }
        requires rows { rows.items ≡ accepted.rows }
        requires members { MemberReceives F.row F.IsAlwaysCallable F.post accept }
        requires arows { arows.items ≡ device.rows }
        requires allocatees { AllocateeReceives G.row G.IsAlwaysCallable G.post aaccept }
        ensures stands { IfOk result (λ world. StandsFor world (cluster ids.now)) }
        ensures frames { IfOk result (λ world. frames_left world ≡ frames) }
        ensures room { IfOk result (λ world. frame_room world ≡ frames) }
        ensures taken { IfOk result (λ world. rows_taken world ≡ 0) }
        ensures accepts { IfOk result (λ world. accepts world ≡ accept) }
        ensures aaccepts { IfOk result (λ world. allocatees_accept world ≡ aaccept) }
        ensures bad { IfErr result (λ why. (why ≡ BadIds) ↔ (AreMembers ids.now → ⊥)) }
        ensures members { OnOk result (AreMembers ids.now) }
    {
        let members = match Members::new(alloc, ids, frames, rows, accept) {
            Ok(members) => members,
            Err(why) => return Err(why),
        };
        let Some(seats) = empty_seats(alloc) else {
            return Err(WorldFault::Memory);
        };
        Ok(World {
            members,
            seats,
            rows: arows,
            accept: aaccept,
        })
    }

    /// Takes a row and tells what it did. A row that is refused changes nothing. Whatever pair a step
    /// offers to a device is one of its member's committed log when the row is done.
    ///
    /// Along all rows that a world took, what its members commit is a prefix of one list that only grows,
    /// gives no ID twice and has no member's node ID; every Allocation that they offer with a node ID other
    /// than 0, in a queue or on the bus, is a pair of it by then; and what a member has committed is a prefix
    /// of the log of every later leader whose term is at least that member's stored term (`HasHeadline` of
    /// `bus_agreement`). The run of the Raft model that the rows show is lawful and safe (`AreSafe`).
    /// Each step does its duty: a leader commits as far as a quorum lets it and tells one place where there
    /// is room, who has waited stands for election, who counts a quorum leads, who is asked offers an answer
    /// to its queue, even where the answer finds no room there, a leader adds a blank only when it is due, and
    /// the node ID of a node that is heard is not given (`AreDutiful`).
    /// What a device has that takes a node ID by the standard's rule is a pair of that list from then on, so
    /// two with different unique IDs never have the same node ID (`HasAllocatees`).
    ///
    /// `IsUsable` owes that a pattern of bytes has one byte at least.
    pub fn row(&mut self, row: &Row) -> Result<Told, Unlawful>
        requires members { MemberReceives F.row F.IsAlwaysCallable F.post (accepts self.old) }
        requires allocatees { AllocateeReceives G.row G.IsAlwaysCallable G.post (allocatees_accept self.old) }
        requires frames { 1 ≤ frames_left self.old }
        requires rows { rows_taken self.old < 18446744073709551615 }
        requires filled { (n calls : ℕ) (pattern : Pattern) → row.now ≡ Crash n calls pattern →
            IsUsable pattern }
        requires preferred { (a : ℕ) (uid : List ℕ) (pref ms word : ℕ) →
            row.now ≡ AOpen a uid pref ms word → pref < 128 }
        ensures refused { IfErr result (λ why. (c : Cluster) → StandsFor self.old c →
            cause c row.now ≡ Some why) }
        ensures told { IfOk result (λ told. (c : Cluster) → StandsFor self.old c →
            (cause c row.now ≡ None) × (report_line_of told ≡ told_by c row.now)) }
        ensures accepted { OnOk result ((c : Cluster) → StandsFor self.old c →
            StandsFor self.new (after_row c row.now)) }
        ensures kept { OnOk result ((c : Cluster) → StandsFor self.old c →
            OffersItsOwn c row.now) }
        ensures headline { OnOk result ((ids : List ℕ) (rows : List Row) →
            AreLawful (cluster ids) rows → StandsFor self.old (world_of ids rows) →
            HasHeadline ids (rows ++ row.now ∷ [])) }
        ensures safe { OnOk result ((ids : List ℕ) (rows : List Row) →
            AreLawful (cluster ids) rows → StandsFor self.old (world_of ids rows) →
            AreSafe ids (rows ++ row.now ∷ [])) }
        ensures duty { OnOk result ((ids : List ℕ) (rows : List Row) →
            AreLawful (cluster ids) rows → StandsFor self.old (world_of ids rows) →
            AreDutiful ids (rows ++ row.now ∷ [])) }
        ensures allocatees { OnOk result ((ids : List ℕ) (rows : List Row) →
            AreLawful (cluster ids) rows → StandsFor self.old (world_of ids rows) →
            HasAllocatees ids (rows ++ row.now ∷ [])) }
        ensures unchanged { IsErr result → self.new ≡ self.old }
        ensures taken { OnOk result (rows_taken self.new ≡ rows_taken self.old + 1) }
        ensures left { OnOk result (frames_left self.old ≤ frames_left self.new + 1) }
        ensures room { frame_room self.new ≡ frame_room self.old }
        ensures accepts { accepts self.new ≡ accepts self.old }
        ensures aaccepts { allocatees_accept self.new ≡ allocatees_accept self.old }
    {
        lawful_rows_do_no_harm();
        pairs_of_a_step();
        rows_are_dutiful();
        rows_are_safe();
        rows_grow_by_one();
        the_headline();
        the_allocatees();
        match self.change(row) {
            Ok(told) => {
                self.members.taken += 1;
                Ok(told)
            }
            Err(why) => Err(why),
        }
    }

    /// Takes a row, but does not count it.
    fn change(&mut self, row: &Row) -> Result<Told, Unlawful>
        requires members { MemberReceives F.row F.IsAlwaysCallable F.post self.old.members.accept }
        requires allocatees { AllocateeReceives G.row G.IsAlwaysCallable G.post self.old.accept }
        requires frames { length self.old.members.frames.items < self.old.members.room }
        requires rows { self.old.members.taken < 18446744073709551615 }
        requires filled { (n calls : ℕ) (pattern : Pattern) → row.now ≡ Crash n calls pattern →
            IsUsable pattern }
        requires preferred { (a : ℕ) (uid : List ℕ) (pref ms word : ℕ) →
            row.now ≡ AOpen a uid pref ms word → pref < 128 }
        ensures refused { IfErr result (Refuses self.old row.now) }
        ensures told { IfOk result (Tells self.old row.now) }
        ensures leaves { OnOk result (Leaves self.old self.new row.now) }
        ensures unchanged { IsErr result → self.new ≡ self.old }
        ensures keeps { Keeps self.old self.new }
    {
        match row {
            Row::Open { n, told, ms, word } => self.members.open(*n, *told, *ms, *word),
            Row::Tick { n, ms, word } => self.members.tick(*n, *ms, *word),
            Row::Rx { n, k, ms } => self.members.receive(*n, *k, *ms),
            Row::Send { n } => self.members.send(*n),
            Row::Ext { frame } => self.members.hear_outside(frame),
            Row::Crash { n, calls, pattern } => self.members.crash(*n, *calls, pattern),
            Row::Fault { n, call } => self.members.fault(*n, *call),
            Row::AOpen {
                a,
                uid,
                pref,
                ms,
                word,
            } => self.come(*a, *uid, *pref, *ms, *word),
            Row::ATick { a, ms, word } => self.ask(*a, *ms, *word),
            Row::ARx { a, k, ms, word } => self.hear(*a, *k, *ms, *word),
            Row::ASend { a } => self.put(*a),
            Row::AEnd { a } => self.leave(*a),
        }
    }

    /// What a member shows. `None` for a node that is no member, is stopped or has failed.
    pub fn view(&self, id: u8) -> Option<View>
        ensures { (c : Cluster) → StandsFor self.now c → result ≡ view_at c id }
    {
        self.members.view(id)
    }

    /// The entry at a place of a member's log; at place 0 the blank of term 0. `None` for a node that
    /// is no member, is stopped or has failed, and above its last entry.
    pub fn entry(&self, id: u8, place: u8) -> Option<Entry>
        ensures { (c : Cluster) → StandsFor self.now c → result ≡ entry_of c id place }
    {
        self.members.entry(id, place)
    }

    /// How many frames the bus can still take.
    pub fn frames_left(&self) -> usize
        ensures left { result ≡ frames_left self.now }
        ensures bus { (c : Cluster) → StandsFor self.now c →
            result + length c.frames ≡ frame_room self.now }
    {
        self.members.frames_left()
    }

    /// How many rows the world can still take.
    pub fn rows_left(&self) -> u64
        ensures { result + rows_taken self.now ≡ 18446744073709551615 }
    {
        self.members.rows_left()
    }
}

/// Places for allocatees, where none is. `None` where there is too little memory.
fn empty_seats<G: Fn(Kind, u16) -> Option<u64> + Copy>(alloc: Global) -> Option<Vec<Seat<G>>>
    ensures { IfSome result (λ seats. AreEmpty seats.items 8) }
{
    let Ok(mut seats) = Vec::with_capacity(alloc, SEATS) else {
        return None;
    };
    for place in 0..SEATS {
        let Ok(()) = seats.push(Seat::new()) else {
            return None;
        };
    }
    Some(seats)
}
