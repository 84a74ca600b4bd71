ghost use Rattle.std.specs.Prelude.{◌≡◌, ◌≤◌, ◌<◌, ◌+◌, ◌++◌, ◌∷◌, [], ◌↔◌, ◌^◌, ℕ, IfOk, IfErr, IfSome, OnOk, length, slice_index_or, vec_capacity};
ghost use Rattle.can_frame.specs.Sizes.{most_members};
ghost use Rattle.alloc_spec.specs.Accepted as accepted;
ghost use Rattle.alloc_spec.specs.ClusterMembers.{AreMembers};
ghost use Rattle.bus_spec.specs.Cluster.{Cluster, cluster};
ghost use Rattle.bus_spec.specs.Receivers.{MemberReceives};
ghost use Rattle.bus_spec.specs.Report.{entry_of, view_at};
ghost use Rattle.bus_spec.specs.declared.unlawful.WorldFault.TheVariants.{BadIds};
ghost use Rattle.bus_world.specs.Fresh.{AreFresh};
ghost use Rattle.bus_world.specs.Places.{closure_of};
ghost use Rattle.bus_world.specs.declared.member.Member.{Member};

use crate::bus::put_on;
use crate::member::Member;
use crate::rows::copy_of;
use alloc_server::View;
use alloc_spec::are_members;
use arrayvec::ArrayVec;
use bus_spec::WorldFault;
use can_frame::{Entry, Kind};
use std::alloc::Global;
use transfer_rx::AcceptRow;
use transfer_tx::Marked;

/// 1 to 5 members of a cluster, and their bus.
#[derive(Drop)]
pub(crate) struct Members<F> {
    pub(crate) members: Vec<Member<F>>,
    pub(crate) frames: Vec<Marked>,

    /// How many frames the world was made for.
    pub(crate) room: usize,

    /// How many rows it has taken.
    pub(crate) taken: u64,

    /// What each member's receiver accepts, as a closure.
    pub(crate) accept: F,
    ghost below: { room < 4294967296 },
    ghost fits: { length frames.items ≤ room },
    ghost kept: { room ≤ vec_capacity frames },
    ghost some: { 1 ≤ length members.items },
    ghost five: { length members.items ≤ most_members },
    ghost alike: { (i : ℕ) (d : Member F) → i < length members.items →
        closure_of (slice_index_or members.items i d).place ≡ accept },
}

impl<F: Fn(Kind, u16) -> Option<u64> + Copy> Members<F> {
    ghost use Rattle.bus_world.specs.MemberRows.{Keeps};
    ghost use Rattle.bus_world.specs.Members.{StandsFor, accepts, frame_room, frames_left, rows_taken};

    /// These members, all stopped, on disks of zeros, with an empty bus that takes so many frames. All memory
    /// is taken here: with too little of it the answer is `Memory`.
    pub fn new(
        alloc: Global,
        ids: &[u8],
        frames: usize,
        rows: ArrayVec<AcceptRow, 16>,
        accept: F,
    ) -> Result<Members<F>, WorldFault>
        requires frames { frames < 2 ^ 32 }
        requires rows { rows.items ≡ accepted.rows }
        requires receives { MemberReceives F.row F.IsAlwaysCallable F.post accept }
        ensures stands { IfOk result (λ world. StandsFor world (cluster ids.now)) }
        ensures frames { IfOk result (λ world. frames_left world ≡ frames) }
        ensures room { IfOk result (λ world. frame_room world ≡ frames) }
        ensures taken { IfOk result (λ world. rows_taken world ≡ 0) }
        ensures accepts { IfOk result (λ world. accepts world ≡ accept) }
        ensures bad { IfErr result (λ why. (why ≡ BadIds) ↔ (AreMembers ids.now → ⊥)) }
        ensures members { OnOk result (AreMembers ids.now) }
    {
        if !are_members(ids) {
            return Err(WorldFault::BadIds);
        }
        let Ok(bus) = Vec::with_capacity(alloc, frames) else {
            return Err(WorldFault::Memory);
        };
        let Some(members) = stopped_members(alloc, ids, &rows, accept) else {
            return Err(WorldFault::Memory);
        };
        Ok(Members {
            members,
            frames: bus,
            room: frames,
            taken: 0,
            accept,
        })
    }

    /// What a member shows. `None` for a node that is no member, is stopped or has failed.
    pub fn view(&self, id: u8) -> Option<View>
        ensures { (c : Cluster) → StandsFor self.now c → result ≡ view_at c id }
    {
        match self.place(id) {
            Some(place) => self.members[place].view(),
            None => None,
        }
    }

    /// The entry at a place of a member's log; at place 0 the blank of term 0. `None` for a node that
    /// is no member, is stopped or has failed, and above its last entry.
    pub fn entry(&self, id: u8, place: u8) -> Option<Entry>
        ensures { (c : Cluster) → StandsFor self.now c → result ≡ entry_of c id place }
    {
        match self.place(id) {
            Some(at) => self.members[at].entry(place),
            None => None,
        }
    }

    /// A frame comes to the bus; its number there.
    pub fn put(&mut self, frame: Marked) -> u32
        requires room { length self.old.frames.items < self.old.room }
        ensures number { result ≡ length self.old.frames.items + 1 }
        ensures frames { self.new.frames.items ≡ self.old.frames.items ++ frame ∷ [] }
        ensures members { self.new.members.items ≡ self.old.members.items }
        ensures keeps { Keeps self.old self.new }
    {
        put_on(&mut self.frames, frame)
    }

    /// How many frames the bus can still take.
    pub fn frames_left(&self) -> usize
        ensures left { result ≡ frames_left self.now }
        ensures bus { (c : Cluster) → StandsFor self.now c →
            result + length c.frames ≡ frame_room self.now }
    {
        self.room - self.frames.as_slice().len()
    }

    /// How many rows the world can still take.
    pub fn rows_left(&self) -> u64
        ensures { result + rows_taken self.now ≡ 18446744073709551615 }
    {
        u64::MAX - self.taken
    }
}

/// A stopped member for each of these nodes. `None` where there is too little memory.
fn stopped_members<F: Fn(Kind, u16) -> Option<u64> + Copy>(
    alloc: Global,
    ids: &[u8],
    rows: &ArrayVec<AcceptRow, 16>,
    accept: F,
) -> Option<Vec<Member<F>>>
    requires members { AreMembers ids.now }
    requires rows { rows.now.items ≡ accepted.rows }
    requires receives { MemberReceives F.row F.IsAlwaysCallable F.post accept }
    ensures { IfSome result (λ members. AreFresh ids.now accept members.items) }
{
    let Ok(mut members) = Vec::with_capacity(alloc, ids.len()) else {
        return None;
    };
    let size = ids.len() as u8;
    for id in ids {
        let Ok(()) = members.push(Member::new(*id, size, copy_of(rows), accept)) else {
            return None;
        };
    }
    Some(members)
}
