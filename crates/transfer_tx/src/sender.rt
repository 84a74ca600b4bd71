ghost use Rattle.std.specs.Prelude.{◌≡◌, ◌↔◌, ◌+◌, ◌<◌, ◌≤◌, ℕ, [], ◌∷◌, ◌++◌, length, IfOk, IsErr, IsNone, OnErr, OnOk, map, option_map, option_to_list, reverse};
ghost use Rattle.can_frame.specs.Cutting.{frame_count};
ghost use Rattle.can_frame.specs.Identifier.{IsIdentifier};
ghost use Rattle.transfer_tx.specs.Queue.{id_at, in_order_of_going, left_behind, next_out, queued_frames};
ghost use Rattle.transfer_tx.specs.Views.{queued_of};

use crate::cutting::{Stamp, bytes_to_cut};
use crate::{Marked, Outgoing, frames_needed};
use arrayvec::ArrayVec;
use can_frame::laws::lengths_of_cuttings;
use std::marker::Model;

/// The queue has too little room for all the frames of a transfer.
#[derive(Clone, Copy, Debug, PartialEq, Eq)]
pub struct NoRoom;

/// A queue of at most Q frames that wait for the bus.
///
/// A sender stands for the list of its queued frames, in the order in which they were offered.
#[derive(Drop)]
pub struct Sender<const Q: usize> {
    /// In the reverse of the order of going out: the next one out is the last.
    frames: ArrayVec<Marked, Q>,

    /// How many of the frames that go out after each were offered before it. So the order of offering
    /// can be told, of which contracts speak; no other code asks for it.
    earlier: ArrayVec<u16, Q>,
}

impl<const Q: usize> Model for Sender<Q> {
    ghost use Rattle.std.specs.Prelude.{List, map};
    ghost use Rattle.transfer_tx.specs.Kept.{IsInOrder, in_order_of_offering};
    ghost use Rattle.transfer_tx.specs.Queue.{Queued};
    ghost use Rattle.transfer_tx.specs.Views.{queued_of};

    ghost Value = { List Queued };

    ghost view = { λ s. in_order_of_offering (map queued_of s.frames.items) s.earlier.items };

    ghost invariant = { λ s. IsInOrder Q (map queued_of s.frames.items) s.earlier.items };
}

impl<const Q: usize> Sender<Q> {
    /// An empty queue, of at most 1,024 places.
    pub fn new() -> Sender<Q>
        requires { Q ≤ 1024 }
        ensures { result ≡ [] }
    {
        Sender {
            frames: ArrayVec::new(),
            earlier: ArrayVec::new(),
        }
    }

    /// How many more frames fit.
    pub fn room(&self) -> usize
        ensures { result + length self.now ≡ Q }
    {
        self.frames.remaining_capacity()
    }

    /// Drops all queued frames.
    pub fn clear(&mut self)
        ensures { self.new ≡ [] }
    {
        self.frames.clear();
        self.earlier.clear();
    }

    /// All queued frames in the reverse of the order of going out: the next one out is the last.
    pub fn in_order(&self) -> &[Marked]
        ensures { map queued_of result.now ≡ reverse (in_order_of_going self.now) }
    {
        self.frames.as_slice()
    }

    /// Cuts a transfer into its frames and puts all of them at the end, or none where they do not fit.
    /// `step` is the number of the step that makes them, `re` the step of the request that they
    /// answer, or 0.
    pub fn offer(&mut self, what: &Outgoing, step: u64, re: u64) -> Result<(), NoRoom>
        requires ident { IsIdentifier what.now.ident }
        requires id { what.now.id < 32 }
        ensures none { IsErr result
            ↔ (Q < length self.old + frame_count (length what.now.payload.items)) }
        ensures ok { OnOk result (self.new ≡ self.old ++ queued_frames what.now step re) }
        ensures count { OnOk result
            (length self.new ≡ length self.old + frame_count (length what.now.payload.items)) }
        ensures err { OnErr result (self.new ≡ self.old) }
    {
        lengths_of_cuttings();
        let payload = what.payload.as_slice();
        if self.room() < frames_needed(payload.len()) {
            return Err(NoRoom);
        }
        let bytes = bytes_to_cut(what.signature, payload);
        let stamp = Stamp {
            id: what.ident.write(),
            transfer_id: what.id,
            step,
            re,
        };
        stamp.cut(bytes.as_slice(), self);
        Ok(())
    }

    /// Puts a frame behind those that were offered before, at its place in the order of going out.
    pub(crate) fn put(&mut self, marked: Marked)
        requires { length self.old < Q }
        ensures frames { self.new ≡ self.old ++ queued_of marked ∷ [] }
        ensures count { length self.new ≡ length self.old + 1 }
    {
        let place = place_for(self.frames.as_slice(), marked.frame.id);
        self.frames.insert(place, marked);
        self.earlier.insert(place, place as u16);
    }

    /// Takes the next frame out: among those with the least identifier, the one that was offered
    /// first.
    pub fn pop(&mut self) -> Option<Marked>
        ensures next { option_map queued_of result ≡ next_out self.old }
        ensures rest { self.new ≡ left_behind self.old }
        ensures none { IsNone result ↔ (self.old ≡ []) }
        ensures count { length self.new + length (option_to_list result) ≡ length self.old }
    {
        if self.frames.is_empty() {
            return None;
        }
        self.earlier.pop();
        self.frames.pop()
    }
}

/// The place of a new frame: behind the frames of higher identifiers, which go out after it, and
/// before all others.
fn place_for(frames: &[Marked], id: u32) -> usize
    ensures bound { result ≤ length frames.now }
    ensures after { (k : ℕ) → k < result → id < id_at (map queued_of frames.now) k }
    ensures before { result < length frames.now → id_at (map queued_of frames.now) result ≤ id }
{
    for (place, marked) in frames.iter().enumerate() {
        if marked.frame.id <= id {
            return place;
        }
    }
    frames.len()
}
