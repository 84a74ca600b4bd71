ghost use Rattle.std.specs.Prelude.{◌≡◌, ◌<◌, ℕ, Some, IfSome, IsNone, [], ◌∷◌, length, slice_index_or};
ghost use Rattle.arrayvec.specs.ArrayVec.{array_vec_len};
ghost use Rattle.can_frame.specs.Sizes.{most_members};
ghost use Rattle.can_link.specs.Inboxes.{Comes};

use arrayvec::ArrayVec;
use can_frame::sizes::MOST_MEMBERS;
use outside::RawFrame;
use std::array;

/// How many frames wait for a member at most. Further ones are lost to it.
const MOST_WAITING: usize = 64;

/// The frames that wait for one member, the oldest first.
pub type Inbox = ArrayVec<RawFrame, MOST_WAITING>;

/// The frames that were read from the socket and wait for the members of this process.
#[derive(Drop)]
pub struct Inboxes {
    inboxes: [Inbox; MOST_MEMBERS],
    ghost all: { length inboxes ≡ most_members },
}

impl Inboxes {
    /// Nothing waits.
    pub fn new() -> Inboxes {
        Inboxes {
            inboxes: array::from_fn(|_| ArrayVec::new()),
        }
    }

    /// A frame was on the bus: it comes to every member but the one at a place that sent it.
    pub fn hand_on(&mut self, frame: &RawFrame, sender: Option<usize>)
        ensures others { (i : ℕ) (d : _) → i < most_members → (sender ≡ Some i → ⊥) →
            Comes frame.now (slice_index_or self.old.inboxes i d).items (slice_index_or self.new.inboxes i d).items }
        ensures own { (i : ℕ) (d : _) → i < most_members → sender ≡ Some i →
            slice_index_or self.new.inboxes i d ≡ slice_index_or self.old.inboxes i d }
    {
        hand_to_others(&mut self.inboxes, frame, sender);
    }

    /// The next frame of the member at a place.
    pub fn next(&mut self, place: usize) -> Option<RawFrame>
        ensures some { (d : _) → IfSome result (λ frame. (place < most_members) ×
            ((slice_index_or self.old.inboxes place d).items
            ≡ frame ∷ (slice_index_or self.new.inboxes place d).items)) }
        ensures none { (d : _) → IsNone result → place < most_members →
            (slice_index_or self.old.inboxes place d).items ≡ [] }
        ensures others { (i : ℕ) (d : _) → (i ≡ place → ⊥) →
            slice_index_or self.new.inboxes i d ≡ slice_index_or self.old.inboxes i d }
    {
        next_of(&mut self.inboxes, place)
    }
}

fn hand_to_others(inboxes: &mut [Inbox; MOST_MEMBERS], frame: &RawFrame, sender: Option<usize>)
    ensures all { length inboxes.new ≡ length inboxes.old }
    ensures others { (i : ℕ) (d : _) → i < most_members → (sender ≡ Some i → ⊥) →
        Comes frame.now (slice_index_or inboxes.old i d).items (slice_index_or inboxes.new i d).items }
    ensures own { (i : ℕ) (d : _) → i < most_members → sender ≡ Some i →
        slice_index_or inboxes.new i d ≡ slice_index_or inboxes.old i d }
{
    for place in 0..MOST_MEMBERS {
        if sender != Some(place) {
            add(&mut inboxes[place], frame);
        }
    }
}

fn next_of(inboxes: &mut [Inbox; MOST_MEMBERS], place: usize) -> Option<RawFrame>
    ensures all { length inboxes.new ≡ length inboxes.old }
    ensures some { (d : _) → IfSome result (λ frame. (place < most_members) ×
        ((slice_index_or inboxes.old place d).items ≡ frame ∷ (slice_index_or inboxes.new place d).items)) }
    ensures none { (d : _) → IsNone result → place < most_members →
        (slice_index_or inboxes.old place d).items ≡ [] }
    ensures others { (i : ℕ) (d : _) → (i ≡ place → ⊥) →
        slice_index_or inboxes.new i d ≡ slice_index_or inboxes.old i d }
{
    if MOST_MEMBERS <= place || inboxes[place].is_empty() {
        return None;
    }
    Some(take_first(&mut inboxes[place]))
}

/// The frame that has waited longest.
fn take_first(inbox: &mut Inbox) -> RawFrame
    requires { 0 < array_vec_len inbox.old }
    ensures { inbox.old.items ≡ result ∷ inbox.new.items }
{
    inbox.remove(0)
}

/// Puts a frame behind those that wait, where there is room.
fn add(inbox: &mut Inbox, frame: &RawFrame)
    ensures { Comes frame.now inbox.old.items inbox.new.items }
{
    if !inbox.is_full() {
        inbox.push(*frame);
    }
}
