ghost use Rattle.std.specs.Prelude.{◌≡◌, ◌∷◌, ◌+◌, ◌/◌, ◌<◌, ◌≤◌, ◌≢◌, ◌↔◌, [], ℕ, IsTrue, List, length, slice_index_or};
ghost use Rattle.arrayvec.specs.ArrayVec.{array_vec_len};
ghost use Rattle.can_frame.specs.Sizes.{most_members};

use arrayvec::ArrayVec;
use can_frame::sizes::MOST_MEMBERS;
use can_frame::timing::DISCOVERY_INTERVAL;
use dsdl_codec::Discovery;

/// What a member knows of its cluster. Moments are milliseconds, and may fall.
///
/// A value stands for a start and the list of the messages that were heard and sent.
#[derive(Drop)]
pub struct Cluster {
    /// The member's own node ID.
    me: u8,

    /// How many members the cluster is to have.
    size: u8,

    /// The members that are known, itself first.
    members: ArrayVec<u8, MOST_MEMBERS>,

    /// Whether someone told a list that is shorter than the size, since the last Discovery.
    owes: bool,

    /// When the last Discovery was sent; the start, where none was.
    last: u64,

    ghost most: { size ≤ most_members },
    ghost own: { 1 ≤ array_vec_len members },
    ghost within: { array_vec_len members ≤ size },
    ghost first: { slice_index_or members.items 0 0 ≡ me },
    ghost numbered: { (i : ℕ) → i < length members.items → 1 ≤ slice_index_or members.items i 0 },
    ghost devices: { (i : ℕ) → i < length members.items → slice_index_or members.items i 0 ≤ 125 },
    ghost different: { (i j : ℕ) → i < j → j < length members.items →
        slice_index_or members.items i 0 ≢ slice_index_or members.items j 0 },
}

impl Cluster {
    ghost use Rattle.cluster_discovery.specs.Members as members;
    ghost use Rattle.cluster_discovery.specs.Members.{Event, Heard, Sent, IsMemberList, IsStart, Start, members_with_all, is_complete, is_due, members_with, learns, quorum};
    ghost use Rattle.cluster_discovery.specs.Stands.{StandsFor};
    ghost use Rattle.cluster_discovery.specs.Views.{cluster_size, member_list, own_id};

    /// A member that starts now: its node ID is 1 to 125, and its cluster is to have 1 to [`MOST_MEMBERS`]
    /// members.
    pub fn new(me: u8, size: u8, now: u64) -> Cluster
        requires numbered { 1 ≤ me }
        requires device { me ≤ 125 }
        requires least { 1 ≤ size }
        requires most { size ≤ most_members }
        ensures starts { StandsFor result (record { me = me; size = size; moment = now }) [] }
        ensures me { own_id result ≡ me }
        ensures size { cluster_size result ≡ size }
        ensures list { member_list result ≡ me ∷ [] }
    {
        let mut members = ArrayVec::new();
        members.push(me);
        Cluster {
            me,
            size,
            members,
            owes: false,
            last: now,
        }
    }

    /// A Discovery of the node `from` was heard; whether a member was learnt. One of another cluster
    /// size, or from the member itself, changes nothing.
    pub fn heard(&mut self, from: u8, message: &Discovery) -> bool
        ensures learnt { (start : Start) (events : List Event) → StandsFor self.old start events →
            result ≡ learns start events from message.now }
        ensures follows { (start : Start) (events : List Event) → StandsFor self.old start events →
            StandsFor self.new start (Heard from message.now ∷ events) }
        ensures complete { length (member_list self.old) ≡ cluster_size self.old →
            member_list self.new ≡ member_list self.old }
        ensures me { own_id self.new ≡ own_id self.old }
        ensures size { cluster_size self.new ≡ cluster_size self.old }
    {
        if message.size != self.size || from == self.me {
            return false;
        }
        let before = self.members.len();
        self.join(from);
        self.join_all(&message.known);
        if message.known.len() < self.size as usize {
            self.owes = true;
        }
        before < self.members.len()
    }

    /// Whether it is time for the member's own Discovery: it owes one or its list is not complete, and
    /// 1,000 ms have passed since its last one, or since it started.
    pub fn due(&self, now: u64) -> bool
        ensures { (start : Start) (events : List Event) → StandsFor self.now start events →
            result ≡ is_due start events now }
    {
        (self.owes || !self.complete()) && now.saturating_sub(self.last) >= DISCOVERY_INTERVAL
    }

    /// The member's own Discovery was sent, or found no room: nothing is owed from now on.
    pub fn sent(&mut self, now: u64)
        ensures follows { (start : Start) (events : List Event) → StandsFor self.old start events →
            StandsFor self.new start (Sent now ∷ events) }
        ensures list { member_list self.new ≡ member_list self.old }
        ensures me { own_id self.new ≡ own_id self.old }
        ensures size { cluster_size self.new ≡ cluster_size self.old }
    {
        self.owes = false;
        self.last = now;
    }

    /// The member's own Discovery.
    pub fn message(&self) -> Discovery
        ensures size { (start : Start) (events : List Event) → StandsFor self.now start events →
            result.size ≡ start.size }
        ensures known { (start : Start) (events : List Event) → StandsFor self.now start events →
            result.known.items ≡ members.members start events }
        ensures fits { array_vec_len result.known ≤ most_members }
    {
        match ArrayVec::try_from(self.members.as_slice()) {
            Ok(known) => Discovery {
                size: self.size,
                known,
            },
            Err(_) => unreachable!(),
        }
    }

    /// Whether all members are known.
    pub fn complete(&self) -> bool
        ensures all { IsTrue result ↔ (length (member_list self.now) ≡ cluster_size self.now) }
        ensures computed { (start : Start) (events : List Event) → StandsFor self.now start events →
            result ≡ is_complete start events }
    {
        self.members.len() == self.size as usize
    }

    /// The members that are known, itself first, and the others in the order in which they were learnt.
    pub fn members(&self) -> &[u8]
        ensures known { (start : Start) (events : List Event) → StandsFor self.now start events →
            result.now ≡ members.members start events }
        ensures first { (start : Start) (events : List Event) → StandsFor self.now start events →
            slice_index_or result.now 0 0 ≡ start.me }
        ensures within { (start : Start) (events : List Event) → StandsFor self.now start events →
            length result.now ≤ start.size }
        ensures start { (start : Start) (events : List Event) → StandsFor self.now start events →
            IsStart start }
        ensures list { result.now ≡ member_list self.now }
        ensures is_list { IsMemberList (own_id self.now) (cluster_size self.now) result.now }
        ensures few { length result.now ≤ most_members }
        ensures own { 1 ≤ length result.now }
        ensures numbered { (i : ℕ) → i < length result.now → 1 ≤ slice_index_or result.now i 0 }
        ensures devices { (i : ℕ) → i < length result.now → slice_index_or result.now i 0 ≤ 125 }
        ensures different { (i j : ℕ) → i < j → j < length result.now →
            slice_index_or result.now i 0 ≢ slice_index_or result.now j 0 }
    {
        &self.members
    }

    /// How many members are more than half of the cluster.
    pub fn quorum(&self) -> u8
        ensures computed { (start : Start) (events : List Event) → StandsFor self.now start events →
            result ≡ quorum start }
        ensures half { result ≡ cluster_size self.now / 2 + 1 }
    {
        self.size / 2 + 1
    }

    /// Adds a node at the end of the list, where it is one of 1 to 125, is new, and has room.
    fn join(&mut self, node: u8)
        ensures members { self.new.members.items
            ≡ members_with self.old.size self.old.members.items node }
        ensures longer { length self.old.members.items ≤ length self.new.members.items }
        ensures me { self.new.me ≡ self.old.me }
        ensures size { self.new.size ≡ self.old.size }
        ensures owes { self.new.owes ≡ self.old.owes }
        ensures last { self.new.last ≡ self.old.last }
    {
        if node == 0 || node > 125 {
            return;
        }
        if self.members.len() < self.size as usize && !self.members.contains(&node) {
            self.members.push(node);
        }
    }

    fn join_all(&mut self, nodes: &[u8])
        ensures members { self.new.members.items
            ≡ members_with_all self.old.size self.old.members.items nodes.now }
        ensures me { self.new.me ≡ self.old.me }
        ensures size { self.new.size ≡ self.old.size }
        ensures owes { self.new.owes ≡ self.old.owes }
        ensures last { self.new.last ≡ self.old.last }
    {
        for node in nodes {
            self.join(*node);
        }
    }
}
