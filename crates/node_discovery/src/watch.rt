ghost use Rattle.std.specs.Prelude.{◌≡◌, ◌↔◌, ◌∷◌, ◌<◌, ◌≤◌, [], ℕ, Contains, IsTrue, List, true, false, length, slice_index_or};
ghost use Rattle.arrayvec.specs.ArrayVec.{array_vec_len};
ghost use Rattle.can_frame.specs.Sizes.{node_ids};
ghost use Rattle.node_discovery.specs.Heard.{heard_count};

use crate::counting::Counting;
use crate::laws::silence_is_computed;
use crate::node::Node;
use arrayvec::ArrayVec;
use can_frame::sizes::NODE_IDS;
use can_frame::{NodeId, Uid};

/// The nodes of the bus: who is online, who is to be asked for its unique ID, and who told which.
/// Moments are milliseconds, and may go backwards.
///
/// A watch stands for the list of all that happened on the bus.
#[derive(Drop)]
pub struct Watch {
    /// By node ID.
    nodes: [Node; NODE_IDS],

    /// The nodes that a status was heard of, in the order of their first one.
    heard: ArrayVec<u8, NODE_IDS>,

    ghost each_once: { array_vec_len heard ≡ heard_count nodes },
    ghost devices: { (i : ℕ) → i < length heard.items → slice_index_or heard.items i 0 ≤ 125 },
}

impl Watch {
    ghost use Rattle.node_discovery.specs.Heard.{heard};
    ghost use Rattle.node_discovery.specs.History.{Asked, IsSilent, identity, is_online, is_silent, takes};
    ghost use Rattle.node_discovery.specs.Watch.{IsNextQuery, IsSomeUnknown, NoneIsUnknown, Watched, after_info, after_status, history, is_due, is_unknown, next_query, of_node, some_unknown};
    ghost use Rattle.node_discovery.specs.Stands.{StandsFor};

    /// The watch of a bus on which nothing has happened.
    pub fn new() -> Watch
        ensures { StandsFor result [] }
    {
        Watch {
            nodes: [Node::new(); NODE_IDS],
            heard: ArrayVec::new(),
        }
    }

    /// A status of the node `from` was heard. One from outside 1 to 125 is not taken.
    pub fn status(&mut self, from: u8, now: u64)
        ensures { (events : List Watched) → StandsFor self.old events →
            StandsFor self.new (after_status events from now) }
    {
        if from == 0 || from > 125 {
            return;
        }
        let is_first = !self.nodes[from as usize].was_heard();
        self.nodes[from as usize].status(now);
        if is_first {
            self.heard.push(from);
        }
    }

    /// The node was asked for its unique ID, by a request with this transfer ID.
    pub fn asked(&mut self, node: NodeId, transfer_id: u8, now: u64)
        ensures { (events : List Watched) → StandsFor self.old events →
            StandsFor self.new (of_node node (Asked transfer_id now) ∷ events) }
    {
        self.nodes[node.get() as usize].ask(transfer_id, now);
    }

    /// The node `from` told its unique ID. Whether it is taken: where the last query of the node's
    /// spell has this transfer ID, is less than 1,000 ms old and had no answer yet.
    pub fn info(&mut self, from: u8, transfer_id: u8, uid: &Uid, now: u64) -> bool
        ensures taken { (events : List Watched) → StandsFor self.old events →
            result ≡ takes (history from events) transfer_id now }
        ensures follows { (events : List Watched) → StandsFor self.old events →
            StandsFor self.new (after_info events from transfer_id uid.now now) }
        ensures refused { result ≡ false → self.new ≡ self.old }
    {
        if from as usize >= NODE_IDS || !self.nodes[from as usize].takes(transfer_id, now) {
            return false;
        }
        self.nodes[from as usize].take(uid, now);
        true
    }

    /// The nodes that a status was heard of, in the order of their first one. Each node that is online is
    /// one of them, whatever the moment.
    pub fn heard(&self) -> &[u8]
        ensures heard { (events : List Watched) → StandsFor self.now events → result.now ≡ heard events }
        ensures online { (events : List Watched) → StandsFor self.now events → (node now : ℕ) →
            is_online (history node events) now ≡ true → Contains result.now node }
        ensures devices { (i : ℕ) → i < length result.now → slice_index_or result.now i 0 ≤ 125 }
    {
        &self.heard
    }

    /// Whether the last status of the node is at most 3,000 ms old.
    pub fn online(&self, node: u8, now: u64) -> bool
        ensures { (events : List Watched) → StandsFor self.now events →
            result ≡ is_online (history node events) now }
    {
        (node as usize) < NODE_IDS && self.nodes[node as usize].is_online(now)
    }

    /// By node ID, who is online.
    pub fn seen(&self, now: u64) -> [bool; NODE_IDS]
        ensures { (events : List Watched) → StandsFor self.now events →
            (node : ℕ) → node < node_ids →
            slice_index_or result node false ≡ is_online (history node events) now }
    {
        let mut seen = [false; NODE_IDS];
        for node in 0..NODE_IDS {
            seen[node] = self.nodes[node].is_online(now);
        }
        seen
    }

    /// Whether the node is silent: it is online, told no unique ID in its spell, and five queries or more
    /// count against it, the last of them 1,000 ms old or more.
    pub fn silent(&self, node: u8, counting: Counting, now: u64) -> bool
        ensures computed { (events : List Watched) → StandsFor self.now events →
            result ≡ is_silent counting (history node events) now }
        ensures silent { (events : List Watched) → StandsFor self.now events → IsTrue result
            ↔ IsSilent counting (history node events) now }
    {
        silence_is_computed();
        (node as usize) < NODE_IDS && self.nodes[node as usize].is_silent(counting, now)
    }

    /// The unique ID that the node told in its spell; `None` where it told none, or is offline.
    pub fn identified(&self, node: u8, now: u64) -> Option<Uid>
        ensures { (events : List Watched) → StandsFor self.now events →
            result ≡ identity (history node events) now }
    {
        if node as usize >= NODE_IDS {
            return None;
        }
        self.nodes[node as usize].identity(now)
    }

    /// The least node that is to be asked for its unique ID: it is online, not known (`known` is by
    /// node ID), has not told it, and was not asked in the last 1,000 ms. `None` where there is none.
    pub fn next_query(&self, known: &[bool; NODE_IDS], now: u64) -> Option<NodeId>
        ensures computed { (events : List Watched) → StandsFor self.now events →
            result ≡ next_query events known.now now }
        ensures least { (events : List Watched) → StandsFor self.now events →
            IsNextQuery events known.now now result }
    {
        for node in 1..126 {
            if self.is_due(known, node, now) {
                return NodeId::new(node);
            }
        }
        None
    }

    /// Whether some node is online that is not known and has not told its unique ID.
    pub fn unknown(&self, known: &[bool; NODE_IDS], now: u64) -> bool
        ensures computed { (events : List Watched) → StandsFor self.now events →
            result ≡ some_unknown events known.now now }
        ensures some { (events : List Watched) → StandsFor self.now events → result ≡ true →
            IsSomeUnknown events known.now now }
        ensures none { (events : List Watched) → StandsFor self.now events → result ≡ false →
            NoneIsUnknown events known.now now }
    {
        for node in 1..126 {
            if self.is_unknown(known, node, now) {
                return true;
            }
        }
        false
    }

    fn is_unknown(&self, known: &[bool; NODE_IDS], node: u8, now: u64) -> bool
        requires { node < node_ids }
        ensures { (events : List Watched) → StandsFor self.now events →
            result ≡ is_unknown events known.now node now }
    {
        self.nodes[node as usize].is_nameless(now) && !known[node as usize]
    }

    fn is_due(&self, known: &[bool; NODE_IDS], node: u8, now: u64) -> bool
        requires { node < node_ids }
        ensures { (events : List Watched) → StandsFor self.now events →
            result ≡ is_due events known.now node now }
    {
        self.is_unknown(known, node, now) && self.nodes[node as usize].may_be_asked(now)
    }
}
