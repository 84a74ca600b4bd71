ghost use Rattle.std.specs.Prelude.{◌≡◌, ◌∷◌, [], List, false, min, true};
ghost use Rattle.node_discovery.specs.History.{is_within, has_passed};

use crate::counting::Counting;
use crate::query::{Query, is_answered_by};
use can_frame::Uid;
use can_frame::timing::{ONLINE_TIMEOUT, QUERY_INTERVAL, QUERY_LIMIT};

/// What is kept of one node.
#[derive(Clone, Copy)]
pub struct Node {
    /// When its last status was heard.
    heard: Option<u64>,

    /// The unique ID that it told in this spell.
    uid: Option<Uid>,

    /// The query of this spell that still waits for an answer, however old.
    pending: Option<Query>,

    /// When it was last asked, in whatever spell.
    asked: Option<u64>,

    /// How many queries were asked in this spell; it stays at 255.
    queries: u8,

    /// How many queries were asked since its last answer; it stays at 255.
    queries_since_answer: u8,
}

impl Node {
    ghost use Rattle.node_discovery.specs.Heard.{was_heard};
    ghost use Rattle.node_discovery.specs.History.{Event, Status, Asked, Taken, identity, is_nameless, is_online, is_silent, may_be_asked, counted, query_count, takes};
    ghost use Rattle.node_discovery.specs.Stands.{Tells};

    /// A node of which nothing is known.
    pub fn new() -> Node
        ensures nothing { Tells result [] }
        ensures unheard { was_heard result ≡ false }
    {
        Node {
            heard: None,
            uid: None,
            pending: None,
            asked: None,
            queries: 0,
            queries_since_answer: 0,
        }
    }

    /// A status was heard; where the node was not online, a spell begins.
    pub fn status(&mut self, now: u64)
        ensures follows { (events : List Event) → Tells self.old events →
            Tells self.new (Status now ∷ events) }
        ensures heard { was_heard self.new ≡ true }
    {
        if !self.is_online(now) {
            self.uid = None;
            self.pending = None;
            self.queries = 0;
        }
        self.heard = Some(now);
    }

    /// The node was asked for its unique ID.
    pub fn ask(&mut self, transfer_id: u8, now: u64)
        ensures follows { (events : List Event) → Tells self.old events →
            Tells self.new (Asked transfer_id now ∷ events) }
        ensures heard { was_heard self.new ≡ was_heard self.old }
    {
        self.pending = Some(Query {
            transfer_id,
            moment: now,
        });
        self.asked = Some(now);
        self.queries = self.queries.saturating_add(1);
        self.queries_since_answer = self.queries_since_answer.saturating_add(1);
    }

    /// Whether an answer is taken: the last query of the spell waits for it.
    pub fn takes(&self, transfer_id: u8, now: u64) -> bool
        ensures { (events : List Event) → Tells self.now events →
            result ≡ takes events transfer_id now }
    {
        is_answered_by(self.pending, transfer_id, now)
    }

    /// The answer was taken.
    pub fn take(&mut self, uid: &Uid, now: u64)
        ensures follows { (events : List Event) → Tells self.old events →
            Tells self.new (Taken uid.now now ∷ events) }
        ensures heard { was_heard self.new ≡ was_heard self.old }
    {
        self.uid = Some(*uid);
        self.pending = None;
        self.queries_since_answer = 0;
    }

    /// Whether a status of it was ever heard.
    pub fn was_heard(&self) -> bool
        ensures { result ≡ was_heard self.now }
    {
        self.heard.is_some()
    }

    /// Whether the last status is at most 3,000 ms old.
    pub fn is_online(&self, now: u64) -> bool
        ensures { (events : List Event) → Tells self.now events → result ≡ is_online events now }
    {
        is_within(ONLINE_TIMEOUT, now, self.heard)
    }

    /// Whether the node was never asked, or 1,000 ms or more have passed since.
    pub fn may_be_asked(&self, now: u64) -> bool
        ensures { (events : List Event) → Tells self.now events → result ≡ may_be_asked events now }
    {
        has_passed(QUERY_INTERVAL, now, self.asked)
    }

    /// Whether the node is online and has not told its unique ID.
    pub fn is_nameless(&self, now: u64) -> bool
        ensures { (events : List Event) → Tells self.now events → result ≡ is_nameless events now }
    {
        self.is_online(now) && self.uid.is_none()
    }

    /// How many queries count against it; it stays at 255.
    fn counted(&self, counting: Counting) -> u8
        ensures { (events : List Event) → Tells self.now events →
            result ≡ min (query_count (counted counting events)) 255 }
    {
        match counting {
            Counting::OfSpell => self.queries,
            Counting::SinceAnswer => self.queries_since_answer,
        }
    }

    /// Whether the node is online and did not tell its unique ID in its spell, though five queries or more
    /// count against it, the last of them 1,000 ms old or more.
    pub fn is_silent(&self, counting: Counting, now: u64) -> bool
        ensures { (events : List Event) → Tells self.now events →
            result ≡ is_silent counting events now }
    {
        let queries = self.counted(counting);
        self.is_nameless(now) && queries >= QUERY_LIMIT && self.may_be_asked(now)
    }

    /// The unique ID that the node told, where it is online.
    pub fn identity(&self, now: u64) -> Option<Uid>
        ensures { (events : List Event) → Tells self.now events → result ≡ identity events now }
    {
        if self.is_online(now) { self.uid } else { None }
    }
}

fn is_within(limit: u64, now: u64, moment: Option<u64>) -> bool
    ensures { result ≡ is_within limit now moment }
{
    match moment {
        Some(moment) => now.saturating_sub(moment) <= limit,
        None => false,
    }
}

fn has_passed(limit: u64, now: u64, moment: Option<u64>) -> bool
    ensures { result ≡ has_passed limit now moment }
{
    match moment {
        Some(moment) => now.saturating_sub(moment) >= limit,
        None => true,
    }
}
