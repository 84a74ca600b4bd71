ghost use Rattle.std.specs.Prelude.{◌≡◌, ◌≤◌, ◌<◌, ◌+◌, ℕ, count_by, length, nat_eq, IfSome};
ghost use Rattle.std.specs.List.{list_any};
ghost use Rattle.arrayvec.specs.ArrayVec.{array_vec_len};
ghost use Rattle.can_frame.specs.Log.{log_limit};
ghost use Rattle.can_frame.specs.Sizes.{node_ids};
ghost use Rattle.newcomer_link.specs.Logs.{entries_in};
ghost use Rattle.newcomer_link.specs.Standing as standings;
ghost use Rattle.newcomer_link.specs.Standing.{Standing};
ghost use Rattle.newcomer_link.specs.declared.approach.Approach.TheVariants.{Shows};

use crate::approach::Approach;
use crate::partial::Part;
use crate::requests::{Requests, goes_on_as, told_since};
use arrayvec::ArrayVec;
use can_frame::Entry;
use can_frame::sizes::{LOG_LIMIT, NODE_IDS};
use std::marker::Model;

/// So many places are free for everybody: no power-on of 100 nodes is slowed where the log has no other entries.
const PLACES_AT_ONCE: usize = 100;

/// The limit rises once in so long, in milliseconds.
const BETWEEN_NEWCOMERS: u64 = 600_000;

/// A node counts for so long behind its last NodeStatus, in milliseconds. A member holds it for online for 3,000 ms.
const COUNTED_FOR: u64 = 4_000;

/// The log is read again after so long at the soonest, in milliseconds.
const BETWEEN_READINGS: u64 = 100;

/// Who is let in, and what that goes by. Readings are in milliseconds.
#[derive(Drop)]
pub struct Newcomers {
    /// The entries of the log, as it was read last.
    log: ArrayVec<Entry, LOG_LIMIT>,

    /// Whether the last reading of the log succeeded, and when it was.
    is_read: bool,
    read_at: Option<u64>,

    /// By node ID, the last NodeStatus that was let in of each node that did not stand in the log.
    heard: [Option<u64>; NODE_IDS],

    /// How many requests with a last part were let in since the log was read. It stays at 255.
    asked: u8,

    /// The limit, and when it was set or rose last.
    limit: usize,
    since: u64,

    /// The last NodeStatus that was turned away.
    turned_away: Option<u64>,
    requests: Option<Requests>,
}

impl Model for Newcomers {
    ghost Value = { Standing };

    ghost view = { λ n. record {
      log = n.log.items;
      is_read = n.is_read;
      read_at = n.read_at;
      heard = n.heard;
      asked = n.asked;
      limit = n.limit;
      since = n.since;
      turned_away = n.turned_away;
      requests = n.requests;
    } };

    ghost invariant = { λ n. (length n.log.items ≤ log_limit) × (length n.heard ≡ node_ids) };
}

impl Newcomers {
    /// Nobody came yet, and the log was not read.
    pub fn new(now: u64) -> Newcomers
        ensures { result ≡ standings.standing_at now }
    {
        Newcomers {
            log: ArrayVec::new(),
            is_read: false,
            read_at: None,
            heard: [None; NODE_IDS],
            asked: 0,
            limit: PLACES_AT_ONCE,
            since: now,
            turned_away: None,
            requests: None,
        }
    }

    /// Whether one who comes is a node of the log that shows itself.
    pub fn is_known(&self, approach: Approach) -> bool
        ensures { result ≡ standings.needs_no_ruling approach self.now }
    {
        match approach {
            Approach::Shows(node) => self.is_logged(node),
            Approach::Asks(_) => false,
        }
    }

    /// Whether the log is to be read.
    pub fn is_reading_due(&self, now: u64) -> bool
        ensures { result ≡ standings.is_reading_due now self.now.read_at }
    {
        match self.read_at {
            Some(last) => now.saturating_sub(last) >= BETWEEN_READINGS,
            None => true,
        }
    }

    /// The log was read, with these entries, or could not be.
    pub fn read(&mut self, now: u64, log: Option<ArrayVec<Entry, LOG_LIMIT>>)
        requires { IfSome log (λ log. length log.items ≤ log_limit) }
        ensures { self.new ≡ standings.with_reading now (entries_in log) self.old }
    {
        self.read_at = Some(now);
        match log {
            Some(log) => {
                forget_logged(&log, &mut self.heard);
                self.log = log;
                self.is_read = true;
                self.asked = 0;
            }
            None => self.is_read = false,
        }
    }

    /// Whether one who comes now is let in.
    pub fn rule(&mut self, now: u64, approach: Approach) -> bool
        requires { (node : ℕ) → approach ≡ Shows node → node < node_ids }
        ensures ruling { result ≡ (standings.rule_approach now approach self.old).is_let_in }
        ensures behind { self.new ≡ (standings.rule_approach now approach self.old).behind }
    {
        match approach {
            Approach::Shows(node) => self.rule_show(now, node),
            Approach::Asks(part) => self.rule_ask(now, part),
        }
    }

    fn rule_show(&mut self, now: u64, node: u8) -> bool
        requires { node < node_ids }
        ensures ruling { result ≡ (standings.rule_show now node self.old).is_let_in }
        ensures behind { self.new ≡ (standings.rule_show now node self.old).behind }
    {
        if self.is_logged(node) {
            return true;
        }
        if self.is_free_to_show(now, node) {
            self.heard[usize::from(node)] = Some(now);
            return true;
        }
        self.rise(now);
        self.rule_newcomer(now, node)
    }

    fn rule_newcomer(&mut self, now: u64, node: u8) -> bool
        requires { node < node_ids }
        ensures ruling { result ≡ (standings.rule_newcomer now node self.old).is_let_in }
        ensures behind { self.new ≡ (standings.rule_newcomer now node self.old).behind }
    {
        if self.is_room(now) {
            self.heard[usize::from(node)] = Some(now);
            true
        } else {
            self.turned_away = Some(now);
            false
        }
    }

    fn rule_ask(&mut self, now: u64, part: Part) -> bool
        ensures ruling { result ≡ (standings.rule_ask now part self.old).is_let_in }
        ensures behind { self.new ≡ (standings.rule_ask now part self.old).behind }
    {
        if !self.is_read {
            return false;
        }
        let told = told_since(now, self.requests);
        if let Some(partial) = goes_on_as(&self.log, part, told) {
            self.requests = Some(Requests {
                last: now,
                told: Some(partial),
            });
            return true;
        }
        if is_lately(now, self.turned_away) {
            return false;
        }
        self.rise(now);
        self.rule_stranger(now, part)
    }

    fn rule_stranger(&mut self, now: u64, part: Part) -> bool
        ensures ruling { result ≡ (standings.rule_stranger now part self.old).is_let_in }
        ensures behind { self.new ≡ (standings.rule_stranger now part self.old).behind }
    {
        if !self.is_room(now) {
            return false;
        }
        self.requests = Some(Requests {
            last: now,
            told: None,
        });
        if part.completes() {
            self.asked = self.asked.saturating_add(1);
        }
        true
    }

    /// The limit rises, where there is no room and it did not rise for ten minutes.
    fn rise(&mut self, now: u64)
        ensures { self.new ≡ standings.with_rise now self.old }
    {
        if !self.is_room(now) && now.saturating_sub(self.since) >= BETWEEN_NEWCOMERS {
            self.limit = self.places_taken(now) + 1;
            self.since = now;
        }
    }

    fn is_logged(&self, node: u8) -> bool
        ensures { result ≡ standings.is_logged node self.now }
    {
        self.is_read && has_node(&self.log, node)
    }

    fn is_free_to_show(&self, now: u64, node: u8) -> bool
        requires { node < node_ids }
        ensures { result ≡ standings.is_free_to_show now node self.now }
    {
        !self.is_read || is_lately(now, self.heard[usize::from(node)])
    }

    fn is_room(&self, now: u64) -> bool
        ensures { result ≡ standings.is_room now self.now }
    {
        self.places_taken(now) < self.limit
    }

    fn places_taken(&self, now: u64) -> usize
        ensures places { result ≡ standings.places_taken now self.now }
        ensures few { result ≤ 510 }
    {
        sum_of(self.log.len(), heard_lately(now, &self.heard), self.asked)
    }
}

fn sum_of(logged: usize, heard: usize, asked: u8) -> usize
    requires logged { logged ≤ log_limit }
    requires heard { heard ≤ node_ids }
    ensures sum { result ≡ logged + heard + asked }
    ensures few { result ≤ 510 }
{
    logged + heard + usize::from(asked)
}

/// Whether an entry has this node ID.
fn has_node(log: &[Entry], node: u8) -> bool
    ensures { result ≡ list_any (λ entry. nat_eq entry.node node) log.now }
{
    log.iter().any(|entry| entry.node == node)
}

/// How many nodes showed themselves lately.
fn heard_lately(now: u64, heard: &[Option<u64>; NODE_IDS]) -> usize
    ensures count { result ≡ count_by (standings.is_lately now) heard.now }
    ensures few { result ≤ node_ids }
{
    heard.iter().filter(|last| is_lately(now, **last)).count()
}

fn is_lately(now: u64, last: Option<u64>) -> bool
    ensures { result ≡ standings.is_lately now last }
{
    match last {
        Some(last) => now.saturating_sub(last) <= COUNTED_FOR,
        None => false,
    }
}

/// Forgets the NodeStatus of those that stand in the log.
fn forget_logged(log: &[Entry], heard: &mut [Option<u64>; NODE_IDS])
    requires { length heard.old ≡ node_ids }
    ensures heard { heard.new ≡ standings.without_logged log.now heard.old }
    ensures all { length heard.new ≡ node_ids }
{
    for entry in log {
        forget(entry.node, heard);
    }
}

fn forget(node: u8, heard: &mut [Option<u64>; NODE_IDS])
    requires { length heard.old ≡ node_ids }
    ensures heard { heard.new ≡ standings.unheard_of node heard.old }
    ensures all { length heard.new ≡ node_ids }
{
    if usize::from(node) < NODE_IDS {
        heard[usize::from(node)] = None;
    }
}
