ghost use Rattle.std.specs.Prelude.{◌≡◌, ◌≤◌, ◌<◌, ◌↔◌, length, slice_index, IfOk, IfErr, IsTrue, true};
ghost use Rattle.can_frame.specs.Log.{last_term};
ghost use Rattle.can_frame.specs.Sizes.{most_members};
ghost use Rattle.cmd_replace.specs.Guard.{IsElected, MayReplace, StandsInWay, is_log_not_above};
ghost use Rattle.cmd_replace.specs.Guard.{supporters, supports, voted};
ghost use Rattle.store_audit.specs.Stores.{store_at};

use raft_log::Stored;

/// Why the store of a lost member may not be made from another.
#[derive(Clone, Copy, Debug, PartialEq, Eq)]
pub enum Obstacle {
    /// No member that is left has the support of more than half of all members, its own included.
    NoLeader,

    /// The member at this place has it, and has not committed all of its log.
    Uncommitted(usize),
}

/// The place of the leader from whose store that of the lost member may be made.
pub fn find_leader(ids: &[u8], lost: u8, stores: &[Stored]) -> Result<usize, Obstacle>
    requires five { length ids.now ≤ most_members }
    requires all { length stores.now ≡ length ids.now }
    ensures may { IfOk result (λ place. MayReplace ids.now lost stores.now place) }
    ensures may_not { IfErr result (λ why. StandsInWay ids.now lost stores.now why) }
{
    let mut found = None;
    for place in 0..ids.len() {
        if is_elected(ids, lost, stores, place) {
            if is_committed(&stores[place]) {
                return Ok(place);
            }
            found = Some(place);
        }
    }
    match found {
        Some(place) => Err(Obstacle::Uncommitted(place)),
        None => Err(Obstacle::NoLeader),
    }
}

/// Whether a store has its whole log committed.
fn is_committed(store: &Stored) -> bool
    ensures { IsTrue result ↔ (store.now.commit ≡ length store.now.entries.items) }
{
    usize::from(store.commit) == store.entries.len()
}

/// Whether the member at a place supports itself, as more than half of all members do.
fn is_elected(ids: &[u8], lost: u8, stores: &[Stored], place: usize) -> bool
    requires five { length ids.now ≤ most_members }
    requires all { length stores.now ≡ length ids.now }
    requires within { place < length ids.now }
    ensures { IsTrue result ↔ IsElected ids.now lost stores.now place }
{
    is_supporter(ids, lost, stores, place, place)
        && ids.len() < 2 * count_supporters(ids, lost, stores, place)
}

/// How many members that are left support the one at a place.
fn count_supporters(ids: &[u8], lost: u8, stores: &[Stored], leader: usize) -> usize
    requires five { length ids.now ≤ most_members }
    requires all { length stores.now ≡ length ids.now }
    requires within { leader < length ids.now }
    ensures count { result ≡ supporters ids.now lost stores.now leader (length ids.now) }
    ensures few { result ≤ length ids.now }
{
    let mut count = 0;
    for place in 0..ids.len() {
        if is_supporter(ids, lost, stores, leader, place) {
            count += 1;
        }
    }
    count
}

/// Whether the member at a place is left and supports the one at another.
fn is_supporter(ids: &[u8], lost: u8, stores: &[Stored], leader: usize, place: usize) -> bool
    requires all { length stores.now ≡ length ids.now }
    requires leader { leader < length ids.now }
    requires within { place < length ids.now }
    ensures { result ≡ supports ids.now lost stores.now leader place }
{
    has_voted(ids, lost, stores, stores[leader].term, ids[leader], place)
        && has_no_log_above(&stores[place], &stores[leader])
}

/// Whether the member at a place is left and has a vote for a node with a term.
fn has_voted(ids: &[u8], lost: u8, stores: &[Stored], term: u32, node: u8, place: usize) -> bool
    requires all { length stores.now ≡ length ids.now }
    requires within { place < length ids.now }
    ensures { result ≡ voted ids.now lost stores.now term node place }
{
    ids[place] != lost && stores[place].term == term && stores[place].vote == node
}

/// Whether the log of a store is not above that of another, as elections compare logs.
fn has_no_log_above(store: &Stored, other: &Stored) -> bool
    ensures { result ≡ is_log_not_above store.now.entries.items other.now.entries.items }
{
    let (own, its) = (last_term(store), last_term(other));
    own < its || own == its && store.entries.len() <= other.entries.len()
}

/// The term of the last entry of a store, 0 where there is none.
fn last_term(store: &Stored) -> u32
    ensures { result ≡ last_term store.now.entries.items }
{
    match store.entries.last() {
        Some(entry) => entry.term,
        None => 0,
    }
}
