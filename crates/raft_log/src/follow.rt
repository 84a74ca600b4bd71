ghost use Rattle.std.specs.Prelude.{◌≡◌, ◌↔◌, IsTrue};
ghost use Rattle.can_frame.specs.Log.{IsDistinctFromAll, last_term};
ghost use Rattle.raft_log.specs.MayFollow.{MayFollow};

use can_frame::Entry;

/// Whether an entry may follow a log in a term: it is well formed, its term is at least that of the last
/// entry and at most the term, and the longer log is injective.
pub fn may_follow(log: &[Entry], term: u32, entry: &Entry) -> bool
    ensures { IsTrue result ↔ MayFollow log.now term entry.now }
{
    if !entry.is_well_formed() {
        return false;
    }
    if entry.term < last_term(log) || entry.term > term {
        return false;
    }
    is_distinct_from_all(log, entry)
}

/// The term of the last entry, 0 where there is none.
fn last_term(log: &[Entry]) -> u32
    ensures { result ≡ last_term log.now }
{
    match log {
        [] => 0,
        [.., last] => last.term,
    }
}

/// Whether an entry is distinct from each of a log.
fn is_distinct_from_all(log: &[Entry], entry: &Entry) -> bool
    ensures { IsTrue result ↔ IsDistinctFromAll log.now entry.now }
{
    for earlier in log {
        if !earlier.is_distinct_from(entry) {
            return false;
        }
    }
    true
}
