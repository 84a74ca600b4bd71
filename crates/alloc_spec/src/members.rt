ghost use Rattle.std.specs.Prelude.{IsTrue, ◌↔◌, ◌≤◌, ℕ};
ghost use Rattle.can_frame.specs.Sizes.{most_members};
ghost use Rattle.raft_model.specs.Lists.{In};
ghost use Rattle.raft_model.specs.Members.{HasNoneTwice};
ghost use Rattle.alloc_spec.specs.ClusterMembers.{AreMembers, AreNodes};

use can_frame::sizes::MOST_MEMBERS;

/// Whether a cluster may have these members: 1 to 5 different node IDs of 1 to 125.
pub fn are_members(ids: &[u8]) -> bool
    ensures { IsTrue result ↔ AreMembers ids.now }
{
    if !is_count(ids.len()) {
        return false;
    }
    if !are_nodes(ids) {
        return false;
    }
    are_different(ids)
}

fn is_count(count: usize) -> bool
    ensures { IsTrue result ↔ ((1 ≤ count) × (count ≤ most_members)) }
{
    1 <= count && count <= MOST_MEMBERS
}

fn is_node(id: u8) -> bool
    ensures { IsTrue result ↔ ((1 ≤ id) × (id ≤ 125)) }
{
    1 <= id && id <= 125
}

fn are_nodes(ids: &[u8]) -> bool
    ensures { IsTrue result ↔ AreNodes ids.now }
{
    match ids.split_first() {
        Some((first, rest)) => is_node(*first) && are_nodes(rest),
        None => true,
    }
}

fn are_different(ids: &[u8]) -> bool
    ensures { IsTrue result ↔ HasNoneTwice ids.now }
{
    match ids.split_first() {
        Some((first, rest)) => !has(rest, *first) && are_different(rest),
        None => true,
    }
}

fn has(ids: &[u8], id: u8) -> bool
    ensures { IsTrue result ↔ In id ids.now }
{
    match ids.split_first() {
        Some((first, rest)) => *first == id || has(rest, id),
        None => false,
    }
}
