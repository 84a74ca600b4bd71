//! Append requests.

use crate::member::{Member, blank, pair, reservation, stored};
use crate::same::same;
use can_frame::Entry;
use dsdl_codec::AppendRequest;
use raft_core::Role;

/// A follower of term 3 whose second entry is committed.
fn follower() -> Option<Member> {
    let entries = [pair(1, 7, 125), pair(1, 8, 124), pair(2, 9, 123)];
    Some(Member::open(stored(3, &entries, 2)?, 3, 0))
}

/// A request of term 3.
fn request(prev_term: u32, prev_index: u8, commit: u8, entry: Option<Entry>) -> AppendRequest {
    AppendRequest {
        term: 3,
        prev_term,
        prev_index,
        commit,
        entry,
    }
}

/// Whether a member accepts a request, with last, the commit index and the last entry after it.
fn after(member: Option<Member>, request: &AppendRequest) -> Option<(bool, u8, u8, Entry)> {
    let (member, answer) = member?.append_request(2, request, 100)?;
    let (role, term, _, last, commit) = member.view();
    if role != Role::Follower || term != 3 || answer.term != 3 {
        return None;
    }
    let entry = member.entry(last)?;
    Some((answer.success, last, commit, entry))
}

#[test]
fn an_entry_that_may_not_stand_is_refused(rt: HostRuntime) {
    let refused = Some((false, 3, 2, pair(2, 9, 123)));
    let broken = [
        (
            "a unique ID without a node ID",
            request(2, 3, 3, Some(pair(3, 10, 0))),
        ),
        (
            "a node ID of a tool",
            request(2, 3, 3, Some(pair(3, 10, 126))),
        ),
        (
            "a later term than the request",
            request(2, 3, 3, Some(pair(4, 10, 122))),
        ),
        ("a unique ID again", request(2, 3, 3, Some(pair(3, 7, 122)))),
        ("a node ID again", request(2, 3, 3, Some(pair(3, 10, 125)))),
        (
            "a recorded node ID reserved",
            request(2, 3, 3, Some(reservation(3, 125))),
        ),
    ];
    for (name, request) in broken {
        assert!(rt; same(&after(follower(), &request), &refused), "{name}");
    }
}

#[test]
fn an_entry_that_may_stand_is_taken(rt: HostRuntime) {
    let new = pair(3, 10, 122);
    let again = pair(3, 9, 123);
    let taken = [
        ("after the last", request(2, 3, 9, Some(new)), (4, 4, new)),
        (
            "a blank",
            request(2, 3, 2, Some(blank(3))),
            (4, 2, blank(3)),
        ),
        (
            "a reservation",
            request(2, 3, 2, Some(reservation(3, 5))),
            (4, 2, reservation(3, 5)),
        ),
        (
            "in place of another term",
            request(1, 2, 3, Some(new)),
            (3, 3, new),
        ),
        (
            "the unique ID that was cut",
            request(1, 2, 0, Some(again)),
            (3, 2, again),
        ),
    ];
    for (name, request, (last, commit, entry)) in taken {
        let want = Some((true, last, commit, entry));
        assert_eq!(rt; after(follower(), &request), want, "{name}");
    }
}
