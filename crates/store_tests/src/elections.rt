//! Waits, votes and elections.

ghost use Rattle.std.specs.Prelude.{◌≤◌};

use crate::member::{Member, pair, stored};
use crate::same::same;
use can_frame::Entry;
use dsdl_codec::{AppendRequest, VoteRequest};
use raft_core::{Call, Role};

/// A follower of term 2 with two entries.
fn follower() -> Option<Member> {
    let durable = stored(2, &[pair(1, 7, 125), pair(2, 8, 124)], 0)?;
    Some(Member::open(durable, 3, 0))
}

/// A vote request with a log of two entries.
fn vote(term: u32, last_term: u32) -> VoteRequest {
    VoteRequest {
        term,
        last_term,
        last_index: 2,
    }
}

/// The answer to a vote request of member 2, and the vote after it.
fn asked(request: &VoteRequest) -> Option<(u32, bool, u8)> {
    let (member, answer) = follower()?.vote_request(2, request, 100)?;
    Some((answer.term, answer.granted, member.durable.vote()))
}

#[test]
fn a_vote_is_for_a_log_that_is_not_behind(rt: HostRuntime) {
    for (term, last_term, last_index, want) in [
        (1, 9, 9, (2, false, 0)),
        (2, 2, 2, (2, true, 2)),
        (2, 2, 3, (2, true, 2)),
        (2, 2, 1, (2, false, 0)),
        (2, 1, 9, (2, false, 0)),
        (2, 3, 0, (2, true, 2)),
        (3, 2, 2, (3, true, 2)),
        (3, 2, 1, (3, false, 0)),
    ] {
        let request = VoteRequest {
            term,
            last_term,
            last_index,
        };
        assert!(rt; same(&asked(&request), &Some(want)), "{request:?}");
    }
}

/// Whether member 3 is granted a vote in a term, after member 2 got that of term 2.
fn second_vote(term: u32) -> Option<bool> {
    let (member, _) = follower()?.vote_request(2, &vote(2, 2), 100)?;
    let (_, answer) = member.vote_request(3, &vote(term, 2), 200)?;
    Some(answer.granted)
}

#[test]
fn one_vote_in_a_term(rt: HostRuntime) {
    assert!(rt; same(&second_vote(2), &Some(false)));
    assert!(rt; same(&second_vote(3), &Some(true)));
}

/// What a member hears at a moment.
#[derive(Clone, Copy, Debug)]
enum Heard {
    /// A vote request of member 2: its term and the last term of its log.
    Vote(u32, u32),

    /// An append request with no entry: its term, and its previous term at place 2.
    Append(u32, u32),

    /// An append request with an entry that is not well formed.
    Broken,

    Tick,
}

/// An append request with previous place 2.
fn append(term: u32, prev_term: u32, entry: Option<Entry>) -> AppendRequest {
    AppendRequest {
        term,
        prev_term,
        prev_index: 2,
        commit: 0,
        entry,
    }
}

fn hear(member: Member, heard: Heard, now: u64) -> Option<Member> {
    let request = match heard {
        Heard::Vote(term, last_term) => {
            let (member, _) = member.vote_request(2, &vote(term, last_term), now)?;
            return Some(member);
        }
        Heard::Tick => return member.tick(now, 0),
        Heard::Append(term, prev_term) => append(term, prev_term, None),
        Heard::Broken => append(2, 2, Some(pair(2, 9, 0))),
    };
    let (member, _) = member.append_request(2, &request, now)?;
    Some(member)
}

/// Whether a tick with a word begins an election.
fn stands(member: Member, now: u64, word: u32) -> Option<(Member, bool)> {
    let term = member.durable.term();
    let member = member.tick(now, word)?;
    let stood = member.raft.role() == Role::Candidate && term < member.durable.term();
    Some((member, stood))
}

/// Whether a follower with a wait of 2,000 ms that heard this before begins an election a millisecond
/// before a moment, and at it.
fn stands_after(heard: &[(u64, Heard)], moment: u64) -> Option<(bool, bool)> {
    let mut member = follower()?;
    for (now, heard) in heard {
        member = hear(member, *heard, *now)?;
    }
    let (member, early) = stands(member, moment.saturating_sub(1), 0)?;
    let (_, now) = stands(member, moment, 0)?;
    Some((early, now))
}

#[test]
fn what_begins_the_wait(rt: HostRuntime) {
    let rows: [(&[(u64, Heard)], u64); 12] = [
        (&[], 2000),
        (&[(1000, Heard::Vote(2, 2))], 3000),
        (
            &[(1000, Heard::Vote(2, 2)), (1500, Heard::Vote(2, 2))],
            3500,
        ),
        (&[(1000, Heard::Vote(2, 1))], 2000),
        (&[(1000, Heard::Vote(3, 1))], 2000),
        (&[(1000, Heard::Append(2, 2))], 3000),
        (&[(1000, Heard::Append(3, 2))], 3000),
        (&[(1000, Heard::Append(1, 2))], 2000),
        (&[(1000, Heard::Append(2, 1))], 3000),
        (&[(1000, Heard::Broken)], 3000),
        (&[(2000, Heard::Tick), (2500, Heard::Vote(2, 1))], 4000),
        (&[(2000, Heard::Tick), (2500, Heard::Vote(4, 1))], 4500),
    ];
    for (heard, moment) in rows {
        assert!(rt;
            same(&stands_after(heard, moment), &Some((false, true))),
            "{heard:?}"
        );
    }
}

/// Whether a member that opened with a word begins elections a millisecond before two moments, and at
/// them. The tick of the first election has the second word.
fn elections(words: [u32; 2], moments: [u64; 2]) -> Option<[bool; 4]> {
    let member = Member::open(stored(0, &[], 0)?, 3, words[0]);
    let (member, first_early) = stands(member, moments[0].saturating_sub(1), 9)?;
    let (member, first) = stands(member, moments[0], words[1])?;
    let (member, second_early) = stands(member, moments[1].saturating_sub(1), 9)?;
    let (_, second) = stands(member, moments[1], 9)?;
    Some([first_early, first, second_early, second])
}

#[test]
fn the_wait_takes_the_word_of_the_last_election(rt: HostRuntime) {
    for (words, moments) in [
        ([0, 0], [2000, 4000]),
        ([2000, 500], [4000, 6500]),
        ([2001, 2008], [2000, 4007]),
        ([u32::MAX, 0], [2885, 4885]),
    ] {
        let want = Some([false, true, false, true]);
        assert_eq!(rt; elections(words, moments), want, "{words:?}");
    }
}

/// The role of a member of four after its wait, and after each of two votes.
fn among_four() -> Option<[Role; 3]> {
    let Member {
        mut raft,
        mut durable,
        size,
    } = Member::open(stored(0, &[], 0)?, 4, 0);
    if size != 4 {
        return None;
    }
    raft.tick(&mut durable, &[2, 3, 4], true, 2000, 0).ok()?;
    let none = raft.role();
    let (member, _) = Member {
        raft,
        durable,
        size,
    }
    .call(2, 0, 2000)?;
    let (member, _) = member.vote_answer(2, 0, 1, true, 2000)?;
    let one = member.raft.role();
    let (member, _) = member.call(3, 0, 2000)?;
    let (member, _) = member.vote_answer(3, 0, 1, true, 2000)?;
    Some([none, one, member.raft.role()])
}

#[test]
fn half_of_the_members_are_no_quorum(rt: HostRuntime) {
    let roles = [Role::Candidate, Role::Candidate, Role::Leader];
    assert!(rt; same(&among_four(), &Some(roles)));
}

/// A candidate of term 3 that asked members 2 and 3 under transfer IDs 5 and 6.
fn candidate() -> Option<Member> {
    let member = follower()?.tick(2000, 0)?;
    let (member, _) = member.call(2, 5, 2000)?;
    let (member, _) = member.call(3, 6, 2000)?;
    Some(member)
}

/// Whether an answer to a vote request is taken, the role after it, and whether member 2 is asked again
/// a second later.
fn answered(from: u8, id: u8, term: u32, granted: bool) -> Option<(bool, Role, bool)>
    requires { from ≤ 125 }
{
    let (member, taken) = candidate()?.vote_answer(from, id, term, granted, 2500)?;
    let role = member.raft.role();
    let member = member.expire(3000);
    let asks = matches!(
        member.raft.call(&member.durable, 2, 3000),
        Some(Call::Vote(_))
    );
    Some((taken, role, asks))
}

#[test]
fn a_vote_answer_is_taken_from_its_peer_under_its_transfer_id(rt: HostRuntime) {
    let refused = Some((false, Role::Candidate, true));
    assert!(rt; same(&answered(2, 5, 3, true), &Some((true, Role::Leader, false))));
    assert!(rt; same(&answered(2, 6, 3, true), &refused));
    assert!(rt; same(&answered(3, 5, 3, true), &refused));
}
