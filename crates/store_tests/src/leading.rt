//! What a leader does: proposals, calls, commits and what it tells.

ghost use Rattle.std.specs.Prelude.{◌≤◌, ◌<◌};

use crate::member::{Member, View, blank, pair, reservation, stored};
use crate::same::same;
use can_frame::{Entry, NodeId};
use dsdl_codec::AppendRequest;
use raft_core::{Call, Pending, Proposed, Role, Telling};
use std::test::Fail;

/// The leader of term 2 with one entry, which is committed. It leads from 2,000 ms on.
fn leader() -> Option<Member> {
    Member::leader(stored(1, &[pair(1, 7, 125)], 1)?)
}

/// What becomes of a proposal, and last and the last entry after it.
fn proposed(member: Option<Member>, byte: u8, node: u8) -> Option<(Proposed, u8, Entry)> {
    let (member, proposed) = member?.propose(byte, node)?;
    let last = member.durable.last();
    Some((proposed, last, member.durable.entry(last)))
}

#[test]
fn a_leader_proposes_what_is_new_where_there_is_room(rt: HostRuntime) {
    let taken = Some((Proposed::Taken, 1, pair(1, 7, 125)));
    let added = Some((Proposed::Added, 2, pair(2, 8, 124)));
    assert!(rt; same(&proposed(leader(), 8, 124), &added));
    assert!(rt; same(&proposed(leader(), 7, 124), &taken));
    assert!(rt; same(&proposed(leader(), 8, 125), &taken));
}

/// What becomes of a reservation, and last and the last entry after it.
fn reserved(member: Option<Member>, node: u8) -> Option<(Proposed, u8, Entry)> {
    let (member, reserved) = member?.reserve(node)?;
    let last = member.durable.last();
    Some((reserved, last, member.durable.entry(last)))
}

/// The leader of term 2 with a pair, and two blanks, of which the second is its own.
fn beside_blanks() -> Option<Member> {
    Member::leader(stored(1, &[pair(1, 7, 125), blank(1)], 1)?)
}

#[test]
fn a_leader_reserves_a_node_id_that_is_not_recorded(rt: HostRuntime) {
    let taken = Some((Proposed::Taken, 1, pair(1, 7, 125)));
    let added = Some((Proposed::Added, 2, reservation(2, 124)));
    let after_blanks = Some((Proposed::Added, 4, reservation(2, 124)));
    assert!(rt; same(&reserved(leader(), 124), &added));
    assert!(rt; same(&reserved(leader(), 125), &taken));
    assert!(rt; same(&reserved(beside_blanks(), 124), &after_blanks));
}

/// What is seen of a leader while an entry of an older term and the blank of its own are acknowledged.
#[derive(Clone, Copy, Debug, PartialEq, Eq)]
struct Seen {
    won: View,
    blank: Entry,

    /// The commit index after the second entry was acknowledged, and after the third.
    commits: [u8; 2],

    told: [Telling; 3],
}

/// The append request that is owed to member 2, made under a transfer ID and answered.
fn append(member: Member, id: u8, success: bool) -> Option<(Member, AppendRequest)>
    requires { id < 32 }
{
    let (member, call) = member.call(2, id, 2000)?;
    let Call::Append(request) = call else {
        return None;
    };
    let term = member.durable.term();
    let (member, taken) = member.append_answer(2, id, term, success, 2000)?;
    if !taken {
        return None;
    }
    Some((member.commit()?, request))
}

/// A member of term 3 with entries of terms 1 and 2, of which the first is committed, leads in term 4.
fn commits() -> Option<([AppendRequest; 3], Seen)> {
    let entries = [pair(1, 7, 125), pair(2, 8, 124)];
    let member = Member::leader(stored(3, &entries, 1)?)?;
    let won = member.view();
    let blank = member.entry(3)?;
    let (member, first) = append(member, 1, false)?;
    let (member, second) = append(member, 2, true)?;
    let old = member.durable.commit();
    let (member, third) = append(member, 3, true)?;
    let new = member.durable.commit();
    let (member, pair) = member.tell();
    let (member, skip) = member.tell();
    let (_, nothing) = member.tell();
    let seen = Seen {
        won,
        blank,
        commits: [old, new],
        told: [pair, skip, nothing],
    };
    Some(([first, second, third], seen))
}

/// An append request of the leader of term 4.
fn request(prev_term: u32, prev_index: u8, entry: Entry) -> AppendRequest {
    AppendRequest {
        term: 4,
        prev_term,
        prev_index,
        commit: 1,
        entry: Some(entry),
    }
}

#[test]
fn an_entry_of_an_older_term_is_committed_with_one_of_the_leaders_own(
    rt: HostRuntime,
) -> Result<(), Fail> {
    let node = NodeId::new(124).ok_or("no node")?;
    let requests = [
        request(2, 2, blank(4)),
        request(1, 1, pair(2, 8, 124)),
        request(2, 2, blank(4)),
    ];
    let want = Seen {
        won: (Role::Leader, 4, 1, 3, 1),
        blank: blank(4),
        commits: [1, 3],
        told: [
            Telling::Pair(2, [8; 16], node),
            Telling::Skip(3),
            Telling::Nothing,
        ],
    };
    assert!(rt; same(&commits(), &Some((requests, want))));
    Ok(())
}

/// Last and the last entry, of the leader of term 2 with an entry of term 1 that is not committed: when it
/// has won, and when member 2 has answered that it has its log. Its blank waits until it is heard, or not.
fn won_and_heard(waits: bool) -> Option<[(u8, Entry); 2]> {
    let mut member = Member::open(stored(1, &[pair(1, 7, 125)], 0)?, 3, 0);
    if waits {
        member = member.waiting();
    }
    let member = member.lead()?;
    let won = last(&member);
    let (member, _) = append(member, 1, true)?;
    Some([won, last(&member)])
}

fn last(member: &Member) -> (u8, Entry) {
    let last = member.durable.last();
    (last, member.durable.entry(last))
}

#[test]
fn a_blank_waits_until_a_quorum_has_the_log(rt: HostRuntime) {
    let found = (1, pair(1, 7, 125));
    let added = (2, blank(2));
    assert!(rt; same(&won_and_heard(true), &Some([found, added])));
    assert!(rt; same(&won_and_heard(false), &Some([added, added])));
}

/// What a leader tells, in order, once all of its log is committed: a reservation, a pair and the blank of
/// its win.
fn tells() -> Option<[Telling; 4]> {
    let entries = [pair(1, 7, 125), reservation(2, 50), pair(2, 8, 124)];
    let member = Member::leader(stored(3, &entries, 1)?)?;
    let (member, _) = append(member, 1, true)?;
    let (member, second) = member.tell();
    let (member, third) = member.tell();
    let (member, fourth) = member.tell();
    let (_, end) = member.tell();
    Some([second, third, fourth, end])
}

#[test]
fn a_reservation_is_told_to_nobody(rt: HostRuntime) -> Result<(), Fail> {
    let node = NodeId::new(124).ok_or("no node")?;
    let want = [
        Telling::Skip(2),
        Telling::Pair(3, [8; 16], node),
        Telling::Skip(4),
        Telling::Nothing,
    ];
    assert!(rt; same(&tells(), &Some(want)));
    Ok(())
}

/// Whether an answer to the append request to member 2 with transfer ID 5 is taken, as one of the
/// service, and the call that is pending then.
fn answered(append: bool, from: u8, id: u8) -> Option<(bool, Option<Pending>)>
    requires { from ≤ 125 }
{
    let (member, _) = leader()?.call(2, 5, 2000)?;
    let (member, taken) = if append {
        member.append_answer(from, id, 2, true, 2100)?
    } else {
        member.vote_answer(from, id, 2, true, 2100)?
    };
    Some((taken, member.raft.pending(2)))
}

#[test]
fn an_append_answer_is_taken_from_its_peer_under_its_transfer_id(rt: HostRuntime) {
    let pending = Pending {
        service: 30,
        id: 5,
        step: 1,
        sent: 2000,
    };
    let refused = Some((false, Some(pending)));
    assert!(rt; same(&answered(true, 2, 5), &Some((true, None))));
    assert!(rt; same(&answered(true, 2, 6), &refused));
    assert!(rt; same(&answered(true, 3, 5), &refused));
    assert!(rt; same(&answered(false, 2, 5), &refused));
}

/// Whether a leader owes member 2 a call at a moment, after it sent it an append request at 2,000 ms
/// under transfer ID 5, which was answered or not.
fn owes(answered: Option<bool>, proposes: bool, moment: u64) -> Option<bool> {
    let (mut member, _) = leader()?.call(2, 5, 2000)?;
    if let Some(success) = answered {
        let (answered, _) = member.append_answer(2, 5, 2, success, 2000)?;
        member = answered;
    }
    if proposes {
        let (proposed, _) = member.propose(8, 124)?;
        member = proposed;
    }
    Some(member.raft.call(&member.durable, 2, moment).is_some())
}

#[test]
fn a_leader_calls_where_it_has_news_or_was_silent(rt: HostRuntime) {
    for (answered, proposes, moment, want) in [
        (Some(true), false, 2399, false),
        (Some(true), false, 2400, true),
        (Some(true), false, 1000, false),
        (Some(true), true, 2000, true),
        (Some(false), false, 2000, true),
        (None, false, 2400, false),
        (None, true, 2400, false),
    ] {
        let owes = owes(answered, proposes, moment);
        assert!(rt;
            same(&owes, &Some(want)),
            "{answered:?} {proposes} {moment}"
        );
    }
}

/// Whether a call that was made at 2,000 ms is pending after calls were given up at a moment.
fn pending_at(moment: u64) -> Option<bool> {
    let (member, _) = leader()?.call(2, 5, 2000)?;
    Some(member.expire(moment).raft.pending(2).is_some())
}

#[test]
fn a_call_is_given_up_after_a_second(rt: HostRuntime) {
    for (moment, pending) in [(0, true), (2999, true), (3000, false)] {
        assert!(rt; same(&pending_at(moment), &Some(pending)), "{moment}");
    }
}
