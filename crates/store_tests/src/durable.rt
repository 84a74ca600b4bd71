//! What a member has stored, through stops and failures at each device call.

ghost use Rattle.std.specs.Prelude.{◌≡◌, ◌<◌, ◌≤◌, length, replicate};
ghost use Rattle.disk_model.specs.Pattern.{IsUsable};
ghost use Rattle.kv_store.specs.Image.{key_count, value_limit};

use crate::same::same;
use arrayvec::ArrayVec;
use can_frame::Entry;
use disk_model::{IMAGE, MemoryDisk};
use kv_store::{Fault, OpenFault};
use outside::Pattern;
use raft_log::origin::{EXCHANGE, WIN};
use raft_log::{Durable, may_follow};

/// The pair of node 125 and a unique ID of sevens, in term 1.
fn pair() -> Entry
    ensures { result ≡ record { term = 1; uid = replicate 16 7; node = 125 } }
{
    Entry {
        term: 1,
        uid: [7; 16],
        node: 125,
    }
}

/// A pattern of one byte.
fn byte(byte: u8) -> Pattern
    ensures { IsUsable result }
{
    let mut bytes = ArrayVec::new();
    bytes.push(byte);
    Pattern::Bytes(bytes)
}

fn empty() -> Option<Durable<MemoryDisk>> {
    Durable::open(MemoryDisk::new(&[0; IMAGE])).ok()
}

/// Takes term 1, where the term is 0.
fn take_term(durable: &mut Durable<MemoryDisk>) -> Option<Result<(), Fault>> {
    if durable.term() != 0 {
        return None;
    }
    Some(durable.set_term(1))
}

/// Appends the pair, where the log is empty in term 1.
fn append_pair(durable: &mut Durable<MemoryDisk>) -> Option<Result<(), Fault>> {
    if durable.last() > 0 || durable.term() != 1 {
        return None;
    }
    Some(durable.append(pair(), EXCHANGE))
}

/// The term, the vote and last that an opening finds after a restart.
fn found_after(durable: Durable<MemoryDisk>, pattern: Pattern) -> Option<(u32, u8, u8)>
    requires { IsUsable pattern }
{
    let mut disk = durable.into_disk();
    disk.restart(pattern);
    let durable = Durable::open(disk).ok()?;
    Some((durable.term(), durable.vote(), durable.last()))
}

/// What a stop in place of a device call of `set_term(1)` leaves of an empty store.
fn stopped_in_set_term(call: u64, pattern: Pattern) -> Option<(u32, u8, u8)>
    requires { IsUsable pattern }
{
    let mut durable = empty()?;
    durable.stop_at(call);
    let _ = take_term(&mut durable)?;
    found_after(durable, pattern)
}

/// What a stop in place of a device call of the append of a pair leaves of an empty log in term 1.
fn stopped_in_append(call: u64, pattern: Pattern) -> Option<(u32, u8, u8)>
    requires { IsUsable pattern }
{
    let mut durable = empty()?;
    take_term(&mut durable)?.ok()?;
    durable.stop_at(call);
    let _ = append_pair(&mut durable)?;
    found_after(durable, pattern)
}

#[test]
fn a_stop_leaves_the_state_after_some_of_the_puts(rt: HostRuntime) {
    for call in 1..9u64 {
        let late = Some((u32::from(call >= 5), 0, 0));
        let early = Some((u32::from(call >= 4), 0, 0));
        assert!(rt;
            same(&stopped_in_set_term(call, Pattern::Old), &late),
            "old {call}"
        );
        assert!(rt;
            same(&stopped_in_set_term(call, Pattern::New), &early),
            "new {call}"
        );
        assert!(rt;
            same(&stopped_in_set_term(call, byte(0x55)), &early),
            "odd {call}"
        );
        assert!(rt;
            same(&stopped_in_set_term(call, byte(0xaa)), &late),
            "even {call}"
        );
        let none = Some((1, 0, 0));
        let last = Some((1, 0, u8::from(call >= 8)));
        assert!(rt;
            same(&stopped_in_append(call, Pattern::Old), &none),
            "old {call}"
        );
        assert!(rt;
            same(&stopped_in_append(call, Pattern::New), &last),
            "new {call}"
        );
        assert!(rt;
            same(&stopped_in_append(call, byte(0x55)), &last),
            "odd {call}"
        );
        assert!(rt;
            same(&stopped_in_append(call, byte(0xaa)), &none),
            "even {call}"
        );
    }
}

/// Term, vote, last, commit, and the entry at place 1 and its origin after a vote, an append, a commit, a
/// second append that is cut off again, and an opening.
fn used() -> Option<(u32, u8, u8, u8, Entry, u8)> {
    let mut durable = empty()?;
    take_term(&mut durable)?.ok()?;
    append_pair(&mut durable)?.ok()?;
    if durable.vote() != 0 || durable.commit() != 0 || durable.last() != 1 {
        return None;
    }
    durable.set_vote(9).ok()?;
    durable.set_commit(1).ok()?;
    let blank = Entry {
        term: 1,
        ..Entry::default()
    };
    if !may_follow(durable.log(), durable.term(), &blank) {
        return None;
    }
    durable.append(blank, WIN).ok()?;
    if durable.commit() != 1 || durable.last() != 2 || durable.origin(2) != WIN {
        return None;
    }
    durable.truncate(1).ok()?;
    let durable = Durable::open(durable.into_disk()).ok()?;
    if durable.last() != 1 {
        return None;
    }
    Some((
        durable.term(),
        durable.vote(),
        durable.last(),
        durable.commit(),
        durable.entry(1),
        durable.origin(1),
    ))
}

#[test]
fn what_was_put_is_found_again(rt: HostRuntime) {
    assert!(rt; same(&used(), &Some((1, 9, 1, 1, pair(), EXCHANGE))));
}

/// Why an image of zeros with these bytes is refused.
fn refused(bytes: &[(usize, u8)]) -> Option<OpenFault> {
    let mut image = [0; IMAGE];
    for (place, byte) in bytes {
        if *place < IMAGE {
            image[*place] = *byte;
        }
    }
    match Durable::open(MemoryDisk::new(&image)) {
        Ok(_) => None,
        Err(refused) => Some(refused.why),
    }
}

#[test]
fn the_first_damaged_key_is_named(rt: HostRuntime) {
    assert!(rt; refused(&[(1, 1), (2, 1)]).is_none());
    assert!(rt; refused(&[(1, 1), (2, 2)]).is_none());
    assert!(rt; same(&refused(&[(1, 1), (2, 3)]), &Some(OpenFault::Damaged(0))));
    assert!(rt; same(&refused(&[(1, 1)]), &Some(OpenFault::Damaged(0))));
    assert!(rt; same(&refused(&[(68, 3)]), &Some(OpenFault::Damaged(1))));
    assert!(rt;
        same(
            &refused(&[(135, 1), (136, 126)]),
            &Some(OpenFault::Damaged(2))
        )
    );
    assert!(rt;
        same(
            &refused(&[(202, 1), (203, 128)]),
            &Some(OpenFault::Damaged(3))
        )
    );
    assert!(rt;
        same(
            &refused(&[(269, 1), (270, 1)]),
            &Some(OpenFault::Damaged(4))
        )
    );
    assert!(rt;
        same(
            &refused(&[(202, 1), (203, 1)]),
            &Some(OpenFault::Damaged(5))
        )
    );
    assert!(rt; same(&refused(&[(8778, 33)]), &Some(OpenFault::Damaged(131))));
    assert!(rt;
        same(
            &refused(&[(68, 3), (8778, 33)]),
            &Some(OpenFault::Damaged(131))
        )
    );
}

/// Writes the value of a key into an image of zeros.
fn write(image: &mut [u8; IMAGE], key: usize, value: &[u8])
    requires exists { key < key_count }
    requires short { length value.now ≤ value_limit }
{
    image[67 * key + 1] = value.len() as u8;
    image[67 * key + 2..67 * key + 2 + value.len()].copy_from_slice(value);
}

/// A pair of term 1 as a store of version 1 has it.
fn first_form(uid: u8, node: u8) -> [u8; 21] {
    let mut value = [uid; 21];
    value[..4].copy_from_slice(&[1, 0, 0, 0]);
    value[20] = node;
    value
}

/// Writes an entry of the first form, and these bytes behind it.
fn write_longer(image: &mut [u8; IMAGE], key: usize, value: [u8; 21], behind: &[u8])
    requires exists { key < key_count }
    requires short { length behind.now ≤ 2 }
{
    write(image, key, &value);
    image[67 * key + 1] = 21 + behind.len() as u8;
    image[67 * key + 23..67 * key + 23 + behind.len()].copy_from_slice(behind);
}

/// A store of this version, empty for 0, with term 1, last 2, commit 2, and two pairs with these bytes behind
/// them.
fn two_pairs(version: u8, first: &[u8], second: &[u8]) -> MemoryDisk
    requires first { length first.now ≤ 2 }
    requires second { length second.now ≤ 2 }
{
    let mut image = [0; IMAGE];
    if version > 0 {
        write(&mut image, 0, &[version]);
    }
    write(&mut image, 1, &[1, 0, 0, 0]);
    write(&mut image, 3, &[2]);
    write(&mut image, 4, &[2]);
    write_longer(&mut image, 5, first_form(7, 125), first);
    write_longer(&mut image, 6, first_form(8, 124), second);
    MemoryDisk::new(&image)
}

/// Term, vote, last, commit, and of both entries the node ID and the origin.
type Found = (u32, u8, u8, u8, [u8; 4]);

/// What is found of two entries.
fn found_in(durable: &Durable<MemoryDisk>) -> Option<Found> {
    if durable.last() != 2 {
        return None;
    }
    let entries = [
        durable.entry(1).node,
        durable.origin(1),
        durable.entry(2).node,
        durable.origin(2),
    ];
    Some((
        durable.term(),
        durable.vote(),
        durable.last(),
        durable.commit(),
        entries,
    ))
}

/// What an opening finds of two pairs, or the key that is damaged.
fn opened(disk: MemoryDisk) -> Result<Option<Found>, OpenFault> {
    match Durable::open(disk) {
        Ok(durable) => Ok(found_in(&durable)),
        Err(refused) => Err(refused.why),
    }
}

#[test]
fn an_entry_has_an_origin_from_version_2_on(rt: HostRuntime) {
    let found = |first: u8, second: u8| Ok(Some((1, 0, 2, 2, [125, first, 124, second])));
    for origin in 0..5u8 {
        let other = 4 - origin;
        assert!(rt;
            same(
                &opened(two_pairs(2, &[origin], &[other])),
                &found(origin, other)
            )
        );
        assert!(rt; same(&opened(two_pairs(1, &[], &[origin])), &found(0, origin)));
    }
    assert!(rt; same(&opened(two_pairs(0, &[], &[])), &found(0, 0)));
    assert!(rt;
        same(
            &opened(two_pairs(1, &[], &[5])),
            &Err(OpenFault::Damaged(6))
        )
    );
    assert!(rt;
        same(
            &opened(two_pairs(1, &[], &[0, 0])),
            &Err(OpenFault::Damaged(6))
        )
    );
    assert!(rt;
        same(
            &opened(two_pairs(2, &[], &[0])),
            &Err(OpenFault::Damaged(5))
        )
    );
    assert!(rt;
        same(
            &opened(two_pairs(2, &[0], &[])),
            &Err(OpenFault::Damaged(6))
        )
    );
}
