//! Frames that come to a receiver, each with what it leads to.

ghost use Rattle.std.specs.Prelude.{◌≡◌, ◌∷◌, []};
ghost use Rattle.transfer_rx.specs.Acceptance.{AnswersByRows, first_signature};
ghost use Rattle.bus_tests.specs.declared.receiver.TheConstants.{ALLOCATION, ANOTHER};
ghost use Rattle.transfer_rx.specs.Views.{accept_of, setting_of};

use crate::same::{is, same};
use arrayvec::ArrayVec;
use can_frame::{Frame, Kind, Mark, Why};
use std::test::Fail;
use transfer_rx::{AcceptRow, Heard, Receiver, Took};

const ALLOCATION: u64 = 0x0b2a_8126_20a1_1d40;

const ANOTHER: u64 = 0x0b2a_8126_20a1_1d41;

/// An Allocation of node 1 in three frames, with transfer ID 1.
const A: [u8; 8] = [0x58, 0x5d, 0, 0, 1, 2, 3, 0x81];

const B: [u8; 8] = [4, 5, 6, 7, 8, 9, 10, 0x21];

const C: [u8; 2] = [11, 0x41];

const PAYLOAD: [u8; 13] = [0, 0, 1, 2, 3, 4, 5, 6, 7, 8, 9, 10, 11];

const NODE_1: u32 = 0x1e00_0101;

const NODE_3: u32 = 0x1e00_0103;

/// What a frame should lead to.
#[derive(Clone, Copy)]
enum Then<'a> {
    Part,
    Delivered(&'a [u8]),
    Dropped(Why),
}

/// A frame that comes at a moment.
#[derive(Clone, Copy)]
struct Row<'a> {
    id: u32,
    bytes: &'a [u8],
    now: u64,
    then: Then<'a>,
}

fn comes<'a>(id: u32, bytes: &'a [u8], now: u64, then: Then<'a>) -> Row<'a> {
    Row {
        id,
        bytes,
        now,
        then,
    }
}

fn allocation(kind: Kind, number: u16) -> Option<u64>
    ensures { result ≡ first_signature
        (record { kind = Kind.Message; number = 1; signature = ALLOCATION } ∷ []) kind number }
{
    match kind {
        Kind::Message if number == 1 => Some(ALLOCATION),
        _ => None,
    }
}

fn another(kind: Kind, number: u16) -> Option<u64>
    ensures { result ≡ first_signature
        (record { kind = Kind.Message; number = 1; signature = ANOTHER } ∷ []) kind number }
{
    match kind {
        Kind::Message if number == 1 => Some(ANOTHER),
        _ => None,
    }
}

fn anonymous(kind: Kind, number: u16) -> Option<u64>
    ensures { result ≡ first_signature
        (record { kind = Kind.Anonymous; number = 1; signature = ALLOCATION } ∷ []) kind number }
{
    match kind {
        Kind::Anonymous if number == 1 => Some(ALLOCATION),
        _ => None,
    }
}

fn accept_rows(kind: Kind, signature: u64) -> ArrayVec<AcceptRow, 16>
    ensures { result.items ≡ record { kind = kind; number = 1; signature = signature } ∷ [] }
{
    let mut rows = ArrayVec::new();
    rows.push(AcceptRow {
        kind,
        number: 1,
        signature,
    });
    rows
}

/// The place of the first row that led to something else.
fn first_wrong<F: Fn(Kind, u16) -> Option<u64> + Copy, const S: usize, const N: usize>(
    receiver: &mut Receiver<F, S, N>,
    rows: &[Row],
) -> Option<usize>
    requires callable { F.IsAlwaysCallable (accept_of receiver.old) }
    requires answers { AnswersByRows (F.post (accept_of receiver.old))
        (setting_of receiver.old).rows }
{
    for (place, row) in rows.iter().enumerate() {
        if !leads_to(receiver, row) {
            return Some(place);
        }
    }
    None
}

/// The same in a new receiver of node 2, with one session and one block.
fn first_wrong_anew(rows: &[Row]) -> Option<usize> {
    let mut receiver: Receiver<_, 1, 1> = Receiver::new(
        2,
        accept_rows(Kind::Message, ALLOCATION),
        allocation,
    );
    first_wrong(&mut receiver, rows)
}

fn leads_to<F: Fn(Kind, u16) -> Option<u64> + Copy, const S: usize, const N: usize>(
    receiver: &mut Receiver<F, S, N>,
    row: &Row,
) -> bool
    requires callable { F.IsAlwaysCallable (accept_of receiver.old) }
    requires answers { AnswersByRows (F.post (accept_of receiver.old))
        (setting_of receiver.old).rows }
    ensures setting { setting_of receiver.new ≡ setting_of receiver.old }
    ensures accept { accept_of receiver.new ≡ accept_of receiver.old }
{
    let Ok(frame) = Frame::from_parts(row.id, row.bytes) else {
        return false;
    };
    let mark = Mark {
        step: 0,
        re: 0,
        place: 0,
    };
    match (receiver.take(&frame, mark, row.now), row.then) {
        (Took::Delivered(transfer), Then::Delivered(payload)) => transfer.payload.as_slice()
            == payload,
        (Took::Part, Then::Part) => true,
        (Took::Dropped(why), Then::Dropped(expected)) => why == expected,
        _ => false,
    }
}

#[test]
fn worked_cases(rt: HostRuntime) {
    let part = Then::Part;
    let whole = Then::Delivered(&PAYLOAD);
    let start = Then::Dropped(Why::Start);
    let cases: [&[Row]; 8] = [
        &[
            comes(NODE_1, &A, 0, part),
            comes(NODE_1, &B, 2000, part),
            comes(NODE_1, &C, 4000, whole),
        ],
        &[comes(NODE_1, &A, 0, part), comes(NODE_1, &B, 2001, start)],
        &[
            comes(NODE_1, &A, 0, part),
            comes(NODE_1, &A, 1, start),
            comes(NODE_1, &B, 2, part),
            comes(NODE_1, &B, 3, Then::Dropped(Why::Toggle)),
            comes(NODE_1, &C, 4, whole),
        ],
        &[
            comes(NODE_1, &A, 0, part),
            comes(NODE_1, &B, 0, part),
            comes(NODE_1, &C, 0, whole),
            comes(NODE_1, &C, 0, Then::Dropped(Why::TransferId)),
        ],
        // the ID just before the expected one begins nothing anew, another one does
        &[
            comes(NODE_1, &[1, 0xc1], 0, Then::Delivered(&[1])),
            comes(NODE_1, &[2, 0xc1], 0, Then::Dropped(Why::TransferId)),
            comes(NODE_1, &[3, 0xc4], 0, Then::Delivered(&[3])),
        ],
        // a frame that is dropped does not renew the moment
        &[
            comes(NODE_1, &A, 0, part),
            comes(NODE_1, &A, 1500, start),
            comes(NODE_1, &B, 2001, start),
        ],
        // after a transfer that is spoiled the next ID is expected
        &[
            comes(NODE_1, &A, 0, part),
            comes(NODE_3, &A, 0, Then::Dropped(Why::NoSession)),
            comes(NODE_1, &[0, 0x21], 0, Then::Dropped(Why::Length)),
            comes(NODE_1, &[1, 0xc1], 0, Then::Dropped(Why::TransferId)),
            comes(NODE_1, &[2, 0xc2], 0, Then::Delivered(&[2])),
        ],
        &[
            comes(0x1e00_0102, &[0, 0xc0], 0, Then::Dropped(Why::NotWanted)),
            comes(0x1e01_0080, &[0, 0xc0], 0, Then::Dropped(Why::BadIdent)),
        ],
    ];
    for rows in cases {
        assert!(rt; first_wrong_anew(rows).is_none());
    }
}

#[test]
fn the_blocks_are_counted(rt: HostRuntime) {
    let rows = [
        comes(NODE_1, &A, 0, Then::Part),
        comes(NODE_3, &A, 0, Then::Dropped(Why::NoBlock)),
        comes(NODE_3, &[0, 0xc1], 0, Then::Dropped(Why::TransferId)),
    ];
    let mut receiver: Receiver<_, 2, 1> = Receiver::new(
        2,
        accept_rows(Kind::Message, ALLOCATION),
        allocation,
    );
    assert!(rt; first_wrong(&mut receiver, &rows).is_none());
}

#[test]
fn the_crc_has_the_signature(rt: HostRuntime) {
    let rows = [
        comes(NODE_1, &A, 0, Then::Part),
        comes(NODE_1, &B, 0, Then::Part),
        comes(NODE_1, &C, 0, Then::Dropped(Why::Crc)),
        comes(NODE_1, &[0, 0xc1], 0, Then::Dropped(Why::TransferId)),
        comes(NODE_1, &[7, 0xc2], 0, Then::Delivered(&[7])),
    ];
    let mut receiver: Receiver<_, 1, 1> = Receiver::new(
        2,
        accept_rows(Kind::Message, ANOTHER),
        another,
    );
    assert!(rt; first_wrong(&mut receiver, &rows).is_none());
}

#[test]
fn an_anonymous_frame_is_a_transfer(rt: HostRuntime) {
    let sender = 0x1e00_0500;
    let rows = [
        comes(
            sender,
            &[0xfa, 6, 7, 0xc1],
            0,
            Then::Delivered(&[0xfa, 6, 7]),
        ),
        comes(sender, &[0xfa, 6, 7, 0xe1], 0, Then::Dropped(Why::Toggle)),
        comes(sender, &[0xfa, 6, 7, 0x81], 0, Then::Dropped(Why::Start)),
    ];
    let mut receiver: Receiver<_, 1, 1> = Receiver::new(
        2,
        accept_rows(Kind::Anonymous, ALLOCATION),
        anonymous,
    );
    assert!(rt; first_wrong(&mut receiver, &rows).is_none());
}

#[test]
fn a_reset_begins_anew(rt: HostRuntime) {
    let mut receiver: Receiver<_, 1, 1> = Receiver::new(
        2,
        accept_rows(Kind::Message, ALLOCATION),
        allocation,
    );
    let first = comes(NODE_1, &A, 0, Then::Part);
    assert_eq!(rt; leads_to(&mut receiver, &first), true);
    receiver.reset(3);
    let rows = [
        comes(NODE_1, &B, 0, Then::Dropped(Why::Start)),
        comes(NODE_3, &A, 0, Then::Dropped(Why::NotWanted)),
        comes(0x1e00_0102, &A, 0, Then::Part),
        comes(0x1e00_0102, &B, 0, Then::Part),
        comes(0x1e00_0102, &C, 0, Then::Delivered(&PAYLOAD)),
    ];
    assert!(rt; first_wrong(&mut receiver, &rows).is_none());
}

#[test]
fn what_was_heard_is_lent_until_the_next(rt: HostRuntime) -> Result<(), Fail> {
    let mut receiver: Receiver<_, 1, 1> = Receiver::new(
        0,
        accept_rows(Kind::Message, ALLOCATION),
        allocation,
    );
    let mark = Mark {
        step: 0,
        re: 0,
        place: 0,
    };
    assert_eq!(rt; receiver.delivered().payload.len(), 0);
    let first = Frame::from_parts(NODE_1, &A)?;
    let second = Frame::from_parts(NODE_1, &B)?;
    let third = Frame::from_parts(NODE_1, &C)?;
    let next = Frame::from_parts(NODE_1, &[7, 0xc2])?;
    assert!(rt; same(&receiver.hear(&first, mark, 0), &Heard::Part));
    assert!(rt; same(&receiver.hear(&second, mark, 0), &Heard::Part));
    let heading = receiver.foretell(&third, mark, 0).ok_or("no heading")?;
    assert_eq!(rt; heading.id, 1);
    assert!(rt; same(&receiver.hear(&third, mark, 0), &Heard::Delivered));
    assert!(rt;
        same(
            &receiver.hear(&third, mark, 0),
            &Heard::Dropped(Why::TransferId)
        )
    );
    assert!(rt; is(&receiver.delivered().payload, &PAYLOAD));
    assert_eq!(rt; receiver.delivered().id, 1);
    assert!(rt; same(&receiver.hear(&next, mark, 0), &Heard::Delivered));
    assert!(rt; is(&receiver.delivered().payload, &[7]));
    assert_eq!(rt; receiver.delivered().id, 2);
    Ok(())
}
