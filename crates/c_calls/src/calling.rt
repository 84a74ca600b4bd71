ghost use Rattle.std.specs.Prelude.{◌≡◌, ◌↔◌, IfSome, IsSome};
ghost use Rattle.c_calls.specs.At.{Calls, IsFrame, Learns, first_bytes, high, low};

use crate::node::Node;
use alloc_server::Event;
use can_frame::{Frame, Mark};

/// What a call asks for.
const OPEN: u32 = 1;

const TICK: u32 = 2;

const HEAR: u32 = 3;

const TAKE: u32 = 4;

const DATA: u32 = 5;

const VIEW: u32 = 6;

const ENTRY: u32 = 7;

const LEARN: u32 = 8;

/// What a call answers, beside what the node does.
const NO_FRAME: u64 = 4;

const UNKNOWN: u64 = 5;

/// A frame of a node outside, or of another member.
const OUTSIDE: Mark = Mark {
    step: 0,
    re: 0,
    place: 0,
};

/// Does what the number `op` asks for, with its arguments.
///
/// `OPEN` leaves a node that stands for an allocator that opens with what is stored; `LEARN` one that was told
/// who its members are; `TICK` and `HEAR` one that stands for the step of it at that reading of the clock or on
/// that frame; `TAKE` one without the frame that was taken. The others change nothing. What each answers, and
/// when, is said in `Calls`.
///
/// `op` is one of these numbers; the answer is as in the last column, and a status is 0 where the call was done. Any
/// other number is answered by 5.
///
/// | `op` | part of `Calls` | in C | answer |
/// |---|---|---|---|
/// | 1, `OPEN` | `Opens` | `caldrouz_open` | a status; of a damaged store 256 and the key, which `Server::reopen` says of a disk that tells its contents |
/// | 2, `TICK` | `Steps` | `caldrouz_tick` | a status; each step has the number behind the last |
/// | 3, `HEAR` | `Hears` | `caldrouz_hear` | a status; each step has the number behind the last |
/// | 4, `TAKE` | `Takes` | `caldrouz_take` | 0 exactly where nothing waits, else the identifier and the number of bytes of what goes next |
/// | 5, `DATA` | `tells` | `caldrouz_take` | the bytes of what was taken, the first one lowest |
/// | 6, `VIEW` | `Views` | `caldrouz_look` | the part of what is shown; 0 beyond the parts, and where the node is not made |
/// | 7, `ENTRY` | `Entries` | `caldrouz_entry_at` | the part of the entry at a place; 0 where there is none, beyond the parts, and where the node is not made |
/// | 8, `LEARN` | `Learns` | `caldrouz_learn` | a status |
///
/// `caldrouz.h` has the numbers of the statuses, and docs/EMBEDDING.md, "What is proved, and for whom", what each part
/// says.
pub fn call(node: &mut Node, op: u32, now: u64, a: u64, b: u64) -> u64
    ensures calls { Calls node.old node.new op now a b result }
{
    match op {
        OPEN => node.open(now, low(a)),
        TICK => node.step(Event::Tick { now, word: low(a) }),
        HEAR => match frame_of(a, b) {
            Some(frame) => node.step(Event::Rx {
                frame,
                mark: OUTSIDE,
                now,
            }),
            None => NO_FRAME,
        },
        TAKE => node.take(),
        DATA => node.bytes,
        VIEW => node.view(a),
        ENTRY => node.entry(a, b),
        LEARN => learn(node, a, b),
        _ => UNKNOWN,
    }
}

/// Tells the node that the first bytes of a word, so many, are its members.
fn learn(node: &mut Node, word: u64, count: u64) -> u64
    ensures learns { Learns node.old node.new (first_bytes count word) result }
    ensures id { node.new.id ≡ node.old.id }
    ensures size { node.new.size ≡ node.old.size }
{
    let bytes = word.to_le_bytes();
    node.learn(&bytes[..count.min(8) as usize])
}

/// The frame with the identifier in the low 32 bits of a word and the number of its bytes above them.
fn frame_of(head: u64, word: u64) -> Option<Frame>
    ensures some { IsSome result ↔ IsFrame head }
    ensures id { IfSome result (λ frame. frame.id ≡ low head) }
    ensures bytes { IfSome result (λ frame. frame.bytes.items ≡ first_bytes (high head) word) }
{
    let count = head >> 32;
    if 8 < count {
        return None;
    }
    let bytes = word.to_le_bytes();
    match Frame::from_parts(low(head), &bytes[..count as usize]) {
        Ok(frame) => Some(frame),
        Err(_) => None,
    }
}

/// The low 32 bits.
fn low(word: u64) -> u32
    ensures { result ≡ low word }
{
    (word % (1 << 32)) as u32
}
