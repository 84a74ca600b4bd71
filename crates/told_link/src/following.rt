ghost use Rattle.std.specs.Prelude.{◌≡◌, ◌≤◌, ◌+◌, length, nat_le};
ghost use Rattle.can_frame.specs.Sizes.{most_members};
ghost use Rattle.told_link.specs.Following.{answered_of};
ghost use Rattle.told_link.specs.Following as followings;

use crate::voice::fields_of;
use can_frame::sizes::NODE_IDS;
use can_frame::{ALLOCATION, Ident, Kind, Tail};
use dsdl_codec::AppendAnswer;
use outside::RawFrame;

/// A member follows for so long, in milliseconds, behind an answer that agreed. Each member is called once a
/// second at least, and stands for election 4,000 ms at the latest behind a call.
pub const FOLLOWING: u64 = 5_000;

/// Whether a frame gives a node ID: it is the first of an Allocation that has one. Without it nobody takes the others.
pub fn gives_node_id(frame: &RawFrame) -> bool
    ensures { result ≡ followings.gives_node_id frame.now }
{
    let Some(ident) = fields_of(frame) else {
        return false;
    };
    if !is_allocation(ident) || frame.len != 8 {
        return false;
    }
    let tail = Tail::read(frame.bytes[7]);
    tail.start && !tail.end && frame.bytes[2] >= 2
}

/// Whether a frame with such an identifier is one of an Allocation of an allocator.
pub fn is_allocation(ident: Ident) -> bool
    ensures { result ≡ followings.is_allocation (Some ident) }
{
    match ident.kind {
        Kind::Message => ident.number == ALLOCATION.number,
        Kind::Anonymous | Kind::Request | Kind::Response => false,
    }
}

/// Whether an answer to a call of AppendEntries says that the logs agree as far as the call goes.
pub fn agrees(answer: &RawFrame) -> bool
    ensures { result ≡ followings.agrees answer.now }
{
    if answer.len != 6 {
        return false;
    }
    let tail = Tail::read(answer.bytes[5]);
    if !tail.start || !tail.end {
        return false;
    }
    match AppendAnswer::read(&answer.bytes[..5]) {
        Some(answer) => answer.success,
        None => false,
    }
}

/// Whether more than half of this list follow the member `me`, by the readings at their last answers that agreed. It
/// follows itself.
pub fn is_followed(now: u64, me: u8, ids: &[u8], answered: &[Option<u64>; NODE_IDS]) -> bool
    requires { length ids.now ≤ most_members }
    ensures { result ≡ followings.is_followed now me ids.now (answered_of answered.now) }
{
    let followers = ids
        .iter()
        .filter(|id| follows(now, me, **id, answered))
        .count();
    ids.len() < 2 * followers
}

fn follows(now: u64, me: u8, id: u8, answered: &[Option<u64>; NODE_IDS]) -> bool
    ensures { result ≡ followings.follows now me (answered_of answered.now) id }
{
    id == me || answered_lately(now, last_of(answered, id))
}

/// The reading at the last answer of a node that agreed.
fn last_of(answered: &[Option<u64>; NODE_IDS], id: u8) -> Option<u64>
    ensures { result ≡ answered_of answered.now id }
{
    match answered.get(usize::from(id)) {
        Some(last) => *last,
        None => None,
    }
}

fn answered_lately(now: u64, last: Option<u64>) -> bool
    ensures { result ≡ followings.answered_lately now last }
{
    match last {
        Some(last) => now.saturating_sub(last) <= FOLLOWING,
        None => false,
    }
}
