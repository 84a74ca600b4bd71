ghost use Rattle.std.specs.Prelude.{◌≡◌, ◌<◌, ◌+◌, ◌^◌, List, length};
ghost use Rattle.can_frame.specs.Cutting.{piece_from};
ghost use Rattle.told_link.specs.Terms as terms;

use crate::past::is_past;
use crate::voice::{Voice, fields_of, voice_of};
use alloc_spec::is_of_members;
use can_frame::Tail;
use outside::{RawFrame, Received};

/// The ceiling stands so far above the first term of the member, and rises by so much.
pub const MOST_TERMS: u32 = 1_000_000;

/// It rises once in so long, in milliseconds: so all terms take a month.
pub const BETWEEN_RISES: u64 = 600_000;

/// Above it no term is taken.
#[derive(Clone, Copy, Debug, PartialEq, Eq)]
pub struct Ceiling {
    /// The highest term that is taken.
    pub term: u64,

    /// The reading of the link's clock at which it was set, or rose last.
    pub since: u64,
}

/// The ceiling above a term, from now on.
pub fn ceiling_above(now: u64, term: u64) -> Ceiling
    requires { term < 2 ^ 33 }
    ensures { result ≡ terms.ceiling_above now term }
{
    Ceiling {
        term: term + u64::from(MOST_TERMS),
        since: now,
    }
}

/// The ceiling where this term comes now.
pub fn ceiling_for(now: u64, term: u32, before: Option<Ceiling>) -> Option<Ceiling>
    ensures { result ≡ terms.ceiling_for now term before }
{
    match before {
        Some(ceiling) => Some(raised_by(now, term, ceiling)),
        None => None,
    }
}

fn raised_by(now: u64, term: u32, ceiling: Ceiling) -> Ceiling
    ensures { result ≡ terms.raised_by now term ceiling }
{
    if u64::from(term) > ceiling.term && is_past(now, ceiling.since, BETWEEN_RISES) {
        ceiling_above(now, ceiling.term)
    } else {
        ceiling
    }
}

/// Whether this term is taken.
pub fn is_below_ceiling(term: u32, ceiling: Option<Ceiling>) -> bool
    ensures { result ≡ terms.is_below_ceiling term ceiling }
{
    match ceiling {
        Some(ceiling) => u64::from(term) <= ceiling.term,
        None => term <= MOST_TERMS,
    }
}

/// The term that an item of a link has, to the member `me`, which is told this list.
pub fn term_to(me: u8, ids: &[u8], item: &Received) -> Option<u32>
    ensures { result ≡ terms.term_to me ids.now item.now }
{
    let Received::Frame(frame) = item else {
        return None;
    };
    match voice_of(me, ids, frame) {
        Voice::Answer(_) | Voice::Member(_) => term_in(frame),
        Voice::Stranger | Voice::Other => None,
    }
}

/// The first term that a member sends, which is told this list, where this frame has it.
pub fn first_term(ids: &[u8], ceiling: Option<Ceiling>, frame: &RawFrame) -> Option<u32>
    ensures { result ≡ terms.first_term ids.now ceiling frame.now }
{
    if ids.is_empty() || ceiling.is_some() {
        return None;
    }
    term_in(frame)
}

/// The term of the call or the answer among members that begins with this frame.
fn term_in(frame: &RawFrame) -> Option<u32>
    ensures { result ≡ terms.term_in frame.now }
{
    let ident = fields_of(frame)?;
    if ident.kind.is_service() && is_of_members(ident.kind, ident.number) {
        term_of(&frame.bytes[..usize::from(frame.len)])
    } else {
        None
    }
}

/// The term with which these bytes of a frame begin a payload, the tail last.
fn term_of(bytes: &[u8]) -> Option<u32>
    requires { 0 < length bytes.now }
    ensures { result ≡ terms.term_of (piece_from bytes.now) }
{
    let size = bytes.len() - 1;
    let tail = Tail::read(bytes[size]);
    if !tail.start {
        None
    } else if tail.end {
        first_number(&bytes[..size])
    } else {
        number_behind_crc(&bytes[..size])
    }
}

/// The number of the first four bytes.
fn first_number(bytes: &[u8]) -> Option<u32>
    ensures { result ≡ terms.first_number bytes.now }
{
    match bytes {
        [a, b, c, d, ..] => Some(u32::from_le_bytes([*a, *b, *c, *d])),
        _ => None,
    }
}

/// The same behind the two bytes of a CRC.
fn number_behind_crc(bytes: &[u8]) -> Option<u32>
    ensures { result ≡ terms.number_behind_crc bytes.now }
{
    match bytes {
        [_, _, a, b, c, d, ..] => Some(u32::from_le_bytes([*a, *b, *c, *d])),
        _ => None,
    }
}
