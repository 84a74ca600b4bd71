ghost use Rattle.std.specs.Prelude.{◌≡◌, ◌<◌, ◌+◌, IfSome, nat_le};
ghost use Rattle.spaced_link.specs.Spacing as spacings;

use can_frame::Tail;
use outside::RawFrame;
use told_link::{fields_of, is_allocation, is_past};

/// With one transfer ID an Allocation goes out once in so long at the most, in milliseconds. A frame may be on its way
/// for 3,500 ms, a receiver keeps what is begun for 2,000 ms, and 1,000 ms may pass before a frame goes out; three
/// clocks may each be half a second wrong.
pub const BETWEEN_USES: u64 = 8_000;

/// How many transfer IDs there are.
pub const ALL_IDS: usize = 32;

/// The tail of a frame of an Allocation, where its member is told the list of its cluster.
pub fn allocation_tail(is_told: bool, frame: &RawFrame) -> Option<Tail>
    ensures tail { result ≡ spacings.allocation_tail is_told frame.now }
    ensures id { IfSome result (λ tail. tail.id < 32) }
{
    if !is_told {
        return None;
    }
    let ident = fields_of(frame)?;
    if !is_allocation(ident) {
        return None;
    }
    Some(Tail::read(frame.bytes[usize::from(frame.len) - 1]))
}

/// Whether an Allocation goes out now, by the reading at which one with its transfer ID went out last.
pub fn has_rested(now: u64, last: Option<u64>) -> bool
    ensures { result ≡ spacings.has_rested now last }
{
    match last {
        Some(last) => is_past(now, last, BETWEEN_USES),
        None => true,
    }
}

/// Whether a frame behind a first one goes out, by the transfer ID of the Allocation that is on its way out.
pub fn is_under_way(under_way: Option<u8>, id: u8) -> bool
    ensures { result ≡ spacings.is_under_way under_way id }
{
    match under_way {
        Some(other) => other == id,
        None => false,
    }
}

/// The transfer ID of the Allocation that is on its way out, behind a frame that goes out or does not.
pub fn under_way_behind(tail: Tail, goes: bool) -> Option<u8>
    ensures { result ≡ spacings.under_way_behind tail goes }
{
    if goes && !tail.end {
        Some(tail.id)
    } else {
        None
    }
}
