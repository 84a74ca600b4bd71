ghost use Rattle.std.specs.Prelude.{◌≡◌, ◌<◌, ◌≤◌, length};
ghost use Rattle.can_frame.specs.Cutting.{piece_from};
ghost use Rattle.told_link.specs.AllocatorUid as uids;

use can_frame::{GET_NODE_INFO, Ident, Tail};
use outside::RawFrame;

/// What the fifth frame of an allocator's answer to GetNodeInfo has of its unique ID.
const SPELLING: [u8; 7] = *b"VCAN-AL";

/// Whether a frame with these fields is an allocator's answer to the member `me`.
pub fn answers_as_allocator(me: u8, frame: &RawFrame, ident: Ident) -> bool
    requires { (0 < frame.now.len) × (frame.now.len ≤ 8) }
    ensures { result ≡ uids.answers_as_allocator me frame.now ident }
{
    is_info_to(me, ident) && spells_allocator(&frame.bytes[..usize::from(frame.len)])
}

fn is_info_to(me: u8, ident: Ident) -> bool
    ensures { result ≡ uids.is_info_to me ident }
{
    ident.kind.is_response() && ident.number == GET_NODE_INFO.number && ident.dest == me
}

/// Whether these bytes of a frame spell an allocator, the tail last.
fn spells_allocator(bytes: &[u8]) -> bool
    requires { 0 < length bytes.now }
    ensures { result ≡ uids.spells_allocator (piece_from bytes.now) }
{
    let size = bytes.len() - 1;
    is_odd_and_inner(Tail::read(bytes[size])) && &bytes[..size] == SPELLING.as_slice()
}

fn is_odd_and_inner(tail: Tail) -> bool
    ensures { result ≡ uids.is_odd_and_inner tail }
{
    !tail.start && !tail.end && !tail.toggle
}
