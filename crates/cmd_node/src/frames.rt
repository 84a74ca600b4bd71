//! Frames as a link carries them.

ghost use Rattle.std.specs.Prelude.{◌≡◌, ◌≤◌, true, false, take, IfSome, IsNone, option_map};
ghost use Rattle.alloc_server.specs.Server.{event_of};
ghost use Rattle.transfer_tx.specs.Views.{queued_of};
ghost use Rattle.cmd_node.specs.Frames.{event_in, is_frame, raw_of};

use alloc_server::Event;
use can_frame::{Frame, Mark};
use outside::{RawFrame, Received};
use transfer_tx::Marked;

/// What the next item of a link leads to at a moment, if to anything.
pub(crate) fn event_in(item: &Received, now: u64) -> Option<Event>
    ensures { option_map event_of result ≡ event_in now item.now }
{
    match item {
        Received::Frame(raw) => receipt(raw, now),
        Received::Junk | Received::Nothing => None,
    }
}

/// The receipt of a frame that an allocator takes.
fn receipt(raw: &RawFrame, now: u64) -> Option<Event>
    ensures { option_map event_of result ≡ event_in now (Received.Frame raw.now) }
{
    let frame = frame_in(raw)?;
    let mark = Mark {
        step: 0,
        re: 0,
        place: 0,
    };
    Some(Event::Rx { frame, mark, now })
}

/// The frame, where an allocator takes it.
fn frame_in(raw: &RawFrame) -> Option<Frame>
    ensures some { IfSome result (λ frame. (is_frame raw.now ≡ true) × (frame.id ≡ raw.now.id) ×
        (frame.bytes.items ≡ take raw.now.len raw.now.bytes)) }
    ensures none { IsNone result → is_frame raw.now ≡ false }
{
    if raw.len > 8 {
        return None;
    }
    let data = &raw.bytes[..raw.len as usize];
    match Frame::from_parts(raw.id, data) {
        Ok(frame) => Some(frame),
        Err(_) => None,
    }
}

/// The frame as it is sent.
pub(crate) fn to_raw(next: &Marked) -> RawFrame
    ensures { result ≡ raw_of (queued_of next.now) }
{
    let data = next.frame.bytes.as_slice();
    let mut bytes = [0; 8];
    bytes[..data.len()].copy_from_slice(data);
    RawFrame {
        id: next.frame.id,
        len: data.len() as u8,
        bytes,
    }
}
