//! Frames that come to an allocator.

ghost use Rattle.std.specs.Prelude.{◌≡◌};
ghost use Rattle.alloc_spec.specs.Accepted as accepted;
ghost use Rattle.transfer_rx.specs.Acceptance.{first_signature};

use alloc_server::Event;
use bus_rows::Row;
use can_frame::{Frame, Kind, Mark};
use replay_text::read_row;

/// A frame of a node outside the cluster.
pub(crate) const OUTSIDE: Mark = Mark {
    step: 0,
    re: 0,
    place: 0,
};

/// What a node that asks for an ID sends in turn: three requests, with 6, 6 and 4 bytes of its unique ID, which are 0
/// to
/// 15. It prefers node ID 125.
pub(crate) const FIRST_ASK: &str = "ext 1e000500 fb000102030405c0";

pub(crate) const SECOND_ASK: &str = "ext 1e000500 fa060708090a0bc1";

pub(crate) const THIRD_ASK: &str = "ext 1e000500 fa0c0d0e0fc2";

/// The clock is read, where the row is `tick`; else the frame comes that a row of a schedule puts on the bus.
pub(crate) fn event(row: &str, now: u64) -> Option<Event> {
    if row == "tick" {
        return Some(Event::Tick { now, word: 0 });
    }
    Some(heard(frame_of(row)?, OUTSIDE, now))
}

/// The frame that a row of a schedule puts on the bus.
pub(crate) fn frame_of(row: &str) -> Option<Frame> {
    match read_row(row.as_bytes())? {
        Row::Ext { frame } => Some(frame),
        _ => None,
    }
}

pub(crate) fn heard(frame: Frame, mark: Mark, now: u64) -> Event {
    Event::Rx { frame, mark, now }
}

/// What an allocator receives: `alloc_server::accept`, under a name of this crate.
pub(crate) fn accept(kind: Kind, number: u16) -> Option<u64>
    ensures { result ≡ first_signature accepted.rows kind number }
{
    alloc_server::accept(kind, number)
}
