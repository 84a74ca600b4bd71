//! Tables of events at a device, each with the line that a report has of it.

ghost use Rattle.std.specs.Prelude.{◌≡◌};
ghost use Rattle.allocatee.specs.Accepted as accepted;
ghost use Rattle.allocatee.specs.Stands.{accepts};
ghost use Rattle.transfer_rx.specs.Acceptance.{AnswersByRows, first_signature};
ghost use Rattle.transfer_rx.specs.Memory.{ReceiverFitsInMemory};

use crate::bus::{OUTSIDE, frame_of};
use crate::same::is;
use allocatee::{AEvent, Allocatee};
use arrayvec::ArrayVec;
use bus_rows::Told;
use can_frame::Kind;
use replay_text::write_told;
use std::process::Abort;

/// A moment, a word, what happens then (`tick`, `send`, or the row of a schedule that puts a frame on the bus), and
/// what the report says of it.
pub(crate) type Case = (u64, u32, &'static str, &'static str);

/// The device takes each event of the table in turn, in steps from 1 on, and does what stands beside it.
pub(crate) fn play<G: Fn(Kind, u16) -> Option<u64> + Copy>(
    rt: &impl Abort,
    device: &mut Allocatee<G>,
    cases: &[Case],
)
    requires memory { ReceiverFitsInMemory G.row 8 8 }
    requires callable { G.IsAlwaysCallable (accepts device.old) }
    requires answers { AnswersByRows (G.post (accepts device.old)) accepted.rows }
    ensures { accepts device.new ≡ accepts device.old }
{
    for (i, (now, word, given, told)) in cases.iter().enumerate() {
        let number = i as u64 + 1;
        let line = line_of(rt, device, *now, *word, given, number);
        assert!(rt; is(&line, told.as_bytes()), "at {number}");
    }
}

/// The line of an event.
fn line_of<G: Fn(Kind, u16) -> Option<u64> + Copy>(
    rt: &impl Abort,
    device: &mut Allocatee<G>,
    now: u64,
    word: u32,
    given: &str,
    number: u64,
) -> ArrayVec<u8, 400>
    requires memory { ReceiverFitsInMemory G.row 8 8 }
    requires callable { G.IsAlwaysCallable (accepts device.old) }
    requires answers { AnswersByRows (G.post (accepts device.old)) accepted.rows }
    ensures { accepts device.new ≡ accepts device.old }
{
    if given == "send" {
        let next = device.pop().expect(rt, "an empty queue");
        let told = Told::APopped {
            a: 1,
            k: 1,
            frame: next.frame,
        };
        return write_told(number, &told);
    }
    let event = event(given, now, word).expect(rt, "no event");
    let outcome = device.step(event, number);
    let told = Told::AStepped {
        a: 1,
        holds: device.holds(),
        queued: device.queued(),
        seen: outcome.seen,
        sent: outcome.sent,
    };
    write_told(number, &told)
}

/// The clock is read, where the row is `tick`; else the frame comes that a row of a schedule puts on the bus.
fn event(row: &str, now: u64, word: u32) -> Option<AEvent> {
    if row == "tick" {
        return Some(AEvent::Tick { now, word });
    }
    Some(AEvent::Rx {
        frame: frame_of(row)?,
        mark: OUTSIDE,
        now,
        word,
    })
}

/// What an allocatee receives: `allocatee::allocatee_accept`, under a name of this crate.
pub(crate) fn accept(kind: Kind, number: u16) -> Option<u64>
    ensures { result ≡ first_signature accepted.rows kind number }
{
    allocatee::allocatee_accept(kind, number)
}
