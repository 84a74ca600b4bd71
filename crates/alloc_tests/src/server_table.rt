//! Tables of events at a server, each with the line that a report has of it.

ghost use Rattle.std.specs.Prelude.{◌≡◌};
ghost use Rattle.disk_model.specs.declared.memory.MemoryDisk.{MemoryDisk};
ghost use Rattle.alloc_server.specs.Server.{accepts};
ghost use Rattle.alloc_spec.specs.Accepted as accepted;
ghost use Rattle.alloc_spec.specs.Accepted.{AllocatorReceiverFitsInMemory};
ghost use Rattle.transfer_rx.specs.Acceptance.{AnswersByRows};

use crate::bus::event;
use crate::same::is;
use alloc_server::{Event, Outcome, Server};
use arrayvec::ArrayVec;
use bus_rows::Told;
use can_frame::Kind;
use disk_model::MemoryDisk;
use replay_text::write_told;
use std::process::Abort;

/// A moment, what happens then (`tick`, or the row of a schedule that puts a frame on the bus), and what the report
/// says of it.
pub(crate) type Case = (u64, &'static str, &'static str);

/// The server takes each event of the table in turn, in steps from 1 on, and does what stands beside it.
pub(crate) fn play<F: Fn(Kind, u16) -> Option<u64> + Copy>(
    rt: &impl Abort,
    server: &mut Server<MemoryDisk, F>,
    cases: &[Case],
)
    requires memory { AllocatorReceiverFitsInMemory F.row }
    requires callable { F.IsAlwaysCallable (accepts server.old) }
    requires answers { AnswersByRows (F.post (accepts server.old)) accepted.rows }
    ensures { accepts server.new ≡ accepts server.old }
{
    for (i, (now, given, told)) in cases.iter().enumerate() {
        let number = i as u64 + 1;
        let event = event(given, *now).expect(rt, "no event");
        let line = line_of(server, event, number);
        assert!(rt; is(&line, told.as_bytes()), "at {number}");
    }
}

/// The line of a step, or no bytes where it failed.
pub(crate) fn line_of<F: Fn(Kind, u16) -> Option<u64> + Copy>(
    server: &mut Server<MemoryDisk, F>,
    event: Event,
    number: u64,
) -> ArrayVec<u8, 400>
    requires memory { AllocatorReceiverFitsInMemory F.row }
    requires callable { F.IsAlwaysCallable (accepts server.old) }
    requires answers { AnswersByRows (F.post (accepts server.old)) accepted.rows }
    ensures { accepts server.new ≡ accepts server.old }
{
    match server.step(event, number) {
        Ok(outcome) => told(server, outcome, number),
        Err(_) => ArrayVec::new(),
    }
}

/// The line that tells a step which did not fail.
fn told<F: Fn(Kind, u16) -> Option<u64> + Copy>(
    server: &Server<MemoryDisk, F>,
    outcome: Outcome,
    number: u64,
) -> ArrayVec<u8, 400> {
    let view = server.view();
    let row = Told::Stepped {
        n: 1,
        role: view.role,
        term: view.term,
        last: view.last,
        commit: view.commit,
        queued: view.queued,
        seen: outcome.seen,
        sent: outcome.sent,
    };
    write_told(number, &row)
}
