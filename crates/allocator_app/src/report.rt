ghost use Rattle.std.specs.Prelude.{◌≡◌, ◌≤◌, ◌<◌, ◌+◌, ◌++◌, ℕ, List, length, take, IfOk, codes, decimal};
ghost use Rattle.can_frame.specs.declared.entry.Entry.{Entry};
ghost use Rattle.bus_world.specs.World.{StandsFor, rows_taken};
ghost use Rattle.bus_spec.specs.Cluster.{Cluster};
ghost use Rattle.allocator_app.specs.WorldReport.{all_logs, entry_line, entry_lines, member_lines};
ghost use Rattle.allocator_app.specs.Logs.{HasLog, log_head};
ghost use Rattle.cmd_io.specs.Counting.{CountsFaults};
ghost use Rattle.cmd_io.specs.Output.{Grows, Writes, WritesLast};
ghost use Rattle.allocator_app.specs.Rows.{last_line_of, last_of, logs_before, status_of};

use crate::replay::taken;
use crate::rows::Rows;
use bus_world::World;
use can_frame::{Entry, Kind};
use cmd_io::{Output, Status, number_line, numbers_line};
use outside::{Failed, Sink};
use replay_text::Line;

/// The last node ID that a member may have.
const LAST_ID: u8 = 125;

/// Ends the report, as the rows ended, and gives the status of the run.
pub(crate) fn end_report<
    F: Fn(Kind, u16) -> Option<u64> + Copy,
    G: Fn(Kind, u16) -> Option<u64> + Copy,
    K: Sink,
>(rows: Rows, world: &World<F, G>, output: &mut Output, sink: &mut K) -> Result<Status, Failed>
    requires { rows_taken world.now ≤ 1000000 }
    ensures told { (w : Cluster) → StandsFor world.now w →
        WritesLast (K.written sink.old) output.old (K.written sink.new) (last_of rows w) result }
    ensures status { IfOk result (λ status. status ≡ status_of rows (rows_taken world.now)) }
    ensures faults { CountsFaults (K.faults sink.old) (K.faults sink.new) result }
{
    write_logs_before(rows, world, output, sink)?;
    let taken = taken(world);
    let line = last_line(rows, taken);
    output.last(sink, line.as_bytes())?;
    Ok(status(rows, taken))
}

/// Where all rows were taken, the logs stand before the last line.
fn write_logs_before<
    F: Fn(Kind, u16) -> Option<u64> + Copy,
    G: Fn(Kind, u16) -> Option<u64> + Copy,
    K: Sink,
>(rows: Rows, world: &World<F, G>, output: &mut Output, sink: &mut K) -> Result<(), Failed>
    ensures told { (w : Cluster) → StandsFor world.now w → Writes (K.written sink.old) output.old
        (K.written sink.new) output.new (logs_before rows w) result }
    ensures grew { Grows (K.written sink.old) (K.written sink.new) }
    ensures faults { CountsFaults (K.faults sink.old) (K.faults sink.new) result }
{
    match rows {
        Rows::Taken => write_logs(world, output, sink),
        Rows::NoRow | Rows::Refused(_) | Rows::Full => Ok(()),
    }
}

/// The last line of the report, after so many rows.
fn last_line(rows: Rows, taken: u64) -> Line
    requires { taken ≤ 1000000 }
    ensures short { length result ≤ 400 }
    ensures text { result ≡ last_line_of rows taken }
{
    match rows {
        Rows::Taken => number_line(b"end ", taken),
        Rows::NoRow => number_line(b"bad row ", taken + 1),
        Rows::Refused(why) => numbers_line(b"unlawful ", taken + 1, u64::from(why.number())),
        Rows::Full => number_line(b"limit ", taken + 1),
    }
}

/// The status of a run that ends so.
fn status(rows: Rows, taken: u64) -> Status
    requires { taken ≤ 1000000 }
    ensures { result ≡ status_of rows taken }
{
    match rows {
        Rows::Taken => Status::Done,
        Rows::NoRow => Status::BadRow(taken + 1),
        Rows::Refused(why) => Status::Unlawful(taken + 1, why.number()),
        Rows::Full => Status::Limit(taken + 1),
    }
}

/// The logs of the running members that have not failed, by rising node ID.
fn write_logs<
    F: Fn(Kind, u16) -> Option<u64> + Copy,
    G: Fn(Kind, u16) -> Option<u64> + Copy,
    K: Sink,
>(world: &World<F, G>, output: &mut Output, sink: &mut K) -> Result<(), Failed>
    ensures told { (w : Cluster) → StandsFor world.now w → Writes (K.written sink.old) output.old
        (K.written sink.new) output.new (all_logs w) result }
    ensures grew { Grows (K.written sink.old) (K.written sink.new) }
    ensures faults { CountsFaults (K.faults sink.old) (K.faults sink.new) result }
{
    let mut id = 1;
    'ids: while id <= LAST_ID {
        write_log(world, id, output, sink)?;
        id += 1;
    }
    Ok(())
}

/// The log of a running member: its commit index, and a line for each committed entry.
fn write_log<
    F: Fn(Kind, u16) -> Option<u64> + Copy,
    G: Fn(Kind, u16) -> Option<u64> + Copy,
    K: Sink,
>(world: &World<F, G>, id: u8, output: &mut Output, sink: &mut K) -> Result<(), Failed>
    ensures told { (w : Cluster) → StandsFor world.now w → Writes (K.written sink.old) output.old
        (K.written sink.new) output.new (member_lines w id) result }
    ensures grew { Grows (K.written sink.old) (K.written sink.new) }
    ensures faults { CountsFaults (K.faults sink.old) (K.faults sink.new) result }
{
    let Some(view) = world.view(id) else {
        return Ok(());
    };
    let line = log_line(id, view.commit);
    output.line(sink, line.as_bytes())?;
    write_entries(world, id, view.commit, output, sink)
}

fn log_line(id: u8, commit: u8) -> Line
    ensures short { length result ≤ 400 }
    ensures text { result ≡ log_head id commit }
{
    let mut line = Line::new();
    line.text(b"log ");
    line.number(u64::from(id));
    line.field(u64::from(commit));
    line.text(b"\n");
    line
}

/// The entries of a member's log up to a place, as many as there are.
fn write_entries<
    F: Fn(Kind, u16) -> Option<u64> + Copy,
    G: Fn(Kind, u16) -> Option<u64> + Copy,
    K: Sink,
>(world: &World<F, G>, id: u8, commit: u8, output: &mut Output, sink: &mut K) -> Result<(), Failed>
    ensures told { (w : Cluster) → StandsFor world.now w → (log : List Entry) → HasLog w id log →
        Writes (K.written sink.old) output.old (K.written sink.new) output.new
        (entry_lines 1 (take commit log)) result }
    ensures grew { Grows (K.written sink.old) (K.written sink.new) }
    ensures faults { CountsFaults (K.faults sink.old) (K.faults sink.new) result }
{
    let mut written = 0;
    'entries: while written < commit {
        let place = written + 1;
        let Some(entry) = world.entry(id, place) else {
            break 'entries;
        };
        let line = entry_line(place, &entry);
        output.line(sink, line.as_bytes())?;
        written = place;
    }
    Ok(())
}

/// An entry at its place, counted from 1.
fn entry_line(place: u8, entry: &Entry) -> Line
    ensures short { length result ≤ 400 }
    ensures text { result ≡ entry_line place entry.now }
{
    let mut line = Line::new();
    line.number(u64::from(place));
    line.field(u64::from(entry.node));
    line.text(b" ");
    line.hex(&entry.uid);
    line.text(b"\n");
    line
}
