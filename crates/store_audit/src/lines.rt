ghost use Rattle.std.specs.Prelude.{◌≡◌, ◌≤◌, [], length};
ghost use Rattle.can_frame.specs.Sizes.{most_members};
ghost use Rattle.cmd_io.specs.Counting.{CountsFaults};
ghost use Rattle.cmd_io.specs.Output.{Grows, Writes, WritesLast};
ghost use Rattle.store_audit.specs.Report.{agreed_report, line_of, lines_to};
ghost use Rattle.store_audit.specs.Stores.{HaveMarks, committed};

use crate::compare::entry_of;
use crate::marks::place_line;
use cmd_io::{Output, Status, number_line, numbers_line};
use outside::{Failed, Sink};
use raft_log::Stored;
use replay_text::Line;

/// The one line of a run that ends so.
pub fn end_line(status: Status) -> Line
    ensures short { length result ≤ 400 }
    ensures text { result ≡ line_of status }
{
    match status {
        Status::DiskFault(id) => number_line(b"disk fault ", u64::from(id)),
        Status::Damaged(id, key) => numbers_line(b"damaged ", u64::from(id), u64::from(key)),
        Status::Differ(place, first, second) => {
            let mut line = Line::new();
            line.text(b"differ ");
            line.number(u64::from(place));
            line.field(u64::from(first));
            line.field(u64::from(second));
            line.text(b"\n");
            line
        }
        _ => Line::new(),
    }
}

/// Writes the list on which stores agree, which this one of them has committed.
pub fn write_report<K: Sink>(store: &Stored, stores: &[Stored], sink: &mut K) -> Result<(), Failed>
    requires few { length stores.now ≤ most_members }
    requires marks { HaveMarks stores.now }
    requires commit { store.now.commit ≤ length store.now.entries.items }
    ensures told { WritesLast (K.written sink.old) [] (K.written sink.new)
        (agreed_report stores.now (committed store.now)) result }
    ensures faults { CountsFaults (K.faults sink.old) (K.faults sink.new) result }
{
    let mut output = Output::new();
    write_list(store, stores, &mut output, sink)?;
    output.last(
        sink,
        number_line(b"agree ", u64::from(store.commit)).as_bytes(),
    )
}

/// Writes a line for each place that a store has committed.
fn write_list<K: Sink>(
    store: &Stored,
    stores: &[Stored],
    output: &mut Output,
    sink: &mut K,
) -> Result<(), Failed>
    requires few { length stores.now ≤ most_members }
    requires marks { HaveMarks stores.now }
    requires commit { store.now.commit ≤ length store.now.entries.items }
    ensures told { Writes (K.written sink.old) output.old (K.written sink.new) output.new
        (lines_to stores.now (committed store.now) store.now.commit) result }
    ensures grew { Grows (K.written sink.old) (K.written sink.new) }
    ensures faults { CountsFaults (K.faults sink.old) (K.faults sink.new) result }
{
    for earlier in 0..store.commit {
        let place = earlier + 1;
        let entry = entry_of(store, place);
        output.line(sink, place_line(place, &entry, stores).as_bytes())?;
    }
    Ok(())
}
