ghost use Rattle.std.specs.Prelude.{◌≡◌, ◌≤◌, ◌<◌, ◌+◌, ◌*◌, ◌++◌, ℕ, length, flat_map};
ghost use Rattle.can_frame.specs.Log.{entry_at};
ghost use Rattle.can_frame.specs.Sizes.{most_members};
ghost use Rattle.store_audit.specs.Report.{mark_at, place_line};
ghost use Rattle.store_audit.specs.Stores.{HaveMarks, store_at};

use can_frame::Entry;
use raft_log::Stored;
use replay_text::Line;

/// The line of a place and its entry, with a mark of each store.
pub fn place_line(place: u8, entry: &Entry, stores: &[Stored]) -> Line
    requires least { 1 ≤ place }
    requires few { length stores.now ≤ most_members }
    requires marks { HaveMarks stores.now }
    ensures text { result ≡ place_line stores.now place entry.now }
    ensures short { length result ≤ 400 }
{
    let mut line = Line::new();
    line.number(u64::from(place));
    line.field(u64::from(entry.node));
    line.text(b" ");
    line.hex(&entry.uid);
    line.text(b" ");
    write_marks(&mut line, place, stores);
    line.text(b"\n");
    line
}

/// Appends a mark of each store.
fn write_marks(line: &mut Line, place: u8, stores: &[Stored])
    requires least { 1 ≤ place }
    requires few { length stores.now ≤ most_members }
    requires room { length line.old ≤ 200 }
    requires marks { HaveMarks stores.now }
    ensures text { line.new ≡ line.old ++ flat_map (mark_at place) stores.now }
    ensures len { length line.new ≤ length line.old + 20 * length stores.now }
{
    for store in stores {
        write_mark(line, place, store);
    }
}

/// Appends the origin of the entry that a store has committed at a place, or that it has committed none.
fn write_mark(line: &mut Line, place: u8, store: &Stored)
    requires least { 1 ≤ place }
    requires room { length line.old ≤ 300 }
    requires marks { store.now.commit ≤ length store.now.origins.items }
    ensures text { line.new ≡ line.old ++ mark_at place store.now }
    ensures len { length line.new ≤ length line.old + 20 }
{
    if store.commit < place {
        line.text(b"-");
    } else {
        line.number(u64::from(store.origins[place as usize - 1]));
    }
}
