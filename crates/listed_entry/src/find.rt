ghost use Rattle.std.specs.Prelude.{◌≡◌, ◌≤◌, ◌<◌, ℕ, length, IfErr, IfSome, IsNone, IsSome, OnErr, OnOk, Some};
ghost use Rattle.std.specs.Prelude.{slice_index_or};
ghost use Rattle.std.specs.Io.KnownBytes.{Appends};
ghost use Rattle.listed_entry.specs.Listed.{HasListed, HasNoListed, IsFoundIn, IsInNone, IsListedOn, IsPassed};
ghost use Rattle.listed_entry.specs.Listed.{listed_line};
ghost use Rattle.cmd_io.specs.Counting.{CountsFaults};
ghost use Rattle.cmd_io.specs.Output.{WritesFront};
ghost use Rattle.store_audit.specs.Reads.{AllStay, StaysAs};

use can_frame::Entry;
use cmd_io::Output;
use disk_model::{Disk, IMAGE};
use outside::{Failed, Sink};
use replay_text::Line;
use store_audit::read_place;

/// An entry of a log that has the ID of a member.
#[derive(Clone, Copy, Debug, PartialEq, Eq)]
pub struct Listed {
    /// The member whose store it is in.
    pub id: u8,

    /// The node ID, which a device was given.
    pub node: u8,
}

/// The first store of these nodes, in order, with an entry that has an ID of this list, and the first such entry. A
/// store that cannot be read is passed over: what opens it says why.
pub fn find_listed<D: Disk>(list: &[u8], ids: &[u8], stores: &mut [Option<D>]) -> Option<Listed>
    ensures found { IfSome result (λ listed. IsFoundIn D.Disk list.now ids.now stores.old stores.new
        listed.id listed.node) }
    ensures none { IsNone result → IsInNone D.Disk list.now ids.now stores.old stores.new }
    // Nothing is written.
    ensures stay { AllStay D.Disk stores.old stores.new }
{
    for place in 0..ids.len().min(stores.len()) {
        if let Some(node) = listed_on(list, &mut stores[place]) {
            return Some(Listed {
                id: ids[place],
                node,
            });
        }
    }
    None
}

/// The first node ID of the list that an entry of the store at a place has.
fn listed_on<D: Disk>(list: &[u8], place: &mut Option<D>) -> Option<u8>
    ensures found { IfSome result (λ node. (disk : D) × (place.old ≡ Some disk)
        × IsListedOn D.Disk list.now disk node) }
    ensures none { IsNone result → (before after : D) → place.old ≡ Some before → place.new ≡ Some after →
        IsPassed D.Disk list.now before after }
    ensures stays { (before : D) → place.old ≡ Some before → StaysAs D.Disk before place.new }
{
    if place.is_none() {
        return None;
    }
    let mut image = [0; IMAGE];
    match read_place(place, &mut image) {
        Ok(store) => listed_in(list, &store.entries),
        Err(_) => None,
    }
}

/// The first node ID of the list that one of these entries has.
fn listed_in(list: &[u8], entries: &[Entry]) -> Option<u8>
    ensures some { IfSome result (λ node. HasListed list.now entries.now node) }
    ensures none { IsNone result → HasNoListed list.now entries.now }
{
    for entry in entries {
        if list.contains(&entry.node) {
            return Some(entry.node);
        }
    }
    None
}

/// Writes that an entry has the ID of a member. Where the sink failed, a front of the line is written.
pub fn write_listed<K: Sink>(sink: &mut K, listed: Listed) -> Result<(), Failed>
    ensures ok { OnOk result (Appends (K.written sink.old) (K.written sink.new) (listed_line listed.id listed.node)) }
    ensures err { OnErr result (WritesFront (K.written sink.old) (K.written sink.new)
        (listed_line listed.id listed.node)) }
    ensures faults { CountsFaults (K.faults sink.old) (K.faults sink.new) result }
{
    Output::new().last(sink, line_of(listed).as_bytes())
}

fn line_of(listed: Listed) -> Line
    ensures short { length result ≤ 400 }
    ensures text { result ≡ listed_line listed.id listed.node }
{
    let mut line = Line::new();
    line.text(b"listed ");
    line.number(u64::from(listed.id));
    line.text(b" ");
    line.number(u64::from(listed.node));
    line.text(b"\n");
    line
}
