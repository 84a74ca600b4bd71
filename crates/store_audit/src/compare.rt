ghost use Rattle.std.specs.Prelude.{◌≡◌, ◌≢◌, ◌≤◌, ◌<◌, ℕ, false, length, IfSome, IsNone, IsTrue};
ghost use Rattle.can_frame.specs.Log.{entry_at};
ghost use Rattle.store_audit.specs.Stores.{AgreeAt, AreCommitted, HasCommitted, IsFirstPair, store_at, stored_entry};

use can_frame::Entry;
use raft_log::Stored;

/// The index of the first of the stores that have committed the most entries.
pub fn longest(stores: &[Stored]) -> usize
    requires { 1 ≤ length stores.now }
    ensures exists { result < length stores.now }
    ensures most { (k : ℕ) → k < length stores.now →
        (store_at stores.now k).commit ≤ (store_at stores.now result).commit }
    ensures first { (k : ℕ) → k < result →
        (store_at stores.now k).commit < (store_at stores.now result).commit }
{
    let mut longest = 0;
    for next in 1..stores.len() {
        if stores[next].commit > stores[longest].commit {
            longest = next;
        }
    }
    longest
}

/// The first two stores that have committed different entries at a place.
pub fn difference(stores: &[Stored], place: u8) -> Option<(usize, usize)>
    requires place { 1 ≤ place }
    requires commits { AreCommitted stores.now }
    ensures found { IfSome result (λ pair. IsFirstPair place stores.now pair.0 pair.1) }
    ensures none { IsNone result → AgreeAt stores.now place }
{
    let first = first_at(stores, place)?;
    let second = other_at(stores, place, first)?;
    Some((first, second))
}

/// The first store that has committed an entry at a place.
fn first_at(stores: &[Stored], place: u8) -> Option<usize>
    ensures exists { IfSome result (λ first. first < length stores.now) }
    ensures has { IfSome result (λ first. HasCommitted stores.now place first) }
    ensures first { IfSome result (λ first. (k : ℕ) → k < first →
        HasCommitted stores.now place k → ⊥) }
    ensures none { IsNone result → (k : ℕ) → k < length stores.now →
        HasCommitted stores.now place k → ⊥ }
{
    for index in 0..stores.len() {
        if place <= stores[index].commit {
            return Some(index);
        }
    }
    None
}

/// The first store behind this one that has committed another entry at a place.
fn other_at(stores: &[Stored], place: u8, first: usize) -> Option<usize>
    requires place { 1 ≤ place }
    requires commits { AreCommitted stores.now }
    requires exists { first < length stores.now }
    requires has { HasCommitted stores.now place first }
    ensures order { IfSome result (λ second. first < second) }
    ensures exists { IfSome result (λ second. second < length stores.now) }
    ensures has { IfSome result (λ second. HasCommitted stores.now place second) }
    ensures differ { IfSome result (λ second.
        stored_entry stores.now second place ≢ stored_entry stores.now first place) }
    ensures next { IfSome result (λ second. (k : ℕ) → first < k → k < second →
        HasCommitted stores.now place k →
        stored_entry stores.now k place ≡ stored_entry stores.now first place) }
    ensures none { IsNone result → (k : ℕ) → first < k → k < length stores.now →
        HasCommitted stores.now place k →
        stored_entry stores.now k place ≡ stored_entry stores.now first place }
{
    let entry = entry_of(&stores[first], place);
    for index in first + 1..stores.len() {
        if has_other(&stores[index], place, &entry) {
            return Some(index);
        }
    }
    None
}

/// Whether a store has committed another entry than this one at a place.
fn has_other(store: &Stored, place: u8, entry: &Entry) -> bool
    requires place { 1 ≤ place }
    requires commit { store.now.commit ≤ length store.now.entries.items }
    ensures has { IsTrue result → place ≤ store.now.commit }
    ensures other { IsTrue result → entry_at store.now.entries.items place ≢ entry.now }
    ensures same { result ≡ false → place ≤ store.now.commit →
        entry_at store.now.entries.items place ≡ entry.now }
{
    place <= store.commit && entry_of(store, place) != *entry
}

/// The entry of a store at a place.
pub fn entry_of(store: &Stored, place: u8) -> Entry
    requires least { 1 ≤ place }
    requires most { place ≤ length store.now.entries.items }
    ensures { result ≡ entry_at store.now.entries.items place }
{
    store.entries[place as usize - 1]
}
