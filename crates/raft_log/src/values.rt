//! The values of the keys.

ghost use Rattle.std.specs.Prelude.{◌≡◌, ◌<◌, ◌≤◌, IfSome, IsNone, IsTrue, Some, ◌↔◌, length, slice_index};
ghost use Rattle.std.specs.Int.{to_le_bytes, w32};
ghost use Rattle.raft_log.specs.DeviceCalls.{entry_bytes};
ghost use Rattle.raft_log.specs.Rules.{HasVersion, IsByteUpTo, IsEntryValue, IsTerm, IsVersion, entry_of, number_of, origin_of};

use crate::origin::WIN;
use can_frame::{Entry, Uid};

/// The version of a store in which each entry has its origin.
pub const NEWEST: u8 = 2;

/// The version of a store, 0 where it is empty.
pub fn read_version(value: &[u8]) -> Option<u8>
    ensures found { IfSome result (λ version. HasVersion version value.now) }
    ensures none { IsNone result → IsVersion value.now → ⊥ }
{
    match value {
        [] => Some(0),
        [version] if 1 <= *version && *version <= NEWEST => Some(*version),
        _ => None,
    }
}

/// A term, 0 where it is empty.
pub fn read_term(value: &[u8]) -> Option<u32>
    ensures found { IfSome result (λ term. (term ≡ number_of value.now) × IsTerm value.now) }
    ensures none { IsNone result → IsTerm value.now → ⊥ }
{
    match value {
        [] => Some(0),
        [a, b, c, d] => Some(u32::from_le_bytes([*a, *b, *c, *d])),
        _ => None,
    }
}

/// A byte up to `most`, 0 where it is empty.
pub fn read_byte(value: &[u8], most: u8) -> Option<u8>
    ensures found { IfSome result (λ byte. (byte ≡ slice_index value.now 0) ×
        IsByteUpTo most value.now) }
    ensures none { IsNone result → IsByteUpTo most value.now → ⊥ }
{
    match value {
        [] => Some(0),
        [byte] if *byte <= most => Some(*byte),
        _ => None,
    }
}

/// Whether these bytes have the form of an entry: 21 bytes, and its origin, which a store of the newest
/// version always has.
pub fn is_entry(value: &[u8], version: u8) -> bool
    ensures { IsTrue result ↔ IsEntryValue version value.now }
{
    match value.len() {
        21 => version != NEWEST,
        22 => value[21] <= WIN,
        _ => false,
    }
}

/// The entry that the first 21 bytes stand for.
pub fn read_entry(value: &[u8]) -> Entry
    requires { 21 ≤ length value.now }
    ensures { result ≡ entry_of value.now }
{
    let mut uid: Uid = [0; 16];
    uid.copy_from_slice(&value[4..20]);
    Entry {
        term: u32::from_le_bytes([value[0], value[1], value[2], value[3]]),
        uid,
        node: value[20] % 128,
    }
}

/// The origin behind them, if there is one.
pub fn read_origin(value: &[u8]) -> Option<u8>
    ensures { result ≡ origin_of value.now }
{
    value.get(21).copied()
}

/// The bytes of a term.
pub fn write_term(term: u32) -> [u8; 4]
    ensures bytes { result ≡ to_le_bytes w32 term }
    ensures again { number_of result ≡ term }
{
    term.to_le_bytes()
}

/// The bytes of an entry and its origin.
pub fn write_entry(entry: &Entry, origin: u8) -> [u8; 22]
    requires { entry.now.node < 128 }
    ensures bytes { result ≡ entry_bytes entry.now origin }
    ensures again { entry_of result ≡ entry.now }
    ensures origin_again { origin_of result ≡ Some origin }
{
    let [a, b, c, d] = write_term(entry.term);
    let mut bytes = [
        a, b, c, d, 0, 0, 0, 0, 0, 0, 0, 0, 0, 0, 0, 0, 0, 0, 0, 0, entry.node, origin,
    ];
    bytes[4..20].copy_from_slice(&entry.uid);
    bytes
}
