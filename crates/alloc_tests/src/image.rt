//! Images of what an allocator has stored.

ghost use Rattle.std.specs.Prelude.{◌<◌, ◌≤◌, length};

use can_frame::Entry;
use disk_model::IMAGE;

/// What one key takes: a selector, and two copies of a length and 32 bytes.
const KEY: usize = 67;

/// The image of term 1 with these entries, and a commit index. It has no version: each entry has 21 bytes.
pub(crate) fn stored(entries: &[Entry], commit: u8) -> [u8; IMAGE]
    requires { length entries.now ≤ 127 }
{
    let mut image = [0; IMAGE];
    put(&mut image, 1, &1u32.to_le_bytes());
    put(&mut image, 3, &[entries.len() as u8]);
    put(&mut image, 4, &[commit]);
    for (i, entry) in entries.iter().enumerate() {
        put_entry(&mut image, 5 + i, entry);
    }
    image
}

/// The term, the unique ID and the node ID, in that order.
fn put_entry(image: &mut [u8; IMAGE], key: usize, entry: &Entry)
    requires { key < 132 }
{
    let mut bytes = [0; 21];
    bytes[..4].copy_from_slice(&entry.term.to_le_bytes());
    bytes[4..20].copy_from_slice(&entry.uid);
    bytes[20] = entry.node;
    put(image, key, &bytes);
}

/// The first copy of a key, which a selector of 0 chooses.
fn put(image: &mut [u8; IMAGE], key: usize, value: &[u8])
    requires key { key < 132 }
    requires size { length value.now ≤ 32 }
{
    let at = KEY * key + 1;
    image[at] = value.len() as u8;
    image[at + 1..at + 1 + value.len()].copy_from_slice(value);
}
