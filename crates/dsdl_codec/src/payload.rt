//! What the data types have in common: their bytes are those of their fields, one field after the
//! other.

ghost use Rattle.std.specs.Prelude.{◌≡◌, ◌≤◌, ◌+◌, ◌++◌, ◌<◌, ◌↔◌, IfSome, IsNone, IsSomeAnd, List, ℕ, length, slice_index_or};
ghost use Rattle.arrayvec.specs.ArrayVec.{array_vec_len};
ghost use Rattle.can_frame.specs.Sizes.{longest_payload};
ghost use Rattle.dsdl_codec.specs.Fields.{BeginsWith, BeginsWithCounted};

use arrayvec::ArrayVec;
use can_frame::sizes::LONGEST_PAYLOAD;

/// The payload of a transfer.
pub type Payload = ArrayVec<u8, LONGEST_PAYLOAD>;

/// Appends bytes for which there is room.
pub fn append(payload: &mut Payload, bytes: &[u8])
    requires { array_vec_len payload.old + length bytes.now ≤ longest_payload }
    ensures items { payload.new.items ≡ payload.old.items ++ bytes.now }
    ensures len { array_vec_len payload.new ≡ array_vec_len payload.old + length bytes.now }
{
    payload.try_extend_from_slice(bytes).unwrap();
}

/// A field of `N` bytes, and what is left.
pub fn split<const N: usize>(bytes: &[u8]) -> Option<(&[u8; N], &[u8])>
    ensures found { IfSome result (λ parts. BeginsWith N parts.0.now parts.1.now bytes.now) }
    ensures only { (field left : List ℕ) → BeginsWith N field left bytes.now →
        IsSomeAnd result (λ parts. (parts.0.now ≡ field) × (parts.1.now ≡ left)) }
    ensures short { IsNone result ↔ (length bytes.now < N) }
{
    bytes.split_first_chunk::<N>()
}

/// An array behind the byte that counts it, and what is left.
pub fn split_counted(bytes: &[u8]) -> Option<(&[u8], &[u8])>
    ensures found { IfSome result (λ parts. BeginsWithCounted parts.0.now parts.1.now bytes.now) }
    ensures only { (items left : List ℕ) → BeginsWithCounted items left bytes.now →
        IsSomeAnd result (λ parts. (parts.0.now ≡ items) × (parts.1.now ≡ left)) }
    ensures short { IsNone result → length bytes.now < 1 + slice_index_or bytes.now 0 0 }
{
    let (count, rest) = bytes.split_first()?;
    let count = *count as usize;
    if rest.len() < count {
        return None;
    }
    Some(rest.split_at(count))
}
