ghost use Rattle.std.specs.Prelude.{◌≡◌, ◌≤◌, ◌<◌, ◌+◌, ℕ, length, slice_index};

/// Writes bytes over those at a place.
pub fn overwrite(image: &mut [u8], at: usize, bytes: &[u8])
    requires fits { at + length bytes.now ≤ length image.old }
    ensures size { length image.new ≡ length image.old }
    ensures before { (i : ℕ) → i < at → slice_index image.new i ≡ slice_index image.old i }
    ensures inside { (i : ℕ) → i < length bytes.now →
        slice_index image.new (at + i) ≡ slice_index bytes.now i }
    ensures after { (i : ℕ) → at + length bytes.now ≤ i →
        slice_index image.new i ≡ slice_index image.old i }
{
    image[at..at + bytes.len()].copy_from_slice(bytes);
}
