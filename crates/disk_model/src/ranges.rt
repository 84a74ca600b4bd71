//! Changes of a range of an array, said place by place.

ghost use Rattle.std.specs.Prelude.{◌≡◌, ◌≤◌, ◌<◌, ◌+◌, ℕ, length, true, false, slice_index, slice_index_or};
ghost use Rattle.disk_model.specs.Restart.{run_start, repeated};

use crate::IMAGE;

/// No byte is marked.
pub fn unmarked() -> [bool; IMAGE]
    ensures { (i : ℕ) → slice_index_or result i false ≡ false }
{
    [false; IMAGE]
}

/// Marks a range.
pub fn mark(marks: &mut [bool], from: usize, to: usize)
    requires order { from ≤ to }
    requires fits { to ≤ length marks.old }
    ensures before { (i : ℕ) → i < from →
        slice_index_or marks.new i false ≡ slice_index_or marks.old i false }
    ensures inside { (i : ℕ) → from ≤ i → i < to → slice_index_or marks.new i false ≡ true }
    ensures after { (i : ℕ) → to ≤ i →
        slice_index_or marks.new i false ≡ slice_index_or marks.old i false }
{
    marks[from..to].fill(true);
}

/// Takes the marks in a range away.
pub fn unmark(marks: &mut [bool], from: usize, to: usize)
    requires fits { to ≤ length marks.old }
    ensures before { (i : ℕ) → i < from →
        slice_index_or marks.new i false ≡ slice_index_or marks.old i false }
    ensures inside { (i : ℕ) → from ≤ i → i < to → slice_index_or marks.new i false ≡ false }
    ensures after { (i : ℕ) → to ≤ i →
        slice_index_or marks.new i false ≡ slice_index_or marks.old i false }
{
    if from < to {
        marks[from..to].fill(false);
    }
}

/// Writes bytes over those at a place.
pub fn overwrite(image: &mut [u8], at: usize, bytes: &[u8])
    requires fits { at + length bytes.now ≤ length image.old }
    ensures before { (i : ℕ) → i < at → slice_index image.new i ≡ slice_index image.old i }
    ensures inside { (i : ℕ) → i < length bytes.now →
        slice_index image.new (at + i) ≡ slice_index bytes.now i }
    ensures after { (i : ℕ) → at + length bytes.now ≤ i →
        slice_index image.new i ≡ slice_index image.old i }
{
    image[at..at + bytes.len()].copy_from_slice(bytes);
}

/// Copies a range.
pub fn copy_range(to: &mut [u8], from: &[u8], low: usize, high: usize)
    requires size { length from.now ≡ length to.old }
    requires fits { high ≤ length to.old }
    ensures before { (i : ℕ) → i < low → slice_index to.new i ≡ slice_index to.old i }
    ensures inside { (i : ℕ) → low ≤ i → i < high → slice_index to.new i ≡ slice_index from.now i }
    ensures after { (i : ℕ) → high ≤ i → slice_index to.new i ≡ slice_index to.old i }
{
    if low < high {
        to[low..high].copy_from_slice(&from[low..high]);
    }
}

/// Repeats `pattern` from the first byte of each run of marked bytes. None is marked outside the range.
#[tactic(auto, unfolding(crate::specs::Restart::run_start))]
pub fn repeat_over(image: &mut [u8], marks: &[bool], pattern: &[u8], low: usize, high: usize)
    requires size { length marks.now ≡ length image.old }
    requires fits { high ≤ length image.old }
    requires some { 0 < length pattern.now }
    requires below { (i : ℕ) → i < low → slice_index_or marks.now i false ≡ false }
    requires above { (i : ℕ) → high ≤ i → slice_index_or marks.now i false ≡ false }
    ensures marked { (i : ℕ) → i < length image.old → slice_index_or marks.now i false ≡ true →
        slice_index image.new i
        ≡ repeated pattern.now (run_start (λ k. slice_index_or marks.now k false) i) i }
    ensures others { (i : ℕ) → slice_index_or marks.now i false ≡ false →
        slice_index image.new i ≡ slice_index image.old i }
{
    let mut start = low;
    for i in low..high {
        if marks[i] {
            image[i] = pattern[(i - start) % pattern.len()];
        } else {
            start = i + 1;
        }
    }
}
