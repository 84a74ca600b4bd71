ghost use Rattle.std.specs.Prelude.{◌≡◌, ◌≤◌, ◌<◌, ℕ, length, true, false, slice_index, slice_index_or};
ghost use Rattle.disk_model.specs.Contents.{image_size};
ghost use Rattle.disk_model.specs.Pattern.{IsUsable};

use crate::calls::Calls;
use crate::ranges::{copy_range, mark, overwrite, repeat_over, unmark, unmarked};
use crate::{Disk, IMAGE};
use outside::{Failed, Pattern};

/// A disk in memory. One device call can be set to fail and one to stop the disk.
#[derive(Drop)]
pub struct MemoryDisk {
    seen: [u8; IMAGE],
    stable: [u8; IMAGE],

    /// The bytes that were written since the last sync that succeeded, all of them from `low` up to
    /// `high`: a sync touches no others.
    touched: [bool; IMAGE],
    low: usize,
    high: usize,

    calls: Calls,
    ghost stable_size: { length stable ≡ image_size },
    ghost seen_size: { length seen ≡ length stable },
    ghost range: { high ≤ image_size },
    ghost below: { (i : ℕ) → i < low → slice_index_or touched i false ≡ false },
    ghost above: { (i : ℕ) → high ≤ i → slice_index_or touched i false ≡ false },
    ghost agrees: { (i : ℕ) → slice_index_or touched i false ≡ false →
        slice_index seen i ≡ slice_index stable i },
}

impl MemoryDisk {
    ghost use Rattle.disk_model.specs.Contents.{IsSettled, MayLeave};
    ghost use Rattle.disk_model.specs.Device.{IsSynced};
    ghost use Rattle.disk_model.specs.Memory.{memory_contents, memory_calls, nothing_set, Restarts};
    ghost use Rattle.disk_model.specs.Restart.{restarted_byte};

    /// A disk that holds `image`, all of it stable, with nothing set to fail.
    pub fn new(image: &[u8; IMAGE]) -> MemoryDisk
        ensures seen { (memory_contents result).seen ≡ image.now }
        ensures stable { (memory_contents result).stable ≡ image.now }
        ensures settled { IsSettled (memory_contents result) }
        ensures calls { memory_calls result ≡ nothing_set 0 }
    {
        MemoryDisk {
            seen: *image,
            stable: *image,
            touched: unmarked(),
            low: IMAGE,
            high: 0,
            calls: Calls::nothing_set(0),
        }
    }

    /// The device call numbered `call`, counted from 1 from here on, does not act and fails, and so do
    /// all later ones until a restart. It takes the place of an earlier `stop_at`; 0 is none.
    pub fn stop_at(&mut self, call: u64)
        ensures calls { memory_calls self.new ≡ record (memory_calls self.old) { stop_in = call } }
        ensures contents { memory_contents self.new ≡ memory_contents self.old }
    {
        self.calls.stop_in = call;
    }

    /// The device call numbered `call`, counted from 1 from here on, does not act and fails. It takes
    /// the place of an earlier `fail_at`; 0 is none.
    pub fn fail_at(&mut self, call: u64)
        ensures calls { memory_calls self.new ≡ record (memory_calls self.old) { fail_in = call } }
        ensures contents { memory_contents self.new ≡ memory_contents self.old }
    {
        self.calls.fail_in = call;
    }

    /// Whether a device call has stopped the disk, and no restart came since.
    pub fn stopped(&self) -> bool
        ensures { result ≡ (memory_calls self.now).stopped }
    {
        self.calls.stopped
    }

    /// Starts the disk again after a stop that left what `pattern` says of the bytes that were written
    /// since the last sync that succeeded. Nothing is set to fail then.
    ///
    /// `IsUsable` owes that a pattern of bytes has one byte at least.
    pub fn restart(&mut self, pattern: Pattern)
        requires { IsUsable pattern }
        ensures { Restarts pattern self.old self.new }
    {
        self.remake(&pattern);
        self.settle();
        self.calls = Calls::nothing_set(self.calls.faults);
    }

    /// Remakes the bytes that were written since the last sync that succeeded, as a stop leaves them.
    fn remake(&mut self, pattern: &Pattern)
        requires { IsUsable pattern.now }
        ensures bytes { (i : ℕ) → i < image_size → slice_index (memory_contents self.new).seen i ≡
            restarted_byte pattern.now (memory_contents self.old) i }
        ensures image { MayLeave (memory_contents self.old) (memory_contents self.new).seen }
        ensures calls { memory_calls self.new ≡ memory_calls self.old }
    {
        match pattern {
            Pattern::Old => copy_range(&mut self.seen, &self.stable, self.low, self.high),
            Pattern::New => {}
            Pattern::Bytes(bytes) => {
                repeat_over(&mut self.seen, &self.touched, bytes, self.low, self.high);
            }
        }
    }

    /// Makes what reads give stable.
    fn settle(&mut self)
        ensures synced { IsSynced (memory_contents self.old) (memory_contents self.new) }
        ensures calls { memory_calls self.new ≡ memory_calls self.old }
    {
        copy_range(&mut self.stable, &self.seen, self.low, self.high);
        unmark(&mut self.touched, self.low, self.high);
        self.low = IMAGE;
        self.high = 0;
    }
}

impl Disk for MemoryDisk {
    ghost use Rattle.disk_model.specs.Memory.{memory_contents, DoesInMemory};
    ghost use Rattle.std.specs.Prelude.{if◌then◌else◌};
    ghost use Rattle.std.proofs.Common.{◌∙◌, ap, sym};
    ghost use Rattle.outside.specs.Faults.{one_more};

    ghost tells = { λ d. true };

    ghost contents = { λ d. memory_contents d };

    ghost does = { λ old call ok new. DoesInMemory old call ok new };

    ghost faults = { λ d. d.calls.faults };

    ghost counts = { λ old new call done.
        ap (λ calls. calls.faults) done.calls ∙
        ap (λ ok. if ok then old.calls.faults else one_more old.calls.faults) (sym done.answer) };

    ghost sound = { λ d told.
        record { size = d.stable_size; current = record { size = d.seen_size; kept = d.agrees } } };

    fn read(&mut self, at: usize, buf: &mut [u8]) -> Result<(), Failed> {
        if !self.calls.count() {
            return Err(Failed);
        }
        let end = at + buf.len();
        buf.copy_from_slice(&self.seen[at..end]);
        Ok(())
    }

    fn write(&mut self, at: usize, bytes: &[u8]) -> Result<(), Failed> {
        if !self.calls.count() {
            return Err(Failed);
        }
        let end = at + bytes.len();
        mark(&mut self.touched, at, end);
        overwrite(&mut self.seen, at, bytes);
        self.low = self.low.min(at);
        self.high = self.high.max(end);
        Ok(())
    }

    fn sync(&mut self) -> Result<(), Failed> {
        if !self.calls.count() {
            return Err(Failed);
        }
        self.settle();
        Ok(())
    }

    fn faults(&self) -> u64 {
        self.calls.faults
    }
}
