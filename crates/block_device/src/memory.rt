ghost use Rattle.std.specs.Prelude.{◌≡◌, ◌-◌, ℕ, [], length, false, true, not, is_ok, OnOk, slice_index_or};
ghost use Rattle.outside.specs.Faults.{HasCause, counted};

use crate::{BLOCKS, BlockDevice, USED};
use outside::Failed;

/// A device in memory. One device call can be set to stop it.
#[derive(Drop)]
pub struct MemoryDevice {
    seen: [[u8; USED]; BLOCKS],
    stable: [[u8; USED]; BLOCKS],

    /// The blocks that were written since the last sync that succeeded.
    written: [bool; BLOCKS],

    /// The device call that stops the device, counted from the next one. 0 is none.
    stop_in: u64,
    stopped: bool,
    faults: u64,
    ghost seen_size: { length seen ≡ 4 },
    ghost stable_size: { length stable ≡ 4 },
    ghost written_size: { length written ≡ 4 },
    ghost agrees: { (block : ℕ) → slice_index_or written block false ≡ false →
        slice_index_or seen block [] ≡ slice_index_or stable block [] },
}

impl MemoryDevice {
    ghost use Rattle.block_device.specs.Blocks.{IsUnwritten, MayLeaveBlocks};
    ghost use Rattle.block_device.specs.DeviceViews.{memory_blocks};
    ghost use Rattle.block_device.specs.Memory.{stops_device};

    /// A device that holds these blocks, all of them stable, with no stop set.
    pub fn new(blocks: &[[u8; USED]; BLOCKS]) -> MemoryDevice
        ensures seen { (block : ℕ) → (memory_blocks result).seen block ≡ slice_index_or blocks.now block [] }
        ensures settled { IsUnwritten (memory_blocks result) }
        ensures running { stops_device result ≡ false }
        ensures faults { result.faults ≡ 0 }
    {
        MemoryDevice {
            seen: *blocks,
            stable: *blocks,
            written: none_written(),
            stop_in: 0,
            stopped: false,
            faults: 0,
        }
    }

    /// The device call numbered `call`, counted from 1 from here on, does not act and fails, and so do all later
    /// ones until a restart. 0 is none.
    pub fn stop_at(&mut self, call: u64)
        ensures { self.new ≡ record self.old { stop_in = call } }
    {
        self.stop_in = call;
    }

    /// Starts the device again after a stop that left these bytes in each block that was written since the last sync
    /// that succeeded. No stop is set then.
    pub fn restart(&mut self, left: &[u8; USED])
        ensures left { MayLeaveBlocks (memory_blocks self.old) (memory_blocks self.new).seen }
        ensures settled { IsUnwritten (memory_blocks self.new) }
        ensures running { stops_device self.new ≡ false }
        ensures faults { self.new.faults ≡ self.old.faults }
    {
        for block in 0..BLOCKS {
            if self.written[block] {
                self.stable[block] = *left;
            }
        }
        self.seen = self.stable;
        self.written = none_written();
        self.stop_in = 0;
        self.stopped = false;
    }

    /// Counts a device call, and tells whether it acts.
    fn count(&mut self) -> Result<(), Failed>
        ensures answer { is_ok result ≡ not (stops_device self.old) }
        ensures stopped { self.new.stopped ≡ stops_device self.old }
        ensures stop_in { self.new.stop_in ≡ self.old.stop_in - 1 }
        ensures faults { self.new.faults ≡ counted result self.old.faults }
        ensures cause { HasCause self.old.faults self.new.faults result }
        ensures no_fault { OnOk result (self.new.faults ≡ self.old.faults) }
        ensures seen { self.new.seen ≡ self.old.seen }
        ensures stable { self.new.stable ≡ self.old.stable }
        ensures written { self.new.written ≡ self.old.written }
    {
        self.stopped = self.stopped || self.stop_in == 1;
        self.stop_in = self.stop_in.saturating_sub(1);
        if self.stopped {
            self.faults = self.faults.saturating_add(1);
            return Err(Failed);
        }
        Ok(())
    }
}

/// No block is marked as written.
fn none_written() -> [bool; BLOCKS]
    ensures size { length result ≡ 4 }
    ensures none { (block : ℕ) → slice_index_or result block false ≡ false }
{
    [false; BLOCKS]
}

impl BlockDevice for MemoryDevice {
    ghost use Rattle.block_device.specs.DeviceViews.{memory_blocks};
    ghost use Rattle.block_device.specs.Memory.{DoesToBlocks};

    ghost tells = { λ d. true };

    ghost blocks = { λ d. memory_blocks d };

    ghost does = { λ old call ok new. DoesToBlocks old call ok new };

    ghost faults = { λ d. d.faults };

    ghost current = { λ d told. d.agrees };

    ghost counts = { λ old new call done. done.faults };

    fn read(&mut self, block: usize, buf: &mut [u8; USED]) -> Result<(), Failed> {
        self.count()?;
        *buf = self.seen[block];
        Ok(())
    }

    fn write(&mut self, block: usize, bytes: &[u8; USED]) -> Result<(), Failed> {
        self.count()?;
        self.seen[block] = *bytes;
        self.written[block] = true;
        Ok(())
    }

    fn sync(&mut self) -> Result<(), Failed> {
        if self.count().is_err() {
            return Err(Failed);
        }
        self.stable = self.seen;
        self.written = none_written();
        Ok(())
    }

    fn faults(&self) -> u64 {
        self.faults
    }
}
