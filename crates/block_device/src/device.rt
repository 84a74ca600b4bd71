ghost use Rattle.std.specs.Prelude.{◌≡◌, ◌<◌, ℕ, Bool, true, is_ok, OnOk, OnErr};
ghost use Rattle.block_device.specs.Blocks.{AreSynced, Blocks, ChangesBlock, MayLeaveBlocks, block_count, read_of, write_of};
ghost use Rattle.disk_model.specs.Device.{DeviceCall};
ghost use Rattle.disk_model.specs.Device.DeviceCall.{Sync};
ghost use Rattle.outside.specs.Faults.{HasCause};

use outside::Failed;

/// How many blocks a device has.
pub const BLOCKS: usize = 4;

/// How many bytes a block has. It is a premise that whatever a device loses as one lies within a block.
pub const BLOCK: usize = 16384;

/// How many bytes of a block are used, from its first on.
pub const USED: usize = 8900;

/// A device of `BLOCKS` blocks that survives stops, but for the blocks that are being written.
pub trait BlockDevice: Drop {
    /// Whether it tells its blocks. What the clauses say of blocks holds where it does.
    ghost tells: { Self → Bool };

    /// What it holds.
    ghost blocks: { Self → Blocks };

    /// What a device call makes of it, and whether that call succeeds.
    ghost does: { Self → DeviceCall → Bool → Self → Type 0 };

    /// How many calls on it failed.
    ghost faults: { Self → ℕ };

    /// Fills `buf` with the bytes of a block. What `buf` holds after a read that failed is not said.
    fn read(&mut self, block: usize, buf: &mut [u8; USED]) -> Result<(), Failed>
        requires exists { block < block_count }
        ensures made { does self.old (read_of block) (is_ok result) self.new }
        ensures cause { HasCause (faults self.old) (faults self.new) result }
        ensures no_fault { OnOk result (faults self.new ≡ faults self.old) }
        ensures tells { tells self.new ≡ tells self.old }
        ensures blocks { tells self.old ≡ true → blocks self.new ≡ blocks self.old }
        ensures bytes { OnOk result (tells self.old ≡ true →
            buf.new ≡ (blocks self.old).seen block) };

    /// Writes the bytes of a block. A write that fails changes at most that block.
    fn write(&mut self, block: usize, bytes: &[u8; USED]) -> Result<(), Failed>
        requires exists { block < block_count }
        ensures made { does self.old (write_of block bytes.now) (is_ok result) self.new }
        ensures cause { HasCause (faults self.old) (faults self.new) result }
        ensures no_fault { OnOk result (faults self.new ≡ faults self.old) }
        ensures tells { tells self.new ≡ tells self.old }
        ensures others { tells self.old ≡ true → ChangesBlock block (blocks self.old) (blocks self.new) }
        ensures bytes { OnOk result (tells self.old ≡ true →
            (blocks self.new).seen block ≡ bytes.now) };

    /// Makes what reads give stable. A sync that fails changes nothing.
    fn sync(&mut self) -> Result<(), Failed>
        ensures made { does self.old Sync (is_ok result) self.new }
        ensures cause { HasCause (faults self.old) (faults self.new) result }
        ensures no_fault { OnOk result (faults self.new ≡ faults self.old) }
        ensures tells { tells self.new ≡ tells self.old }
        ensures synced { OnOk result (tells self.old ≡ true →
            AreSynced (blocks self.old) (blocks self.new)) }
        ensures kept { OnErr result (tells self.old ≡ true →
            blocks self.new ≡ blocks self.old) };

    /// How many calls on it failed.
    fn faults(&self) -> u64
        ensures { result ≡ faults self.now };

    /// A stop may leave what reads give.
    ghost current: { (device : Self) → tells device ≡ true →
        MayLeaveBlocks (blocks device) (blocks device).seen };

    /// A device call that succeeds counts no fault.
    ghost counts: { (old new : Self) (call : DeviceCall) →
        does old call true new → faults new ≡ faults old };
}
