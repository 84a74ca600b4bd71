ghost use Rattle.std.specs.Prelude.{◌≡◌, ◌≤◌, ◌+◌, ℕ, length, Bool, true, is_ok, OnOk, OnErr};
ghost use Rattle.disk_model.specs.Contents.{Contents, IsSound, HasBytes, image_size};
ghost use Rattle.disk_model.specs.Device.{DeviceCall, ChangesOnly, IsSynced};
ghost use Rattle.disk_model.specs.Device.DeviceCall.{Read, Write, Sync};
ghost use Rattle.outside.specs.Faults.{HasCause};

use outside::Failed;

/// The size of a disk in bytes.
pub const IMAGE: usize = 8844;

/// A disk of `IMAGE` bytes that survives stops.
pub trait Disk: Drop {
    /// Whether it tells its contents. What the clauses say of contents holds where it does.
    ghost tells: { Self → Bool };

    /// What it holds.
    ghost contents: { Self → Contents };

    /// What a device call makes of it, and whether that call succeeds.
    ghost does: { Self → DeviceCall → Bool → Self → Type 0 };

    /// How many calls on it failed.
    ghost faults: { Self → ℕ };

    /// Fills `buf` with the bytes from `at` on. What `buf` holds after a read that failed is not said.
    fn read(&mut self, at: usize, buf: &mut [u8]) -> Result<(), Failed>
        requires fits { at + length buf.old ≤ image_size }
        ensures made { does self.old (Read at (length buf.old)) (is_ok result) self.new }
        ensures cause { HasCause (faults self.old) (faults self.new) result }
        ensures no_fault { OnOk result (faults self.new ≡ faults self.old) }
        ensures tells { tells self.new ≡ tells self.old }
        ensures contents { tells self.old ≡ true → contents self.new ≡ contents self.old }
        ensures bytes { OnOk result (tells self.old ≡ true →
            HasBytes (contents self.old).seen at buf.new) };

    /// Writes `bytes` at `at`. One that fails changes at most that range.
    fn write(&mut self, at: usize, bytes: &[u8]) -> Result<(), Failed>
        requires fits { at + length bytes.now ≤ image_size }
        ensures made { does self.old (Write at bytes.now) (is_ok result) self.new }
        ensures cause { HasCause (faults self.old) (faults self.new) result }
        ensures no_fault { OnOk result (faults self.new ≡ faults self.old) }
        ensures tells { tells self.new ≡ tells self.old }
        ensures outside { tells self.old ≡ true →
            ChangesOnly at (length bytes.now) (contents self.old) (contents self.new) }
        ensures bytes { OnOk result (tells self.old ≡ true →
            HasBytes (contents self.new).seen at bytes.now) };

    /// Makes what reads give stable. One that fails changes nothing.
    fn sync(&mut self) -> Result<(), Failed>
        ensures made { does self.old Sync (is_ok result) self.new }
        ensures cause { HasCause (faults self.old) (faults self.new) result }
        ensures no_fault { OnOk result (faults self.new ≡ faults self.old) }
        ensures tells { tells self.new ≡ tells self.old }
        ensures synced { OnOk result (tells self.old ≡ true →
            IsSynced (contents self.old) (contents self.new)) }
        ensures kept { OnErr result (tells self.old ≡ true →
            contents self.new ≡ contents self.old) };

    /// How many calls on it failed.
    fn faults(&self) -> u64
        ensures { result ≡ faults self.now };

    /// Its contents have their size, and a stop may leave what reads give.
    ghost sound: { (disk : Self) → tells disk ≡ true → IsSound (contents disk) };

    /// A device call that succeeds counts no fault.
    ghost counts: { (old new : Self) (call : DeviceCall) →
        does old call true new → faults new ≡ faults old };
}
