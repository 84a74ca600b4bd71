ghost use Rattle.std.specs.Prelude.{◌≡◌, ◌+◌, ◌≤◌, List, Option, None, length};
ghost use Rattle.c_disk.specs.Calls.{AddsCall, Answered, IsToldByAnswer};
ghost use Rattle.disk_model.specs.Contents.{image_size};
ghost use Rattle.disk_model.specs.Device.DeviceCall.{Read, Write, Sync};
ghost use Rattle.outside.specs.Contents.{WhereTold};

/// The three calls by which a store is kept.
pub trait Calls {
    /// The calls that were made, the last one first, each with its answer, where it tells them.
    ghost made: { Self → Option (List Answered) };

    /// Reads from this place on, and answers how many bytes came, or -1.
    fn pread(&mut self, at: usize, buf: &mut [u8]) -> isize
        requires { at + length buf.old ≤ image_size }
        ensures made { WhereTold (AddsCall (Read at (length buf.old)) result) (made self.old) (made self.new) };

    /// Writes from this place on, and answers how many bytes were written, or -1.
    fn pwrite(&mut self, at: usize, bytes: &[u8]) -> isize
        requires { at + length bytes.now ≤ image_size }
        ensures made { WhereTold (AddsCall (Write at bytes.now) result) (made self.old) (made self.new) };

    /// Makes what was written last, and answers 0, or -1.
    fn fdatasync(&mut self) -> i32
        ensures made { WhereTold (AddsCall Sync result) (made self.old) (made self.new) };
}

/// POSIX's calls on a descriptor. They tell nothing of what they did.
#[derive(Drop)]
pub struct Posix {
    fd: i32,
}

impl Posix {
    /// The calls on this descriptor.
    pub fn new(fd: i32) -> Posix
        ensures { result.fd ≡ fd }
    {
        Posix { fd }
    }
}

impl Calls for Posix {
    ghost made = { λ _. None };

    fn pread(&mut self, at: usize, buf: &mut [u8]) -> isize {
        libc::pread(self.fd, buf, at as i64)
    }

    fn pwrite(&mut self, at: usize, bytes: &[u8]) -> isize {
        libc::pwrite(self.fd, bytes, at as i64)
    }

    fn fdatasync(&mut self) -> i32 {
        libc::fdatasync(self.fd)
    }
}

/// Reads all of these bytes by one call, and tells whether it did.
pub fn reads_all<C: Calls>(calls: &mut C, at: usize, buf: &mut [u8]) -> bool
    requires { at + length buf.old ≤ image_size }
    ensures { WhereTold (IsToldByAnswer (Read at (length buf.old)) result) (C.made calls.old) (C.made calls.new) }
{
    let wanted = buf.len() as isize;
    calls.pread(at, buf) == wanted
}

/// Writes all of these bytes by one call, and tells whether it did.
pub fn writes_all<C: Calls>(calls: &mut C, at: usize, bytes: &[u8]) -> bool
    requires { at + length bytes.now ≤ image_size }
    ensures { WhereTold (IsToldByAnswer (Write at bytes.now) result) (C.made calls.old) (C.made calls.new) }
{
    calls.pwrite(at, bytes) == bytes.len() as isize
}

/// Syncs by one call, and tells whether it did.
pub fn syncs<C: Calls>(calls: &mut C) -> bool
    ensures { WhereTold (IsToldByAnswer Sync result) (C.made calls.old) (C.made calls.new) }
{
    calls.fdatasync() == 0
}
