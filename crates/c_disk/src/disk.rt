ghost use Rattle.std.specs.Prelude.{◌≡◌, ◌≤◌, ◌+◌, ℕ, false, is_ok, OnOk, if◌then◌else◌};
ghost use Rattle.outside.specs.Faults.{HasCause, counted, one_more};

use crate::calls::{Posix, reads_all, syncs, writes_all};
use disk_model::Disk;
use outside::Failed;

/// The disk behind a descriptor. Whoever opened the descriptor sees that it has `disk_model::IMAGE` bytes,
/// and that nobody else writes to them. It tells no contents.
#[derive(Drop)]
pub struct FdDisk {
    fd: i32,
    faults: u64,
}

impl FdDisk {
    /// The disk behind this descriptor. Nothing is read or written yet.
    pub fn new(fd: i32) -> FdDisk
        ensures { result.faults ≡ 0 }
    {
        FdDisk { fd, faults: 0 }
    }

    /// Counts a call that failed.
    fn answer(&mut self, is_done: bool) -> Result<(), Failed>
        ensures done { is_ok result ≡ is_done }
        ensures cause { HasCause self.old.faults self.new.faults result }
        ensures no_fault { OnOk result (self.new.faults ≡ self.old.faults) }
        ensures faults { self.new.faults ≡ counted result self.old.faults }
    {
        if is_done {
            return Ok(());
        }
        self.faults = self.faults.saturating_add(1);
        Err(Failed)
    }
}

impl Disk for FdDisk {
    ghost use Rattle.disk_model.specs.Contents.{untold};
    ghost use Rattle.std.proofs.lemmas.Bool.{false≢true};

    ghost tells = { λ d. false };

    ghost contents = { λ d. untold };

    ghost does = { λ old call ok new.
        new.faults ≡ (if ok then old.faults else one_more old.faults) };

    ghost faults = { λ d. d.faults };

    ghost counts = { λ old new call done. done };

    ghost sound = { λ d told. absurd (false≢true told) };

    fn read(&mut self, at: usize, buf: &mut [u8]) -> Result<(), Failed> {
        let is_done = reads_all(&mut Posix::new(self.fd), at, buf);
        self.answer(is_done)
    }

    fn write(&mut self, at: usize, bytes: &[u8]) -> Result<(), Failed> {
        let is_done = writes_all(&mut Posix::new(self.fd), at, bytes);
        self.answer(is_done)
    }

    fn sync(&mut self) -> Result<(), Failed> {
        let is_done = syncs(&mut Posix::new(self.fd));
        self.answer(is_done)
    }

    fn faults(&self) -> u64 {
        self.faults
    }
}
