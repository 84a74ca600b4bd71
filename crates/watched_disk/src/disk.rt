ghost use Rattle.std.specs.Prelude.{◌≡◌, ◌≤◌, false};
ghost use Rattle.outside.specs.Faults.{Rose, one_more};

use crate::watch::Watch;
use disk_model::Disk;
use outside::Failed;

/// A disk over another one. Before each sync it looks whether its file is still there. Once it is not, the disk is lost:
/// every call fails, and the disk below is not called.
#[derive(Drop)]
pub struct WatchedDisk<D, W> {
    disk: D,
    watch: W,

    /// Calls that failed, here or below.
    faults: u64,

    /// Whether a look found that the file is not there.
    lost: bool,
}

impl<D: Disk, W: Watch> WatchedDisk<D, W> {
    /// This disk, whose file is watched. No fault is counted yet.
    pub fn new(disk: D, watch: W) -> WatchedDisk<D, W>
        ensures disk { result.disk ≡ disk }
        ensures watch { result.watch ≡ watch }
        ensures faults { result.faults ≡ 0 }
        ensures lost { result.lost ≡ false }
    {
        WatchedDisk {
            disk,
            watch,
            faults: 0,
            lost: false,
        }
    }

    /// Counts a call that failed.
    fn fault(&mut self) -> Failed
        ensures rose { Rose self.old.faults self.new.faults }
        ensures later { self.old.faults ≤ self.new.faults }
        ensures faults { self.new.faults ≡ one_more self.old.faults }
        ensures disk { self.new.disk ≡ self.old.disk }
        ensures watch { self.new.watch ≡ self.old.watch }
        ensures lost { self.new.lost ≡ self.old.lost }
    {
        self.faults = self.faults.saturating_add(1);
        Failed
    }
}

impl<D: Disk, W: Watch> Disk for WatchedDisk<D, W> {
    ghost use Rattle.watched_disk.specs.Watched.{DoesWatched};

    ghost tells = { λ d. D.tells d.disk };

    ghost contents = { λ d. D.contents d.disk };

    ghost does = { λ old call ok new. DoesWatched D.Disk W.Watch old call ok new };

    ghost faults = { λ d. d.faults };

    ghost counts = { λ old new call done. done.faults };

    ghost sound = { λ d told. D.sound d.disk told };

    fn read(&mut self, at: usize, buf: &mut [u8]) -> Result<(), Failed> {
        if self.lost {
            return Err(self.fault());
        }
        match self.disk.read(at, buf) {
            Ok(()) => Ok(()),
            Err(Failed) => Err(self.fault()),
        }
    }

    fn write(&mut self, at: usize, bytes: &[u8]) -> Result<(), Failed> {
        if self.lost {
            return Err(self.fault());
        }
        match self.disk.write(at, bytes) {
            Ok(()) => Ok(()),
            Err(Failed) => Err(self.fault()),
        }
    }

    fn sync(&mut self) -> Result<(), Failed> {
        if self.lost {
            return Err(self.fault());
        }
        if !self.watch.is_there() {
            self.lost = true;
            return Err(self.fault());
        }
        match self.disk.sync() {
            Ok(()) => Ok(()),
            Err(Failed) => Err(self.fault()),
        }
    }

    fn faults(&self) -> u64 {
        self.faults
    }
}
