ghost use Rattle.std.specs.Prelude.{◌≡◌, ◌≤◌, ℕ, false, length, is_ok, IfOk, OnOk};
ghost use Rattle.disk_model.specs.Contents.{image_size};
ghost use Rattle.outside.specs.Faults.{HasCause, counted};

use crate::{Disk, IMAGE};
use outside::Failed;
use std::fs;
use std::fs::{File, OpenOptions};
use std::io::ErrorKind;
use std::os::unix::fs::{FileExt, MetadataExt};
use std::path::Path;
use std::rt::Files;

/// A disk in a file of `IMAGE` bytes. It tells no contents.
///
/// One that [`FileDisk::open`], [`FileDisk::open_made`] or [`FileDisk::make`] gives holds an advisory lock on the
/// whole file (`flock`) as long as it lives, so a second such disk on the same file is refused, in this process
/// and in any other. A process that asks for no lock is not held off: what it writes comes between, and nothing
/// here notices.
///
/// From a sync that failed on, every call fails. The system tells of a write that did not reach the device once:
/// what is read after it may be what the device does not have, and a sync after it may succeed.
///
/// The clause of an opening says that no fault is counted yet. What the comments say of a missing file, a lock, a
/// length, a sync that fails in an opening and of reading twice is trusted, and shown by tests.
#[derive(Drop)]
pub struct FileDisk {
    file: File,
    faults: u64,

    /// Whether it holds the lock.
    locked: bool,

    /// Whether a sync failed.
    lost: bool,
}

impl FileDisk {
    /// The disk in the file at this path. A missing file is made, of zeros. The file and its name are on
    /// the device before the disk is handed out, so a stop of the machine does not lose them; one that
    /// falls while the file is made may leave a shorter file, which is refused from then on until it is
    /// taken away.
    ///
    /// It fails, and changes nothing, where the file has another length, is locked, is a folder or may
    /// not be read and written, where its folder may not be read, and where a missing one cannot be made,
    /// as in a missing folder or on a full device. Where a sync fails, it gives a disk of which every call
    /// fails; a file that it made is then taken away again.
    pub fn open<R: Files<File = File>>(rt: &R, path: &str) -> Result<FileDisk, Failed>
        ensures { IfOk result (λ disk. disk.faults ≡ 0) }
    {
        match OpenOptions::new().read(true).write(true).open(rt, path) {
            Ok(file) => FileDisk::of(rt, file, path),
            Err(error) if error.kind() == ErrorKind::NotFound => FileDisk::make(rt, path),
            Err(_) => Err(Failed),
        }
    }

    /// The disk in the file at this path, as [`FileDisk::open`] gives it, but a missing file is not made: there
    /// it fails.
    pub fn open_made<R: Files<File = File>>(rt: &R, path: &str) -> Result<FileDisk, Failed>
        ensures { IfOk result (λ disk. disk.faults ≡ 0) }
    {
        match OpenOptions::new().read(true).write(true).open(rt, path) {
            Ok(file) => FileDisk::of(rt, file, path),
            Err(_) => Err(Failed),
        }
    }

    /// The disk in a file that is made for it, of zeros, as [`FileDisk::open`] makes a missing one. It fails, and
    /// changes nothing, where there is something at this path already, and where the file cannot be made.
    pub fn make<R: Files<File = File>>(rt: &R, path: &str) -> Result<FileDisk, Failed>
        ensures { IfOk result (λ disk. disk.faults ≡ 0) }
    {
        let Ok(file) = File::create_new(rt, path) else {
            return Err(Failed);
        };
        let made = if is_zeroed(&file) {
            FileDisk::of(rt, file, path)
        } else {
            Err(Failed)
        };
        match made {
            Ok(disk) if !disk.lost => Ok(disk),
            // A file that cannot be taken away either has another length, or is one of zeros.
            failed => {
                let _ = fs::remove_file(rt, path);
                failed
            }
        }
    }

    /// The disk in a file that is there already, to be read alone: a write to it fails, and counts as a
    /// fault. It asks for no right to write and takes no lock, so a file of a file system that is mounted
    /// for reading, and one that somebody else holds the lock on, can be read.
    ///
    /// Somebody may write to the file while it is read. So each read reads twice, and fails where the bytes
    /// are not the same: they may be parts of several writes, which no stop leaves together.
    ///
    /// It fails, and changes nothing, where there is no file, and where the file has another length, is no
    /// plain file or may not be read.
    pub fn open_old<R: Files<File = File>>(rt: &R, path: &str) -> Result<FileDisk, Failed>
        ensures { IfOk result (λ disk. disk.faults ≡ 0) }
    {
        // What is no plain file is not opened: to open a pipe waits for somebody who writes to it.
        match fs::metadata(rt, path) {
            Ok(metadata) if metadata.is_file() => {}
            _ => return Err(Failed),
        }
        match File::open(rt, path) {
            Ok(file) if has_size(&file) => Ok(FileDisk {
                file,
                faults: 0,
                locked: false,
                lost: false,
            }),
            _ => Err(Failed),
        }
    }

    /// The disk in this file, whose lock it takes. The file and its folder, which has its name, are synced.
    fn of<R: Files<File = File>>(rt: &R, file: File, path: &str) -> Result<FileDisk, Failed>
        ensures { IfOk result (λ disk. disk.faults ≡ 0) }
    {
        if !is_free(&file) || !has_size(&file) {
            return Err(Failed);
        }
        let Ok(folder) = File::open(rt, folder_of(path)) else {
            return Err(Failed);
        };
        let lost = file.sync_all().is_err() || folder.sync_all().is_err();
        Ok(FileDisk {
            file,
            faults: 0,
            locked: true,
            lost,
        })
    }

    /// Counts a call that failed.
    fn answer(&mut self, is_done: bool) -> Result<(), Failed>
        ensures done { is_ok result ≡ is_done }
        ensures cause { HasCause self.old.faults self.new.faults result }
        ensures no_fault { OnOk result (self.new.faults ≡ self.old.faults) }
        ensures faults { self.new.faults ≡ counted result self.old.faults }
        ensures lost { self.new.lost ≡ self.old.lost }
    {
        if is_done {
            return Ok(());
        }
        self.faults = self.faults.saturating_add(1);
        Err(Failed)
    }
}

/// Takes the lock on a file, unless somebody else has it.
fn is_free(file: &File) -> bool {
    file.try_lock().is_ok()
}

fn has_size(file: &File) -> bool {
    match file.metadata() {
        Ok(metadata) => metadata.len() == IMAGE as u64,
        Err(_) => false,
    }
}

/// Whether another read gives the same bytes.
fn is_still(file: &File, at: usize, bytes: &[u8]) -> bool
    requires { length bytes.now ≤ image_size }
{
    let mut image = [0; IMAGE];
    let again = &mut image[..bytes.len()];
    file.read_exact_at(again, at as u64).is_ok() && *again == *bytes
}

/// Fills an empty file with zeros.
fn is_zeroed(file: &File) -> bool {
    file.write_all_at(&[0; IMAGE], 0).is_ok()
}

/// The folder that has the name of the file at this path.
fn folder_of(path: &str) -> Path<'_> {
    match Path::new(path).parent() {
        Some(folder) if !folder.as_str().is_empty() => folder,
        _ => Path::new("."),
    }
}

/// Whether a file has a name in some folder.
fn has_name(file: &File) -> bool {
    match file.metadata() {
        Ok(metadata) => metadata.nlink() > 0,
        Err(_) => false,
    }
}

impl Disk for FileDisk {
    ghost use Rattle.disk_model.specs.Contents.{untold};
    ghost use Rattle.disk_model.specs.File.{DoesInFile};
    ghost use Rattle.std.proofs.lemmas.Bool.{false≢true};

    ghost tells = { λ d. false };

    ghost contents = { λ d. untold };

    ghost does = { λ old call ok new. DoesInFile old call ok new };

    ghost faults = { λ d. d.faults };

    ghost counts = { λ old new call done. done.faults };

    ghost sound = { λ d told. absurd (false≢true told) };

    fn read(&mut self, at: usize, buf: &mut [u8]) -> Result<(), Failed> {
        let is_done = !self.lost
            && self.file.read_exact_at(buf, at as u64).is_ok()
            && (self.locked || is_still(&self.file, at, buf));
        self.answer(is_done)
    }

    fn write(&mut self, at: usize, bytes: &[u8]) -> Result<(), Failed> {
        let is_done = !self.lost && self.file.write_all_at(bytes, at as u64).is_ok();
        self.answer(is_done)
    }

    fn sync(&mut self) -> Result<(), Failed> {
        let is_done = !self.lost && self.file.sync_data().is_ok() && has_name(&self.file);
        self.lost = !is_done;
        self.answer(is_done)
    }

    fn faults(&self) -> u64 {
        self.faults
    }
}
