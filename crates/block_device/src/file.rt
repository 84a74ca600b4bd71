ghost use Rattle.std.specs.Prelude.{◌≡◌, false, is_ok, IfOk, OnOk, if◌then◌else◌};
ghost use Rattle.outside.specs.Faults.{HasCause, counted, one_more};

use crate::{BLOCK, BLOCKS, BlockDevice, USED};
use outside::Failed;
use std::fs::File;
use std::os::unix::fs::{FileExt, MetadataExt};

/// A device in a file of `BLOCKS` blocks of `BLOCK` bytes. It tells no blocks.
///
/// It holds an advisory lock on the whole file (`flock`) as long as it lives. From a sync that failed on, every call
/// fails: the system tells of a write that did not reach the device once. So it is once the file has no name any more.
#[derive(Drop)]
pub struct FileDevice {
    file: File,
    faults: u64,

    /// Whether a sync failed.
    lost: bool,
}

impl FileDevice {
    /// The device in this file, which is open for reading and writing. It fails where the file has another length, and
    /// where somebody else has its lock. Whoever made the file has synced its folder.
    pub fn new(file: File) -> Result<FileDevice, Failed>
        ensures { IfOk result (λ device. device.faults ≡ 0) }
    {
        if file.try_lock().is_err() || !has_size(&file) {
            return Err(Failed);
        }
        Ok(FileDevice {
            file,
            faults: 0,
            lost: false,
        })
    }

    /// Counts a call that failed.
    fn answer(&mut self, is_done: bool) -> Result<(), Failed>
        ensures done { is_ok result ≡ is_done }
        ensures cause { HasCause self.old.faults self.new.faults result }
        ensures no_fault { OnOk result (self.new.faults ≡ self.old.faults) }
        ensures faults { self.new.faults ≡ counted result self.old.faults }
    {
        if is_done {
            return Ok(());
        }
        self.faults = self.faults.saturating_add(1);
        Err(Failed)
    }
}

fn has_size(file: &File) -> bool {
    match file.metadata() {
        Ok(metadata) => metadata.len() == (BLOCK * BLOCKS) as u64,
        Err(_) => false,
    }
}

/// Whether a file has a name in some folder.
fn has_name(file: &File) -> bool {
    match file.metadata() {
        Ok(metadata) => metadata.nlink() > 0,
        Err(_) => false,
    }
}

impl BlockDevice for FileDevice {
    ghost use Rattle.block_device.specs.Blocks.{no_blocks};
    ghost use Rattle.std.proofs.lemmas.Bool.{false≢true};

    ghost tells = { λ d. false };

    ghost blocks = { λ d. no_blocks };

    ghost does = { λ old call ok new.
        new.faults ≡ (if ok then old.faults else one_more old.faults) };

    ghost faults = { λ d. d.faults };

    ghost current = { λ d told. absurd (false≢true told) };

    ghost counts = { λ old new call done. done };

    fn read(&mut self, block: usize, buf: &mut [u8; USED]) -> Result<(), Failed> {
        let is_done = !self.lost && self.file.read_exact_at(buf, (BLOCK * block) as u64).is_ok();
        self.answer(is_done)
    }

    fn write(&mut self, block: usize, bytes: &[u8; USED]) -> Result<(), Failed> {
        let is_done = !self.lost
            && self
                .file
                .write_all_at(bytes, (BLOCK * block) as u64)
                .is_ok();
        self.answer(is_done)
    }

    fn sync(&mut self) -> Result<(), Failed> {
        let is_done = !self.lost && self.file.sync_data().is_ok() && has_name(&self.file);
        self.lost = !is_done;
        self.answer(is_done)
    }

    fn faults(&self) -> u64 {
        self.faults
    }
}
