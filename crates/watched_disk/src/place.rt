ghost use Rattle.std.specs.Prelude.{◌≡◌, ◌↔◌, None, true, List, Bool};
ghost use Rattle.outside.specs.Contents.{WhereTold};
ghost use Rattle.watched_disk.specs.Place.{OthersWrite};
ghost use Rattle.watched_disk.specs.Look.{Looks};

use crate::watch::Watch;
use outside::Failed;
use std::fs;
use std::os::unix::fs::MetadataExt;
use std::rt::Files;

/// The bits of a mode by which its group, or anybody, may write.
const GROUP_WRITES: u32 = 0o020;

const ALL_WRITE: u32 = 0o002;

/// The file that is at a path when this is made, by the two numbers that the system has for it.
#[derive(Drop)]
pub struct FileAtPath<'a, R> {
    files: &'a R,
    path: String,
    device: u64,
    number: u64,
}

impl<'a, R: Files> FileAtPath<'a, R> {
    /// The file at this path. It fails where there is none, and where others than the user of this process may write it.
    pub fn new(files: &'a R, path: String) -> Result<FileAtPath<'a, R>, Failed> {
        let Ok(metadata) = fs::metadata(files, path.as_str()) else {
            return Err(Failed);
        };
        if others_write(libc::geteuid(), metadata.uid(), metadata.mode()) {
            return Err(Failed);
        }
        Ok(FileAtPath {
            files,
            path,
            device: metadata.dev(),
            number: metadata.ino(),
        })
    }

    /// The path.
    pub fn path(&self) -> &str {
        self.path.as_str()
    }
}

/// Whether others than this user may write a file of this owner and mode.
fn others_write(user: u32, owner: u32, mode: u32) -> bool
    ensures { (result ≡ true) ↔ OthersWrite user owner mode }
{
    owner != user || mode / GROUP_WRITES % 2 == 1 || mode / ALL_WRITE % 2 == 1
}

impl<R: Files> Watch for FileAtPath<'_, R> {
    ghost looks = { λ _. None };

    fn is_there(&mut self) -> bool {
        match fs::metadata(self.files, self.path.as_str()) {
            Ok(metadata) => metadata.dev() == self.device && metadata.ino() == self.number,
            Err(_) => false,
        }
    }
}
