ghost use Rattle.std.specs.Prelude.{◌≡◌, IfOk, false};

use crate::disk::WatchedDisk;
use crate::place::FileAtPath;
use crate::watch::Watch;
use disk_model::FileDisk;
use outside::Failed;
use std::fs::File;
use std::rt::Files;

/// The disk in the file at this path, which is watched. The file is there already, and nobody but the user of this process
/// may write it. It fails else, where [`FileDisk::open_made`] does, and where another file comes to the path meanwhile.
pub fn open_watched<'a, R: Files<File = File>>(
    files: &'a R,
    path: String,
) -> Result<WatchedDisk<FileDisk, FileAtPath<'a, R>>, Failed>
    ensures faults { IfOk result (λ disk. disk.faults ≡ 0) }
    ensures lost { IfOk result (λ disk. disk.lost ≡ false) }
{
    let mut place = FileAtPath::new(files, path)?;
    let disk = FileDisk::open_made(files, place.path())?;
    if !place.is_there() {
        return Err(Failed);
    }
    Ok(WatchedDisk::new(disk, place))
}
