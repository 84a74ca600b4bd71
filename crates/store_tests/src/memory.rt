//! A disk in memory that is started again.

ghost use Rattle.disk_model.specs.Pattern.{IsUsable};

use crate::same::same;
use arrayvec::ArrayVec;
use disk_model::{Disk, IMAGE, MemoryDisk};
use outside::Pattern;

/// The first bytes after a restart, of a disk of zeros where 1 2 3 were written at 0 and synced, and
/// then 9 9 at 1 and 7 at 5.
fn restarted(pattern: Pattern) -> Option<[u8; 8]>
    requires { IsUsable pattern }
{
    let mut disk = MemoryDisk::new(&[0; IMAGE]);
    disk.write(0, &[1, 2, 3]).ok()?;
    disk.sync().ok()?;
    disk.write(1, &[9, 9]).ok()?;
    disk.write(5, &[7]).ok()?;
    disk.restart(pattern);
    let mut bytes = [0; 8];
    disk.read(0, &mut bytes).ok()?;
    Some(bytes)
}

#[test]
fn a_restart_remakes_what_was_written_since_the_sync(rt: HostRuntime) {
    let mut bytes = ArrayVec::new();
    bytes.push(0xaa);
    bytes.push(0xbb);
    assert!(rt; same(&restarted(Pattern::Old), &Some([1, 2, 3, 0, 0, 0, 0, 0])));
    assert!(rt; same(&restarted(Pattern::New), &Some([1, 9, 9, 0, 0, 7, 0, 0])));
    assert!(rt;
        same(
            &restarted(Pattern::Bytes(bytes)),
            &Some([1, 0xaa, 0xbb, 0, 0, 0xaa, 0, 0])
        )
    );
}
