//! Disks in files of this machine.

use crate::same::{is, same};
use disk_model::{Disk, FileDisk, IMAGE};
use outside::Failed;
use std::fs;
use std::fs::{File, OpenOptions};
use std::os::unix::fs::FileExt;
use std::test::Fail;

/// Pieces that stand at both ends, over the 4,096th byte, and further up.
const PIECES: [(usize, [u8; 3]); 5] = [
    (0, [1, 2, 3]),
    (4095, [4, 5, 6]),
    (8190, [7, 8, 9]),
    (8700, [10, 11, 12]),
    (IMAGE - 3, [13, 14, 15]),
];

#[test]
fn a_missing_file_is_made_and_keeps_what_was_written(rt: HostRuntime) -> Result<(), Fail> {
    let path = "made.store";
    let _ = fs::remove_file(&rt, path);
    let mut disk = FileDisk::open(&rt, path)?;
    let mut image = [9; IMAGE];
    disk.read(0, &mut image)?;
    assert!(rt; is(&image, &[0; IMAGE]));
    for (at, bytes) in PIECES {
        assert!(rt; at <= IMAGE - 3);
        disk.write(at, &bytes)?;
        image[at..at + 3].copy_from_slice(&bytes);
    }
    disk.sync()?;
    assert_eq!(rt; disk.faults(), 0);
    drop(disk);
    assert!(rt; is(&fs::read(&rt, path)?, &image));
    let mut disk = FileDisk::open(&rt, path)?;
    for (at, bytes) in PIECES {
        assert!(rt; at <= IMAGE - 3);
        let mut read = [0; 3];
        disk.read(at, &mut read)?;
        assert!(rt; is(&read, &bytes), "at {at}");
    }
    let mut last = [0; 1];
    disk.read(IMAGE - 1, &mut last)?;
    assert!(rt; is(&last, &[15]));
    assert_eq!(rt; disk.faults(), 0);
    fs::remove_file(&rt, path)?;
    Ok(())
}

#[test]
fn a_second_disk_on_a_file_is_refused(rt: HostRuntime) -> Result<(), Fail> {
    let path = "locked.store";
    let _ = fs::remove_file(&rt, path);
    let disk = FileDisk::open(&rt, path)?;
    assert!(rt; FileDisk::open(&rt, path).is_err());
    drop(disk);
    assert!(rt; FileDisk::open(&rt, path).is_ok());
    fs::remove_file(&rt, path)?;
    Ok(())
}

#[test]
fn an_old_file_is_read_beside_the_disk_that_has_its_lock(rt: HostRuntime) -> Result<(), Fail> {
    let path = "old.store";
    let _ = fs::remove_file(&rt, path);
    let mut disk = FileDisk::open(&rt, path)?;
    disk.write(8190, &[7, 8, 9])?;
    let mut old = FileDisk::open_old(&rt, path)?;
    let mut bytes = [0; 3];
    old.read(8190, &mut bytes)?;
    assert!(rt; is(&bytes, &[7, 8, 9]));
    assert_eq!(rt; old.faults(), 0);
    assert!(rt; same(&old.write(8190, &[1]), &Err(Failed)));
    assert_eq!(rt; old.faults(), 1);
    disk.read(8190, &mut bytes)?;
    assert!(rt; is(&bytes, &[7, 8, 9]));
    fs::remove_file(&rt, path)?;
    assert!(rt; FileDisk::open_old(&rt, path).is_err());
    assert!(rt; fs::metadata(&rt, path).is_err());
    Ok(())
}

#[test]
fn another_length_is_refused_and_stays(rt: HostRuntime) -> Result<(), Fail> {
    let path = "other.store";
    for len in [0, 5, IMAGE - 1, IMAGE + 1] {
        fs::write(&rt, path, &[7u8; IMAGE + 1][..len])?;
        assert!(rt; FileDisk::open(&rt, path).is_err());
        assert!(rt; FileDisk::open_old(&rt, path).is_err());
        assert_eq!(rt; fs::metadata(&rt, path)?.len(), len as u64);
    }
    fs::remove_file(&rt, path)?;
    Ok(())
}

#[test]
fn a_folder_and_a_file_in_no_folder_are_refused(rt: HostRuntime) {
    for path in [".", "/", "", "no/such/folder", "/dev/full"] {
        assert!(rt; FileDisk::open(&rt, path).is_err());
        assert!(rt; FileDisk::open_old(&rt, path).is_err());
    }
    assert!(rt; fs::metadata(&rt, "no").is_err());
}

#[test]
fn a_missing_file_is_made_on_purpose_alone(rt: HostRuntime) -> Result<(), Fail> {
    let path = "purpose.store";
    let _ = fs::remove_file(&rt, path);
    assert!(rt; FileDisk::open_made(&rt, path).is_err());
    assert!(rt; fs::metadata(&rt, path).is_err());
    drop(FileDisk::make(&rt, path)?);
    assert!(rt; is(&fs::read(&rt, path)?, &[0; IMAGE]));
    let mut disk = FileDisk::open_made(&rt, path)?;
    disk.write(0, &[1])?;
    drop(disk);
    assert!(rt; FileDisk::make(&rt, path).is_err());
    assert!(rt; same(&fs::read(&rt, path)?.first(), &Some(&1)));
    fs::remove_file(&rt, path)?;
    Ok(())
}

#[test]
fn a_file_without_a_name_is_not_synced_and_lost(rt: HostRuntime) -> Result<(), Fail> {
    let path = "nameless.store";
    let _ = fs::remove_file(&rt, path);
    let mut disk = FileDisk::open(&rt, path)?;
    let other = File::open(&rt, path)?;
    fs::hard_link(&rt, path, "second.store")?;
    fs::remove_file(&rt, path)?;
    assert!(rt; disk.sync().is_ok());
    fs::remove_file(&rt, "second.store")?;
    assert!(rt; disk.write(0, &[1]).is_ok());
    assert!(rt; same(&disk.sync(), &Err(Failed)));
    assert!(rt; same(&disk.write(0, &[2]), &Err(Failed)));
    let mut byte = [0; 1];
    assert!(rt; same(&disk.read(0, &mut byte), &Err(Failed)));
    other.read_exact_at(&mut byte, 0)?;
    assert!(rt; is(&byte, &[1]));
    assert_eq!(rt; disk.faults(), 3);
    Ok(())
}

#[test]
fn a_call_that_fails_is_counted_once_and_the_next_one_works(rt: HostRuntime) -> Result<(), Fail> {
    let path = "short.store";
    let _ = fs::remove_file(&rt, path);
    let mut disk = FileDisk::open(&rt, path)?;
    disk.write(0, &[1, 2, 3])?;
    OpenOptions::new().write(true).open(&rt, path)?.set_len(3)?;
    let mut bytes = [0; 3];
    assert!(rt; same(&disk.read(1, &mut bytes), &Err(Failed)));
    assert_eq!(rt; disk.faults(), 1);
    assert!(rt; disk.read(0, &mut bytes).is_ok());
    assert!(rt; is(&bytes, &[1, 2, 3]));
    assert!(rt; disk.write(3, &[4]).is_ok());
    assert!(rt; disk.read(1, &mut bytes).is_ok());
    assert!(rt; is(&bytes, &[2, 3, 4]));
    assert!(rt; disk.sync().is_ok());
    assert_eq!(rt; disk.faults(), 1);
    fs::remove_file(&rt, path)?;
    Ok(())
}
