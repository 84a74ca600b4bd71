//! A worked store, and stops amid a sync.

use crate::MirroredDisk;
use crate::record::HEAD;
use block_device::{BLOCKS, BlockDevice, MemoryDevice, USED};
use disk_model::{Disk, IMAGE};
use outside::Failed;
use std::test::Fail;

/// Version 3 of member 1, in a cluster of the members 1, 2 and 3.
const HEAD_OF_1: [u8; HEAD] = *b"caldrouz\x03\x01\x01\x02\x03\0\0\0";

/// The digest of a record with the number 1 and the image of a new store. `tests/records.py` makes it.
const DIGEST_OF_1: [u8; 32] = [
    0xd3, 0x9d, 0x7a, 0xe8, 0x6e, 0xf9, 0xb2, 0x71, 0xaf, 0xd3, 0x6a, 0x98, 0x91, 0x3c, 0xc4, 0x6b,
    0x41, 0x7b, 0x63, 0x6c, 0x3b, 0x93, 0xa3, 0x8a, 0xec, 0x13, 0x0b, 0x22, 0x4b, 0xd0, 0x60, 0xbe,
];

/// That of the record with the number 2.
const DIGEST_OF_2: [u8; 32] = [
    0x47, 0xa3, 0x1f, 0xca, 0x5d, 0x62, 0x5e, 0x75, 0x7c, 0xb9, 0xba, 0x7c, 0xed, 0x95, 0x08, 0x40,
    0x90, 0x7f, 0x69, 0x9b, 0xee, 0x34, 0xec, 0x20, 0x3a, 0x8c, 0xd1, 0x1f, 0xd4, 0x5d, 0x39, 0x01,
];

/// The image of a new store.
fn new_image() -> [u8; IMAGE] {
    let mut image = [0; IMAGE];
    image[0] = 1;
    image[34] = 1;
    image[35] = 2;
    image
}

/// The record of a new store, by hand.
fn record_by_hand(number: u8, digest: &[u8; 32]) -> [u8; USED] {
    let mut bytes = [0; USED];
    bytes[..16].copy_from_slice(&HEAD_OF_1);
    bytes[16] = number;
    bytes[24..24 + IMAGE].copy_from_slice(&new_image());
    bytes[24 + IMAGE..].copy_from_slice(digest);
    bytes
}

/// The device of a new store: its first pair of blocks has its record.
fn new_device() -> MemoryDevice {
    let record = record_by_hand(1, &DIGEST_OF_1);
    MemoryDevice::new(&[record, record, [0; USED], [0xff; USED]])
}

#[test]
fn a_sync_writes_the_record_by_hand(rt: HostRuntime) -> Result<(), Fail> {
    let Ok(mut disk) = MirroredDisk::open(new_device(), HEAD_OF_1) else {
        return Err(Fail::from(Failed));
    };
    let mut image = [9; IMAGE];
    disk.read(0, &mut image)?;
    assert!(rt; image == new_image());
    disk.sync()?;
    let mut device = disk.into_device();
    let mut bytes = [0; USED];
    for block in 2..BLOCKS {
        device.read(block, &mut bytes)?;
        assert!(rt; bytes == record_by_hand(2, &DIGEST_OF_2));
    }
    Ok(())
}
