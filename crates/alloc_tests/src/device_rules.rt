//! The rules of a device, one after the other.

use crate::device_table::{Case, accept, play};
use crate::same::same;
use allocatee::{Allocatee, allocatee_rows};
use can_frame::Uid;

/// The unique ID of the device: 0 to 15.
const UID: Uid = [0, 1, 2, 3, 4, 5, 6, 7, 8, 9, 10, 11, 12, 13, 14, 15];

/// It is opened at 2000 with word 7, and prefers node ID 125. Allocator 1 answers.
const RULES: [Case; 33] = [
    // Its request timer runs 600 + 7 ms, the next one 600 + 49157 mod 401; the discriminator is 49157 mod 16384.
    (2606, 0, "tick", "1 a1 wait 0 tick\n"),
    (2607, 49157, "tick", "2 a1 wait 1 tick +alloc:0\n"),
    (2607, 0, "send", "3 a1 send 1 1e001500 fb000102030405c0\n"),
    (3441, 0, "tick", "4 a1 wait 0 tick\n"),
    // The answer has 6 bytes: after 100 ms the next 6 go, and the transfer ID is the next.
    (
        3441,
        100,
        "ext 1e000101 00000102030405c0",
        "5 a1 wait 0 took\n",
    ),
    (3540, 0, "tick", "6 a1 wait 0 tick\n"),
    (3541, 0, "tick", "7 a1 wait 1 tick +alloc:0\n"),
    (3541, 0, "send", "8 a1 send 1 1e000100 fa060708090a0bc1\n"),
    // An Allocation of another device, which is anonymous, ends a follow-up and restarts the timer; a frame is no
    // transfer alone where its end bit is not set.
    (
        3600,
        50,
        "ext 1e000101 00000102030405c1",
        "9 a1 wait 0 took\n",
    ),
    (
        3600,
        0,
        "ext 1e000500 fbffffffffffffc0",
        "10 a1 wait 0 took\n",
    ),
    (3650, 0, "tick", "11 a1 wait 0 tick\n"),
    (
        3650,
        0,
        "ext 1e000500 fbffffffffffff80",
        "12 a1 wait 0 drop:2\n",
    ),
    // So does an answer to another device.
    (
        3660,
        50,
        "ext 1e000101 00000102030405c2",
        "13 a1 wait 0 took\n",
    ),
    (
        3660,
        0,
        "ext 1e000101 000001020304ffc3",
        "14 a1 wait 0 took\n",
    ),
    (3710, 0, "tick", "15 a1 wait 0 tick\n"),
    // An answer without bytes is none to it, and one without a payload does nothing.
    (3720, 0, "ext 1e000101 00c4", "16 a1 wait 0 took\n"),
    (3730, 50, "ext 1e000101 c5", "17 a1 wait 0 bad\n"),
    (4319, 0, "tick", "18 a1 wait 0 tick\n"),
    (4320, 0, "tick", "19 a1 wait 1 tick +alloc:0\n"),
    (4320, 0, "send", "20 a1 send 1 1e000100 fb000102030405c2\n"),
    // A moment that falls counts as the greatest before it. The follow-up has as many bytes as are left.
    (9, 0, "ext 1e000101 7a79000001020386", "21 a1 wait 0 part\n"),
    (9, 0, "ext 1e000101 0405060708090a26", "22 a1 wait 0 part\n"),
    (9, 0, "ext 1e000101 0b0c0d0e46", "23 a1 wait 0 took\n"),
    (9, 0, "tick", "24 a1 wait 1 tick +alloc:0\n"),
    (9, 0, "send", "25 a1 send 1 1e000100 fa0fc3\n"),
    // An answer to the whole unique ID with node ID 126 gives nothing.
    (
        4400,
        0,
        "ext 1e000101 c60afc0001020387",
        "26 a1 wait 0 part\n",
    ),
    (
        4400,
        0,
        "ext 1e000101 0405060708090a27",
        "27 a1 wait 0 part\n",
    ),
    (4400, 0, "ext 1e000101 0b0c0d0e0f47", "28 a1 wait 0 took\n"),
    // One with node ID 125 gives that, and the device asks no more.
    (
        4500,
        0,
        "ext 1e000101 8a68fa0001020388",
        "29 a1 wait 0 part\n",
    ),
    (
        4500,
        0,
        "ext 1e000101 0405060708090a28",
        "30 a1 wait 0 part\n",
    ),
    (
        4500,
        0,
        "ext 1e000101 0b0c0d0e0f48",
        "31 a1 hold:125 0 took\n",
    ),
    (9999, 0, "tick", "32 a1 hold:125 0 tick\n"),
    (9999, 0, "ext 1e000101 c9", "33 a1 hold:125 0 bad\n"),
];

#[test]
fn a_device_asks_by_its_rules(rt: HostRuntime) {
    let mut device = Allocatee::new(UID, 125, allocatee_rows(), accept, 2000, 7);
    play(&rt, &mut device, &RULES);
}

/// Nothing goes to the bus: the ninth request does not fit, and the timer goes on as if it had been sent. The transfer
/// ID does not.
const FULL_QUEUE: [Case; 13] = [
    (600, 0, "tick", "1 a1 wait 1 tick +alloc:0\n"),
    (1200, 1, "tick", "2 a1 wait 2 tick +alloc:0\n"),
    (1801, 0, "tick", "3 a1 wait 3 tick +alloc:0\n"),
    (2401, 0, "tick", "4 a1 wait 4 tick +alloc:0\n"),
    (3001, 0, "tick", "5 a1 wait 5 tick +alloc:0\n"),
    (3601, 0, "tick", "6 a1 wait 6 tick +alloc:0\n"),
    (4201, 0, "tick", "7 a1 wait 7 tick +alloc:0\n"),
    (4801, 0, "tick", "8 a1 wait 8 tick +alloc:0\n"),
    (5401, 0, "tick", "9 a1 wait 8 tick -alloc:0\n"),
    (6000, 0, "tick", "10 a1 wait 8 tick\n"),
    (6000, 0, "send", "11 a1 send 1 1e000100 01000102030405c0\n"),
    (6001, 0, "tick", "12 a1 wait 8 tick +alloc:0\n"),
    (6001, 0, "send", "13 a1 send 1 1e000100 01000102030405c2\n"),
];

#[test]
fn a_request_that_does_not_fit_counts_as_made(rt: HostRuntime) {
    let mut device = Allocatee::new(UID, 0, allocatee_rows(), accept, 0, 0);
    play(&rt, &mut device, &FULL_QUEUE);
    for id in 3..9 {
        let next = device.pop().expect(&rt, "an empty queue");
        assert!(rt;
            same(
                &next.frame.bytes.as_slice().last().copied(),
                &Some(0xc0 | id)
            )
        );
    }
    let next = device.pop().expect(&rt, "an empty queue");
    assert_eq!(rt; next.frame.id, 0x1e00_0500);
    assert!(rt; device.pop().is_none());
}
