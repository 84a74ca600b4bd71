//! The calls of a device that no table of events shows.

use crate::bus::frame_of;
use crate::device_table::accept;
use crate::same::same;
use allocatee::{AEvent, Allocatee, allocatee_accept, allocatee_rows};
use can_frame::{Judged, Kind, Mark};
use std::test::Fail;

/// The signature of `uavcan.protocol.dynamic_node_id.Allocation`.
const ALLOCATION: u64 = 0x0b2a_8126_20a1_1d40;

#[test]
fn a_device_receives_allocations_alone(rt: HostRuntime) {
    let rows = allocatee_rows();
    assert_eq!(rt; rows.len(), 2);
    for row in &rows {
        assert!(rt; same(&(row.number, row.signature), &(1, ALLOCATION)));
    }
    for (kind, number, signature) in [
        (Kind::Anonymous, 1, Some(ALLOCATION)),
        (Kind::Message, 1, Some(ALLOCATION)),
        (Kind::Request, 1, None),
        (Kind::Response, 1, None),
        (Kind::Message, 341, None),
        (Kind::Anonymous, 2, None),
    ] {
        assert!(rt; same(&allocatee_accept(kind, number), &signature));
    }
}

/// The mark of the frame at a place of a transfer that was made in a step.
fn made_in(step: u64, place: u8) -> Mark {
    Mark { step, re: 0, place }
}

#[test]
fn frames_of_two_answers_are_torn(rt: HostRuntime) -> Result<(), Fail> {
    let first = frame_of("ext 1e000101 585d000001020381").ok_or("no frame")?;
    let second = frame_of("ext 1e000101 0405060708090a21").ok_or("no frame")?;
    let last = frame_of("ext 1e000101 0b41").ok_or("no frame")?;
    let mut device = Allocatee::new([0; 16], 0, allocatee_rows(), accept, 0, 0);
    for (frame, place) in [(first, 0), (second, 1)] {
        let event = AEvent::Rx {
            frame,
            mark: made_in(7, place),
            now: 5,
            word: 0,
        };
        device.step(event, 1);
    }
    assert!(rt; same(&device.judge(&last, made_in(8, 2), 6), &Judged::Torn));
    assert!(rt; same(&device.judge(&last, made_in(7, 2), 6), &Judged::Fine));
    assert!(rt; same(&device.judge(&last, made_in(0, 2), 6), &Judged::Fine));
    assert!(rt; same(&device.judge(&last, made_in(8, 2), 2006), &Judged::Fine));
    Ok(())
}
