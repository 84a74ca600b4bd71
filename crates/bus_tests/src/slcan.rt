//! Lines of serial adapters.

use crate::frame::{first_request, frame_of};
use crate::same::{is, same};
use can_logs::{SlLine, read_slcan, write_slcan};
use std::test::Fail;

#[test]
fn lines_with_a_frame(rt: HostRuntime) -> Result<(), Fail> {
    let lines: [(&[u8], Option<u16>); 3] = [
        (b"T1E0005008FB000102030405C0", None),
        (b"T1e0005008fb000102030405c0FfaB", Some(0xffab)),
        (b"T1e0005008fb000102030405c00000", Some(0)),
    ];
    for (line, stamp) in lines {
        let frame = first_request()?;
        assert!(rt; same(&read_slcan(line), &Some(SlLine::Data { frame, stamp })));
    }
    Ok(())
}

#[test]
fn lines_without_a_frame(rt: HostRuntime) {
    let others: [&[u8]; 11] = [
        b"",
        b"t1230",
        b"t",
        b"r1231",
        b"R1E0005000",
        b"z",
        b"Z and more",
        b"V1013",
        b"F00",
        b"T1E0005000",
        b"T1FFFFFFF0abcd",
    ];
    for line in others {
        assert!(rt; same(&read_slcan(line), &Some(SlLine::Skipped)));
    }
    let nothing: [&[u8]; 13] = [
        b"T",
        b"T1E000500",
        b"T200000000",
        b"T1E0005009",
        b"T1E0005008FB000102030405",
        b"T1E0005008FB000102030405C",
        b"T1E0005001C00",
        b"T1E0005001C0123",
        b"T1E0005001C012345",
        b"T1E0005001C0123g",
        b"T1E00050 1C0",
        b"\x07T1E0005001C0",
        b"x",
    ];
    for line in nothing {
        assert!(rt; read_slcan(line).is_none());
    }
}

#[test]
fn a_line_is_written(rt: HostRuntime) -> Result<(), Fail> {
    let frame = frame_of(0x1e00_0500, &[0xfb, 0x0a])?;
    let line = SlLine::Data {
        frame,
        stamp: Some(0x0fab),
    };
    let written = write_slcan(&line);
    assert!(rt; is(&written, b"T1E0005002FB0A0FAB"));
    assert!(rt; same(&read_slcan(&written), &Some(line)));
    Ok(())
}
