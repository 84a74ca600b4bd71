//! Frames, identifiers and the transfer CRC, by published values.

use crate::same::same;
use can_frame::{BadFrame, Frame, Ident, Kind, crc, crc_more};
use std::test::Fail;

#[test]
fn frames_that_are_none(rt: HostRuntime) {
    assert!(rt; same(&Frame::from_parts(536870912, &[0]), &Err(BadFrame::Wide)));
    assert!(rt; same(&Frame::from_parts(0, &[]), &Err(BadFrame::Empty)));
    assert!(rt; same(&Frame::from_parts(0, &[0; 9]), &Err(BadFrame::Long)));
}

#[test]
fn frames_that_are_none_are_told_why(rt: HostRuntime) -> Result<(), Fail> {
    let rows = [
        (BadFrame::Wide, "the identifier is wider than 29 bits"),
        (BadFrame::Empty, "a frame has one byte at least"),
        (BadFrame::Long, "a frame has eight bytes at most"),
    ];
    for (error, text) in rows {
        let told = error.to_string(rt.alloc())?;
        assert!(rt; same(&told.as_str(), &text));
    }
    Ok(())
}

#[test]
fn identifiers_are_read_and_written_again(rt: HostRuntime) -> Result<(), Fail> {
    let rows = [
        (0x1e00_0101, Kind::Message, 1, 1, 0, 0),
        (0x1e01_5501, Kind::Message, 341, 1, 0, 0),
        (0x1e01_8603, Kind::Message, 390, 3, 0, 0),
        (0x1e1f_8281, Kind::Request, 31, 1, 2, 0),
        (0x1e1e_0182, Kind::Response, 30, 2, 1, 0),
        (0x1e01_b281, Kind::Request, 1, 1, 50, 0),
        (0x1e00_0500, Kind::Anonymous, 1, 0, 0, 1),
    ];
    for (id, kind, number, source, dest, discriminator) in rows {
        let ident = Ident {
            priority: 30,
            kind,
            number,
            source,
            dest,
            discriminator,
        };
        let found = Ident::read(id).ok_or("no reading")?;
        assert!(rt; same(&found, &ident));
        assert!(rt; same(&found.write(), &id));
    }
    Ok(())
}

const ALLOCATION: u64 = 0x0b2a_8126_20a1_1d40;

#[test]
fn published_values(rt: HostRuntime) {
    assert_eq!(rt; crc_more(0xffff, b"123456789"), 0x29b1);
    let front = crc_more(0xffff, b"1234");
    assert_eq!(rt; crc_more(front, b"56789"), 0x29b1);
    assert_eq!(rt; crc(ALLOCATION, &[]), 0xf258);
    let payload = [0, 0, 1, 2, 3, 4, 5, 6, 7, 8, 9, 10, 11];
    assert_eq!(rt; crc(ALLOCATION, &payload), 0x5d58);
}
