//! Lines of the logs of `candump`.

use crate::frame::first_request;
use crate::same::{is, same};
use arrayvec::ArrayVec;
use can_logs::laws::read_lines_are_writable;
use can_logs::{LogLine, read_candump, write_candump};
use std::test::Fail;

fn name(bytes: &[u8]) -> ArrayVec<u8, 15> {
    ArrayVec::try_from(bytes).ok().unwrap_or(ArrayVec::new())
}

#[test]
fn lines_with_a_frame(rt: HostRuntime) -> Result<(), Fail> {
    let lines: [&[u8]; 4] = [
        b"(1345212884.318850) can0 1E000500#FB000102030405C0",
        b"(1345212884.318850)    can0 1e000500#fb000102030405c0",
        b"(1345212884.318850) can0 1E000500#FB000102030405C0 T",
        b"(1345212884.318850)  can0 1E000500#FB000102030405C0 R",
    ];
    for line in lines {
        let frame = first_request()?;
        let read = LogLine::Data {
            sec: 1_345_212_884,
            micros: 318_850,
            iface: name(b"can0"),
            frame,
        };
        assert!(rt; same(&read_candump(line), &Some(read)));
    }
    Ok(())
}

#[test]
fn lines_without_a_frame(rt: HostRuntime) {
    let others: [&[u8]; 12] = [
        b"(1345212884.400000) can0 123#00",
        b"(0.000000) vcan0 7FF#",
        b"(0.000000) vcan0 7FF# T",
        b"(0.000000) vcan0 20000004#0004000000000000",
        b"(0.000000) vcan0 FFFFFFFF#",
        b"(0.000000) vcan0 1E000500#",
        b"(0.000000) vcan0 1E000500#R8 R",
        b"(0.000000) vcan0 123#R what follows",
        b"(0.000000) vcan0 123##1112233",
        b"(0.000000) vcan0 12345678##",
        b"(0.000000) vcan0 12345678##311 22 T R",
        b"(0.000000) # aBc#00112233445566FF T",
    ];
    for line in others {
        assert!(rt; same(&read_candump(line), &Some(LogLine::Skipped)));
    }
    let nothing: [&[u8]; 24] = [
        b"",
        b"(.000000) can0 123#00",
        b"(12345678901.000000) can0 123#00",
        b"(0.00000) can0 123#00",
        b"(0.0000000) can0 123#00",
        b"(+1.000000) can0 123#00",
        b"(1.+00000) can0 123#00",
        b"(0.000000)can0 123#00",
        b"(0.000000)  123#00",
        b"(0.000000) can0  123#00",
        b"(0.000000) 1234567890123456 123#00",
        b"(0.000000) can\xc3\xa4 123#00",
        b"(0.000000) can0 123#0",
        b"(0.000000) can0 123#001122334455667788",
        b"(0.000000) can0 123#00 ",
        b"(0.000000) can0 123#00 X",
        b"(0.000000) can0 123#00 T R",
        b"(0.000000) can0 123#r",
        b"(0.000000) can0 1234#00",
        b"(0.000000) can0 1G3#00",
        b"(0.000000) can0 1E000500",
        b"(0.000000) can0 1E000500#0x",
        b" (0.000000) can0 123#00",
        b"(0.000000)\tcan0 123#00",
    ];
    for line in nothing {
        assert!(rt; read_candump(line).is_none());
    }
}

#[test]
fn a_line_is_written(rt: HostRuntime) -> Result<(), Fail> {
    let padded = b"(4884.031885)   can0 1e000500#fb0a T";
    let written = b"(0000004884.031885) can0 1E000500#FB0A";
    assert!(rt; is(&again(padded).ok_or("no line")?, written));
    assert!(rt; again(b"(0.000000) can0 123#00").is_none());
    Ok(())
}

/// The line of the frame of a line.
fn again(line: &[u8]) -> Option<ArrayVec<u8, 80>> {
    read_lines_are_writable();
    let read = read_candump(line)?;
    match read {
        LogLine::Data { .. } => Some(write_candump(&read)),
        LogLine::Skipped => None,
    }
}
