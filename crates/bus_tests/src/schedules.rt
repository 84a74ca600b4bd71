use crate::frame::first_request;
use crate::same::same;
use bus_rows::Row;
use outside::Pattern;
use replay_text::{read_bytes, read_row};
use std::test::Fail;

#[test]
fn lines_that_are_no_rows(rt: HostRuntime) {
    let lines: [&[u8]; 32] = [
        b"",
        b"open 1 0",
        b"open  1 0 0",
        b"open 1 0 0 ",
        b"open 1 0 4294967296",
        b"Open 1 0 0",
        b"tick 1 01 0",
        b"tick 1 +1 0",
        b"tick 256 0 0",
        b"tick 1 1000000000000001 0",
        b"rx 1 4294967296 0",
        b"send 1 1",
        b"ext 20000000 00c0",
        b"ext 1e000500 c",
        b"ext 1e000500 000000000000000000",
        b"ext 1e00500 00c0",
        b"crash 1 1000001 old",
        b"crash 1 1 5",
        b"crash 1 1 OLD",
        b"fault 1 0",
        b"fault 1 1000001",
        b"aopen 1 000102030405060708090a0b0c0d0e 125 2000 0",
        b"aopen 1 000102030405060708090a0b0c0d0e0f10 125 2000 0",
        b"aopen 1 000102030405060708090a0b0c0d0e0f 128 2000 0",
        b"aopen 256 000102030405060708090a0b0c0d0e0f 125 2000 0",
        b"aopen 1 000102030405060708090a0b0c0d0e0f 125 2000",
        b"atick 1 2600",
        b"arx 1 2 2700",
        b"arx 1 4294967296 2700 0",
        b"asend a1",
        b"aend 1 0",
        b"xxxxxxxxxxxxxxxxxxxxxxxxxxxxxxxxxxxxxxxxxxxxxxxxxxxxxxxxxxxxxxxxxxxxxxxxxxxxxxxxxxxxxxxxxxxxxxxxxxxxxxxxxxxxxxxxxxxxxxxx",
    ];
    for line in lines {
        assert!(rt; read_row(line).is_none());
    }
}

#[test]
fn a_row_of_each_kind(rt: HostRuntime) -> Result<(), Fail> {
    let frame = first_request()?;
    let pattern = read_bytes::<16>(b"5A").ok_or("no bytes")?;
    let rows = [
        (
            b"open 255 1000000000000000 4294967295".as_slice(),
            Row::Open {
                n: 255,
                told: false,
                ms: 1_000_000_000_000_000,
                word: 4_294_967_295,
            },
        ),
        (
            b"copen 0 0 1",
            Row::Open {
                n: 0,
                told: true,
                ms: 0,
                word: 1,
            },
        ),
        (
            b"tick 1 2000 0",
            Row::Tick {
                n: 1,
                ms: 2000,
                word: 0,
            },
        ),
        (
            b"rx 2 4294967295 1001",
            Row::Rx {
                n: 2,
                k: 4_294_967_295,
                ms: 1001,
            },
        ),
        (b"send 0", Row::Send { n: 0 }),
        (b"ext 1E000500 fb000102030405c0", Row::Ext { frame }),
        (
            b"crash 2 1000000 old",
            Row::Crash {
                n: 2,
                calls: 1_000_000,
                pattern: Pattern::Old,
            },
        ),
        (
            b"crash 2 0 new",
            Row::Crash {
                n: 2,
                calls: 0,
                pattern: Pattern::New,
            },
        ),
        (
            b"crash 2 5 5a",
            Row::Crash {
                n: 2,
                calls: 5,
                pattern: Pattern::Bytes(pattern),
            },
        ),
        (b"fault 1 1", Row::Fault { n: 1, call: 1 }),
        (
            b"aopen 1 000102030405060708090a0b0c0d0e0F 127 2000 4294967295",
            Row::AOpen {
                a: 1,
                uid: [0, 1, 2, 3, 4, 5, 6, 7, 8, 9, 10, 11, 12, 13, 14, 15],
                pref: 127,
                ms: 2000,
                word: 4_294_967_295,
            },
        ),
        (
            b"atick 255 2600 1",
            Row::ATick {
                a: 255,
                ms: 2600,
                word: 1,
            },
        ),
        (
            b"arx 8 4294967295 2700 0",
            Row::ARx {
                a: 8,
                k: 4_294_967_295,
                ms: 2700,
                word: 0,
            },
        ),
        (b"asend 1", Row::ASend { a: 1 }),
        (b"aend 0", Row::AEnd { a: 0 }),
    ];
    for (line, row) in rows {
        assert!(rt; same(&read_row(line), &Some(row)));
    }
    Ok(())
}
