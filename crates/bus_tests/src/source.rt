//! A source over a std reader.

use crate::same::{is, same};
use outside::{Failed, Source, StdSource};
use std::cell::Cell;
use std::io::{self, Read};
use std::test::Fail;

/// A reader that gives these pieces, one a call, fails where there is none, and counts the calls.
#[derive(Drop)]
struct Pieces<'a> {
    pieces: &'a [Option<&'a [u8]>],
    calls: &'a Cell<usize>,
}

impl Read for Pieces<'_> {
    fn read(&mut self, buf: &mut [u8]) -> io::Result<usize> {
        self.calls.set(self.calls.get().saturating_add(1));
        match self.pieces {
            [Some(piece), rest @ ..] => {
                self.pieces = rest;
                let count = piece.len().min(buf.len());
                buf[..count].copy_from_slice(&piece[..count]);
                Ok(count)
            }
            [None, rest @ ..] => {
                self.pieces = rest;
                Err(io::Error::from(io::ErrorKind::Other))
            }
            [] => Ok(0),
        }
    }
}

#[test]
fn a_std_reader_is_a_source(rt: HostRuntime) -> Result<(), Fail> {
    let mut source = StdSource::new(b"xyz".as_slice());
    let mut buf = [0; 2];
    assert!(rt; same(&source.read(&mut buf), &Ok(2)));
    assert!(rt; is(&buf, b"xy"));
    assert!(rt; same(&source.read(&mut []), &Ok(0)));
    assert!(rt; same(&source.read(&mut buf), &Ok(1)));
    assert!(rt; is(&buf, b"zy"));
    assert!(rt; same(&source.read(&mut buf), &Ok(0)));
    Ok(())
}

#[test]
fn a_std_reader_that_fails_is_read_on_and_one_that_ends_is_not(
    rt: HostRuntime,
) -> Result<(), Fail> {
    let pieces = [
        Some(b"ab".as_slice()),
        None,
        Some(b"c".as_slice()),
        Some(b"".as_slice()),
        Some(b"d".as_slice()),
    ];
    let calls = Cell::new(0);
    let mut source = StdSource::new(Pieces {
        pieces: &pieces,
        calls: &calls,
    });
    let mut buf = [0; 3];
    assert!(rt; same(&source.read(&mut buf), &Ok(2)));
    assert!(rt; same(&source.read(&mut buf), &Err(Failed)));
    assert!(rt; same(&source.read(&mut buf), &Ok(1)));
    assert!(rt; same(&buf, &[b'c', b'b', 0]));
    assert!(rt; same(&source.read(&mut buf), &Ok(0)));
    assert!(rt; same(&source.read(&mut buf), &Ok(0)));
    assert_eq!(rt; calls.get(), 4);
    Ok(())
}
