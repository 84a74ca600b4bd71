//! A sink over a std writer.

use crate::same::{is, same};
use arrayvec::ArrayVec;
use outside::{Failed, Sink, StdSink};
use std::io::{self, Write};

/// A writer that takes at most so many bytes, call by call, and fails where there is no number.
#[derive(Drop)]
struct Takes<'a> {
    turns: &'a [Option<usize>],
    bytes: &'a mut ArrayVec<u8, 8>,
}

impl Write for Takes<'_> {
    fn write(&mut self, piece: &[u8]) -> io::Result<usize> {
        let [Some(most), rest @ ..] = self.turns else {
            self.turns = self.turns.get(1..).unwrap_or_default();
            return Err(io::Error::from(io::ErrorKind::Other));
        };
        self.turns = rest;
        let count = piece.len().min(*most);
        match self.bytes.try_extend_from_slice(&piece[..count]) {
            Ok(()) => Ok(count),
            Err(_) => Err(io::Error::from(io::ErrorKind::Other)),
        }
    }

    fn flush(&mut self) -> io::Result<()> {
        Ok(())
    }
}

#[test]
fn a_std_writer_is_a_sink(rt: HostRuntime) {
    let turns = [Some(8), Some(8), Some(8)];
    let mut bytes = ArrayVec::new();
    let mut sink = StdSink::new(Takes {
        turns: &turns,
        bytes: &mut bytes,
    });
    assert!(rt; same(&sink.write(b"xyz"), &Ok(3)));
    assert!(rt; same(&sink.write(b""), &Ok(0)));
    assert!(rt; same(&sink.write(b"z"), &Ok(1)));
    assert!(rt; is(&bytes, b"xyzz"));
}

#[test]
fn a_std_writer_takes_a_part_fails_and_takes_nothing(rt: HostRuntime) {
    let turns = [Some(2), None, Some(0), Some(3)];
    let mut bytes = ArrayVec::new();
    let mut sink = StdSink::new(Takes {
        turns: &turns,
        bytes: &mut bytes,
    });
    assert!(rt; same(&sink.write(b"abc"), &Ok(2)));
    assert!(rt; same(&sink.write(b"cd"), &Err(Failed)));
    assert!(rt; same(&sink.write(b"cd"), &Ok(0)));
    assert!(rt; same(&sink.write(b"cd"), &Ok(2)));
    assert!(rt; is(&bytes, b"abcd"));
}
