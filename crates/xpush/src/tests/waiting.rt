//! What is answered is written before more is read.

use super::strings;
use crate::plain::plain;
use px_feed::Status;
use px_io::{StdSink, StdSource};
use std::cell::Cell;
use std::io;
use std::io::{Read, Write};
use std::test::Fail;

/// Pieces of a feed, each with what is answered once it is read.
const PIECES: [(&[u8], &[u8]); 7] = [
    (b"+/a\n", b"+1\n"),
    (b"(a\n", b""),
    (b")a\n", b"1: 1\n"),
    (b"~1\n(a\n", b"~1 2\n"),
    (
        b")a\n~1\n+/a[\n",
        b"2:\n! drop unknown\n! filter not-a-filter 3\n",
    ),
    (b"?passed by", b""),
    (b"\n", b""),
];

/// A reader that gives one piece at each read, and notes a read that comes before all answers to
/// the pieces given are written.
#[derive(Drop)]
struct Listening<'a> {
    given: usize,
    due: usize,
    written: &'a Cell<usize>,
    is_early: &'a Cell<bool>,
}

impl Read for Listening<'_> {
    fn read(&mut self, buf: &mut [u8]) -> io::Result<usize> {
        if self.written.get() != self.due {
            self.is_early.set(true);
        }
        let Some((piece, answer)) = PIECES.get(self.given) else {
            return Ok(0);
        };
        let Some(room) = buf.get_mut(..piece.len()) else {
            return Ok(0);
        };
        room.copy_from_slice(piece);
        self.given = self.given.saturating_add(1);
        self.due = self.due.saturating_add(answer.len());
        Ok(piece.len())
    }
}

/// A writer that counts the bytes that it takes.
#[derive(Drop)]
struct Counting<'a> {
    written: &'a Cell<usize>,
}

impl Write for Counting<'_> {
    fn write(&mut self, buf: &[u8]) -> io::Result<usize> {
        self.written
            .set(self.written.get().saturating_add(buf.len()));
        Ok(buf.len())
    }

    fn flush(&mut self) -> io::Result<()> {
        Ok(())
    }
}

#[test]
fn answers_are_written_before_more_is_read(rt: HostRuntime) -> Result<(), Fail> {
    let words = strings(rt.alloc(), &["serial"])?;
    let written = Cell::new(0);
    let is_early = Cell::new(false);
    let listening = Listening {
        given: 0,
        due: 0,
        written: &written,
        is_early: &is_early,
    };
    let status = plain(
        rt.alloc(),
        words.as_slice(),
        &mut StdSource::new(listening),
        &mut StdSink::new(Counting { written: &written }),
    );
    assert_eq!(rt; status, Status::Refused);
    assert!(rt; !is_early.get());
    assert_eq!(rt; written.get(), 55);
    Ok(())
}
