//! The readers and writers of the system as source and sink.

ghost use Rattle.std.specs.Prelude.{◌≡◌, ◌≢◌, ◌<◌, ◌≤◌, length, IfOk, IfSome, None};
ghost use Rattle.px_io.specs.Faults.{Rose};
ghost use Rattle.px_io.specs.Flows.{GivesNext, TakesFront};

use crate::sink::{Sink, WriteAnswer};
use crate::source::{ReadAnswer, Source};
use std::io::{Read, Write};
use std::marker::Model;

/// A reader as a source. It tells nothing of its bytes, and counts each error of the reader.
/// Contracts see the count.
#[derive(Drop)]
pub struct StdSource<R> {
    reader: R,
    faults: u64,
}

impl<R> Model for StdSource<R> {
    ghost use Rattle.std.specs.Prelude.{ℕ};

    ghost Value = { ℕ };

    ghost view = { λ source. source.faults };
}

impl<R: Read> StdSource<R> {
    pub fn new(reader: R) -> StdSource<R>
        ensures no_fault { result ≡ 0 }
    {
        StdSource { reader, faults: 0 }
    }
}

impl<R: Read> Source for StdSource<R> {
    ghost left = { λ _. None };

    ghost faults = { λ count. count };

    /// Gives what the reader gives: `Failed` at each of its errors, which alone are counted.
    fn read(&mut self, into: &mut [u8]) -> ReadAnswer
        requires { 0 < length into.old }
        ensures next { GivesNext result into.new None None }
        ensures never_falls { self.old ≤ self.new }
        ensures failed { result ≡ ReadAnswer.Failed → Rose self.old self.new }
        ensures stays { result ≢ ReadAnswer.Failed → self.new ≡ self.old }
    {
        match self.reader.read(into) {
            Ok(0) => ReadAnswer::End,
            Ok(count) => ReadAnswer::Got(count),
            Err(_) => {
                self.faults = self.faults.saturating_add(1);
                ReadAnswer::Failed
            }
        }
    }
}

/// A writer as a sink. It tells nothing of its bytes, and counts each error of the writer and each
/// write that takes nothing of a piece. It flushes after each write. Contracts see the count.
#[derive(Drop)]
pub struct StdSink<W> {
    writer: W,
    faults: u64,
}

impl<W> Model for StdSink<W> {
    ghost use Rattle.std.specs.Prelude.{ℕ};

    ghost Value = { ℕ };

    ghost view = { λ sink. sink.faults };
}

impl<W: Write> StdSink<W> {
    pub fn new(writer: W) -> StdSink<W>
        ensures no_fault { result ≡ 0 }
    {
        StdSink { writer, faults: 0 }
    }

    // Writes to the writer and flushes it: how many bytes it took, if that went well.
    fn write_through(&mut self, piece: &[u8]) -> Option<usize>
        ensures takes { IfSome result (λ count. (count ≤ length piece.now) × (0 < length piece.now →
            0 < count)) }
        ensures same_count { self.new ≡ self.old }
    {
        let Ok(count) = self.writer.write(piece) else {
            return None;
        };
        if count == 0 && !piece.is_empty() {
            return None;
        }
        match self.writer.flush() {
            Ok(()) => Some(count),
            Err(_) => None,
        }
    }
}

impl<W: Write> Sink for StdSink<W> {
    ghost held = { λ _. None };

    ghost faults = { λ count. count };

    /// Hands the piece to the writer: `Failed` where that or the flush behind it goes wrong, which
    /// alone is counted, and never `Memory`.
    fn write(&mut self, piece: &[u8]) -> WriteAnswer
        ensures takes { TakesFront result piece.now None None }
        ensures never_falls { self.old ≤ self.new }
        ensures failed { result ≡ WriteAnswer.Failed → Rose self.old self.new }
        ensures stays { result ≢ WriteAnswer.Failed → self.new ≡ self.old }
        ensures not_memory { result ≢ WriteAnswer.Memory }
    {
        match self.write_through(piece) {
            Some(count) => WriteAnswer::Took(count),
            None => {
                self.faults = self.faults.saturating_add(1);
                WriteAnswer::Failed
            }
        }
    }
}

#[cfg(test)]
mod tests {
    use super::{StdSink, StdSource};
    use crate::sink::{Sink, WriteAnswer};
    use crate::source::{ReadAnswer, Source};
    use std::io;
    use std::io::{ErrorKind, Read, Write};
    use std::test::Fail;

    /// A reader and writer that moves two bytes, and then meets an error.
    #[derive(Drop)]
    struct Failing {
        has_moved: bool,
    }

    impl Failing {
        fn take_turn(&mut self) -> io::Result<usize>
            ensures two { IfOk result (λ count. count ≡ 2) }
        {
            if self.has_moved {
                return Err(io::Error::from(ErrorKind::BrokenPipe));
            }
            self.has_moved = true;
            Ok(2)
        }
    }

    impl Read for Failing {
        fn read(&mut self, buf: &mut [u8]) -> io::Result<usize> {
            if buf.len() < 2 {
                return Ok(0);
            }
            self.take_turn()
        }
    }

    impl Write for Failing {
        fn write(&mut self, buf: &[u8]) -> io::Result<usize> {
            if buf.len() < 2 {
                return Ok(0);
            }
            self.take_turn()
        }

        fn flush(&mut self) -> io::Result<()> {
            Ok(())
        }
    }

    /// A writer that takes all it is handed and cannot be flushed.
    #[derive(Drop)]
    struct Unflushed;

    impl Write for Unflushed {
        fn write(&mut self, buf: &[u8]) -> io::Result<usize> {
            Ok(buf.len())
        }

        fn flush(&mut self) -> io::Result<()> {
            Err(io::Error::from(ErrorKind::BrokenPipe))
        }
    }

    #[test]
    fn a_source_gives_what_its_reader_gives_and_counts_errors(rt: HostRuntime) -> Result<(), Fail> {
        let mut text = StdSource::new("abc".as_bytes());
        let mut buffer = [0; 2];
        assert_eq!(rt; text.read(&mut buffer), ReadAnswer::Got(2));
        assert_eq!(rt; buffer, *b"ab");
        assert_eq!(rt; text.read(&mut buffer), ReadAnswer::Got(1));
        assert_eq!(rt; text.read(&mut buffer), ReadAnswer::End);
        assert_eq!(rt; text.faults, 0);
        let mut failing = StdSource::new(Failing { has_moved: false });
        assert_eq!(rt; failing.read(&mut buffer), ReadAnswer::Got(2));
        assert_eq!(rt; failing.read(&mut buffer), ReadAnswer::Failed);
        assert_eq!(rt; failing.faults, 1);
        Ok(())
    }

    #[test]
    fn a_sink_hands_its_writer_what_it_is_handed_and_counts_errors(
        rt: HostRuntime,
    ) -> Result<(), Fail> {
        let mut text = StdSink::new(Vec::new(rt.alloc()));
        assert_eq!(rt; text.write(b"abc"), WriteAnswer::Took(3));
        assert_eq!(rt; text.writer.as_slice(), b"abc".as_slice());
        let mut failing = StdSink::new(Failing { has_moved: false });
        assert_eq!(rt; failing.write(b"abc"), WriteAnswer::Took(2));
        assert_eq!(rt; failing.write(b"c"), WriteAnswer::Failed);
        assert_eq!(rt; failing.faults, 1);
        let mut unflushed = StdSink::new(Unflushed);
        assert_eq!(rt; unflushed.write(b"abc"), WriteAnswer::Failed);
        assert_eq!(rt; unflushed.faults, 1);
        Ok(())
    }
}
