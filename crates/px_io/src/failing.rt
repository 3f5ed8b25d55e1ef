//! A source and a sink in memory that fail at the calls that they are told to fail at.

ghost use Rattle.std.specs.Prelude.{◌≡◌, ◌<◌, ◌≤◌, ◌+◌, ◌==◌, [], length, min, take};
ghost use Rattle.std.specs.List.{list_any};
ghost use Rattle.px_io.specs.Faults.{Rose};
ghost use Rattle.px_io.specs.Flows.{GivesNext, TakesFront};

use crate::memory::copy_front;
use crate::sink::{Sink, WriteAnswer};
use crate::source::{ReadAnswer, Source};
use px_text::{Bytes, Words};
use std::alloc::Global;
use std::marker::Model;

/// A source that gives the bytes that it was made with in pieces, and fails at some calls.
/// Contracts see the bytes that are left, and how many calls there were and how many failed.
#[derive(Drop)]
pub struct FailSource {
    bytes: Bytes,
    at: usize,
    piece: usize,
    fails: Words,
    calls: u64,
    faults: u64,
}

impl Model for FailSource {
    ghost use Rattle.std.specs.Prelude.{ℕ, ◌<◌, ◌≤◌, drop, length};
    ghost use Rattle.px_io.specs.Failing.{Failing};

    ghost Value = { Failing };

    ghost view = { λ s. record {
      bytes = drop s.at s.bytes;
      piece = s.piece;
      fails = s.fails;
      calls
          = s.calls;
      faults = s.faults;
    } };

    ghost invariant = { λ s. (s.at ≤ length s.bytes) × (0 < s.piece) };
}

impl FailSource {
    /// A source of these bytes that gives at most `piece` of them in a call, and fails at the calls
    /// whose numbers, from 1, stand in `fails`.
    pub fn new(bytes: Bytes, piece: usize, fails: Words) -> FailSource
        requires { 0 < piece }
        ensures { result ≡ record {
          bytes = bytes;
          piece = piece;
          fails = fails;
          calls = 0;
          faults =
              0;
        } }
    {
        FailSource {
            bytes,
            at: 0,
            piece,
            fails,
            calls: 0,
            faults: 0,
        }
    }
}

impl Source for FailSource {
    ghost use Rattle.std.specs.Prelude.{Some};
    ghost use Rattle.px_io.specs.Failing.{ReadsAs, behind_read};

    ghost left = { λ source. Some source.bytes };

    ghost faults = { λ source. source.faults };

    /// Gives as many bytes as it can, unless this call is to fail.
    fn read(&mut self, into: &mut [u8]) -> ReadAnswer
        requires { 0 < length into.old }
        ensures next { GivesNext result into.new (Some self.old.bytes) (Some self.new.bytes) }
        ensures never_falls { self.old.faults ≤ self.new.faults }
        ensures failed { result ≡ ReadAnswer.Failed → Rose self.old.faults self.new.faults }
        ensures answer { ReadsAs result self.old (length into.old) }
        ensures state { self.new ≡ behind_read result self.old }
    {
        let is_to_fail = stands_next(self.calls, &self.fails);
        self.calls = self.calls.saturating_add(1);
        if is_to_fail {
            self.faults = self.faults.saturating_add(1);
            return ReadAnswer::Failed;
        }
        let count = copy_front(front(&self.bytes.as_slice()[self.at..], self.piece), into);
        if count == 0 {
            return ReadAnswer::End;
        }
        self.at += count;
        ReadAnswer::Got(count)
    }
}

// Whether the call behind so many is one of those that are to fail.
fn stands_next(calls: u64, fails: &Words) -> bool
    ensures { result ≡ list_any (λ number. number == calls + 1) fails.now }
{
    let next = u128::from(calls) + 1;
    let mut numbers = fails.as_slice().iter();
    numbers.any(|number| u128::from(*number) == next)
}

// The first bytes, at most so many.
fn front(bytes: &[u8], most: usize) -> &[u8]
    ensures same { result.now ≡ take most bytes.now }
    ensures short { length result.now ≤ most }
{
    &bytes[..most.min(bytes.len())]
}

/// A sink that keeps what is written in pieces, and fails at some calls. Contracts see the bytes
/// that it holds, and how many calls there were and how many failed.
#[derive(Drop)]
pub struct FailSink {
    bytes: Vec<u8>,
    piece: usize,
    fails: Words,
    calls: u64,
    faults: u64,
}

impl Model for FailSink {
    ghost use Rattle.std.specs.Prelude.{ℕ, ◌<◌};
    ghost use Rattle.px_io.specs.Failing.{Failing};

    ghost Value = { Failing };

    ghost view = { λ s. record {
      bytes = s.bytes.items;
      piece = s.piece;
      fails = s.fails;
      calls =
          s.calls;
      faults = s.faults;
    } };

    ghost invariant = { λ s. 0 < s.piece };
}

impl FailSink {
    /// A sink that takes at most `piece` bytes in a call, and fails at the calls whose numbers,
    /// from 1, stand in `fails`.
    pub fn new(alloc: Global, piece: usize, fails: Words) -> FailSink
        requires { 0 < piece }
        ensures { result ≡ record {
          bytes = [];
          piece = piece;
          fails = fails;
          calls = 0;
          faults =
              0;
        } }
    {
        FailSink {
            bytes: Vec::new(alloc),
            piece,
            fails,
            calls: 0,
            faults: 0,
        }
    }

    /// What was taken.
    pub fn held(&self) -> &[u8]
        ensures held { result.now ≡ self.now.bytes }
    {
        self.bytes.as_slice()
    }
}

impl Sink for FailSink {
    ghost use Rattle.std.specs.Prelude.{Some};
    ghost use Rattle.px_io.specs.Failing.{WritesAs, behind_write};

    ghost held = { λ sink. Some sink.bytes };

    ghost faults = { λ sink. sink.faults };

    /// Takes the front of the piece or answers `Memory`, unless this call is to fail.
    fn write(&mut self, piece: &[u8]) -> WriteAnswer
        ensures takes { TakesFront result piece.now (Some self.old.bytes) (Some self.new.bytes) }
        ensures never_falls { self.old.faults ≤ self.new.faults }
        ensures failed { result ≡ WriteAnswer.Failed → Rose self.old.faults self.new.faults }
        ensures memory { result ≡ WriteAnswer.Memory → self.new.faults ≡ self.old.faults }
        ensures answer { WritesAs result self.old (length piece.now) }
        ensures state { self.new ≡ behind_write result self.old piece.now }
    {
        let is_to_fail = stands_next(self.calls, &self.fails);
        self.calls = self.calls.saturating_add(1);
        if is_to_fail {
            self.faults = self.faults.saturating_add(1);
            return WriteAnswer::Failed;
        }
        let taken = front(piece, self.piece);
        if self.bytes.extend_from_slice(taken).is_err() {
            return WriteAnswer::Memory;
        }
        WriteAnswer::Took(taken.len())
    }
}

#[cfg(test)]
mod tests {
    use super::{FailSink, FailSource};
    use crate::sink::{Sink, WriteAnswer};
    use crate::source::{ReadAnswer, Source};
    use px_text::{Bytes, Words};
    use std::test::Fail;

    #[test]
    fn the_third_read_of_pieces_of_8_fails(rt: HostRuntime) -> Result<(), Fail> {
        let alloc = rt.alloc();
        let bytes = Bytes::of(alloc, b"+/a\n+/b\n(a\n)a\n-1\n")?;
        let mut source = FailSource::new(bytes, 8, Words::of(vec![in alloc; 3]?));
        let mut buffer = [0; 16];
        assert_eq!(rt; source.read(&mut buffer), ReadAnswer::Got(8));
        assert_eq!(rt; source.read(&mut buffer), ReadAnswer::Got(8));
        assert_eq!(rt; buffer[..8], *b"(a\n)a\n-1".as_slice());
        assert_eq!(rt; source.read(&mut buffer), ReadAnswer::Failed);
        assert_eq!(rt; source.read(&mut buffer), ReadAnswer::Got(1));
        assert_eq!(rt; source.read(&mut buffer), ReadAnswer::End);
        Ok(())
    }

    #[test]
    fn a_first_write_that_fails_is_not_held(rt: HostRuntime) -> Result<(), Fail> {
        let alloc = rt.alloc();
        let mut sink = FailSink::new(alloc, 2, Words::of(vec![in alloc; 1]?));
        assert_eq!(rt; sink.write(b"abc"), WriteAnswer::Failed);
        assert_eq!(rt; sink.held(), b"".as_slice());
        assert_eq!(rt; sink.write(b"abc"), WriteAnswer::Took(2));
        assert_eq!(rt; sink.held(), b"ab".as_slice());
        Ok(())
    }
}
