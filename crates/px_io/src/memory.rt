//! A source and a sink in memory, which tell their bytes and never meet a fault.

ghost use Rattle.std.specs.Prelude.{◌≡◌, ◌≤◌, [], length, min, take};

use crate::sink::{Sink, WriteAnswer};
use crate::source::{ReadAnswer, Source};
use px_text::Bytes;
use std::alloc::Global;
use std::marker::Model;

/// A source that gives the bytes that it was made with. Contracts see the bytes that are left.
#[derive(Drop)]
pub struct MemSource {
    bytes: Bytes,
    at: usize,
}

impl Model for MemSource {
    ghost use Rattle.std.specs.Prelude.{List, ℕ, ◌≤◌, drop, length};

    ghost Value = { List ℕ };

    ghost view = { λ source. drop source.at source.bytes };

    ghost invariant = { λ source. source.at ≤ length source.bytes };
}

impl MemSource {
    pub fn new(bytes: Bytes) -> MemSource
        ensures all_left { result ≡ bytes }
    {
        MemSource { bytes, at: 0 }
    }
}

impl Source for MemSource {
    ghost use Rattle.std.specs.Prelude.{Some};

    ghost left = { λ source. Some source };

    ghost faults = { λ _. 0 };

    fn read(&mut self, into: &mut [u8]) -> ReadAnswer {
        let count = copy_front(&self.bytes.as_slice()[self.at..], into);
        if count == 0 {
            return ReadAnswer::End;
        }
        self.at += count;
        ReadAnswer::Got(count)
    }
}

/// Copies as much of the front as fits: how many bytes that is.
pub(crate) fn copy_front(from: &[u8], into: &mut [u8]) -> usize
    ensures count { result ≡ min (length from.now) (length into.old) }
    ensures within { result ≤ length into.new }
    ensures copied { take result into.new ≡ take result from.now }
{
    let count = from.len().min(into.len());
    into[..count].copy_from_slice(&from[..count]);
    count
}

/// A sink that keeps what is written. Contracts see the bytes that it holds.
#[derive(Drop)]
pub struct MemSink {
    bytes: Vec<u8>,
}

impl Model for MemSink {
    ghost use Rattle.std.specs.Prelude.{List, ℕ};

    ghost Value = { List ℕ };

    ghost view = { λ sink. sink.bytes.items };
}

impl MemSink {
    pub fn new(alloc: Global) -> MemSink
        ensures empty { result ≡ [] }
    {
        MemSink {
            bytes: Vec::new(alloc),
        }
    }

    /// What was written.
    pub fn held(&self) -> &[u8]
        ensures held { result.now ≡ self.now }
    {
        self.bytes.as_slice()
    }
}

impl Sink for MemSink {
    ghost use Rattle.std.specs.Prelude.{Some};
    ghost use Rattle.px_io.specs.Flows.{TakesFront, TakesWhole};

    ghost held = { λ sink. Some sink };

    ghost faults = { λ _. 0 };

    /// Takes the whole piece, or answers `Memory`.
    fn write(&mut self, piece: &[u8]) -> WriteAnswer
        ensures takes { TakesFront result piece.now (Some self.old) (Some self.new) }
        ensures whole { TakesWhole result piece.now }
    {
        match self.bytes.extend_from_slice(piece) {
            Ok(()) => WriteAnswer::Took(piece.len()),
            Err(_) => WriteAnswer::Memory,
        }
    }
}

#[cfg(test)]
mod tests {
    use super::{MemSink, MemSource};
    use crate::sink::{Sink, WriteAnswer};
    use crate::source::{ReadAnswer, Source};
    use px_text::Bytes;
    use std::test::Fail;

    #[test]
    fn bytes_go_through_memory_in_pieces(rt: HostRuntime) -> Result<(), Fail> {
        let mut source = MemSource::new(Bytes::of(rt.alloc(), b"abc")?);
        let mut sink = MemSink::new(rt.alloc());
        let mut buffer = [0; 2];
        assert_eq!(rt; source.read(&mut buffer), ReadAnswer::Got(2));
        assert_eq!(rt; sink.write(&buffer), WriteAnswer::Took(2));
        assert_eq!(rt; source.read(&mut buffer), ReadAnswer::Got(1));
        assert_eq!(rt; sink.write(&buffer[..1]), WriteAnswer::Took(1));
        assert_eq!(rt; source.read(&mut buffer), ReadAnswer::End);
        assert_eq!(rt; sink.held(), b"abc".as_slice());
        Ok(())
    }
}
