//! How much of a document has been read.

ghost use Rattle.std.specs.Prelude.{◌≡◌, ◌≤◌, ◌<◌, ◌+◌, MatchOption};

use crate::fault::{DocFault, LineFault, ReaderFault};

/// The most bytes of a document.
const MAX_SIZE: u64 = 16_777_216;

/// The lines that have ended, and all bytes.
#[derive(Clone, Copy)]
pub struct Extent {
    lines: u64,
    size: u64,
    ghost counted: { lines ≤ size },
    ghost bounded: { size ≤ 16_777_216 },
}

impl Extent {
    ghost use Rattle.px_reader.specs.Bringing.{StandsAt};
    ghost use Rattle.px_reader.specs.Reading.{fault_at};

    pub fn start() -> Extent
        ensures lines { result.lines ≡ 0 }
        ensures size { result.size ≡ 0 }
    {
        Extent { lines: 0, size: 0 }
    }

    pub fn lines(&self) -> u64
        ensures value { result ≡ self.now.lines }
        ensures bounded { result ≤ 16_777_216 }
    {
        self.lines
    }

    /// How many bytes more there may be.
    pub fn room(&self) -> u64
        ensures { result + self.now.size ≡ 16_777_216 }
    {
        MAX_SIZE - self.size
    }

    /// The extent with more bytes, unless they are too many.
    pub fn with_bytes(&self, count: usize) -> Option<Extent>
        ensures { MatchOption result (16_777_216 < self.now.size + count)
            (λ grown. (grown.lines ≡ self.now.lines) × (grown.size ≡ self.now.size + count)) }
    {
        if count as u64 > MAX_SIZE - self.size {
            return None;
        }
        Some(Extent {
            lines: self.lines,
            size: self.size + count as u64,
        })
    }

    /// The extent with the end of a line, of so many bytes, unless they are too many.
    pub fn with_line(&self, count: usize) -> Option<Extent>
        requires { 0 < count }
        ensures { MatchOption result (16_777_216 < self.now.size + count)
            (λ grown. (grown.lines ≡ self.now.lines + 1) × (grown.size ≡ self.now.size + count)) }
    {
        if count as u64 > MAX_SIZE - self.size {
            return None;
        }
        Some(Extent {
            lines: self.lines + 1,
            size: self.size + count as u64,
        })
    }

    /// The fault of the line behind those that have ended.
    pub fn fault(&self, fault: LineFault) -> ReaderFault
        ensures same { result ≡ fault_at (self.now.lines + 1) fault }
        ensures line { StandsAt (self.now.lines + 1) result }
    {
        match fault {
            LineFault::Kind(kind) => ReaderFault::Doc(DocFault {
                line: self.lines + 1,
                kind,
            }),
            LineFault::LineMemory => ReaderFault::Memory,
        }
    }
}
