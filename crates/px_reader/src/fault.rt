//! What can be wrong with a document.

ghost use Rattle.std.specs.Prelude.{◌≡◌};
ghost use Rattle.px_reader.specs.declared.fault.LineFault.TheVariants.{LineMemory};
ghost use Rattle.px_reader.specs.declared.fault.ReaderFault.TheVariants.{Memory};

use std::alloc::{AllocError, AllocFailed};
use thiserror::Error;

/// What is wrong with a line of a document.
#[derive(Clone, Copy, Debug, PartialEq, Eq)]
pub enum DocKind {
    /// The lines before it begin some document, and with it they begin none.
    NotHere,
    NotUtf8,
    /// It has more than 1,048,576 bytes without its end.
    LineLong,
    /// It opens an element of depth 513.
    TooDeep,
    /// It is attribute 257 of its element.
    TooManyAttributes,
    /// Byte 16,777,217 of the document stands in it.
    TooBig,
    /// No line is at fault, but the root is not closed.
    Truncated,
}

/// The first fault of a document, and the line, from 1, in which it stands.
#[derive(Clone, Copy, Debug, PartialEq, Eq, Error)]
#[error("line {line}: {kind:?}")]
pub struct DocFault {
    pub line: u64,
    pub kind: DocKind,
}

/// Why a reader gives up.
#[derive(Clone, Copy, Debug, PartialEq, Eq, Error)]
pub enum ReaderFault {
    #[error("{0}")]
    Doc(DocFault),
    #[error("out of memory")]
    Memory,
}

impl From<AllocError> for ReaderFault {
    ghost from_gives = { λ _ fault. fault ≡ Memory };

    fn from(_refused: AllocError) -> ReaderFault {
        ReaderFault::Memory
    }
}

/// Why a line is not taken.
#[derive(Clone, Copy, Debug)]
pub enum LineFault {
    Kind(DocKind),
    LineMemory,
}

impl From<AllocError> for LineFault {
    ghost from_gives = { λ _ fault. fault ≡ LineMemory };

    fn from(_refused: AllocError) -> LineFault {
        LineFault::LineMemory
    }
}

impl<T: Drop> From<AllocFailed<T>> for LineFault {
    ghost from_gives = { λ _ fault. fault ≡ LineMemory };

    fn from(_refused: AllocFailed<T>) -> LineFault {
        LineFault::LineMemory
    }
}
