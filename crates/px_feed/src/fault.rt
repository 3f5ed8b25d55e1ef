//! Why the items of a feed stop.

ghost use Rattle.std.specs.Prelude.{◌≡◌};
ghost use Rattle.px_feed.specs.declared.fault.Failure.TheVariants as failure;
ghost use Rattle.px_feed.specs.Failures.{failure_of};

use crate::line::{FeedFault, FeedKind};
use px_reader::LineFault;
use std::alloc::AllocError;

/// Why no further item is given.
#[derive(Clone, Copy, Debug, Drop)]
pub enum Failure {
    Fault(FeedFault),
    Memory,
}

impl From<AllocError> for Failure {
    ghost from_gives = { λ _ given. given ≡ failure.Memory };

    fn from(_refused: AllocError) -> Failure {
        Failure::Memory
    }
}

impl Failure {
    /// The failure of the line with this number, which is not taken.
    pub fn of_line(line: u64, fault: LineFault) -> Failure
        ensures { result ≡ failure_of line fault }
    {
        match fault {
            LineFault::Kind(kind) => Failure::at(line, FeedKind::Doc(kind)),
            LineFault::LineMemory => Failure::Memory,
        }
    }

    /// The fault of the line with this number.
    pub fn at(line: u64, kind: FeedKind) -> Failure
        ensures { result ≡ failure.Fault (record { line = line; kind = kind }) }
    {
        Failure::Fault(FeedFault { line, kind })
    }
}
