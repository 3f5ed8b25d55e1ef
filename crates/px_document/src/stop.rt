//! What stops the reading of a document, and what cuts a run short.

use px_reader::{DocFault, ReaderFault};
use std::alloc::AllocError;

/// What stops the reading of a document.
#[derive(Clone, Copy, Debug, Drop)]
pub enum Stop {
    /// The document is at fault.
    Doc(DocFault),
    /// The source met a fault.
    Source,
    /// Memory was refused.
    Memory,
}

impl From<AllocError> for Stop {
    ghost use Rattle.std.specs.Prelude.{◌≡◌};
    ghost use Rattle.px_document.specs.declared.stop.Stop.TheVariants.{Memory};

    ghost from_gives = { λ _ stop. stop ≡ Memory };

    fn from(_refused: AllocError) -> Stop {
        Stop::Memory
    }
}

impl From<ReaderFault> for Stop {
    ghost use Rattle.std.specs.Prelude.{◌≡◌};
    ghost use Rattle.px_document.specs.Stops.{stop_of};

    ghost from_gives = { λ fault stop. stop ≡ stop_of fault };

    fn from(fault: ReaderFault) -> Stop {
        match fault {
            ReaderFault::Doc(fault) => Stop::Doc(fault),
            ReaderFault::Memory => Stop::Memory,
        }
    }
}

/// What cuts a run short before its answer is known.
#[derive(Clone, Copy, Debug, Drop)]
pub enum Cut {
    /// The source met a fault.
    Source,
    /// Memory was refused.
    Memory,
}
