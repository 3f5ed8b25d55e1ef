//! What is wrong with a text that is no filter.

use std::alloc::AllocError;
use thiserror::Error;

/// The fault of a text, and the place of the byte where it shows.
#[derive(Clone, Copy, Debug, PartialEq, Eq, Drop, Error)]
pub enum FilterFault {
    /// Here begins the first token that no filter has behind the tokens before it, or here the
    /// text ends too early.
    #[error("no filter goes on at byte {at}")]
    NotAFilter { at: u32 },
    /// The text has more than 4,096 bytes.
    #[error("the filter has more than 4096 bytes")]
    TooLong,
    /// This bracket would be the 65th that is open.
    #[error("more than 64 brackets are open at byte {at}")]
    TooNested { at: u32 },
    /// This number has more than 18 digits before or after its point.
    #[error("the number at byte {at} has more than 18 digits on a side of its point")]
    NumberLong { at: u32 },
}

/// Why a text gave no filter: its fault, or a want of memory.
#[derive(Clone, Copy, Debug, Drop, Error)]
pub enum ParseFault {
    #[error(transparent)]
    Filter(FilterFault),
    #[error("out of memory")]
    Memory,
}

impl From<AllocError> for ParseFault {
    ghost use Rattle.std.specs.Prelude.{◌≡◌};
    ghost use Rattle.px_xpath.specs.declared.fault.ParseFault.TheVariants.{Memory};

    ghost from_gives = { λ _ e. e ≡ Memory };

    fn from(_: AllocError) -> ParseFault {
        ParseFault::Memory
    }
}
