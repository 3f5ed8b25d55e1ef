//! What a call that filters a document answers.
use px_reader::DocFault;
use px_text::{Ids, Words};
use std::alloc::AllocError;
use thiserror::Error;

/// The filters that hold of a document, and how the steps were come by that showed it.
#[derive(Debug, PartialEq, Eq, Drop)]
pub struct Reply {
    /// How many changes the pass had seen.
    pub version: u32,
    /// The number of the pass.
    pub pass: u32,
    /// The ids of the live filters that hold of the document, rising.
    pub ids: Ids,
    /// Steps that were read from the bank of the pass.
    pub found: u64,
    /// Steps that the call computed, and that stand in the bank since.
    pub computed: u64,
    /// All other steps. The three are 8 for each element and 6 for each attribute and text.
    pub own: u64,
    pub why: Why,
}

/// Why steps are the call's own: the first of these cases that holds.
#[derive(Debug, PartialEq, Eq, Drop)]
pub enum Why {
    /// The program of the pass is of this version, and not of the one that it has reached. All
    /// steps are the call's own.
    Unsettled { have: u32 },
    /// The last refresh of the pass found calls inside all banks, by these words. All steps are the
    /// call's own.
    NoBank { words: Words },
    /// The bank of the pass stands at a later version, by this word. All steps are the call's own.
    Gone { word: u64 },
    /// The bank had no place for some steps. This word was the first that found none.
    Full { word: u64 },
    /// No step is the call's own.
    Settled,
}

/// Why a document gets no reply.
#[derive(Clone, Copy, Debug, Drop, Error)]
pub enum FilterCallFault {
    #[error(transparent)]
    Doc(DocFault),
    #[error("out of memory")]
    Memory,
}

impl From<AllocError> for FilterCallFault {
    ghost use Rattle.std.specs.Prelude.{◌≡◌};
    ghost use Rattle.px_hub.specs.declared.reply.FilterCallFault.TheVariants.{Memory};

    ghost from_gives = { λ _ e. e ≡ Memory };

    fn from(_: AllocError) -> FilterCallFault {
        FilterCallFault::Memory
    }
}
