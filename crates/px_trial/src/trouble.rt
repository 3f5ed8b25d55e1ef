//! What cuts a trial short.

use px_reader::ReaderFault;
use std::alloc::AllocError;

/// What cuts a trial short.
#[derive(Clone, Copy, Debug, Drop)]
pub enum Trouble {
    /// The words are in none of the forms.
    Usage,
    /// The feed or the document is at fault, or the feed has something besides adds and documents.
    Feed,
    /// A filter is at fault.
    Filter,
    /// The filters are too many or too large.
    Full,
    /// Standard input met a fault.
    Read,
    /// Standard output met a fault.
    Write,
    /// The clock gave no time.
    Clock,
    /// Memory was refused.
    Memory,
}

impl Trouble {
    /// What standard error is told.
    pub fn message(self) -> &'static str {
        match self {
            Trouble::Usage => "usage: px_trial compare | read | times N, where N is at most 50000",
            Trouble::Feed => "the input is at fault, or has more than adds and documents",
            Trouble::Filter => "a filter is at fault",
            Trouble::Full => "the filters are too many or too large",
            Trouble::Read => "read fault",
            Trouble::Write => "write fault",
            Trouble::Clock => "the clock gives no time",
            Trouble::Memory => "out of memory",
        }
    }
}

impl From<AllocError> for Trouble {
    ghost use Rattle.std.specs.Prelude.{◌≡◌};
    ghost use Rattle.px_trial.specs.declared.trouble.Trouble.TheVariants.{Memory};

    ghost from_gives = { λ _ trouble. trouble ≡ Memory };

    fn from(_refused: AllocError) -> Trouble {
        Trouble::Memory
    }
}

impl From<ReaderFault> for Trouble {
    ghost from_gives = { λ _ trouble. Unit {0} };

    fn from(fault: ReaderFault) -> Trouble {
        match fault {
            ReaderFault::Doc(_) => Trouble::Feed,
            ReaderFault::Memory => Trouble::Memory,
        }
    }
}
