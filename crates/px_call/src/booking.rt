//! The counts behind a step.
ghost use Rattle.std.specs.Prelude.{◌≡◌};
ghost use Rattle.px_call.specs.Outcomes.{first_full};
ghost use Rattle.px_call.specs.Making.{IsTallied, IsBooked};

use crate::stepping::Outcome;
use crate::tally::Tally;
use px_runner::Held;

/// The counts where no place was free for a word.
pub(crate) fn with_full(tally: Tally, word: u64) -> Tally
    ensures full { result ≡ record tally { full = first_full tally.full word } }
{
    let full = match tally.full {
        Some(first) => Some(first),
        None => Some(word),
    };
    Tally { full, ..tally }
}

/// The counts with a step of the call's own more.
pub(crate) fn with_own(tally: Tally) -> Tally
    ensures own { IsTallied tally result 0 0 1 }
    ensures full { result.full ≡ tally.full }
{
    Tally {
        own: tally.own.saturating_add(1),
        ..tally
    }
}

/// The counts and the value behind a step.
pub(crate) fn booked(tally: Tally, outcome: Outcome) -> (Tally, Held)
    ensures booked { IsBooked tally result.0 outcome result.1 }
{
    match outcome {
        Outcome::Found(number) => {
            let found = tally.found.saturating_add(1);
            (Tally { found, ..tally }, Held::Numbered(number))
        }
        Outcome::Computed(number) => {
            let computed = tally.computed.saturating_add(1);
            (Tally { computed, ..tally }, Held::Numbered(number))
        }
        Outcome::KeyFull { number, word } => {
            (with_full(with_own(tally), word), Held::Numbered(number))
        }
        Outcome::SetFull { set, word } => (with_full(with_own(tally), word), Held::Own(set)),
    }
}
