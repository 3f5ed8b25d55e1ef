//! What a feed gives next, and how it ends.

ghost use Rattle.std.specs.Prelude.{◌≡◌};
ghost use Rattle.px_feed.specs.Endings.{ending_of, taken_of};

use crate::fault::Failure;
use crate::item::Item;
use crate::line::FeedFault;

/// What a feed gives next.
#[derive(Drop)]
pub enum Taken {
    Item(Item),
    /// The source is at its end, and no item is left.
    End,
    /// The first fault of the feed.
    Fault(FeedFault),
    /// The source met a fault.
    ReadFault,
    Memory,
}

/// Why a feed gives no further item.
#[derive(Clone, Copy, Debug, Drop)]
pub enum Ending {
    End,
    Fault(FeedFault),
    ReadFault,
    Memory,
}

impl Ending {
    /// How a feed ends that fails so.
    pub fn of(failure: Failure) -> Ending
        ensures { result ≡ ending_of failure }
    {
        match failure {
            Failure::Fault(fault) => Ending::Fault(fault),
            Failure::Memory => Ending::Memory,
        }
    }

    /// What a feed answers that has ended so.
    pub fn taken(self) -> Taken
        ensures { result ≡ taken_of self }
    {
        match self {
            Ending::End => Taken::End,
            Ending::Fault(fault) => Taken::Fault(fault),
            Ending::ReadFault => Taken::ReadFault,
            Ending::Memory => Taken::Memory,
        }
    }
}
