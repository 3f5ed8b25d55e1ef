//! The lines for what a hub answers.
ghost use Rattle.std.specs.Prelude.{ℕ, IfOk, Err};
ghost use Rattle.px_changer.specs.Lines.{IsLineOfAdd, IsLineOfDrop, IsLineOfReplacement, IsLineOfFault};

use px_feed::OutLine;
use px_hub::{ReplaceFault, SubscribeFault, UnsubscribeFault};
use px_xpath::ParseFault;
use std::alloc::AllocError;

/// The line for an add.
pub(crate) fn line_of_add(outcome: Result<u32, SubscribeFault>) -> Result<OutLine, AllocError>
    ensures { IfOk result (λ line. IsLineOfAdd outcome line) }
{
    match outcome {
        Ok(id) => Ok(OutLine::Added { id }),
        Err(fault) => line_of_refused_add(fault),
    }
}

fn line_of_refused_add(fault: SubscribeFault) -> Result<OutLine, AllocError>
    ensures { IfOk result (λ line. IsLineOfAdd (Err fault) line) }
{
    match fault {
        SubscribeFault::Filter(fault) => Ok(OutLine::NoFilter(fault)),
        SubscribeFault::TooLarge { live } => Ok(OutLine::AddTooLarge { live }),
        SubscribeFault::NoVersions => Ok(OutLine::AddNoVersions),
        SubscribeFault::Memory => Err(AllocError),
    }
}

/// The line for the drop of an id.
pub(crate) fn line_of_drop(
    id: u32,
    outcome: Result<u32, UnsubscribeFault>,
) -> Result<OutLine, AllocError>
    ensures { IfOk result (λ line. IsLineOfDrop id outcome line) }
{
    match outcome {
        Ok(version) => Ok(OutLine::Dropped { id, version }),
        Err(UnsubscribeFault::Unknown) => Ok(OutLine::DropUnknown),
        Err(UnsubscribeFault::NoVersions) => Ok(OutLine::DropNoVersions),
        Err(UnsubscribeFault::Memory) => Err(AllocError),
    }
}

/// The line for the replacement of the filter of an id.
pub(crate) fn line_of_replacement(
    id: u32,
    outcome: Result<u32, ReplaceFault>,
) -> Result<OutLine, AllocError>
    ensures { IfOk result (λ line. IsLineOfReplacement id outcome line) }
{
    match outcome {
        Ok(version) => Ok(OutLine::Replaced { id, version }),
        Err(fault) => line_of_refused_replacement(fault),
    }
}

fn line_of_refused_replacement(fault: ReplaceFault) -> Result<OutLine, AllocError>
    ensures { (id : ℕ) → IfOk result (λ line. IsLineOfReplacement id (Err fault) line) }
{
    match fault {
        ReplaceFault::Filter(fault) => Ok(OutLine::NoFilter(fault)),
        ReplaceFault::Unknown => Ok(OutLine::ReplaceUnknown),
        ReplaceFault::TooLarge { live } => Ok(OutLine::ReplaceTooLarge { live }),
        ReplaceFault::NoVersions => Ok(OutLine::ReplaceNoVersions),
        ReplaceFault::Memory => Err(AllocError),
    }
}

/// The line for a text that writes no filter.
pub(crate) fn line_of_fault(fault: ParseFault) -> Result<OutLine, AllocError>
    ensures { IfOk result (λ line. IsLineOfFault fault line) }
{
    match fault {
        ParseFault::Filter(fault) => Ok(OutLine::NoFilter(fault)),
        ParseFault::Memory => Err(AllocError),
    }
}
