//! What the changes of a feed are answered.

ghost use Rattle.std.specs.Prelude.{◌≡◌, ◌++◌, ◌∷◌, [], ℕ, IfOk};
ghost use Rattle.px_feed.specs.Items.{Adding, Removing, Replacing};
ghost use Rattle.px_feed.specs.Outputs.{AsksAdd, AsksDrop, AsksReplace};
ghost use Rattle.px_feed.specs.Outputs.{next_version};
ghost use Rattle.px_xpath.specs.Histories.{IsLegal};
ghost use Rattle.px_xpath.specs.Whole.{filter as way_of};
ghost use Rattle.px_workload.specs.Changes.{change as as_change, history};
ghost use Rattle.px_workload.specs.declared.refusal.Refusal.TheVariants.{Unknown, TooLarge};
ghost use Rattle.px_lines.specs.Replying.{Answered, Replies};
ghost use Rattle.px_serial.specs.Replying.{IsLineOf, IsAddRefused, IsDropRefused, IsReplaceRefused};

use px_feed::{OutLine, id_of};
use px_workload::{Change, Journal, Refusal};
use px_xpath::{Filter, ParseFault, parse};
use std::alloc::{AllocError, Global};

/// Adds the filter that a text writes, and answers the line for it. An add that is refused leaves
/// the journal as it was.
pub fn add(alloc: Global, journal: &mut Journal, text: &[u8]) -> Result<OutLine, AllocError>
    ensures { IfOk result (λ line. Answered (Adding text.now) journal.old.changes
        journal.new.changes line) }
{
    match parse(alloc, text) {
        Ok(filter) => add_filter(journal, filter),
        Err(fault) => no_filter(fault),
    }
}

/// Drops the filter whose id a text names, and answers the line for it. A drop that is refused
/// leaves the journal as it was.
pub fn remove(journal: &mut Journal, text: &[u8]) -> Result<OutLine, AllocError>
    ensures { IfOk result (λ line. Answered (Removing text.now) journal.old.changes
        journal.new.changes line) }
{
    match id_of(text) {
        Some(id) => remove_named(journal, id),
        None => Ok(OutLine::DropUnknown),
    }
}

/// Puts the filter that a text writes in the place of the one whose id a name is, and answers the
/// line for it. A replacement that is refused leaves the journal as it was.
pub fn replace(
    alloc: Global,
    journal: &mut Journal,
    name: &[u8],
    text: &[u8],
) -> Result<OutLine, AllocError>
    ensures { IfOk result (λ line. Answered (Replacing name.now text.now) journal.old.changes
        journal.new.changes line) }
{
    match parse(alloc, text) {
        Ok(filter) => replace_by(journal, id_of(name), filter),
        Err(fault) => no_filter(fault),
    }
}

// The line for a text that writes no filter.
fn no_filter(fault: ParseFault) -> Result<OutLine, AllocError>
    ensures { IfOk result (λ line. IsLineOf fault line) }
{
    match fault {
        ParseFault::Filter(fault) => Ok(OutLine::NoFilter(fault)),
        ParseFault::Memory => Err(AllocError),
    }
}

// Adds a filter, unless it is too large or no version is left.
fn add_filter(journal: &mut Journal, filter: Filter) -> Result<OutLine, AllocError>
    ensures { IfOk result (λ line. Replies (AsksAdd (Ok (way_of filter))) journal.old.changes
        journal.new.changes line) }
{
    let change = Change::Add { who: 0, filter };
    match journal.refusal(&change) {
        Some(refusal) => Ok(refused_add(refusal)),
        None => {
            let id = accept(journal, change)?;
            Ok(OutLine::Added { id })
        }
    }
}

// Drops the filter of an id, unless none is live under it or no version is left.
fn remove_named(journal: &mut Journal, id: u32) -> Result<OutLine, AllocError>
    ensures { IfOk result (λ line. Replies (AsksDrop (Some id)) journal.old.changes
        journal.new.changes line) }
{
    let change = Change::Drop { who: 0, id };
    match journal.refusal(&change) {
        Some(refusal) => Ok(refused_drop(refusal)),
        None => {
            let version = accept(journal, change)?;
            Ok(OutLine::Dropped { id, version })
        }
    }
}

// Replaces the filter of an id, if there is one.
fn replace_by(journal: &mut Journal, id: Option<u32>, filter: Filter) -> Result<OutLine, AllocError>
    ensures { IfOk result (λ line. Replies (AsksReplace id (Ok (way_of filter))) journal.old.changes
        journal.new.changes line) }
{
    match id {
        Some(id) => replace_named(journal, id, filter),
        None => Ok(OutLine::ReplaceUnknown),
    }
}

// Replaces the filter of an id, unless none is live under it, the new one is too large beside the
// others, or no version is left.
fn replace_named(journal: &mut Journal, id: u32, filter: Filter) -> Result<OutLine, AllocError>
    ensures { IfOk result (λ line. Replies (AsksReplace (Some id) (Ok (way_of filter)))
        journal.old.changes journal.new.changes line) }
{
    let change = Change::Replace { who: 0, id, filter };
    match journal.refusal(&change) {
        Some(refusal) => Ok(refused_replacement(refusal)),
        None => {
            let version = accept(journal, change)?;
            Ok(OutLine::Replaced { id, version })
        }
    }
}

// Accepts a change that may come, and answers the version that it makes.
fn accept(journal: &mut Journal, change: Change) -> Result<u32, AllocError>
    requires legal { IsLegal (history (journal.old.changes ++ change ∷ [])) }
    ensures version { IfOk result (λ version. version ≡
        next_version (history journal.old.changes)) }
    ensures history { IfOk result (λ _. history journal.new.changes ≡ history journal.old.changes ++
        as_change change ∷ []) }
{
    journal.reserve()?;
    Ok(journal.append(change))
}

// The line for an add that is refused.
fn refused_add(refusal: Refusal) -> OutLine
    requires no_id { refusal ≡ Unknown → ⊥ }
    ensures line { IsAddRefused refusal result }
{
    match refusal {
        Refusal::Unknown => unreachable!(),
        Refusal::TooLarge { live } => OutLine::AddTooLarge { live },
        Refusal::NoVersions => OutLine::AddNoVersions,
    }
}

// The line for a drop that is refused.
fn refused_drop(refusal: Refusal) -> OutLine
    requires no_filter { (live : ℕ) → refusal ≡ TooLarge live → ⊥ }
    ensures line { IsDropRefused refusal result }
{
    match refusal {
        Refusal::Unknown => OutLine::DropUnknown,
        Refusal::TooLarge { .. } => unreachable!(),
        Refusal::NoVersions => OutLine::DropNoVersions,
    }
}

// The line for a replacement that is refused.
fn refused_replacement(refusal: Refusal) -> OutLine
    ensures line { IsReplaceRefused refusal result }
{
    match refusal {
        Refusal::Unknown => OutLine::ReplaceUnknown,
        Refusal::TooLarge { live } => OutLine::ReplaceTooLarge { live },
        Refusal::NoVersions => OutLine::ReplaceNoVersions,
    }
}
