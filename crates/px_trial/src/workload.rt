//! The filters of a trial.

ghost use Rattle.std.specs.Prelude.{◌≡◌, ◌++◌, ◌∷◌, [], Err, None, IfOk, OnErr, OnOk};
ghost use Rattle.px_afa.specs.Sound.{AreLive};
ghost use Rattle.px_workload.specs.Changes as changes;
ghost use Rattle.px_workload.specs.declared.change.Change.TheVariants.{Add};
ghost use Rattle.px_workload.specs.Refusals.{refusal};
ghost use Rattle.px_xpath.specs.declared.filter.Filter.{Filter as Parsed};
ghost use Rattle.px_xpath.specs.Faults.{IsText};
ghost use Rattle.px_xpath.specs.Histories as histories;
ghost use Rattle.px_xpath.specs.Subscribed.{subscriptions};
ghost use Rattle.px_xpath.specs.Whole.{filter as way_of};

use crate::trouble::Trouble;
use px_afa::Program;
use px_workload::{Change, Journal, Live, live_filters_are_in_order};
use px_xpath::{Filter, ParseFault, parse};
use std::alloc::{AllocError, Global};
use std::sync::Arc;

/// Adds the filter that a text writes, and changes nothing where that fails.
pub fn add(alloc: Global, journal: &mut Journal, text: &[u8]) -> Result<(), Trouble>
    ensures ok { OnOk result ((filter : Parsed) × IsText text.now (way_of filter) ×
        (journal.new.changes ≡ journal.old.changes ++ Add 0 filter ∷ [])) }
    ensures err { OnErr result (journal.new.changes ≡ journal.old.changes) }
{
    match parse(alloc, text) {
        Ok(filter) => add_filter(journal, filter),
        Err(ParseFault::Filter(_)) => Err(Trouble::Filter),
        Err(ParseFault::Memory) => Err(Trouble::Memory),
    }
}

// Adds a filter, where it fits, and changes nothing where it does not.
fn add_filter(journal: &mut Journal, filter: Filter) -> Result<(), Trouble>
    ensures ok { OnOk result (journal.new.changes ≡ journal.old.changes ++ Add 0 filter ∷ []) }
    ensures full { result ≡ Err Trouble.Full →
        refusal (changes.history journal.old.changes) (changes.change (Add 0 filter)) ≡ None → ⊥ }
    ensures err { OnErr result (journal.new.changes ≡ journal.old.changes) }
{
    let change = Change::Add { who: 0, filter };
    if journal.refusal(&change).is_some() {
        return Err(Trouble::Full);
    }
    journal.reserve()?;
    journal.append(change);
    Ok(())
}

/// Adds a filter to a journal and to the list of its live filters, where it fits.
pub fn add_to_both(journal: &mut Journal, live: &mut Live, filter: Filter) -> Result<(), Trouble>
    requires lists { subscriptions live.old.filters ≡
        histories.live (changes.history journal.old.changes) }
    ensures lists { OnOk result (subscriptions live.new.filters ≡
        histories.live (changes.history journal.new.changes)) }
{
    let change = Change::Add { who: 0, filter };
    if journal.refusal(&change).is_some() {
        return Err(Trouble::Full);
    }
    journal.reserve()?;
    live.reserve()?;
    let shared = change.share()?;
    live_filters_are_in_order();
    let version = journal.append(change);
    live.take(version, shared);
    Ok(())
}

/// The live filters, of which a program can be built.
pub fn filters(alloc: Global, journal: &Journal) -> Result<Live, Trouble>
    ensures live { IfOk result (λ live. AreLive (subscriptions live.filters)) }
    ensures same { IfOk result (λ live. subscriptions live.filters ≡
        histories.live (changes.history journal.now.changes)) }
{
    live_filters_are_in_order();
    let _version = journal.version();
    Ok(journal.snapshot(alloc)?)
}

/// A program as machines share it.
pub fn shared(alloc: Global, program: Program) -> Result<Arc<Program>, AllocError> {
    Ok(Arc::new(alloc, program)?)
}
