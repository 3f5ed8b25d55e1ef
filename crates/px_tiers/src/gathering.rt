//! Which filters make a new tier.

ghost use Rattle.std.specs.Prelude.{◌≡◌, ◌<◌, ◌++◌, ◌∷◌, ◌↔◌, [], ℕ, All, IfOk, OnOk, IsTrue, if◌then◌else◌, true};
ghost use Rattle.std.specs.List.{find};
ghost use Rattle.std.specs.Option.{option_to_list};
ghost use Rattle.px_text.specs.Sets.{has};
ghost use Rattle.px_afa.specs.Sound.{AreRising};
ghost use Rattle.px_xpath.specs.Histories.{IsLive, is_of, live};
ghost use Rattle.px_xpath.specs.Subscribed.{subscriptions};
ghost use Rattle.px_workload.specs.Changes.{history};
ghost use Rattle.px_tiers.specs.HomeTables.{home_of};
ghost use Rattle.px_tiers.specs.Parts.{among};
ghost use Rattle.px_tiers.specs.Standings.{AreTaken};

use crate::home_table::HomeTable;
use crate::tier::Tier;
use px_workload::{Journal, live_filters_are_in_order};
use px_xpath::Numbered;
use std::alloc::{AllocError, Global};

/// Those of the ids that are live.
pub(crate) fn live_among(
    alloc: Global,
    journal: &Journal,
    ids: &[u32],
) -> Result<Vec<u32>, AllocError>
    ensures all { IfOk result (λ found. (q : ℕ) → has ids.now q ≡ true →
        IsLive q (live (history journal.now.changes)) → has found.items q ≡ true) }
{
    let mut found = Vec::new(alloc);
    for id in ids {
        push_if(&mut found, *id, journal.is_live(*id))?;
    }
    Ok(found)
}

/// Puts the ids of these tiers that are at home behind so many tiers behind those gathered.
pub(crate) fn gather(
    gathered: &mut Vec<u32>,
    tiers: &[Tier],
    homes: &HomeTable,
    kept: usize,
) -> Result<(), AllocError>
    ensures old { OnOk result ((q : ℕ) → has gathered.old.items q ≡ true →
        has gathered.new.items q ≡ true) }
    ensures new { OnOk result (All (AreTaken (home_of homes.now) kept gathered.new.items)
        tiers.now) }
{
    for tier in tiers {
        gather_one(gathered, tier.ids(), homes, kept)?;
    }
    Ok(())
}

// Puts the ids of one tier behind those gathered.
fn gather_one(
    gathered: &mut Vec<u32>,
    ids: &[u32],
    homes: &HomeTable,
    kept: usize,
) -> Result<(), AllocError>
    ensures old { OnOk result ((q : ℕ) → has gathered.old.items q ≡ true →
        has gathered.new.items q ≡ true) }
    ensures new { OnOk result ((q : ℕ) → has ids.now q ≡ true → kept < home_of homes.now q →
        has gathered.new.items q ≡ true) }
{
    for id in ids {
        push_if(gathered, *id, is_behind(homes, *id, kept))?;
    }
    Ok(())
}

// Whether an id is at home behind so many tiers.
fn is_behind(homes: &HomeTable, id: u32, kept: usize) -> bool
    ensures behind { IsTrue result ↔ (kept < home_of homes.now id) }
{
    homes.of(id) as usize > kept
}

/// Puts an id behind these, if it is wanted.
pub(crate) fn push_if(ids: &mut Vec<u32>, id: u32, wanted: bool) -> Result<(), AllocError>
    ensures pushed { OnOk result (ids.new.items ≡ ids.old.items ++ (if wanted then id ∷
        [] else [])) }
{
    if !wanted {
        return Ok(());
    }
    ids.push(id)?;
    Ok(())
}

/// The live filters of these ids, shared. Ids without one are left out. Its only failure is want of
/// memory.
pub(crate) fn filters_of(
    alloc: Global,
    journal: &Journal,
    ids: &[u32],
) -> Result<Vec<Numbered>, AllocError>
    requires rising { AreRising ids.now }
    ensures filters { IfOk result (λ filters. subscriptions filters.items ≡
        among ids.now (live (history journal.now.changes))) }
{
    // The history is legal, so the ids of the live filters rise.
    let _version = journal.version();
    live_filters_are_in_order();
    let mut filters = Vec::with_capacity(alloc, ids.len())?;
    for id in ids {
        push_filter(&mut filters, journal, *id)?;
    }
    Ok(filters)
}

// Puts the live filter of an id behind these, if there is one.
fn push_filter(filters: &mut Vec<Numbered>, journal: &Journal, id: u32) -> Result<(), AllocError>
    ensures pushed { OnOk result (subscriptions filters.new.items ≡
        subscriptions filters.old.items ++ option_to_list (find (is_of id) (live (history
        journal.now.changes)))) }
{
    let Some(filter) = journal.filter_of(id) else {
        return Ok(());
    };
    let filter = filter.share()?;
    filters.push(Numbered { id, filter })?;
    Ok(())
}
