//! Machines of rising age for the live filters of a history that goes on.

ghost use Rattle.std.specs.Prelude.{◌≡◌, ◌≤◌, ◌<◌, ◌+◌, ◌||◌, ◌&&◌, ◌==◌, ℕ, [], true, All, IfOk, OnOk, List, length, map};
ghost use Rattle.std.specs.List.{AllZip};
ghost use Rattle.px_text.specs.Nodes.{Root};
ghost use Rattle.px_text.specs.Sets.{has, Rising};
ghost use Rattle.px_reader.specs.Spelling.{events_of};
ghost use Rattle.px_xpath.specs.Histories.{IsLive, Subscription, live, matches};
ghost use Rattle.px_xpath.specs.Meaning.{holds};
ghost use Rattle.px_workload.specs.Changes.{history};
ghost use Rattle.px_tiers.specs.Bytes.{AreBounded, IsWithin, remembered};
ghost use Rattle.px_tiers.specs.HomeTables.{home_of};
ghost use Rattle.px_tiers.specs.Parts.{ids_where, others, passes_at_home};
ghost use Rattle.px_tiers.specs.Standings.{IsTier, StandFor, AreSettled};

use crate::gathering::{filters_of, gather, live_among, push_if};
use crate::home_table::HomeTable;
use crate::planning::{kept_tiers, share_of};
use crate::tier::Tier;
use px_reader::EventList;
use px_step::ascending;
use px_text::Ids;
use px_workload::{Journal, live_filters_are_in_order};
use std::alloc::{AllocError, Global};

/// The machines of the live filters, oldest first. Each live filter is at home in one of them, as
/// it is live, or waits to be built into the next; whoever is no longer live has no home. So a
/// change costs what it changes, and the machines stay warm.
#[derive(Drop)]
pub struct Tiers {
    alloc: Global,
    tiers: Vec<Tier>,
    homes: HomeTable,
    waiting: Vec<u32>,
}

impl Tiers {
    /// The tiers of no filters. It takes no memory.
    pub fn new(alloc: Global) -> Tiers
        ensures none { StandFor result [] }
    {
        Tiers {
            alloc,
            tiers: Vec::new(alloc),
            homes: HomeTable::new(alloc),
            waiting: Vec::new(alloc),
        }
    }

    /// Takes note that under this id another filter is live, or none, or the first. It builds
    /// nothing, and its only failure is want of memory; the tiers may then only be dropped.
    pub fn change(&mut self, id: u32) -> Result<(), AllocError>
        ensures changed { OnOk result ((before after : List Subscription) →
            StandFor self.old before → others id after ≡ others id before →
            StandFor self.new after) }
    {
        self.homes.set(id, 0)?;
        self.waiting.push(id)?;
        Ok(())
    }

    /// The ids of the live filters that match the document of these events, rising. What waits is
    /// built first. All machines together then remember 134,217,728 bytes at most. Its only failure
    /// is want of memory; the tiers may then only be dropped.
    pub fn matches(&mut self, journal: &Journal, events: &EventList) -> Result<Ids, AllocError>
        requires stand { StandFor self.old (live (history journal.now.changes)) }
        requires whole { (root : Root) × (events_of root ≡ events.now) }
        ensures ids { IfOk result (λ ids. (root : Root) → events_of root ≡ events.now → ids ≡
            matches (history journal.now.changes) root) }
        ensures stand { OnOk result (StandFor self.new (live (history journal.now.changes))) }
        ensures few { OnOk result (remembered self.new ≤ 134_217_728) }
    {
        // The history is legal, so the ids of the live filters rise.
        let _version = journal.version();
        live_filters_are_in_order();
        self.catch_up(journal)?;
        self.ids_of(events)
    }

    // Builds what waits.
    fn catch_up(&mut self, journal: &Journal) -> Result<(), AllocError>
        requires stand { StandFor self.old (live (history journal.now.changes)) }
        ensures settled { OnOk result (AreSettled self.new (live (history journal.now.changes))) }
    {
        if self.waiting.is_empty() {
            return Ok(());
        }
        let fresh = live_among(self.alloc, journal, &self.waiting)?;
        let kept = kept_tiers(&self.tiers, &self.homes, fresh.len());
        if is_none(&fresh) && kept == self.tiers.len() {
            self.waiting.clear();
            return Ok(());
        }
        self.rebuild(journal, kept, fresh)
    }

    // Puts one new tier in the place of all but the oldest ones that stay: that of the live filters
    // that are at home in those, and of the fresh ones.
    fn rebuild(&mut self, journal: &Journal, kept: usize, fresh: Vec<u32>) -> Result<(), AllocError>
        requires stand { StandFor self.old (live (history journal.now.changes)) }
        requires within { kept ≤ length self.old.tiers.items }
        requires few { kept < 8 }
        requires fresh { (q : ℕ) → has self.old.waiting.items q ≡ true →
            IsLive q (live (history journal.now.changes)) → has fresh.items q ≡ true }
        ensures settled { OnOk result (AreSettled self.new (live (history journal.now.changes))) }
    {
        let _version = journal.version();
        live_filters_are_in_order();
        let mut ids = fresh;
        gather(&mut ids, &self.tiers[kept..], &self.homes, kept)?;
        let ids = ascending(ids);
        let filters = filters_of(self.alloc, journal, &ids)?;
        let number = kept as u8 + 1;
        let tier = Tier::build(self.alloc, &filters, share_of(kept))?;
        self.homes.set_all(&ids, number)?;
        self.tiers.truncate(kept);
        self.tiers.push(tier)?;
        self.waiting.clear();
        Ok(())
    }

    // The ids of the live filters that match, of all tiers.
    fn ids_of(&mut self, events: &EventList) -> Result<Ids, AllocError>
        requires settled { (live : List Subscription) × AreSettled self.old live }
        requires whole { (root : Root) × (events_of root ≡ events.now) }
        ensures ids { IfOk result (λ ids. (live : List Subscription) (root : Root) →
            AreSettled self.old live → Rising (map (λ s. s.id) live) → events_of root ≡ events.now →
            ids ≡ ids_where (λ filter. holds filter root) live) }
        ensures stand { OnOk result ((live : List Subscription) → AreSettled self.old live →
            StandFor self.new live) }
        ensures within { OnOk result (All IsWithin self.new.tiers.items) }
    {
        let ids = found_by(self.alloc, &mut self.tiers, &self.homes, events)?;
        Ok(Ids::of(ascending(ids)))
    }
}

// The ids that the machines give, each of the one in which it is at home.
fn found_by(
    alloc: Global,
    tiers: &mut Vec<Tier>,
    homes: &HomeTable,
    events: &EventList,
) -> Result<Vec<u32>, AllocError>
    requires stand { (parts : List (List Subscription)) × AllZip IsTier tiers.old.items parts }
    requires whole { (root : Root) × (events_of root ≡ events.now) }
    ensures ids { IfOk result (λ ids. (parts : List (List Subscription)) (root : Root) →
        AllZip IsTier tiers.old.items parts → events_of root ≡ events.now →
        (q : ℕ) → has ids.items q ≡
        passes_at_home (home_of homes.now) (λ filter. holds filter root) 1 parts q) }
    ensures stand { OnOk result ((parts : List (List Subscription)) →
        AllZip IsTier tiers.old.items parts → AllZip IsTier tiers.new.items parts) }
    ensures bounded { OnOk result ((left : ℕ) → AreBounded left tiers.old.items →
        AreBounded left tiers.new.items) }
    ensures within { OnOk result (All IsWithin tiers.new.items) }
{
    let mut ids = Vec::new(alloc);
    for (at, tier) in tiers.iter_mut().enumerate() {
        let accepted = tier.matches(events)?;
        keep_at_home(&mut ids, accepted.as_slice(), homes, at)?;
    }
    Ok(ids)
}

// Puts those of the ids that are at home behind so many tiers, in the next, behind those kept.
fn keep_at_home(
    kept: &mut Vec<u32>,
    ids: &[u32],
    homes: &HomeTable,
    older: usize,
) -> Result<(), AllocError>
    ensures kept { OnOk result ((q : ℕ) → has kept.new.items q ≡
        (has kept.old.items q || (home_of homes.now q == older + 1 && has ids.now q))) }
{
    for id in ids {
        push_if(kept, *id, is_at_home(homes, *id, older))?;
    }
    Ok(())
}

// Whether an id is at home in the tier behind so many.
fn is_at_home(homes: &HomeTable, id: u32, older: usize) -> bool
    ensures home { result ≡ (home_of homes.now id == older + 1) }
{
    u128::from(homes.of(id)) == older as u128 + 1
}

// Whether there are no ids.
fn is_none(ids: &[u32]) -> bool
    ensures none { result ≡ true → ids.now ≡ [] }
{
    ids.is_empty()
}
