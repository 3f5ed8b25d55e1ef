//! Changes and refusals, under the lock.
ghost use Rattle.std.specs.Prelude.{◌≡◌, ◌+◌, ◌<◌, ◌≤◌, ◌++◌, ◌∷◌, [], length, IfOk, OnOk, OnErr, IsTrue, IsFalse, ◌↔◌};
ghost use Rattle.px_xpath.specs.declared.filter.Filter.{Filter as Filtering};
ghost use Rattle.px_xpath.specs.Histories as histories;
ghost use Rattle.px_xpath.specs.Whole as whole;
ghost use Rattle.px_xpath.specs.Histories.{IsLegal};
ghost use Rattle.px_workload.specs.Changes.{history};
ghost use Rattle.px_hub.specs.Entries.{who_of};
ghost use Rattle.px_hub.specs.Calls.{AddsTo, PutsIn, Unsubscribed, CaughtUp, Accepted, live_behind, size_behind, size_beside, seen_of};

use crate::desk::Desk;
use crate::exchange::{accept, catch_up};
use crate::faults::{ReplaceFault, SubscribeFault, UnsubscribeFault};
use crate::law::Workload;
use crate::name::HubName;
use crate::pass::Pass;
use px_rule::Shared;
use px_workload::Change;
use px_xpath::{Filter, size};
use std::alloc::{AllocError, Global};
use std::sync::Arc;

/// How many changes a history may have.
const MOST_CHANGES: u32 = 1_048_575;

/// The most that the sizes of the live filters may be together.
const MOST_SIZE: u64 = 500_000;

// Whether a filter is too large beside others of this size.
fn is_too_large(others: u32, filter: &Filter) -> bool
    ensures large { IsTrue result → 500_000 < others + histories.size (whole.filter filter.now) }
    ensures small { IsFalse result → others + histories.size (whole.filter filter.now) ≤ 500_000 }
{
    u64::from(others) + u64::from(size(filter)) > MOST_SIZE
}

impl<N: HubName> Desk<N> {
    /// How many changes there are.
    pub(crate) fn version(&self) -> u32
        ensures version { result ≡ length self.now.past.seen }
        ensures legal { IsLegal (history self.now.past.seen) }
    {
        self.journal.version()
    }

    // The sizes of the live filters together.
    fn live_size(&self) -> u32
        ensures { result ≡ size_behind self.now.past.seen }
    {
        self.journal.live_size()
    }

    // The sizes of the live filters but that of a live id.
    fn size_beside(&self, id: u32) -> u32
        requires legal { IsLegal (history self.now.past.seen) }
        requires live { histories.IsLive id (live_behind self.now.past.seen) }
        ensures others { result ≡ size_beside id self.now.past.seen }
        ensures replaced { (new : Filtering) →
            histories.live_size (histories.after 0 (live_behind self.now.past.seen)
            (histories.Replaces 0 id (whole.filter new))) ≡
            result + histories.size (whole.filter new) }
    {
        self.journal.live_size() - self.journal.size_of(id)
    }

    // Whether no version is left.
    fn is_full(&self) -> bool
        ensures full { IsTrue result → length self.now.past.seen ≡ 1_048_575 }
        ensures room { IsFalse result → length self.now.past.seen < 1_048_575 }
        ensures legal { IsLegal (history self.now.past.seen) }
    {
        self.journal.version() >= MOST_CHANGES
    }

    fn is_live(&self, id: u32) -> bool
        ensures { IsTrue result ↔ histories.IsLive id (live_behind self.now.past.seen) }
    {
        self.journal.is_live(id)
    }

    /// Adds a filter of the pass, unless it is too large or no version is left.
    pub(crate) fn subscribe(
        &mut self,
        alloc: Global,
        shared: &Shared<Workload>,
        pass: &mut Pass<N>,
        filter: Filter,
    ) -> Result<u32, SubscribeFault>
        requires table { shared.now ≡ N.table }
        ensures { AddsTo filter pass.old pass.new result }
    {
        let live = self.live_size();
        if is_too_large(live, &filter) {
            self.catch_up(alloc, shared, pass)?;
            return Err(SubscribeFault::TooLarge { live });
        }
        if self.is_full() {
            self.catch_up(alloc, shared, pass)?;
            return Err(SubscribeFault::NoVersions);
        }
        let who = pass.number();
        let id = self.accept(alloc, shared, pass, Change::Add { who, filter })?;
        Ok(id)
    }

    /// Drops a live filter, unless no version is left.
    pub(crate) fn unsubscribe(
        &mut self,
        alloc: Global,
        shared: &Shared<Workload>,
        pass: &mut Pass<N>,
        id: u32,
    ) -> Result<u32, UnsubscribeFault>
        requires table { shared.now ≡ N.table }
        ensures { Unsubscribed id pass.old pass.new result }
    {
        if !self.is_live(id) {
            self.catch_up(alloc, shared, pass)?;
            return Err(UnsubscribeFault::Unknown);
        }
        if self.is_full() {
            self.catch_up(alloc, shared, pass)?;
            return Err(UnsubscribeFault::NoVersions);
        }
        let who = pass.number();
        let version = self.accept(alloc, shared, pass, Change::Drop { who, id })?;
        Ok(version)
    }

    /// Puts another filter in the place of a live one, unless it is too large beside the others or
    /// no version is left.
    pub(crate) fn replace(
        &mut self,
        alloc: Global,
        shared: &Shared<Workload>,
        pass: &mut Pass<N>,
        id: u32,
        filter: Filter,
    ) -> Result<u32, ReplaceFault>
        requires table { shared.now ≡ N.table }
        ensures { PutsIn id filter pass.old pass.new result }
    {
        if !self.is_live(id) {
            self.catch_up(alloc, shared, pass)?;
            return Err(ReplaceFault::Unknown);
        }
        let is_full = self.is_full();
        let live = self.size_beside(id);
        if is_too_large(live, &filter) {
            self.catch_up(alloc, shared, pass)?;
            return Err(ReplaceFault::TooLarge { live });
        }
        if is_full {
            self.catch_up(alloc, shared, pass)?;
            return Err(ReplaceFault::NoVersions);
        }
        let who = pass.number();
        let change = Change::Replace { who, id, filter };
        let version = self.accept(alloc, shared, pass, change)?;
        Ok(version)
    }

    // Accepts a change of the pass, which then has seen it as the last. Its only failure is want of
    // memory, and then nothing has changed.
    fn accept(
        &mut self,
        alloc: Global,
        shared: &Shared<Workload>,
        pass: &mut Pass<N>,
        change: Change,
    ) -> Result<u32, AllocError>
        requires table { shared.now ≡ N.table }
        requires who { who_of change ≡ pass.old.number }
        requires legal { IsLegal (history (self.old.past.seen ++ change ∷ [])) }
        ensures accepted { IfOk result (λ version. Accepted change version pass.old pass.new) }
        ensures desk { OnOk result ((self.new.past.seen ≡ self.old.past.seen ++ change ∷ []) ×
            (seen_of pass.new ≡ self.new.past.seen)) }
        ensures unchanged { OnErr result ((pass.new ≡ pass.old) × (self.new ≡ self.old)) }
    {
        let live = self.journal.snapshot_after(alloc, &change)?;
        let live = Arc::new(alloc, live)?;
        self.journal.reserve()?;
        accept(shared, &mut self.seat, &mut pass.seat, &change);
        let version = self.journal.append(change);
        pass.version = version;
        pass.live = live;
        Ok(version)
    }

    // The pass sees all that the desk has seen. Its only failure is want of memory, and then
    // nothing has changed.
    fn catch_up(
        &mut self,
        alloc: Global,
        shared: &Shared<Workload>,
        pass: &mut Pass<N>,
    ) -> Result<(), AllocError>
        requires table { shared.now ≡ N.table }
        ensures caught { OnOk result (CaughtUp pass.old pass.new) }
        ensures desk { self.new.past.seen ≡ self.old.past.seen }
        ensures same { OnOk result (seen_of pass.new ≡ self.new.past.seen) }
        ensures unchanged { OnErr result (pass.new ≡ pass.old) }
    {
        let live = self.journal.snapshot(alloc)?;
        let live = Arc::new(alloc, live)?;
        let version = self.journal.version();
        catch_up(shared, &mut self.seat, &mut pass.seat);
        pass.version = version;
        pass.live = live;
        Ok(())
    }
}
