//! A refresh of all passes, under the lock.
ghost use Rattle.std.specs.Prelude.{◌≡◌, ◌<◌, All, length, slice_index_or, slice_set, OnOk, IfOk, OnErr};
ghost use Rattle.px_hub.specs.Entries.{who_of};
ghost use Rattle.px_hub.specs.Calls.{Refreshed, seen_of};
ghost use Rattle.px_hub.specs.AllOfThem.{HoldsEvery, AreClosed, AllRefreshed, SomeRefreshed, RefreshedAt};

use crate::desk::Desk;
use crate::law::Workload;
use crate::name::HubName;
use crate::pass::Pass;
use px_rule::Shared;
use std::alloc::{AllocError, Global};

impl<N: HubName> Desk<N> {
    /// Each pass gets the newest version, its program and a bank. Where memory is refused, some
    /// have them and the others are as before.
    pub(crate) fn refresh_all(
        &mut self,
        alloc: Global,
        shared: &Shared<Workload>,
        passes: &mut [Pass<N>],
    ) -> Result<u32, AllocError>
        requires table { shared.now ≡ N.table }
        requires every { HoldsEvery N.passes passes.old }
        requires closed { AreClosed passes.old }
        ensures refreshed { IfOk result
            (λ version. AllRefreshed N.table.shape.banks version passes.old passes.new) }
        ensures memory { OnErr result (SomeRefreshed N.table.shape.banks passes.old passes.new) }
    {
        for at in 0..passes.len() {
            self.refresh_at(alloc, shared, passes, at)?;
        }
        Ok(self.version())
    }

    // Refreshes one of the passes.
    fn refresh_at(
        &mut self,
        alloc: Global,
        shared: &Shared<Workload>,
        passes: &mut [Pass<N>],
        at: usize,
    ) -> Result<(), AllocError>
        requires table { shared.now ≡ N.table }
        requires within { at < length passes.old }
        requires closed { AreClosed passes.old }
        ensures desk { self.new.past.seen ≡ self.old.past.seen }
        ensures refreshed { OnOk result
            (RefreshedAt N.table.shape.banks N.passes self.old.past.seen at passes.old passes.new) }
        ensures unchanged { OnErr result (passes.new ≡ passes.old) }
    {
        let pass = &mut passes[at];
        self.refresh(alloc, shared, pass)?;
        Ok(())
    }
}
