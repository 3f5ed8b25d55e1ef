//! The machine of the newest version, and a refresh, under the lock.
ghost use Rattle.std.specs.Prelude.{◌≡◌, ◌<◌, false, All, length, IfOk, OnOk, OnErr};
ghost use Rattle.std.specs.Arc.{arc_value};
ghost use Rattle.px_hub.specs.Entries.{who_of};
ghost use Rattle.px_hub.specs.Passes.{IsBuilt};
ghost use Rattle.px_hub.specs.Calls.{Refreshed, seen_of};

use crate::at_version::AtVersion;
use crate::banks::give_home;
use crate::desk::Desk;
use crate::law::Workload;
use crate::name::HubName;
use crate::pass::Pass;
use px_afa::Program;
use px_prune::Compiled;
use px_rule::Shared;
use px_workload::{Journal, live_filters_are_in_order};
use std::alloc::{AllocError, Global};
use std::sync::Arc;

/// The machine of the journal's version. Its only failure is want of memory.
pub(crate) fn build(alloc: Global, journal: &Journal) -> Result<Arc<AtVersion>, AllocError>
    ensures { IfOk result (λ c. ((arc_value c).version ≡ length journal.now.changes) ×
        IsBuilt journal.now.changes (arc_value c)) }
{
    let version = journal.version();
    let live = journal.snapshot(alloc)?;
    live_filters_are_in_order();
    let program = Arc::new(alloc, Program::build(alloc, live.as_slice())?)?;
    let compiled = Compiled::of(alloc, Arc::try_clone(&program)?)?;
    let live = Arc::new(alloc, live)?;
    Ok(Arc::new(
        alloc,
        AtVersion {
            version,
            live,
            program,
            compiled,
        },
    )?)
}

impl<N: HubName> Desk<N> {
    // The machine of the newest version, which is built once.
    fn newest(&mut self, alloc: Global) -> Result<Arc<AtVersion>, AllocError>
        ensures same { self.new ≡ self.old }
        ensures machine { IfOk result (λ c. ((arc_value c).version ≡ length self.old.past.seen) ×
            IsBuilt self.old.past.seen (arc_value c)) }
    {
        if self.built.version != self.journal.version() {
            self.built = build(alloc, &self.journal)?;
        }
        Arc::try_clone(&self.built)
    }

    /// The pass gets the newest version, its program and a bank. Its only failure is want of
    /// memory, and then nothing has changed.
    pub(crate) fn refresh(
        &mut self,
        alloc: Global,
        shared: &Shared<Workload>,
        pass: &mut Pass<N>,
    ) -> Result<u32, AllocError>
        requires table { shared.now ≡ N.table }
        requires closed { pass.old.is_open ≡ false }
        ensures refreshed { IfOk result
            (λ version. Refreshed N.table.shape.banks version pass.old pass.new) }
        ensures desk { self.new.past.seen ≡ self.old.past.seen }
        ensures same { OnOk result (seen_of pass.new ≡ self.new.past.seen) }
        ensures of_passes { OnOk result (All (λ c. who_of c < N.passes) (seen_of pass.new)) }
        ensures unchanged { OnErr result ((pass.new ≡ pass.old) × (self.new ≡ self.old)) }
    {
        let built = self.newest(alloc)?;
        let live = Arc::try_clone(&built.live)?;
        let words = vec![in alloc; 0u64; shared.shape().banks as usize]?;
        let version = self.journal.version();
        let home = give_home(
            shared,
            &mut self.seat,
            &mut pass.seat,
            &mut self.stands,
            version,
            words,
        );
        pass.version = version;
        pass.live = live;
        pass.built = built;
        pass.home = home;
        Ok(version)
    }
}
