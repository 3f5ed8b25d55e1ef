//! Calls of a pass that no bank serves.
ghost use Rattle.std.specs.Prelude.{◌≡◌, IfOk, OnOk, OnErr};
ghost use Rattle.std.specs.Arc.{arc_value};
ghost use Rattle.px_text.specs.Nodes.{Root};
ghost use Rattle.px_reader.specs.Spelling.{events_of};
ghost use Rattle.px_xpath.specs.Subscribed.{subscriptions};
ghost use Rattle.px_afa.specs.Building.{automata};
ghost use Rattle.px_afa.specs.Sound.{AreLive};
ghost use Rattle.px_rule.specs.declared.view.Place.TheVariants.{Outside};
ghost use Rattle.px_hub.specs.declared.engine.Engine.TheVariants.{Private};
ghost use Rattle.px_hub.specs.Passes.{PassView};
ghost use Rattle.px_hub.specs.Replying.{Replies, program_of};
ghost use Rattle.px_hub.specs.OpenCalls.{HasTaken, BeginsAlone, opened, closed, answer_alone};

use crate::call::Call;
use crate::engine::Engine;
use crate::lone::Lone;
use crate::name::HubName;
use crate::pass::Pass;
use crate::reply::{Reply, Why};
use px_afa::Program;
use px_text::Ids;
use px_workload::{Live, live_filters_are_in_order};
use std::alloc::{AllocError, Global};
use std::sync::Arc;

impl<N: HubName> Pass<N> {
    /// Begins a call that makes all steps by itself, for this cause. Its only failure is want of
    /// memory, and then the pass is as it was.
    pub(crate) fn begin_alone(&mut self, alloc: Global, why: Why) -> Result<Call<N>, AllocError>
        ensures pass { OnOk result (self.new ≡ opened self.old) }
        ensures call { IfOk result (λ call. BeginsAlone (program_of self.old) why call) }
        ensures memory { OnErr result (self.new ≡ self.old) }
    {
        let program = self.own_program(alloc)?;
        let lone = Lone::new(alloc, program)?;
        self.is_open = true;
        Ok(Call::of(Engine::Private { lone, why }))
    }

    // The program of the version that the pass has reached: its own, or one that is built.
    fn own_program(&self, alloc: Global) -> Result<Arc<Program>, AllocError>
        ensures { IfOk result (λ program. arc_value program ≡ program_of self.now) }
    {
        if self.built.version == self.version {
            return Arc::try_clone(&self.built.program);
        }
        live_filters_are_in_order();
        build(alloc, &self.live)
    }

    /// Ends a call that made all steps by itself, whose events are those of a tree. Its only
    /// failure is want of memory.
    pub(crate) fn finish_alone(&mut self, lone: Lone, why: Why) -> Result<Reply, AllocError>
        requires whole { (v : PassView) × (root : Root) ×
            HasTaken N.table v self.old (Private lone why) (events_of root) }
        ensures reply { IfOk result (λ reply. (v : PassView) (root : Root) →
            HasTaken N.table v self.old (Private lone why) (events_of root) →
            Replies N.table.shape v self.new root reply) }
        ensures memory { OnErr result (self.new ≡ closed self.old) }
    {
        let version = self.version;
        let number = self.number;
        self.is_open = false;
        answer(version, number, why, lone.finish())
    }

    /// Ends a call that the pass is in no bank for.
    pub(crate) fn close(&mut self)
        requires outside { self.old.view.stay.place ≡ Outside }
        ensures { self.new ≡ closed self.old }
    {
        self.is_open = false;
    }
}

// The answer of a call that made all steps by itself, by what was found and how many they are.
fn answer(
    version: u32,
    pass: u32,
    why: Why,
    done: Result<(Ids, u64), AllocError>,
) -> Result<Reply, AllocError>
    ensures { result ≡ answer_alone version pass why done }
{
    match done {
        Ok((ids, own)) => Ok(Reply {
            version,
            pass,
            ids,
            found: 0,
            computed: 0,
            own,
            why,
        }),
        Err(status) => Err(status),
    }
}

// The program of live filters.
fn build(alloc: Global, live: &Live) -> Result<Arc<Program>, AllocError>
    requires live { AreLive (subscriptions live.now.filters) }
    ensures { IfOk result
        (λ program. arc_value program ≡ automata (subscriptions live.now.filters)) }
{
    Ok(Arc::new(alloc, Program::build(alloc, live.as_slice())?)?)
}
