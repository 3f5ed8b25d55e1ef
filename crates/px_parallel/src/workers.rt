//! The passes of a hub at work: the first makes the changes, and the others filter.
ghost use Rattle.std.specs.Prelude.{◌≡◌, ◌<◌, List, length, IfOk, OnOk};
ghost use Rattle.px_feed.specs.Items.{Item as Given};
ghost use Rattle.px_feed.specs.Effects.{IsItem};
ghost use Rattle.px_workload.specs.declared.change.Change.{Change};
ghost use Rattle.px_lines.specs.Replying.{Answered};
ghost use Rattle.px_hub.specs.AllOfThem.{AreClosed};
ghost use Rattle.px_changer.specs.Alone.{IsAlone};
ghost use Rattle.px_changer.specs.Telling.{all_anonymous, told};
ghost use Rattle.px_pool.specs.Batches.{AllStay};
ghost use Rattle.px_gather.specs.Asking.{IsChange, AnswersChange, AnswersDocuments};
ghost use Rattle.px_parallel.specs.Hearing.{WereAsked};
ghost use Rattle.px_parallel.specs.Leading.{AreLed, AllHaveSeen, HaveAnswered, seen_first};
ghost use Rattle.px_parallel.specs.Replying.{AreRepliesBehind};

use crate::answers::lines_of;
use px_changer::{add, remove, replace};
use px_feed::{Item, OutLine};
use px_hub::{Hub, HubName, Pass, Reply};
use px_io::Gate;
use px_pool::batch;
use px_reader::Doc;
use std::alloc::{AllocError, Global};
use std::sync::Wait;
use std::thread::Threads;

/// What the passes work with.
#[derive(Drop)]
pub(crate) struct Workers<'a, N: HubName, G> {
    pub(crate) alloc: Global,
    pub(crate) hub: &'a Hub<N>,
    pub(crate) gate: &'a G,
}

impl<N: HubName + Send + Sync, G: Gate> Workers<'_, N, G> {
    /// Makes the change that an item asks for, and answers its line.
    pub(crate) fn make<R: Wait>(
        &self,
        rt: &R,
        passes: &mut [Pass<N>],
        item: Item,
    ) -> Result<OutLine, AllocError>
        requires change { IsChange item }
        requires led { AreLed N.passes passes.old }
        ensures led { OnOk result (AreLed N.passes passes.new) }
        ensures line { IfOk result (λ line. (brought : Given) → IsItem item brought →
            Answered brought (all_anonymous (seen_first passes.old))
            (all_anonymous (seen_first passes.new)) line) }
    {
        match passes.split_first_mut() {
            Some((first, others)) => self.make_by(rt, first, others, item),
            None => unreachable!(),
        }
    }

    // The same by the first pass and the others.
    fn make_by<R: Wait>(
        &self,
        rt: &R,
        first: &mut Pass<N>,
        others: &mut [Pass<N>],
        item: Item,
    ) -> Result<OutLine, AllocError>
        requires change { IsChange item }
        requires alone { IsAlone N.passes first.old others.old }
        ensures alone { OnOk result (IsAlone N.passes first.new others.new) }
        ensures line { IfOk result (λ line. (brought : Given) → IsItem item brought →
            Answered brought (told first.old) (told first.new) line) }
    {
        match item {
            Item::Add { text } => add(rt, self.hub, first, others, text.as_slice()),
            Item::Remove { text } => remove(rt, self.hub, first, others, text.as_slice()),
            Item::Replace { id, text } => replace(
                rt,
                self.alloc,
                self.hub,
                first,
                others,
                id.as_slice(),
                text.as_slice(),
            ),
            Item::Document { .. } => unreachable!(),
        }
    }

    // All passes are refreshed. Nobody else makes changes, so none came.
    fn refresh<R: Wait>(&self, rt: &R, passes: &mut [Pass<N>]) -> Result<(), AllocError>
        requires led { AreLed N.passes passes.old }
        ensures led { OnOk result (AreLed N.passes passes.new) }
        ensures same { OnOk result (seen_first passes.new ≡ seen_first passes.old) }
        ensures seen { OnOk result (AllHaveSeen (seen_first passes.old) passes.new) }
    {
        match self.hub.refresh_all(rt, passes) {
            Ok(_) => {
                passes[0].version();
                Ok(())
            }
            Err(error) => Err(error),
        }
    }

    /// The replies to documents, in order. All passes are refreshed before, and the others filter
    /// the documents side by side.
    pub(crate) fn filter_all<R: Threads + Wait + Sync>(
        &self,
        rt: &R,
        passes: &mut [Pass<N>],
        documents: &[Doc],
    ) -> Result<Vec<Reply>, AllocError>
        requires led { AreLed N.passes passes.old }
        ensures led { OnOk result (AreLed N.passes passes.new) }
        ensures same { OnOk result (seen_first passes.new ≡ seen_first passes.old) }
        ensures replies { IfOk result (λ replies.
            AreRepliesBehind (seen_first passes.old) documents.now replies.items) }
    {
        self.refresh(rt, passes)?;
        self.filter_behind(rt, passes, documents)
    }

    // The passes behind the first filter the documents.
    fn filter_behind<R: Threads + Wait + Sync>(
        &self,
        rt: &R,
        passes: &mut [Pass<N>],
        documents: &[Doc],
    ) -> Result<Vec<Reply>, AllocError>
        requires led { AreLed N.passes passes.old }
        ensures led { AreLed N.passes passes.new }
        ensures same { seen_first passes.new ≡ seen_first passes.old }
        ensures replies { IfOk result (λ replies. (seen : List Change) →
            AllHaveSeen seen passes.old → AreRepliesBehind seen documents.now replies.items) }
    {
        match passes.split_first_mut() {
            Some((_first, workers)) => self.filter_by(rt, workers, documents),
            None => unreachable!(),
        }
    }

    // The workers filter the documents.
    fn filter_by<R: Threads + Wait + Sync>(
        &self,
        rt: &R,
        workers: &mut [Pass<N>],
        documents: &[Doc],
    ) -> Result<Vec<Reply>, AllocError>
        requires some { 0 < length workers.old }
        requires closed { AreClosed workers.old }
        ensures stay { AllStay workers.old workers.new }
        ensures replies { IfOk result (λ replies. (seen : List Change) →
            AllHaveSeen seen workers.old → AreRepliesBehind seen documents.now replies.items) }
    {
        batch(rt, self.alloc, self.hub, workers, documents, self.gate)
    }

    /// Makes the change that an item asks for, and answers its line.
    pub(crate) fn change<R: Wait>(
        &self,
        rt: &R,
        passes: &mut [Pass<N>],
        item: Item,
    ) -> Result<OutLine, AllocError>
        requires change { IsChange item }
        requires asked { WereAsked (HaveAnswered N.passes) passes.old }
        ensures line { IfOk result (λ line. AnswersChange
            (HaveAnswered N.passes) item passes.old passes.new line) }
    {
        self.make(rt, passes, item)
    }

    /// Filters documents, and answers their lines in order.
    pub(crate) fn filter<R: Threads + Wait + Sync>(
        &self,
        rt: &R,
        passes: &mut [Pass<N>],
        documents: &[Doc],
    ) -> Result<Vec<OutLine>, AllocError>
        requires asked { WereAsked (HaveAnswered N.passes) passes.old }
        ensures lines { IfOk result (λ lines. AnswersDocuments
            (HaveAnswered N.passes) documents.now passes.old passes.new
            lines.items) }
    {
        let replies = self.filter_all(rt, passes, documents)?;
        lines_of(self.alloc, replies)
    }
}
