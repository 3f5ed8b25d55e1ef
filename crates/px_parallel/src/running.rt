//! The run, from the first item of a feed to its end.
ghost use Rattle.std.specs.Prelude.{◌≡◌, ◌≤◌, ℕ, [], Option, Some, Err, IfOk, OnOk, IsTrue};
ghost use Rattle.px_io.specs.Faults.{Rose};
ghost use Rattle.px_feed.specs.declared.ending.Taken.{Taken as Found};
ghost use Rattle.px_feed.specs.declared.ending.Taken.TheVariants as taken;
ghost use Rattle.px_feed.specs.declared.item.Item.{Item as Given};
ghost use Rattle.px_feed.specs.declared.item.Item.TheVariants as items;
ghost use Rattle.px_lines.specs.Served.{
  Served,
  ServedFront,
  ServedWhole,
  is_finished,
  is_cut_short,
};
ghost use Rattle.px_lines.specs.Standing.{Streams, streams};
ghost use Rattle.px_gather.specs.Asking.{IsChange, AnswersChange, AnswersDocuments, HasAnswered};
ghost use Rattle.px_gather.specs.Running.{
  CanRun,
  Goes,
  HasEnded,
  Turns,
  TakesUp,
  AnswersWaiting,
  EndsRun,
};
ghost use Rattle.px_gather.specs.Waiting.{documents_of};
ghost use Rattle.px_parallel.specs.Hearing.{HaveHeard, WereAsked};

use crate::listener::Listener;
use crate::workers::Workers;
use px_feed::{Item, OutLine, Status, Taken};
use px_gather::Gathering;
use px_hub::{HubName, Pass};
use px_io::{Gate, Sink, Source};
use px_reader::Doc;
use std::alloc::{AllocError, Global};
use std::slice::from_ref;
use std::sync::Wait;
use std::thread::Threads;

/// A feed has at most so many bytes, each item takes one at least, and then comes its end.
const MOST_TURNS: u64 = 1_099_511_627_777;

/// Answers the items of a feed in order, each by one line, to the end of the feed or its first
/// fault. A run that was not cut short has answered what the items ask, and nothing else, and all
/// its lines were heard.
pub(crate) fn answer_feed<N, G, R, L, S, K>(
    run: &Running<'_, N, G, R>,
    alloc: Global,
    passes: &mut [Pass<N>],
    listener: &mut L,
    source: &mut S,
    sink: &mut K,
) -> Status
where
    N: HubName + Send + Sync,
    G: Gate,
    R: Threads + Wait + Sync,
    L: Listener,
    S: Source,
    K: Sink,
    requires new { HaveHeard N.passes L.heard (passes.old, listener.old) [] }
    ensures not_usage { result ≡ Status.Usage → ⊥ }
    ensures output { IsTrue (is_finished result) →
        Served (S.left source.old) (S.left source.new) (K.held sink.old) (K.held sink.new) result }
    ensures front { IsTrue (is_cut_short result) →
        ServedFront (S.left source.old) (K.held sink.old) (K.held sink.new) }
    ensures whole_items { result ≡ Status.ReadFault →
        ServedWhole (S.left source.old) (S.left source.new) (K.held sink.old) (K.held sink.new) }
    ensures read_fault { result ≡ Status.ReadFault →
        Rose (S.faults source.old) (S.faults source.new) }
    ensures write_fault { result ≡ Status.WriteFault →
        Rose (K.faults sink.old) (K.faults sink.new) }
    ensures answered { HasAnswered (HaveHeard N.passes L.heard (passes.new, listener.new))
        result (S.left source.old) (S.left source.new) }
    ensures source_counts { S.faults source.old ≤ S.faults source.new }
    ensures sink_counts { K.faults sink.old ≤ K.faults sink.new }
{
    match Gathering::new(alloc) {
        Ok(mut gathering) => run.answer_all(&mut gathering, passes, listener, source, sink),
        Err(_) => Status::Memory,
    }
}

/// What a run is answered by.
#[derive(Drop)]
pub(crate) struct Running<'a, N: HubName, G, R> {
    pub(crate) rt: &'a R,
    pub(crate) workers: Workers<'a, N, G>,
}

impl<N: HubName + Send + Sync, G: Gate, R: Threads + Wait + Sync> Running<'_, N, G, R> {
    // Answers all items, and ends the run.
    fn answer_all<L: Listener, S: Source, K: Sink>(
        &self,
        gathering: &mut Gathering,
        passes: &mut [Pass<N>],
        listener: &mut L,
        source: &mut S,
        sink: &mut K,
    ) -> Status
        requires begun { (first : Streams) →
            Goes (HaveHeard N.passes L.heard) gathering.old
            (passes.old, listener.old) first first 0 }
        ensures ended { HasEnded (HaveHeard N.passes L.heard) result (passes.new, listener.new)
            (streams (S.left source.old) (K.held sink.old) (S.faults source.old))
            (streams (S.left source.new) (K.held sink.new) (S.faults source.new)) }
        ensures write_fault { result ≡ Status.WriteFault →
            Rose (K.faults sink.old) (K.faults sink.new) }
        ensures source_counts { S.faults source.old ≤ S.faults source.new }
        ensures sink_counts { K.faults sink.old ≤ K.faults sink.new }
    {
        for _ in 0..MOST_TURNS {
            match self.answer_next(gathering, passes, listener, source, sink) {
                Ok(()) => {}
                Err(status) => return status,
            }
        }
        unreachable!()
    }

    // Takes the next item and takes it up. An error is the status with which the run has ended.
    fn answer_next<L: Listener, S: Source, K: Sink>(
        &self,
        gathering: &mut Gathering,
        passes: &mut [Pass<N>],
        listener: &mut L,
        source: &mut S,
        sink: &mut K,
    ) -> Result<(), Status>
        requires can_turn { (first : Streams) × (least : ℕ) ×
            Goes (HaveHeard N.passes L.heard) gathering.old (passes.old, listener.old) first
            (streams (S.left source.old) (K.held sink.old) (S.faults source.old)) least }
        ensures turns { Turns (HaveHeard N.passes L.heard) result gathering.old gathering.new
            (passes.old, listener.old) (passes.new, listener.new)
            (streams (S.left source.old) (K.held sink.old) (S.faults source.old))
            (streams (S.left source.new) (K.held sink.new) (S.faults source.new)) }
        ensures write_fault { result ≡ Err Status.WriteFault →
            Rose (K.faults sink.old) (K.faults sink.new) }
        ensures source_counts { S.faults source.old ≤ S.faults source.new }
        ensures sink_counts { K.faults sink.old ≤ K.faults sink.new }
    {
        match gathering.take(source, sink) {
            Ok(found) => self.take_up(gathering, passes, listener, found, sink),
            Err(status) => Err(status),
        }
    }

    // Takes up what was found: an item, or how the feed has ended.
    fn take_up<L: Listener, K: Sink>(
        &self,
        gathering: &mut Gathering,
        passes: &mut [Pass<N>],
        listener: &mut L,
        found: Taken,
        sink: &mut K,
    ) -> Result<(), Status>
        requires can_run { CanRun (HaveHeard N.passes L.heard) (Some found) gathering.old
            (passes.old, listener.old) (K.held sink.old) }
        ensures takes_up { TakesUp (HaveHeard N.passes L.heard) found result gathering.old
            gathering.new (passes.old, listener.old) (passes.new, listener.new)
            (K.held sink.old) (K.held sink.new) }
        ensures write_fault { result ≡ Err Status.WriteFault →
            Rose (K.faults sink.old) (K.faults sink.new) }
        ensures sink_counts { K.faults sink.old ≤ K.faults sink.new }
    {
        match found {
            Taken::Item(item) => self.answer(gathering, passes, listener, item, sink),
            end => Err(self.end(gathering, passes, listener, end, sink)),
        }
    }

    // Takes up an item: a document waits, and a change is answered behind all that wait.
    fn answer<L: Listener, K: Sink>(
        &self,
        gathering: &mut Gathering,
        passes: &mut [Pass<N>],
        listener: &mut L,
        item: Item,
        sink: &mut K,
    ) -> Result<(), Status>
        requires can_run { CanRun (HaveHeard N.passes L.heard) (Some (taken.Item item))
            gathering.old (passes.old, listener.old) (K.held sink.old) }
        ensures takes_up { TakesUp (HaveHeard N.passes L.heard) (taken.Item item) result
            gathering.old gathering.new (passes.old, listener.old)
            (passes.new, listener.new) (K.held sink.old) (K.held sink.new) }
        ensures write_fault { result ≡ Err Status.WriteFault →
            Rose (K.faults sink.old) (K.faults sink.new) }
        ensures sink_counts { K.faults sink.old ≤ K.faults sink.new }
    {
        match item {
            Item::Document { doc } => self.keep(gathering, passes, listener, doc, sink),
            change => self.make(gathering, passes, listener, change, sink),
        }
    }

    // A document waits. Where enough do, all are answered.
    fn keep<L: Listener, K: Sink>(
        &self,
        gathering: &mut Gathering,
        passes: &mut [Pass<N>],
        listener: &mut L,
        doc: Doc,
        sink: &mut K,
    ) -> Result<(), Status>
        requires can_run { CanRun (HaveHeard N.passes L.heard)
            (Some (taken.Item (items.Document doc))) gathering.old
            (passes.old, listener.old) (K.held sink.old) }
        ensures takes_up { TakesUp (HaveHeard N.passes L.heard)
            (taken.Item (items.Document doc)) result gathering.old gathering.new
            (passes.old, listener.old) (passes.new, listener.new) (K.held sink.old)
            (K.held sink.new) }
        ensures write_fault { result ≡ Err Status.WriteFault →
            Rose (K.faults sink.old) (K.faults sink.new) }
        ensures sink_counts { K.faults sink.old ≤ K.faults sink.new }
    {
        let Ok(()) = gathering.keep(doc) else {
            return Err(Status::Memory);
        };
        if gathering.is_full() {
            return self.answer_waiting(gathering, passes, listener, sink);
        }
        Ok(())
    }

    // Makes a change behind the documents that wait, and says its line.
    fn make<L: Listener, K: Sink>(
        &self,
        gathering: &mut Gathering,
        passes: &mut [Pass<N>],
        listener: &mut L,
        change: Item,
        sink: &mut K,
    ) -> Result<(), Status>
        requires is_change { IsChange change }
        requires can_run { CanRun (HaveHeard N.passes L.heard) (Some (taken.Item change))
            gathering.old (passes.old, listener.old) (K.held sink.old) }
        ensures takes_up { TakesUp (HaveHeard N.passes L.heard) (taken.Item change) result
            gathering.old gathering.new (passes.old, listener.old)
            (passes.new, listener.new) (K.held sink.old) (K.held sink.new) }
        ensures write_fault { result ≡ Err Status.WriteFault →
            Rose (K.faults sink.old) (K.faults sink.new) }
        ensures sink_counts { K.faults sink.old ≤ K.faults sink.new }
    {
        match self.answer_waiting(gathering, passes, listener, sink) {
            Ok(()) => self.make_next(gathering, passes, listener, change, sink),
            Err(status) => Err(status),
        }
    }

    // Makes a change where no document waits, and says its line.
    fn make_next<L: Listener, K: Sink>(
        &self,
        gathering: &mut Gathering,
        passes: &mut [Pass<N>],
        listener: &mut L,
        change: Item,
        sink: &mut K,
    ) -> Result<(), Status>
        requires none { documents_of gathering.old ≡ [] }
        requires is_change { IsChange change }
        requires can_run { CanRun (HaveHeard N.passes L.heard) (Some (taken.Item change))
            gathering.old (passes.old, listener.old) (K.held sink.old) }
        ensures takes_up { TakesUp (HaveHeard N.passes L.heard) (taken.Item change) result
            gathering.old gathering.new (passes.old, listener.old)
            (passes.new, listener.new) (K.held sink.old) (K.held sink.new) }
        ensures write_fault { result ≡ Err Status.WriteFault →
            Rose (K.faults sink.old) (K.faults sink.new) }
        ensures sink_counts { K.faults sink.old ≤ K.faults sink.new }
    {
        match self.change(passes, listener, change) {
            Ok(line) => gathering.answer(&line, sink),
            Err(_) => Err(Status::Memory),
        }
    }

    // Ends the run as the feed has ended, behind the documents that wait.
    fn end<L: Listener, K: Sink>(
        &self,
        gathering: &mut Gathering,
        passes: &mut [Pass<N>],
        listener: &mut L,
        end: Taken,
        sink: &mut K,
    ) -> Status
        requires no_item { (item : Given) → end ≡ taken.Item item → ⊥ }
        requires can_run { CanRun (HaveHeard N.passes L.heard) (Some end) gathering.old
            (passes.old, listener.old) (K.held sink.old) }
        ensures ends { EndsRun (HaveHeard N.passes L.heard) end result gathering.old
            (passes.old, listener.old) (passes.new, listener.new) (K.held sink.old)
            (K.held sink.new) }
        ensures write_fault { result ≡ Status.WriteFault →
            Rose (K.faults sink.old) (K.faults sink.new) }
        ensures sink_counts { K.faults sink.old ≤ K.faults sink.new }
    {
        match self.answer_waiting(gathering, passes, listener, sink) {
            Ok(()) => gathering.end(end, sink),
            Err(status) => status,
        }
    }

    // Filters the documents that wait, and says their lines.
    fn answer_waiting<L: Listener, K: Sink>(
        &self,
        gathering: &mut Gathering,
        passes: &mut [Pass<N>],
        listener: &mut L,
        sink: &mut K,
    ) -> Result<(), Status>
        requires can_run { (found : Option Found) × CanRun (HaveHeard N.passes L.heard) found
            gathering.old (passes.old, listener.old) (K.held sink.old) }
        ensures answers { AnswersWaiting (HaveHeard N.passes L.heard) result gathering.old
            gathering.new (passes.old, listener.old) (passes.new, listener.new)
            (K.held sink.old) (K.held sink.new) }
        ensures none { OnOk result (documents_of gathering.new ≡ []) }
        ensures write_fault { result ≡ Err Status.WriteFault →
            Rose (K.faults sink.old) (K.faults sink.new) }
        ensures sink_counts { K.faults sink.old ≤ K.faults sink.new }
    {
        if gathering.documents().is_empty() {
            return Ok(());
        }
        match self.filter(passes, listener, gathering.documents()) {
            Ok(lines) => gathering.answer_all(lines.as_slice(), sink),
            Err(_) => Err(Status::Memory),
        }
    }

    // Makes a change, and has its line heard.
    fn change<L: Listener>(
        &self,
        passes: &mut [Pass<N>],
        listener: &mut L,
        item: Item,
    ) -> Result<OutLine, AllocError>
        requires change { IsChange item }
        requires before { WereAsked (HaveHeard N.passes L.heard) (passes.old, listener.old) }
        ensures line { IfOk result (λ line. AnswersChange (HaveHeard N.passes L.heard) item
            (passes.old, listener.old) (passes.new, listener.new) line) }
    {
        let line = self.workers.change(self.rt, passes, item)?;
        listener.hear(from_ref(&line))?;
        Ok(line)
    }

    // Filters documents, and has their lines heard.
    fn filter<L: Listener>(
        &self,
        passes: &mut [Pass<N>],
        listener: &mut L,
        documents: &[Doc],
    ) -> Result<Vec<OutLine>, AllocError>
        requires before { WereAsked (HaveHeard N.passes L.heard) (passes.old, listener.old) }
        ensures lines { IfOk result (λ lines. AnswersDocuments (HaveHeard N.passes L.heard)
            documents.now (passes.old, listener.old) (passes.new, listener.new) lines.items) }
    {
        let lines = self.workers.filter(self.rt, passes, documents)?;
        listener.hear(lines.as_slice())?;
        Ok(lines)
    }
}
