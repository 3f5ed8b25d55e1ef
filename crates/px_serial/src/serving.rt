//! The command `serial`: what a feed is answered, on one thread.

ghost use Rattle.std.specs.Prelude.{◌≡◌, ◌≤◌, Err, IsTrue, IfOk, IsOk, OnOk};
ghost use Rattle.px_io.specs.Faults.{Rose};
ghost use Rattle.px_feed.specs.declared.item.Item.TheVariants as items;
ghost use Rattle.px_lines.specs.Served.{Served, ServedFront, ServedWhole, is_finished, is_cut_short};
ghost use Rattle.px_lines.specs.Standing.{Streams, streams, Ended};
ghost use Rattle.px_serial.specs.Standing.{Rests, Holds, TakesNext, TakesUp, ServesItem, Replies, SaysLine, KeepsUp};

use crate::changes::{add, remove, replace};
use crate::filtering::{line_of_document, noted};
use px_feed::{Item, Items, OutLine, Status, Taken};
use px_io::{Sink, Source};
use px_lines::Outgoing;
use px_reader::Doc;
use px_text::Bytes;
use px_tiers::Tiers;
use px_workload::Journal;
use std::alloc::{AllocError, Global};

/// A feed has at most so many bytes, and each item takes one at least.
const MOST_ITEMS: u64 = 1_099_511_627_776;

/// Answers the items of the feed in order, each by one line, to the end of the feed or its first
/// fault. At `WriteFault` and `Memory` a front of the output was written; at `ReadFault` the lines
/// of the items that are whole in the bytes read.
pub fn serve_feed<S: Source, K: Sink>(alloc: Global, source: &mut S, sink: &mut K) -> Status
    ensures not_usage { result ≡ Status.Usage → ⊥ }
    ensures output { IsTrue (is_finished result) →
        Served (S.left source.old) (S.left source.new) (K.held sink.old) (K.held sink.new) result }
    ensures front { IsTrue (is_cut_short result) →
        ServedFront (S.left source.old) (K.held sink.old) (K.held sink.new) }
    ensures whole_items { result ≡ Status.ReadFault →
        ServedWhole (S.left source.old) (S.left source.new) (K.held sink.old) (K.held sink.new) }
    ensures read_fault { result ≡ Status.ReadFault →
        Rose (S.faults source.old) (S.faults source.new) }
    ensures write_fault { result ≡ Status.WriteFault →
        Rose (K.faults sink.old) (K.faults sink.new) }
    ensures source_counts { S.faults source.old ≤ S.faults source.new }
    ensures sink_counts { K.faults sink.old ≤ K.faults sink.new }
{
    match Serving::new(alloc) {
        Ok(mut serving) => serving.run(source, sink),
        Err(_) => Status::Memory,
    }
}

/// A run of `serial`: the feed, the changes that it made, the machines of the filters that are live
/// behind them, and the lines on their way to the sink.
#[derive(Drop)]
pub struct Serving {
    alloc: Global,
    items: Items,
    journal: Journal,
    tiers: Tiers,
    outgoing: Outgoing,
}

impl Serving {
    // Before the first item.
    fn new(alloc: Global) -> Result<Serving, AllocError>
        ensures begun { IfOk result (λ serving. (first : Streams) → Rests serving first first 0) }
        ensures keeps_up { IfOk result KeepsUp }
    {
        Ok(Serving {
            alloc,
            items: Items::new(alloc)?,
            journal: Journal::new(alloc),
            tiers: Tiers::new(alloc),
            outgoing: Outgoing::new(alloc),
        })
    }

    // Answers all items, and ends the run.
    fn run<S: Source, K: Sink>(&mut self, source: &mut S, sink: &mut K) -> Status
        requires begun { (first : Streams) → Rests self.old first first 0 }
        requires keeps_up { KeepsUp self.old }
        ensures ended { Ended result (streams (S.left source.old) (K.held sink.old)
            (S.faults source.old)) (streams (S.left source.new) (K.held sink.new)
            (S.faults source.new)) }
        ensures write_fault { result ≡ Status.WriteFault →
            Rose (K.faults sink.old) (K.faults sink.new) }
        ensures source_counts { S.faults source.old ≤ S.faults source.new }
        ensures sink_counts { K.faults sink.old ≤ K.faults sink.new }
    {
        match self.take(source, sink) {
            Ok(item) => self.serve_all(item, source, sink),
            Err(status) => status,
        }
    }

    // Answers an item and all behind it, and ends the run.
    fn serve_all<S: Source, K: Sink>(&mut self, item: Item, source: &mut S, sink: &mut K) -> Status
        requires held { (first : Streams) ×
            Holds item self.old first (streams (S.left source.old) (K.held sink.old)
            (S.faults source.old)) 0 }
        requires keeps_up { KeepsUp self.old }
        ensures ended { (first : Streams) →
            Holds item self.old first (streams (S.left source.old) (K.held sink.old)
            (S.faults source.old)) 0 →
            Ended result first (streams (S.left source.new) (K.held sink.new)
            (S.faults source.new)) }
        ensures write_fault { result ≡ Status.WriteFault →
            Rose (K.faults sink.old) (K.faults sink.new) }
        ensures source_counts { S.faults source.old ≤ S.faults source.new }
        ensures sink_counts { K.faults sink.old ≤ K.faults sink.new }
    {
        let mut item = item;
        for _ in 0..MOST_ITEMS {
            match self.serve(item, source, sink) {
                Ok(next) => item = next,
                Err(status) => return status,
            }
        }
        unreachable!()
    }

    // Answers an item, and takes the next one. An error is the status with which the run has
    // ended, here and below.
    fn serve<S: Source, K: Sink>(
        &mut self,
        item: Item,
        source: &mut S,
        sink: &mut K,
    ) -> Result<Item, Status>
        requires keeps_up { KeepsUp self.old }
        ensures serves { ServesItem item result self.old self.new
            (streams (S.left source.old) (K.held sink.old) (S.faults source.old))
            (streams (S.left source.new) (K.held sink.new) (S.faults source.new)) }
        ensures keeps_up { OnOk result (KeepsUp self.new) }
        ensures write_fault { result ≡ Err Status.WriteFault →
            Rose (K.faults sink.old) (K.faults sink.new) }
        ensures source_counts { S.faults source.old ≤ S.faults source.new }
        ensures sink_counts { K.faults sink.old ≤ K.faults sink.new }
    {
        match item {
            Item::Add { text } => self.add(text, source, sink),
            Item::Remove { text } => self.remove(text, source, sink),
            Item::Replace { id, text } => self.replace(id, text, source, sink),
            Item::Document { doc } => self.filter(doc, source, sink),
        }
    }

    // Adds the filter that a text writes, and takes the next item.
    fn add<S: Source, K: Sink>(
        &mut self,
        text: Bytes,
        source: &mut S,
        sink: &mut K,
    ) -> Result<Item, Status>
        requires keeps_up { KeepsUp self.old }
        ensures serves { ServesItem (items.Add text) result self.old self.new
            (streams (S.left source.old) (K.held sink.old) (S.faults source.old))
            (streams (S.left source.new) (K.held sink.new) (S.faults source.new)) }
        ensures keeps_up { OnOk result (KeepsUp self.new) }
        ensures write_fault { result ≡ Err Status.WriteFault →
            Rose (K.faults sink.old) (K.faults sink.new) }
        ensures source_counts { S.faults source.old ≤ S.faults source.new }
        ensures sink_counts { K.faults sink.old ≤ K.faults sink.new }
    {
        let line = add(self.alloc, &mut self.journal, text.as_slice());
        let line = noted(&mut self.tiers, line);
        self.reply(line, source, sink)
    }

    // Drops the filter whose id a text names, and takes the next item.
    fn remove<S: Source, K: Sink>(
        &mut self,
        text: Bytes,
        source: &mut S,
        sink: &mut K,
    ) -> Result<Item, Status>
        requires keeps_up { KeepsUp self.old }
        ensures serves { ServesItem (items.Remove text) result self.old self.new
            (streams (S.left source.old) (K.held sink.old) (S.faults source.old))
            (streams (S.left source.new) (K.held sink.new) (S.faults source.new)) }
        ensures keeps_up { OnOk result (KeepsUp self.new) }
        ensures write_fault { result ≡ Err Status.WriteFault →
            Rose (K.faults sink.old) (K.faults sink.new) }
        ensures source_counts { S.faults source.old ≤ S.faults source.new }
        ensures sink_counts { K.faults sink.old ≤ K.faults sink.new }
    {
        let line = remove(&mut self.journal, text.as_slice());
        let line = noted(&mut self.tiers, line);
        self.reply(line, source, sink)
    }

    // Puts the filter that a text writes in the place of the one whose id a name is, and takes the
    // next item.
    fn replace<S: Source, K: Sink>(
        &mut self,
        name: Bytes,
        text: Bytes,
        source: &mut S,
        sink: &mut K,
    ) -> Result<Item, Status>
        requires keeps_up { KeepsUp self.old }
        ensures serves { ServesItem (items.Replace name text) result self.old self.new
            (streams (S.left source.old) (K.held sink.old) (S.faults source.old))
            (streams (S.left source.new) (K.held sink.new) (S.faults source.new)) }
        ensures keeps_up { OnOk result (KeepsUp self.new) }
        ensures write_fault { result ≡ Err Status.WriteFault →
            Rose (K.faults sink.old) (K.faults sink.new) }
        ensures source_counts { S.faults source.old ≤ S.faults source.new }
        ensures sink_counts { K.faults sink.old ≤ K.faults sink.new }
    {
        let line = replace(
            self.alloc,
            &mut self.journal,
            name.as_slice(),
            text.as_slice(),
        );
        let line = noted(&mut self.tiers, line);
        self.reply(line, source, sink)
    }

    // Filters a document with the machines of the live filters, and takes the next item.
    fn filter<S: Source, K: Sink>(
        &mut self,
        doc: Doc,
        source: &mut S,
        sink: &mut K,
    ) -> Result<Item, Status>
        requires keeps_up { KeepsUp self.old }
        ensures serves { ServesItem (items.Document doc) result self.old self.new
            (streams (S.left source.old) (K.held sink.old) (S.faults source.old))
            (streams (S.left source.new) (K.held sink.new) (S.faults source.new)) }
        ensures keeps_up { OnOk result (KeepsUp self.new) }
        ensures write_fault { result ≡ Err Status.WriteFault →
            Rose (K.faults sink.old) (K.faults sink.new) }
        ensures source_counts { S.faults source.old ≤ S.faults source.new }
        ensures sink_counts { K.faults sink.old ≤ K.faults sink.new }
    {
        let line = line_of_document(&mut self.tiers, &self.journal, &doc);
        self.reply(line, source, sink)
    }

    // Says the line for the item that was taken last, if there is memory for one, and takes the
    // next item.
    fn reply<S: Source, K: Sink>(
        &mut self,
        line: Result<OutLine, AllocError>,
        source: &mut S,
        sink: &mut K,
    ) -> Result<Item, Status>
        ensures replies { Replies line result self.old self.new
            (streams (S.left source.old) (K.held sink.old) (S.faults source.old))
            (streams (S.left source.new) (K.held sink.new) (S.faults source.new)) }
        ensures spoken { OnOk result (IsOk line) }
        ensures journal { self.new.journal ≡ self.old.journal }
        ensures tiers { self.new.tiers ≡ self.old.tiers }
        ensures write_fault { result ≡ Err Status.WriteFault →
            Rose (K.faults sink.old) (K.faults sink.new) }
        ensures source_counts { S.faults source.old ≤ S.faults source.new }
        ensures sink_counts { K.faults sink.old ≤ K.faults sink.new }
    {
        match self.say(line, sink) {
            Ok(()) => self.take(source, sink),
            Err(status) => Err(status),
        }
    }

    // Says the line for the item that was taken last, if there is memory for one.
    fn say<K: Sink>(
        &mut self,
        line: Result<OutLine, AllocError>,
        sink: &mut K,
    ) -> Result<(), Status>
        ensures says { SaysLine line result self.old self.new (K.held sink.old) (K.held sink.new) }
        ensures spoken { OnOk result (IsOk line) }
        ensures journal { self.new.journal ≡ self.old.journal }
        ensures tiers { self.new.tiers ≡ self.old.tiers }
        ensures write_fault { result ≡ Err Status.WriteFault →
            Rose (K.faults sink.old) (K.faults sink.new) }
        ensures sink_counts { K.faults sink.old ≤ K.faults sink.new }
    {
        match line {
            Ok(line) => self.outgoing.say(self.alloc, &line, sink),
            Err(_) => Err(Status::Memory),
        }
    }

    // Takes the next item. The source is read only where what was read of it holds none.
    fn take<S: Source, K: Sink>(&mut self, source: &mut S, sink: &mut K) -> Result<Item, Status>
        ensures takes { TakesNext result self.old self.new
            (streams (S.left source.old) (K.held sink.old) (S.faults source.old))
            (streams (S.left source.new) (K.held sink.new) (S.faults source.new)) }
        ensures journal { self.new.journal ≡ self.old.journal }
        ensures tiers { self.new.tiers ≡ self.old.tiers }
        ensures write_fault { result ≡ Err Status.WriteFault →
            Rose (K.faults sink.old) (K.faults sink.new) }
        ensures source_counts { S.faults source.old ≤ S.faults source.new }
        ensures sink_counts { K.faults sink.old ≤ K.faults sink.new }
    {
        match self.items.ready() {
            Some(found) => self.take_up(found, sink),
            None => self.read_on(source, sink),
        }
    }

    // Reads on to the next item. What waits is written before, so that a reader of the lines has
    // seen all that are decided when the run waits for its input.
    fn read_on<S: Source, K: Sink>(&mut self, source: &mut S, sink: &mut K) -> Result<Item, Status>
        ensures takes { TakesNext result self.old self.new
            (streams (S.left source.old) (K.held sink.old) (S.faults source.old))
            (streams (S.left source.new) (K.held sink.new) (S.faults source.new)) }
        ensures journal { self.new.journal ≡ self.old.journal }
        ensures tiers { self.new.tiers ≡ self.old.tiers }
        ensures write_fault { result ≡ Err Status.WriteFault →
            Rose (K.faults sink.old) (K.faults sink.new) }
        ensures source_counts { S.faults source.old ≤ S.faults source.new }
        ensures sink_counts { K.faults sink.old ≤ K.faults sink.new }
    {
        match self.outgoing.write(sink) {
            Ok(()) => {
                let found = self.items.next(source);
                self.take_up(found, sink)
            }
            Err(status) => Err(status),
        }
    }

    // Takes up what the feed gives next: an item, or the end of the run.
    fn take_up<K: Sink>(&mut self, found: Taken, sink: &mut K) -> Result<Item, Status>
        ensures takes { TakesUp found result self.old self.new (K.held sink.old) (K.held sink.new) }
        ensures journal { self.new.journal ≡ self.old.journal }
        ensures tiers { self.new.tiers ≡ self.old.tiers }
        ensures write_fault { result ≡ Err Status.WriteFault →
            Rose (K.faults sink.old) (K.faults sink.new) }
        ensures sink_counts { K.faults sink.old ≤ K.faults sink.new }
    {
        match found {
            Taken::Item(item) => Ok(item),
            Taken::End => Err(self.outgoing.finish(sink)),
            Taken::Fault(fault) => Err(self.outgoing.refuse(self.alloc, fault, sink)),
            Taken::ReadFault => Err(self.outgoing.break_off(sink)),
            Taken::Memory => Err(Status::Memory),
        }
    }
}
