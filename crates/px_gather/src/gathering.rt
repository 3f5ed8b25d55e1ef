//! The run, and the documents that wait.
ghost use Rattle.std.specs.Prelude.{◌≡◌, ◌≤◌, true, [], length, Err, IfOk, OnOk};
ghost use Rattle.px_io.specs.Faults.{Rose};
ghost use Rattle.px_feed.specs.declared.ending.Taken.TheVariants as taken;
ghost use Rattle.px_feed.specs.declared.item.Item.{Item as Given};
ghost use Rattle.px_lines.specs.Standing.{Streams, streams};
ghost use Rattle.px_gather.specs.Waiting.{Begun, TakesNext, Keeps, Answers, AnswersAll, Ends, documents_of};

use crate::saying::say_all;
use px_feed::{Items, OutLine, Status, Taken};
use px_io::{Sink, Source};
use px_lines::Outgoing;
use px_reader::Doc;
use std::alloc::{AllocError, Global};

/// So many documents wait at most.
const MOST_DOCUMENTS: usize = 256;

/// They wait no longer once they have more bytes than this.
const MOST_BYTES: u64 = 67_108_864;

/// A feed, the documents that were taken from it and wait for their answers, and the lines on their
/// way to the sink.
#[derive(Drop)]
pub struct Gathering {
    alloc: Global,
    items: Items,
    documents: Vec<Doc>,
    size: u64,
    outgoing: Outgoing,
}

impl Gathering {
    /// Before the first item. Its only failure is want of memory.
    pub fn new(alloc: Global) -> Result<Gathering, AllocError>
        ensures { IfOk result Begun }
    {
        Ok(Gathering {
            alloc,
            items: Items::new(alloc)?,
            documents: Vec::new(alloc),
            size: 0,
            outgoing: Outgoing::new(alloc),
        })
    }

    /// Takes the next item, or how the feed has ended. The source is read only where what was read
    /// of it holds none, and what was said is written before. An error is the status with which
    /// the run has ended.
    pub fn take<S: Source, K: Sink>(
        &mut self,
        source: &mut S,
        sink: &mut K,
    ) -> Result<Taken, Status>
        ensures takes { TakesNext result self.old self.new
            (streams (S.left source.old) (K.held sink.old) (S.faults source.old))
            (streams (S.left source.new) (K.held sink.new) (S.faults source.new)) }
        ensures write_fault { result ≡ Err Status.WriteFault →
            Rose (K.faults sink.old) (K.faults sink.new) }
        ensures source_counts { S.faults source.old ≤ S.faults source.new }
        ensures sink_counts { K.faults sink.old ≤ K.faults sink.new }
    {
        match self.items.ready() {
            Some(found) => Ok(found),
            None => self.read_on(source, sink),
        }
    }

    // Reads on to the next item.
    fn read_on<S: Source, K: Sink>(&mut self, source: &mut S, sink: &mut K) -> Result<Taken, Status>
        ensures takes { TakesNext result self.old self.new
            (streams (S.left source.old) (K.held sink.old) (S.faults source.old))
            (streams (S.left source.new) (K.held sink.new) (S.faults source.new)) }
        ensures write_fault { result ≡ Err Status.WriteFault →
            Rose (K.faults sink.old) (K.faults sink.new) }
        ensures source_counts { S.faults source.old ≤ S.faults source.new }
        ensures sink_counts { K.faults sink.old ≤ K.faults sink.new }
    {
        match self.outgoing.write(sink) {
            Ok(()) => Ok(self.items.next(source)),
            Err(status) => Err(status),
        }
    }

    /// Keeps the document that was taken last: it waits. Its only failure is want of memory.
    pub fn keep(&mut self, document: Doc) -> Result<(), AllocError>
        ensures { OnOk result (Keeps document self.old self.new) }
    {
        let size = document.bytes().len() as u64;
        self.documents.push(document)?;
        self.size = self.size.saturating_add(size);
        Ok(())
    }

    /// Whether so many documents wait, or such long ones, that they are to be answered.
    pub fn is_full(&self) -> bool
        ensures many { 256 ≤ length (documents_of self.now) → result ≡ true }
    {
        self.documents.len() >= MOST_DOCUMENTS || self.size > MOST_BYTES
    }

    /// The documents that wait, in the order of the feed.
    pub fn documents(&self) -> &[Doc]
        ensures { result.now ≡ documents_of self.now }
    {
        self.documents.as_slice()
    }

    /// Says the lines of all documents that wait. None waits any more. An error is the status with
    /// which the run has ended.
    pub fn answer_all<K: Sink>(&mut self, lines: &[OutLine], sink: &mut K) -> Result<(), Status>
        ensures answers { AnswersAll lines.now result self.old self.new (K.held sink.old)
            (K.held sink.new) }
        ensures none { OnOk result (documents_of self.new ≡ []) }
        ensures write_fault { result ≡ Err Status.WriteFault →
            Rose (K.faults sink.old) (K.faults sink.new) }
        ensures sink_counts { K.faults sink.old ≤ K.faults sink.new }
    {
        match say_all(self.alloc, &mut self.outgoing, lines, sink) {
            Ok(()) => {
                self.documents.clear();
                self.size = 0;
                Ok(())
            }
            Err(status) => Err(status),
        }
    }

    /// Says the line of the item that was taken last, where no document waits. An error is the
    /// status with which the run has ended.
    pub fn answer<K: Sink>(&mut self, line: &OutLine, sink: &mut K) -> Result<(), Status>
        ensures answers { Answers line.now result self.old self.new (K.held sink.old)
            (K.held sink.new) }
        ensures same { documents_of self.new ≡ documents_of self.old }
        ensures write_fault { result ≡ Err Status.WriteFault →
            Rose (K.faults sink.old) (K.faults sink.new) }
        ensures sink_counts { K.faults sink.old ≤ K.faults sink.new }
    {
        self.outgoing.say(self.alloc, line, sink)
    }

    /// Ends the run as the feed has ended, where no document waits.
    pub fn end<K: Sink>(&mut self, found: Taken, sink: &mut K) -> Status
        requires no_item { (item : Given) → found ≡ taken.Item item → ⊥ }
        ensures ends { Ends found result self.old (K.held sink.old) (K.held sink.new) }
        ensures write_fault { result ≡ Status.WriteFault →
            Rose (K.faults sink.old) (K.faults sink.new) }
        ensures sink_counts { K.faults sink.old ≤ K.faults sink.new }
    {
        match found {
            Taken::Item(_) => unreachable!(),
            Taken::End => self.outgoing.finish(sink),
            Taken::Fault(fault) => self.outgoing.refuse(self.alloc, fault, sink),
            Taken::ReadFault => self.outgoing.break_off(sink),
            Taken::Memory => Status::Memory,
        }
    }
}
