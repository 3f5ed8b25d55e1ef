//! The two machines beside the plain evaluator, over the documents of a feed.

ghost use Rattle.std.specs.Prelude.{◌≡◌, [], OnOk};
ghost use Rattle.px_afa.specs.Building.{Automata};
ghost use Rattle.px_machine.specs.Machines.{HasRun};

use crate::document::{events_of, ids_by_machine, ids_by_meaning, ids_by_runner};
use crate::trouble::Trouble;
use crate::workload::{add, filters, shared};
use px_afa::Program;
use px_feed::{Item, Items, Taken};
use px_io::Source;
use px_machine::Machine;
use px_prune::Compiled;
use px_reader::Doc;
use px_runner::PrivateMemo;
use px_text::Ids;
use px_workload::Journal;
use px_xpath::Numbered;
use std::alloc::Global;
use std::sync::Arc;

/// The most items that are read.
const MOST_ITEMS: u64 = 1_000_000_000_000;

/// How many bytes the machine of `serial` may remember here: so few that it forgets all again and
/// again.
const FEW_BYTES: u64 = 4_096;

/// What a comparison has counted.
#[derive(Clone, Copy, Debug, Drop)]
pub struct Counts {
    /// the documents
    pub documents: u64,
    /// the ids that the plain evaluator gave for them
    pub ids: u64,
    /// the ids of a document that a machine gave, and that differ from those
    pub differences: u64,
    /// the documents behind which the machine of `serial` had forgotten all
    pub forgotten: u64,
}

/// Compares the machines with the plain evaluator over all documents of a feed, each under the
/// filters that stand before it. The documents between two adds are taken by one machine of either
/// kind, which remembers what it found.
pub fn compare<S: Source>(alloc: Global, source: &mut S) -> Result<Counts, Trouble> {
    let mut items = Items::new(alloc)?;
    let mut journal = Journal::new(alloc);
    let mut documents = Vec::new(alloc);
    let mut counts = Counts {
        documents: 0,
        ids: 0,
        differences: 0,
        forgotten: 0,
    };
    for _ in 0..MOST_ITEMS {
        let Some(item) = next_item(&mut items, source)? else {
            compare_all(alloc, &journal, &documents, &mut counts)?;
            return Ok(counts);
        };
        take_item(alloc, item, &mut journal, &mut documents, &mut counts)?;
    }
    Err(Trouble::Feed)
}

/// The next item, or none at the end of the feed.
pub fn next_item<S: Source>(items: &mut Items, source: &mut S) -> Result<Option<Item>, Trouble> {
    match items.next(source) {
        Taken::Item(item) => Ok(Some(item)),
        Taken::End => Ok(None),
        Taken::Fault(_) => Err(Trouble::Feed),
        Taken::ReadFault => Err(Trouble::Read),
        Taken::Memory => Err(Trouble::Memory),
    }
}

// Takes an item: a document is kept, and those that were kept are compared before a filter is
// added.
fn take_item(
    alloc: Global,
    item: Item,
    journal: &mut Journal,
    documents: &mut Vec<Doc>,
    counts: &mut Counts,
) -> Result<(), Trouble> {
    match item {
        Item::Document { doc } => keep(documents, doc),
        Item::Add { text } => {
            compare_all(alloc, journal, documents, counts)?;
            documents.clear();
            add(alloc, journal, text.as_slice())
        }
        Item::Remove { .. } | Item::Replace { .. } => Err(Trouble::Feed),
    }
}

// Keeps a document.
fn keep(documents: &mut Vec<Doc>, doc: Doc) -> Result<(), Trouble> {
    match documents.push(doc) {
        Ok(()) => Ok(()),
        Err(_) => Err(Trouble::Memory),
    }
}

// Compares over documents, under the filters of a journal.
fn compare_all(
    alloc: Global,
    journal: &Journal,
    documents: &[Doc],
    counts: &mut Counts,
) -> Result<(), Trouble> {
    if documents.is_empty() {
        return Ok(());
    }
    let live = filters(alloc, journal)?;
    let program = shared(alloc, Program::build(alloc, live.as_slice())?)?;
    compare_each(alloc, &program, live.as_slice(), documents, counts)
}

// Compares over documents, under filters and their program.
fn compare_each(
    alloc: Global,
    program: &Arc<Program>,
    filters: &[Numbered],
    documents: &[Doc],
    counts: &mut Counts,
) -> Result<(), Trouble> {
    let compiled = Compiled::of(alloc, program.clone()?)?;
    let mut memo = PrivateMemo::new(alloc, compiled);
    let mut machine = Machine::bounded(alloc, program.clone()?, FEW_BYTES)?;
    for doc in documents {
        let events = events_of(alloc, doc)?;
        let meaning = ids_by_meaning(alloc, filters, &events)?;
        let runner = ids_by_runner(alloc, &mut memo, &events)?;
        let ids = ids_by_machine(&mut machine, &events)?;
        counts.count(&meaning, &[&runner, &ids], machine.bytes() == 0);
    }
    Ok(())
}

impl Counts {
    // Counts a document, of which these ids are right, and others gave these.
    fn count(&mut self, right: &Ids, given: &[&Ids], forgot: bool) {
        self.documents = self.documents.saturating_add(1);
        self.ids = self.ids.saturating_add(right.as_slice().len() as u64);
        for ids in given {
            if ids.as_slice() != right.as_slice() {
                self.differences = self.differences.saturating_add(1);
            }
        }
        if forgot {
            self.forgotten = self.forgotten.saturating_add(1);
        }
    }
}
