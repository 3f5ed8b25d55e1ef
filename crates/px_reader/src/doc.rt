//! A whole document.

ghost use Rattle.std.specs.Prelude.{◌≤◌, OnOk, IfOk, IfErr, length};
ghost use Rattle.px_reader.specs.Reading.{IsLastFault};
ghost use Rattle.px_reader.specs.Verdicts.{SpellsTree, AreTreeEvents};

use crate::event_list::EventList;
use crate::fault::ReaderFault;
use crate::reader::Reader;
use px_text::Bytes;
use std::alloc::Global;
use std::marker::Model;

/// The most bytes that are fed at once, so that few events are held.
const MAX_PIECE: usize = 65_536;

/// Bytes that spell a document within the limits, and the events of its tree, so that the bytes
/// need not be read again. Contracts see the bytes.
#[derive(Drop)]
pub struct Doc {
    bytes: Bytes,
    events: EventList,
}

impl Model for Doc {
    ghost use Rattle.std.specs.Prelude.{List, ℕ};
    ghost use Rattle.px_reader.specs.Documents.{IsSpelt};

    ghost Value = { List ℕ };

    ghost view = { λ doc. doc.bytes };

    ghost invariant = { λ doc. IsSpelt doc.bytes doc.events };
}

impl Doc {
    ghost use Rattle.std.specs.Prelude.{◌≡◌, IfOk, IfErr};
    ghost use Rattle.px_reader.specs.Documents.{content};
    ghost use Rattle.px_reader.specs.Reading.{IsLastFault};
    ghost use Rattle.px_reader.specs.Verdicts.{AreEvents};

    /// The document that the bytes spell. It refuses them as a [`Reader`] does.
    pub fn of(alloc: Global, bytes: Bytes) -> Result<Doc, ReaderFault>
        ensures same { IfOk result (λ doc. content doc ≡ bytes) }
        ensures fault { IfErr result (λ fault. IsLastFault bytes fault) }
    {
        let events = read_whole(alloc, bytes.as_slice())?;
        Ok(Doc { bytes, events })
    }

    /// The document that bytes spell of which this is known, with the events of its tree. It takes
    /// no memory.
    pub fn told(bytes: Bytes, events: EventList) -> Doc
        requires spelt { SpellsTree bytes }
        requires events { AreTreeEvents bytes events }
        requires few { length events ≤ 16_777_216 }
        ensures same { content result ≡ bytes }
    {
        Doc { bytes, events }
    }

    pub fn bytes(&self) -> &[u8]
        ensures same { result.now ≡ content self.now }
        ensures spelt { SpellsTree result.now }
    {
        self.bytes.as_slice()
    }

    /// The events of the tree that the bytes spell, in order.
    pub fn events(&self) -> &EventList
        ensures tree { AreEvents (content self.now) result.now }
        ensures few { length result.now ≤ 16_777_216 }
    {
        &self.events
    }
}

// Reads a document for its verdict and its events.
fn read_whole(alloc: Global, bytes: &[u8]) -> Result<EventList, ReaderFault>
    ensures spelt { OnOk result (SpellsTree bytes.now) }
    ensures events { IfOk result (λ events. AreTreeEvents bytes.now events) }
    ensures few { IfOk result (λ events. length events ≤ 16_777_216) }
    ensures fault { IfErr result (λ fault. IsLastFault bytes.now fault) }
{
    let mut reader = Reader::new(alloc)?;
    let mut events = EventList::new(alloc);
    let mut next = Vec::new(alloc);
    let mut rest = bytes;
    while !rest.is_empty() {
        let (piece, behind) = rest.split_at(rest.len().min(MAX_PIECE));
        reader.feed(piece, &mut next)?;
        events.push_all(next.as_slice())?;
        next.clear();
        rest = behind;
    }
    reader.end(&mut next)?;
    events.push_all(next.as_slice())?;
    Ok(events)
}
