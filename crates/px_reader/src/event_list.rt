//! Events behind one another, in memory that they share.

ghost use Rattle.std.specs.Prelude.{◌≡◌, ◌<◌, ◌≤◌, ◌+◌, ◌++◌, ◌∷◌, [], ℕ, Some, length, take, slice_get, IfOk, OnOk, OnErr};
ghost use Rattle.px_reader.specs.Happenings.{event_of};
ghost use Rattle.px_reader.specs.Marks.{made_of, part_of};

use crate::event::Event;
use crate::happening::Happening;
use std::alloc::{AllocError, Global};
use std::marker::Model;

/// The most bytes that a list holds.
const MAX_BYTES: usize = 4_294_967_295;

/// What an event is.
#[derive(Clone, Copy)]
pub enum MarkKind {
    Start,
    Attribute,
    Text,
    End,
}

/// An event whose bytes lie in the list: its name or text, and behind it the value.
#[derive(Clone, Copy)]
pub struct Mark {
    kind: MarkKind,
    start: u32,
    middle: u32,
    end: u32,
}

/// Events in order. Each takes a few bytes beside those of its name, value or text, and none owns
/// memory. Contracts see the list of them.
#[derive(Drop)]
pub struct EventList {
    /// the names, values and texts, one behind the other
    bytes: Vec<u8>,
    marks: Vec<Mark>,
}

impl Model for EventList {
    ghost use Rattle.std.specs.Prelude.{List, ℕ, length};
    ghost use Rattle.px_reader.specs.declared.event.Event as events;
    ghost use Rattle.px_reader.specs.Marks.{marked_all, AreWithin};

    ghost Value = { List events.Event };

    ghost view = { λ list. marked_all list.bytes.items list.marks.items };

    ghost invariant = { λ list. AreWithin (length list.bytes.items) list.marks.items };
}

impl EventList {
    /// No events. It takes no memory.
    pub fn new(alloc: Global) -> EventList
        ensures { result ≡ [] }
    {
        EventList {
            bytes: Vec::new(alloc),
            marks: Vec::new(alloc),
        }
    }

    pub fn len(&self) -> usize
        ensures { result ≡ length self.now }
    {
        self.marks.len()
    }

    /// Takes all events away. The memory is kept for the next ones.
    pub fn clear(&mut self)
        ensures { self.new ≡ [] }
    {
        self.bytes.clear();
        self.marks.clear();
    }

    /// Puts an event behind the others. It fails at want of memory, or where the list would
    /// hold more than 4,294,967,295 bytes; then it is as it was.
    pub fn push(&mut self, next: Happening<'_>) -> Result<(), AllocError>
        ensures ok { OnOk result (self.new ≡ self.old ++ event_of next.entry ∷ []) }
        ensures err { OnErr result (self.new ≡ self.old) }
    {
        match next {
            Happening::Start { name } => self.add(MarkKind::Start, name, b""),
            Happening::Attr { name, value } => self.add(MarkKind::Attribute, name, value),
            Happening::Text { text } => self.add(MarkKind::Text, text, b""),
            Happening::End => self.add(MarkKind::End, b"", b""),
        }
    }

    /// Puts these events behind the others. Where memory is refused the first of them stand there.
    pub fn push_all(&mut self, next: &[Event]) -> Result<(), AllocError>
        ensures ok { OnOk result (self.new ≡ self.old ++ next.now) }
        ensures err { OnErr result ((count : ℕ) × (self.new ≡ self.old ++ take count next.now)) }
    {
        for event in next {
            self.push(event.seen())?;
        }
        Ok(())
    }

    /// The event at a place, from 0.
    pub fn get(&self, place: usize) -> Happening<'_>
        requires { place < length self.now }
        ensures { slice_get self.now place ≡ Some (event_of result) }
    {
        let mark = self.marks[place];
        let first = part(&self.bytes, mark.start, mark.middle);
        let second = part(&self.bytes, mark.middle, mark.end);
        match mark.kind {
            MarkKind::Start => Happening::Start { name: first },
            MarkKind::Attribute => Happening::Attr {
                name: first,
                value: second,
            },
            MarkKind::Text => Happening::Text { text: first },
            MarkKind::End => Happening::End,
        }
    }

    // Puts an event of this kind behind the others, by its name or text and its value.
    fn add(&mut self, kind: MarkKind, first: &[u8], second: &[u8]) -> Result<(), AllocError>
        ensures ok { OnOk result (self.new ≡ self.old ++ made_of kind first.now second.now ∷ []) }
        ensures err { OnErr result (self.new ≡ self.old) }
    {
        let mark = mark_behind(self.bytes.len(), kind, first.len(), second.len())?;
        self.bytes.extend_from_slice(first)?;
        self.bytes.extend_from_slice(second)?;
        self.marks.push(mark)?;
        Ok(())
    }
}

// The mark of an event whose bytes, so many, come behind others.
fn mark_behind(
    start: usize,
    kind: MarkKind,
    first: usize,
    second: usize,
) -> Result<Mark, AllocError>
    ensures { IfOk result (λ mark. mark ≡
        record {
          kind = kind;
          start = start;
          middle = start + first;
          end = start + first + second;
        }) }
{
    if start > MAX_BYTES || first > MAX_BYTES - start || second > MAX_BYTES - start - first {
        return Err(AllocError);
    }
    Ok(Mark {
        kind,
        start: start as u32,
        middle: (start + first) as u32,
        end: (start + first + second) as u32,
    })
}

// The bytes between two places.
fn part(bytes: &[u8], start: u32, end: u32) -> &[u8]
    requires { (start ≤ end) × (end ≤ length bytes.now) }
    ensures { result.now ≡ part_of bytes.now start end }
{
    &bytes[start as usize..end as usize]
}
