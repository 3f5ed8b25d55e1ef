//! What is seen of a document, with nothing made for it.

ghost use Rattle.std.specs.Prelude.{◌≡◌, IfOk};
ghost use Rattle.px_reader.specs.Happenings.{event_of};

use crate::event::Event;
use px_text::Bytes;
use std::alloc::{AllocError, Global};

/// An event whose bytes lie elsewhere.
#[derive(Clone, Copy, Debug)]
pub enum Happening<'a> {
    Start { name: &'a [u8] },
    Attr { name: &'a [u8], value: &'a [u8] },
    /// It is not empty.
    Text { text: &'a [u8] },
    End,
}

impl<'a> Happening<'a> {
    /// The event with bytes of its own.
    pub fn own(self, alloc: Global) -> Result<Event, AllocError>
        ensures same { IfOk result (λ event. event ≡ event_of self.entry) }
    {
        Ok(match self {
            Happening::Start { name } => Event::Start {
                name: Bytes::of(alloc, name)?,
            },
            Happening::Attr { name, value } => Event::Attr {
                name: Bytes::of(alloc, name)?,
                value: Bytes::of(alloc, value)?,
            },
            Happening::Text { text } => Event::Text {
                text: Bytes::of(alloc, text)?,
            },
            Happening::End => Event::End,
        })
    }
}

impl Event {
    /// The event, borrowed.
    pub fn seen(&self) -> Happening<'_>
        ensures same { event_of result ≡ self.now }
    {
        match self {
            Event::Start { name } => Happening::Start {
                name: name.as_slice(),
            },
            Event::Attr { name, value } => Happening::Attr {
                name: name.as_slice(),
                value: value.as_slice(),
            },
            Event::Text { text } => Happening::Text {
                text: text.as_slice(),
            },
            Event::End => Happening::End,
        }
    }
}
