//! What a document is made of.

use px_text::Bytes;

/// What a document is made of, in order: for each element its start, its attributes, what stands
/// in it, and its end.
#[derive(Debug, Drop)]
pub enum Event {
    Start { name: Bytes },
    Attr { name: Bytes, value: Bytes },
    /// It is not empty.
    Text { text: Bytes },
    End,
}
