//! What a feed brings.

use px_reader::Doc;
use px_text::Bytes;

/// What a feed brings, in order: a change to the subscriptions, or a document to match.
#[derive(Drop)]
pub enum Item {
    /// The text of a filter to add, of a line `+TEXT`.
    Add { text: Bytes },
    /// The text that names the id of a filter to drop, of a line `~TEXT`.
    Remove { text: Bytes },
    /// The text that names an id, and that of the filter which takes its place, of a line
    /// `^ID FILTER`.
    Replace { id: Bytes, text: Bytes },
    /// A document, from the first line of its root to the last.
    Document { doc: Doc },
}
