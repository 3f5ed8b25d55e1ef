//! Values of a memo.

use px_text::Set;

/// An operand of a step, or its answer, as a memo has it.
#[derive(Debug, Drop)]
pub enum Held {
    /// A class or a label.
    Plain(u32),
    /// A set that the memo keeps under this number.
    Numbered(u32),
    /// A set that the memo does not keep.
    Own(Set),
}
