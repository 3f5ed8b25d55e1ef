//! Where the next line of a document stands.

/// Where the next line stands.
#[derive(Clone, Copy, Debug, PartialEq, Eq)]
pub enum Phase {
    /// before the root
    Start,
    /// behind the first line of the innermost element or an attribute of it
    Giving,
    /// in the body of the innermost element, or behind the root
    Body,
}
