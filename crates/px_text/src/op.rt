//! The operations of a step of the machine.

/// What a step computes: from a class of texts or of numbers, from a set and a label, or from two
/// sets.
#[derive(Clone, Copy, Debug, PartialEq, Eq, Drop)]
pub enum Op {
    /// The Value states with a string literal that are true of a text of the class.
    TextClass,
    /// The Value states with a number that are true of a text of the class.
    NumberClass,
    /// The states that a child with the label makes true for its parent.
    Pop,
    /// The union of two sets.
    Add,
    /// The states that are needed inside a child with the label.
    Push,
    /// The intersection of two sets.
    Mask,
}
