//! What the calls on sets and steps answer.

/// Whether a bank has a step.
#[derive(Clone, Copy, Debug, PartialEq, Eq, Drop)]
pub enum Find {
    /// The number of the step's result.
    Found(u32),
    /// The step's path has an empty place before any word of its key, or words of other keys at all
    /// places.
    Absent,
}

/// Whether a bank holds a step after it was put.
#[derive(Clone, Copy, Debug, PartialEq, Eq, Drop)]
pub enum Put {
    /// The word of the step stands in the bank.
    Put,
    /// All places of the path of this word, which is the step's, have words of other keys.
    Full { word: u64 },
}

/// Whether a bank has a number for a set.
#[derive(Clone, Copy, Debug, PartialEq, Eq, Drop)]
pub enum Intern {
    /// The number of the set.
    Number(u32),
    /// All places of the path of this node word of the set have other words.
    Full { word: u64 },
}

/// Where a walk of a path ended.
#[derive(Clone, Copy, Drop)]
pub(crate) enum Sought {
    /// The word stands at the place.
    At { place: u32 },
    /// All places have words of other keys.
    Blocked,
}
