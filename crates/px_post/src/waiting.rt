//! Letters that wait to be put, and what became of them.

/// A letter that is left: the number of its mailbox, and the id.
#[derive(Clone, Copy)]
pub(crate) struct Waiting {
    pub(crate) mailbox: u32,
    pub(crate) id: u32,
}

/// What became of the letters that were left.
#[derive(Clone, Copy, PartialEq, Eq, Debug)]
pub enum Resumed {
    /// None is left.
    Done,
    /// The first that is left is for this mailbox, which was full.
    Full {
        mailbox: u32,
        /// How many are left.
        left: u64,
    },
}
