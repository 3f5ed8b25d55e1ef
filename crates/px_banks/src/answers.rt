//! What entering and claiming a bank answer.

/// Whether a pass came into a bank.
#[derive(Clone, Copy, Debug, PartialEq, Eq, Drop)]
pub enum Enter {
    /// The bank stands at the version, and the pass is inside.
    Entered,
    /// The word of the bank showed another version, or that it is being built. The pass has left
    /// again.
    Gone { word: u64 },
}

/// Whether the desk took a bank.
#[derive(Clone, Copy, Debug, PartialEq, Eq, Drop)]
pub enum Claim {
    /// No call was inside. The bank is being built for the new version, with nothing zeroed.
    Claimed,
    /// The word of the bank showed calls inside.
    Busy { word: u64 },
}
