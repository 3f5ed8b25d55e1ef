//! Why a change is refused.

/// Why a change may not come where it stands. Where several reasons hold, the first of them here is
/// the one.
#[derive(Clone, Copy, Debug, Drop)]
pub enum Refusal {
    /// No filter is live under its id.
    Unknown,
    /// Its filter is too large beside the other live ones, whose sizes together are these.
    TooLarge { live: u32 },
    /// As many changes were accepted as a history may have.
    NoVersions,
}
