//! The paths of words in a table.
ghost use Rattle.std.specs.Prelude.{◌≡◌, ℕ, ◌+◌, ◌<◌, ◌≤◌};
ghost use Rattle.px_rule.specs.Words.{key_of, IsShape, size_of, path_of, long_of};

use px_rule::{Law, Shared, next_place, path_length, place};

/// The first place of the path of a word.
pub(crate) fn first_place<L: Law>(shared: &Shared<L>, word: u64) -> u32
    ensures place { result ≡ path_of shared.now.shape (key_of word) 0 }
    ensures within { result < size_of shared.now.shape }
{
    place(&shared.shape(), word, 0)
}

/// The place of the path of a word that comes after a place of it.
pub(crate) fn place_after<L: Law>(shared: &Shared<L>, word: u64, at: u32) -> u32
    requires within { at < size_of shared.now.shape }
    requires path { (i : ℕ) × (at ≡ path_of shared.now.shape (key_of word) i) }
    ensures next { (i : ℕ) → at ≡ path_of shared.now.shape (key_of word) i →
        result ≡ path_of shared.now.shape (key_of word) (i + 1) }
    ensures within { result < size_of shared.now.shape }
{
    next_place(&shared.shape(), word, at)
}

/// How many places the path of a word has.
pub(crate) fn turns<L: Law>(shared: &Shared<L>, word: u64) -> u32
    ensures length { result ≡ long_of shared.now.shape (key_of word) }
    ensures short { (0 < result) × (result ≤ 64) }
    ensures shape { IsShape shared.now.shape }
{
    path_length(&shared.shape(), word)
}
