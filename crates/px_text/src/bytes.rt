//! Lists of bytes and of numbers, which contracts see as lists.

ghost use Rattle.std.specs.Prelude.{◌≡◌, IfOk, Some, nat_eq, refl};
ghost use Rattle.std.specs.Cmp.{partial_equiv_from_equiv};
ghost use Rattle.std.specs.Cmp.Lexicographic.{pointwise, slice_cmp, nat_list_eq_equiv, nat_list_cmp_total, texts_po, texts_ties};
ghost use Rattle.std.specs.Ordering.{nat_cmp};

use std::alloc::{AllocError, Global};
use std::cmp::Ordering;
use std::marker::Model;

/// A list of bytes. Contracts see the list of their values.
#[derive(Debug, Drop)]
pub struct Bytes {
    items: Vec<u8>,
}

impl Model for Bytes {
    ghost use Rattle.std.specs.Prelude.{List, ℕ};

    ghost Value = { List ℕ };

    ghost view = { λ bytes. bytes.items.items };
}

impl Bytes {
    /// A copy of a text. It takes memory for the text, and its only failure is want of memory.
    pub fn of(alloc: Global, text: &[u8]) -> Result<Bytes, AllocError>
        ensures copies { IfOk result (λ bytes. bytes ≡ text.now) }
    {
        Ok(Bytes {
            items: Vec::from_slice(alloc, text)?,
        })
    }

    /// The bytes that a vector holds. It takes no memory.
    pub fn from_vec(items: Vec<u8>) -> Bytes
        ensures same { result ≡ items.items }
    {
        Bytes { items }
    }

    pub fn as_slice(&self) -> &[u8]
        ensures same { result.now ≡ self.now }
    {
        self.items.as_slice()
    }
}

impl Clone for Bytes {
    ghost is_clone = { λ it copy. copy ≡ it };

    fn clone(&self) -> Result<Bytes, AllocError> {
        Ok(Bytes {
            items: self.items.clone()?,
        })
    }
}

impl PartialEq for Bytes {
    ghost eq = { pointwise nat_eq };

    ghost laws = { partial_equiv_from_equiv nat_list_eq_equiv };

    fn eq(&self, other: &Bytes) -> bool {
        self.items == other.items
    }
}

impl Eq for Bytes {
    ghost laws = { nat_list_eq_equiv };
}

/// Bytes are ordered as texts: by the first byte at which they differ.
impl PartialOrd for Bytes {
    ghost partial_cmp = { λ x y. Some (slice_cmp nat_cmp x y) };

    ghost laws = { texts_po };

    fn partial_cmp(&self, other: &Bytes) -> Option<Ordering> {
        Some(self.cmp(other))
    }
}

impl Ord for Bytes {
    ghost cmp = { slice_cmp nat_cmp };

    ghost total = { nat_list_cmp_total };

    ghost matches_partial_cmp = { λ x y. refl };

    ghost matches_eq = { texts_ties };

    fn cmp(&self, other: &Bytes) -> Ordering {
        self.items.cmp(&other.items)
    }
}

/// A list of the ids of subscriptions.
#[derive(Debug, Drop)]
pub struct Ids {
    items: Vec<u32>,
}

impl Model for Ids {
    ghost use Rattle.std.specs.Prelude.{List, ℕ};

    ghost Value = { List ℕ };

    ghost view = { λ ids. ids.items.items };
}

impl Ids {
    /// The list that a vector holds. It takes no memory.
    pub fn of(items: Vec<u32>) -> Ids
        ensures same { result ≡ items.items }
    {
        Ids { items }
    }

    pub fn as_slice(&self) -> &[u32]
        ensures same { result.now ≡ self.now }
    {
        self.items.as_slice()
    }
}

impl Clone for Ids {
    ghost is_clone = { λ it copy. copy ≡ it };

    fn clone(&self) -> Result<Ids, AllocError> {
        Ok(Ids {
            items: self.items.clone()?,
        })
    }
}

impl PartialEq for Ids {
    ghost eq = { pointwise nat_eq };

    ghost laws = { partial_equiv_from_equiv nat_list_eq_equiv };

    fn eq(&self, other: &Ids) -> bool {
        self.items == other.items
    }
}

impl Eq for Ids {
    ghost laws = { nat_list_eq_equiv };
}

/// A list of 64-bit words.
#[derive(Debug, Drop)]
pub struct Words {
    items: Vec<u64>,
}

impl Model for Words {
    ghost use Rattle.std.specs.Prelude.{List, ℕ};

    ghost Value = { List ℕ };

    ghost view = { λ words. words.items.items };
}

impl Words {
    /// The list that a vector holds. It takes no memory.
    pub fn of(items: Vec<u64>) -> Words
        ensures same { result ≡ items.items }
    {
        Words { items }
    }

    pub fn as_slice(&self) -> &[u64]
        ensures same { result.now ≡ self.now }
    {
        self.items.as_slice()
    }
}

impl Clone for Words {
    ghost is_clone = { λ it copy. copy ≡ it };

    fn clone(&self) -> Result<Words, AllocError> {
        Ok(Words {
            items: self.items.clone()?,
        })
    }
}

impl PartialEq for Words {
    ghost eq = { pointwise nat_eq };

    ghost laws = { partial_equiv_from_equiv nat_list_eq_equiv };

    fn eq(&self, other: &Words) -> bool {
        self.items == other.items
    }
}

impl Eq for Words {
    ghost laws = { nat_list_eq_equiv };
}

/// Lists of words are ordered by the first word at which they differ, shorter first where one
/// begins the other.
impl PartialOrd for Words {
    ghost partial_cmp = { λ x y. Some (slice_cmp nat_cmp x y) };

    ghost laws = { texts_po };

    fn partial_cmp(&self, other: &Words) -> Option<Ordering> {
        Some(self.cmp(other))
    }
}

impl Ord for Words {
    ghost cmp = { slice_cmp nat_cmp };

    ghost total = { nat_list_cmp_total };

    ghost matches_partial_cmp = { λ x y. refl };

    ghost matches_eq = { texts_ties };

    fn cmp(&self, other: &Words) -> Ordering {
        self.items.cmp(&other.items)
    }
}
