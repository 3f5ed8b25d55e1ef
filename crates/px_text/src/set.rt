//! Sets of numbers.

ghost use Rattle.std.specs.Prelude.{◌≡◌, [], IfOk, nat_eq};
ghost use Rattle.std.specs.Cmp.{partial_equiv_from_equiv};
ghost use Rattle.std.specs.Cmp.Lexicographic.{pointwise, slice_cmp, nat_list_eq_equiv, nat_list_cmp_total, texts_po, texts_ties};
ghost use Rattle.std.specs.Ordering.{nat_cmp};
ghost use Rattle.std.specs.Prelude.{Some, refl};
ghost use Rattle.px_text.specs.Sets.{Rising, has as is_in};

use std::alloc::{AllocError, Global};
use std::cmp::Ordering;
use std::marker::Model;

/// A set of numbers below 1,048,576. Contracts see the strictly rising list of them.
#[derive(Debug, Drop)]
pub struct Set {
    items: Vec<u32>,
}

impl Model for Set {
    ghost use Rattle.std.specs.Prelude.{List, ℕ};
    ghost use Rattle.px_text.specs.Sets.{Rising};

    ghost Value = { List ℕ };

    ghost view = { λ set. set.items.items };

    ghost invariant = { λ set. Rising set.items.items };
}

impl Set {
    /// The set without numbers. It takes no memory.
    pub fn empty(alloc: Global) -> Set
        ensures none { result ≡ [] }
    {
        Set {
            items: Vec::new(alloc),
        }
    }

    /// The set of these numbers, which rise. It takes memory for them, and its only failure is want
    /// of memory.
    pub fn of(alloc: Global, numbers: &[u32]) -> Result<Set, AllocError>
        requires rising { Rising numbers.now }
        ensures copies { IfOk result (λ set. set ≡ numbers.now) }
    {
        Ok(Set {
            items: Vec::from_slice(alloc, numbers)?,
        })
    }

    /// The set of the numbers that a vector holds, which rise. It takes no memory.
    pub fn from_vec(items: Vec<u32>) -> Set
        requires rising { Rising items.items }
        ensures same { result ≡ items.items }
    {
        Set { items }
    }

    /// Whether the number is in the set.
    pub fn has(&self, n: u32) -> bool
        ensures member { result ≡ is_in self.now n }
    {
        contains(self.items.as_slice(), n)
    }

    /// The numbers, rising.
    pub fn as_slice(&self) -> &[u32]
        ensures same { result.now ≡ self.now }
        ensures rising { Rising result.now }
    {
        self.items.as_slice()
    }
}

// Whether a rising list has the number, by halves.
fn contains(numbers: &[u32], n: u32) -> bool
    requires { Rising numbers.now }
    ensures { result ≡ is_in numbers.now n }
{
    numbers.binary_search(&n).is_ok()
}

impl Clone for Set {
    ghost is_clone = { λ it copy. copy ≡ it };

    fn clone(&self) -> Result<Set, AllocError> {
        Ok(Set {
            items: self.items.clone()?,
        })
    }
}

impl PartialEq for Set {
    ghost eq = { pointwise nat_eq };

    ghost laws = { partial_equiv_from_equiv nat_list_eq_equiv };

    fn eq(&self, other: &Set) -> bool {
        self.items == other.items
    }
}

impl Eq for Set {
    ghost laws = { nat_list_eq_equiv };
}

/// Sets are ordered by the first number at which they differ, shorter first where one begins the
/// other.
impl PartialOrd for Set {
    ghost partial_cmp = { λ x y. Some (slice_cmp nat_cmp x y) };

    ghost laws = { texts_po };

    fn partial_cmp(&self, other: &Set) -> Option<Ordering> {
        Some(self.cmp(other))
    }
}

impl Ord for Set {
    ghost cmp = { slice_cmp nat_cmp };

    ghost total = { nat_list_cmp_total };

    ghost matches_partial_cmp = { λ x y. refl };

    ghost matches_eq = { texts_ties };

    fn cmp(&self, other: &Set) -> Ordering {
        self.items.cmp(&other.items)
    }
}
