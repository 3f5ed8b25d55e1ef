//! Sets under numbers.

ghost use Rattle.std.specs.Prelude.{◌≡◌, ℕ, List, [], Some, None, IfSome, IfOk, slice_get};
ghost use Rattle.px_runner.specs.Remembering.{StandsFor, Grows};

use crate::held::Held;
use px_text::Set;
use std::alloc::{AllocError, Global};
use std::collections::BTreeMap;
use std::marker::Model;

// How many sets there are numbers for.
const MOST: usize = 4_294_967_296;

/// Sets, each kept once under a number. Contracts see them in order of their numbers.
#[derive(Drop)]
pub struct Store {
    sets: Vec<Set>,
    numbers: BTreeMap<Set, u32>,
}

impl Model for Store {
    ghost use Rattle.std.specs.Prelude.{List, ℕ};
    ghost use Rattle.px_runner.specs.Remembering.{AreNumbered};

    ghost Value = { List (List ℕ) };

    ghost view = { λ store. store.sets.items };

    ghost invariant = { λ store. AreNumbered store.sets.items store.numbers };
}

impl Store {
    /// A store without sets. It takes no memory.
    pub fn new(alloc: Global) -> Store
        ensures none { result ≡ [] }
    {
        Store {
            sets: Vec::new(alloc),
            numbers: BTreeMap::new(alloc),
        }
    }

    /// The number of a set, where it is kept.
    pub fn find(&self, set: &Set) -> Option<u32>
        ensures found { IfSome result (λ n. slice_get self.now n ≡ Some set.now) }
        ensures none { result ≡ None → (n : ℕ) → slice_get self.now n ≡ Some set.now → ⊥ }
    {
        self.numbers.get(set).copied()
    }

    /// The set that a value stands for. It takes no memory.
    pub fn at<'a>(&'a self, held: &'a Held) -> &'a Set
        requires there { (set : List ℕ) × StandsFor self.now held.now set }
        ensures set { StandsFor self.now held.now result.now }
    {
        match held {
            Held::Plain(_) => unreachable!(),
            Held::Numbered(n) => &self.sets[*n as usize],
            Held::Own(set) => set,
        }
    }

    /// A value for a set: the number of an equal one, or else the next.
    pub fn keep(&mut self, set: Set) -> Result<Held, AllocError>
        ensures stands { IfOk result (λ held. StandsFor self.new held set) }
        ensures grows { Grows self.old self.new }
    {
        match self.find(&set) {
            Some(n) => Ok(Held::Numbered(n)),
            None => self.add(set),
        }
    }

    /// A value for a set that is new: the next number, or the set where no number is left. It takes
    /// memory for the set and a copy of it, and its only failure is want of memory.
    pub fn add(&mut self, set: Set) -> Result<Held, AllocError>
        requires new { (n : ℕ) → slice_get self.old n ≡ Some set → ⊥ }
        ensures stands { IfOk result (λ held. StandsFor self.new held set) }
        ensures grows { Grows self.old self.new }
    {
        let next = self.sets.len();
        if next >= MOST {
            return Ok(Held::Own(set));
        }
        let key = set.clone()?;
        self.sets.reserve(1)?;
        self.numbers.insert(key, next as u32)?;
        self.sets.push(set)?;
        Ok(Held::Numbered(next as u32))
    }
}
