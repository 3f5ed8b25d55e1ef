//! Numbers of texts.

ghost use Rattle.std.specs.Prelude.{◌≡◌, [], List, Some, ℕ, OnOk, bytes_eq, cond};
ghost use Rattle.px_afa.specs.Dictionaries.{found};

use std::alloc::{AllocError, Global};
use std::collections::BTreeMap;
use std::marker::Model;

/// Texts with their numbers. A look-up takes the time of the logarithm of their count, and no
/// memory.
#[derive(Drop)]
pub struct Dictionary {
    numbers: BTreeMap<Vec<u8>, u32>,
}

impl Model for Dictionary {
    ghost use Rattle.std.specs.Prelude.{List, ℕ};

    ghost Value = { List (List ℕ × ℕ) };

    ghost use Rattle.px_afa.specs.Dictionaries.{texts_of};

    ghost view = { λ dictionary. texts_of dictionary.numbers };
}

impl Dictionary {
    /// A dictionary without texts. It takes no memory.
    pub fn new(alloc: Global) -> Dictionary
        ensures none { result ≡ [] }
    {
        Dictionary {
            numbers: BTreeMap::new(alloc),
        }
    }

    /// The number of a text.
    pub fn find(&self, text: &[u8]) -> Option<u32>
        ensures found { result ≡ found self.now text.now }
    {
        self.numbers.get(text).copied()
    }

    /// Gives a number to a text, of which it keeps a copy. Its only failure is want of memory.
    pub fn put(&mut self, alloc: Global, text: &[u8], number: u32) -> Result<(), AllocError>
        ensures put { OnOk result ((other : List ℕ) →
            found self.new other ≡ cond (bytes_eq other text.now) (Some number)
            (found self.old other)) }
    {
        let key = Vec::from_slice(alloc, text)?;
        self.numbers.insert(key, number)?;
        Ok(())
    }
}
