//! Lists of numbers under numbers.

ghost use Rattle.std.specs.Prelude.{◌≡◌, ◌<◌, ◌++◌, ◌∷◌, [], ℕ, IfOk, IfSome, OnOk, cond, length};
ghost use Rattle.px_afa.specs.Lists.{is_key, row};

use std::alloc::{AllocError, Global};
use std::marker::Model;

/// A list for each number below a bound.
#[derive(Drop)]
pub struct Groups {
    rows: Vec<Vec<u32>>,
}

impl Model for Groups {
    ghost use Rattle.std.specs.Prelude.{List, ℕ};

    ghost Value = { List (List ℕ) };

    ghost use Rattle.px_afa.specs.Lists.{lists_of};

    ghost view = { λ rows. lists_of rows.rows.items };
}

impl Groups {
    /// So many lists without numbers. Its only failure is want of memory.
    pub fn new(alloc: Global, count: usize) -> Result<Groups, AllocError>
        ensures count { IfOk result (λ rows. length rows ≡ count) }
        ensures empty { IfOk result (λ rows. (key : ℕ) → row rows key ≡ []) }
    {
        let mut rows = Vec::with_capacity(alloc, count)?;
        for _ in 0..count {
            rows.push(Vec::new(alloc))?;
        }
        Ok(Groups { rows })
    }

    /// The list under a number.
    pub fn row(&self, key: u32) -> &[u32]
        ensures it { result.now ≡ row self.now key }
    {
        match self.rows.get(key as usize) {
            Some(row) => row,
            None => &[],
        }
    }

    /// Puts a number at the end of the list under a key, if there is a key.
    pub fn put(&mut self, key: Option<u32>, number: u32) -> Result<(), AllocError>
        requires within { IfSome key (λ k. k < length self.old) }
        ensures put { OnOk result ((other : ℕ) →
            row self.new other ≡ row self.old other ++ cond (is_key key other) (number ∷ []) []) }
        ensures count { OnOk result (length self.new ≡ length self.old) }
    {
        match key {
            Some(key) => {
                let row = &mut self.rows[key as usize];
                row.push(number)?;
                Ok(())
            }
            None => Ok(()),
        }
    }
}

/// Puts a number at the end of a list, if it is to be there.
pub fn push_if(list: &mut Vec<u32>, is_wanted: bool, number: u32) -> Result<(), AllocError>
    ensures pushed { OnOk result (list.new.items ≡ list.old.items ++
        cond is_wanted (number ∷ []) []) }
{
    if is_wanted {
        list.push(number)?;
        return Ok(());
    }
    Ok(())
}
