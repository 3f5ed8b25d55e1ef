//! What the bodies of states need, kept for a program.

ghost use Rattle.std.specs.Prelude.{◌≡◌, ◌<◌, ◌≤◌, [], ◌∷◌, ◌++◌, Some, IfOk, length, slice_get};
ghost use Rattle.px_prune.specs.Needing.{needs_of};
ghost use Rattle.px_prune.specs.Rows.{row_in};

use crate::rows::row_of;
use px_afa::Program;
use std::alloc::{AllocError, Global};
use std::marker::Model;

// Where the states of a row stand among the items.
#[derive(Clone, Copy, Drop)]
struct Row {
    start: usize,
    end: usize,
}

/// For each state of a program the states that its body needs. Contracts see a list of rising
/// lists, by the states' numbers; it is empty for a state that is no Path.
#[derive(Drop)]
pub struct Needs {
    rows: Vec<Row>,
    items: Vec<u32>,
}

impl Model for Needs {
    ghost use Rattle.std.specs.Prelude.{List, ℕ, map, length};
    ghost use Rattle.px_prune.specs.Rows.{row_in, AreWithin};

    ghost Value = { List (List ℕ) };

    ghost view = { λ needs. map (row_in needs.items.items) needs.rows.items };

    ghost invariant = { λ needs. AreWithin (length needs.items.items) needs.rows.items };
}

impl Needs {
    /// The needs of a program. It takes memory for them, at most that of the filters, and fails
    /// only where that is refused.
    pub fn build(alloc: Global, program: &Program) -> Result<Needs, AllocError>
        ensures needs { IfOk result (λ needs. needs ≡ needs_of program.now.states) }
    {
        program.sound();
        let mut needs = Needs::none(alloc);
        for n in 0..program.states() {
            needs.add(&row_of(alloc, program, n)?)?;
        }
        Ok(needs)
    }

    /// The states that the body of a state needs, rising. It takes no memory.
    pub fn of(&self, n: u32) -> &[u32]
        requires there { n < length self.now }
        ensures row { slice_get self.now n ≡ Some result.now }
    {
        part(&self.items, self.rows[n as usize])
    }

    // No rows.
    fn none(alloc: Global) -> Needs
        ensures none { result ≡ [] }
    {
        Needs {
            rows: Vec::new(alloc),
            items: Vec::new(alloc),
        }
    }

    // One row more.
    fn add(&mut self, row: &[u32]) -> Result<(), AllocError>
        ensures added { IfOk result (λ _. self.new ≡ self.old ++ row.now ∷ []) }
    {
        let start = self.items.len();
        self.items.extend_from_slice(row)?;
        let end = self.items.len();
        self.rows.push(Row { start, end })?;
        Ok(())
    }
}

// The items of a row.
fn part(items: &[u32], row: Row) -> &[u32]
    requires forward { row.start ≤ row.end }
    requires within { row.end ≤ length items.now }
    ensures part { result.now ≡ row_in items.now row }
{
    &items[row.start..row.end]
}
