//! Which filters accept.

ghost use Rattle.std.specs.Prelude.{◌≡◌, ℕ, IfOk};
ghost use Rattle.px_text.specs.Sets.{has};
ghost use Rattle.px_afa.specs.Sets.{accept as accepted};

use crate::sorting::ascending_marked;
use px_afa::Program;
use px_text::{Ids, Set};
use std::alloc::{AllocError, Global};

/// The ids of the filters whose first state is in the set, rising. It takes memory for them, and
/// its only failure is want of memory.
pub fn accept(alloc: Global, program: &Program, set: &Set) -> Result<Ids, AllocError>
    ensures ids { IfOk result (λ ids. ids ≡ accepted program.now.firsts set.now) }
{
    program.sound();
    let ids = ids_of(alloc, program, set)?;
    Ok(Ids::of(ascending_marked(alloc, ids)?))
}

// The ids of the filters whose first state is in the set, by their states.
fn ids_of(alloc: Global, program: &Program, set: &Set) -> Result<Vec<u32>, AllocError>
    ensures members { IfOk result (λ ids. (n : ℕ) →
        has ids.items n ≡ has (accepted program.now.firsts set.now) n) }
{
    let mut ids = Vec::new(alloc);
    for state in set.as_slice() {
        ids.extend_from_slice(program.ids_of(*state))?;
    }
    Ok(ids)
}
