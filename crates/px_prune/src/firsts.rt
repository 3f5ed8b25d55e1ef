//! The first states of all filters.

ghost use Rattle.std.specs.Prelude.{◌≡◌, IfOk, map};
ghost use Rattle.px_afa.specs.declared.state.First.{First};
ghost use Rattle.px_afa.specs.Sets.{first_set};

use px_afa::Program;
use px_step::ascending;
use px_text::Set;
use std::alloc::{AllocError, Global};

/// The first states of all filters, which are needed of a document. It takes memory for them, and
/// its only failure is want of memory.
pub fn first(alloc: Global, program: &Program) -> Result<Set, AllocError>
    ensures firsts { IfOk result (λ set. set ≡ first_set program.now.firsts) }
{
    program.sound();
    let states = first_states(alloc, program)?;
    Ok(Set::from_vec(ascending(states)))
}

// The first states of the filters, in order of these.
fn first_states(alloc: Global, program: &Program) -> Result<Vec<u32>, AllocError>
    ensures states { IfOk result (λ states. states.items ≡
        map (λ (f : First). f.state) program.now.firsts) }
{
    let mut states = Vec::new(alloc);
    for first in program.firsts() {
        states.push(first.state)?;
    }
    Ok(states)
}
