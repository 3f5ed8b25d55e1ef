//! Filters by their first states.

ghost use Rattle.std.specs.Prelude.{◌≡◌, ℕ, IfOk, [], ◌∷◌};
ghost use Rattle.px_afa.specs.Accepting.{ArePaths};
ghost use Rattle.px_afa.specs.Building.{newest};
ghost use Rattle.px_afa.specs.Lists.{row};
ghost use Rattle.px_afa.specs.Sets.{accept};

use crate::groups::Groups;
use crate::state::{First, State};
use std::alloc::{AllocError, Global};

/// The ids of the filters under their first states. Its only failure is want of memory.
pub fn ids_by_first(alloc: Global, states: &[State], firsts: &[First]) -> Result<Groups, AllocError>
    requires paths { ArePaths (newest states.now) firsts.now }
    ensures ids { IfOk result (λ ids. (state : ℕ) →
        row ids state ≡ accept firsts.now (state ∷ [])) }
{
    let mut ids = Groups::new(alloc, states.len())?;
    for first in firsts {
        ids.put(Some(first.state), first.id)?;
    }
    Ok(ids)
}
