//! The changes that were accepted, which only proofs read.
ghost use Rattle.std.specs.Prelude.{◌≡◌, List, [], ◌∷◌, ◌++◌};
ghost use Rattle.std.specs.Borrow.{ftrue};
ghost use Rattle.std.specs.Coded.{coded_list};
ghost use Rattle.px_workload.specs.declared.change.Change.{Change};
ghost use Rattle.px_workload.specs.contracts.change.Change.{the_row};

use crate::change::Change;
use std::marker::Model;

/// A list of changes that takes no memory. Its calls do nothing when the program runs.
#[derive(Drop)]
pub(crate) struct Past {
    pub ghost changes: { List Change } by { coded_list the_row.coded },
}

impl Model for Past {
    ghost also_owns = { λ _. ftrue };
}

// A struct that names what it owns has neither by itself. This one owns nothing.
unsafe impl Send for Past {}

unsafe impl Sync for Past {}

impl Past {
    pub(crate) fn new() -> Past
        ensures { result.changes ≡ [] }
    {
        Past {}
    }

    pub(crate) fn with(_before: &Past, _change: &Change) -> Past
        ensures { result.changes ≡ _before.now.changes ++ _change.now ∷ [] }
    {
        Past {}
    }
}
