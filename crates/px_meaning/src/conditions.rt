//! Whether conditions hold at a place.

ghost use Rattle.std.specs.Prelude.{◌≡◌};
ghost use Rattle.px_xpath.specs.Meaning as meaning;
ghost use Rattle.px_xpath.specs.Views.{condition, conditions};
ghost use Rattle.px_meaning.specs.Places.{place};

use crate::paths::{End, steps_hold};
use crate::place::Place;
use px_xpath::Cond;

/// Whether each condition holds.
#[cycle(holds)]
pub fn all_hold(conds: &[Cond], at: Place) -> bool
    ensures { result ≡ meaning.all_hold (conditions conds.now) (place at.entry) }
{
    for cond in conds {
        if !condition_holds(cond, at) {
            return false;
        }
    }
    true
}

// Whether one of the conditions holds.
#[cycle(holds)]
fn some_holds(conds: &[Cond], at: Place) -> bool
    ensures { result ≡ meaning.some_holds (conditions conds.now) (place at.entry) }
{
    for cond in conds {
        if condition_holds(cond, at) {
            return true;
        }
    }
    false
}

/// Whether a condition holds.
#[cycle(holds)]
pub fn condition_holds(cond: &Cond, at: Place) -> bool
    ensures { result ≡ meaning.condition_holds (condition cond.now) (place at.entry) }
{
    match cond {
        Cond::Exists(path) => steps_hold(path.steps.as_slice(), End::Always, at),
        Cond::Compare(path, relation, value) => {
            steps_hold(path.steps.as_slice(), End::Compared(*relation, value), at)
        }
        Cond::And(conds) => all_hold(conds.as_slice(), at),
        Cond::Or(conds) => some_holds(conds.as_slice(), at),
        Cond::Not(cond) => !condition_holds(cond.get(), at),
    }
}
