//! How many states a filter takes before any are shared.
#![tactic(auto, using(crate::proofs::FilterViews::views))]

ghost use Rattle.std.specs.Prelude.{◌≡◌, ◌+◌, ◌≤◌, min};
ghost use Rattle.px_xpath.specs.Histories as size;
ghost use Rattle.px_xpath.specs.Views.{condition, conditions, way, ways};
ghost use Rattle.px_xpath.specs.Whole as whole;

use crate::filter::{Cond, Filter, Step};

/// The number of the filter's states, each occurrence counted, or 4,294,967,295 where there are
/// more.
pub fn size(filter: &Filter) -> u32
    ensures { result ≡ min (size.size (whole.filter filter.now)) u32.MAX }
{
    way_size(filter.path.steps.as_slice(), 0)
}

// The states of a path whose end takes 0 or 1.
#[cycle(sizing)]
fn way_size(steps: &[Step], end: u32) -> u32
    requires { end ≤ 1 }
    ensures { result ≡ min (size.way_size (ways steps.now) end) u32.MAX }
{
    match steps {
        [] => end,
        [step, onward @ ..] => {
            let conds = step.conds.as_slice();
            let parts = conditions_size(conds).saturating_add(way_size(onward, end));
            parts.saturating_add(step_size(conds, onward, end))
        }
    }
}

#[cycle(sizing)]
fn conditions_size(conds: &[Cond]) -> u32
    ensures { result ≡ min (size.conditions_size (conditions conds.now)) u32.MAX }
{
    match conds {
        [] => 0,
        [cond, rest @ ..] => condition_size(cond).saturating_add(conditions_size(rest)),
    }
}

#[cycle(sizing)]
fn condition_size(cond: &Cond) -> u32
    ensures { result ≡ min (size.condition_size (condition cond.now)) u32.MAX }
{
    match cond {
        Cond::Exists(path) => way_size(path.steps.as_slice(), 0),
        Cond::Compare(path, _, _) => way_size(path.steps.as_slice(), 1),
        Cond::And(conds) | Cond::Or(conds) => conditions_size(conds.as_slice()).saturating_add(1),
        Cond::Not(cond) => condition_size(cond.get()).saturating_add(1),
    }
}

// The state of a step, and the one that joins its parts.
#[tactic(auto, using(crate::proofs::FilterViews::views, crate::proofs::Weights::conditions_counted))]
fn step_size(conds: &[Cond], onward: &[Step], end: u32) -> u32
    requires { end ≤ 1 }
    ensures { result ≡ size.joint (size.count_of (conditions conds.now) + size.parts_behind
        (ways onward.now) end) + 1 }
{
    joint(conds.len(), parts_behind(onward, end)) + 1
}

// The parts of a step behind its conditions.
fn parts_behind(onward: &[Step], end: u32) -> u32
    requires { end ≤ 1 }
    ensures value { result ≡ size.parts_behind (ways onward.now) end }
    ensures bounded { result ≤ 1 }
{
    match onward {
        [] => end,
        [_first, _rest @ ..] => 1,
    }
}

// The state that joins several parts: those that are conditions, and those behind them.
fn joint(conds: usize, behind: u32) -> u32
    requires { behind ≤ 1 }
    ensures value { result ≡ size.joint (conds + behind) }
    ensures bounded { result ≤ 1 }
{
    if conds > 1 || conds == 1 && behind == 1 {
        1
    } else {
        0
    }
}
