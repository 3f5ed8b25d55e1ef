//! Whether two filters are the same.
#![tactic(auto, using(px_xpath::proofs::FilterViews::views))]

ghost use Rattle.std.specs.Prelude.{◌≡◌, ◌&&◌};
ghost use Rattle.px_xpath.specs.Filters.{Arrived, NoConditions};
ghost use Rattle.px_xpath.specs.Views.{condition, conditions, ways};
ghost use Rattle.px_xpath.specs.Whole as whole;
ghost use Rattle.px_delta.specs.Sameness.{same_axis, same_test, same_way, same_conditions, same_condition};

use px_xpath::{Cond, Filter, Step};

/// Whether two filters are the same, wherever they lie in memory. It takes no memory.
pub(crate) fn is_same(one: &Filter, other: &Filter) -> bool
    ensures { result ≡ same_way (whole.filter one.now) (whole.filter other.now) }
{
    are_same_steps(one.path.steps.as_slice(), other.path.steps.as_slice())
}

#[cycle(same)]
fn are_same_steps(one: &[Step], other: &[Step]) -> bool
    ensures { result ≡ same_way (ways one.now) (ways other.now) }
{
    match one {
        [] => is_no_step(other),
        [step, onward @ ..] => match other {
            [] => false,
            [first, behind @ ..] => is_same_step(step, first) && are_same_steps(onward, behind),
        },
    }
}

// Whether two steps are the same, whatever comes behind each.
#[cycle(same)]
fn is_same_step(one: &Step, other: &Step) -> bool
    ensures { result ≡ (same_axis one.now.axis other.now.axis &&
        same_test one.now.test other.now.test &&
        same_conditions (conditions one.now.conds) (conditions other.now.conds)) }
{
    if one.axis != other.axis || one.test != other.test {
        return false;
    }
    are_same_conditions(one.conds.as_slice(), other.conds.as_slice())
}

#[cycle(same)]
fn are_same_conditions(one: &[Cond], other: &[Cond]) -> bool
    ensures { result ≡ same_conditions (conditions one.now) (conditions other.now) }
{
    match one {
        [] => is_no_condition(other),
        [cond, rest @ ..] => match other {
            [] => false,
            [first, behind @ ..] => {
                is_same_condition(cond, first) && are_same_conditions(rest, behind)
            }
        },
    }
}

#[cycle(same)]
fn is_same_condition(one: &Cond, other: &Cond) -> bool
    ensures { result ≡ same_condition (condition one.now) (condition other.now) }
{
    match (one, other) {
        (Cond::Exists(path), Cond::Exists(second)) => {
            are_same_steps(path.steps.as_slice(), second.steps.as_slice())
        }
        (Cond::Compare(path, relation, value), Cond::Compare(second, by, to)) => {
            relation == by
                && value == to
                && are_same_steps(path.steps.as_slice(), second.steps.as_slice())
        }
        (Cond::And(conds), Cond::And(second)) => {
            are_same_conditions(conds.as_slice(), second.as_slice())
        }
        (Cond::Or(conds), Cond::Or(second)) => {
            are_same_conditions(conds.as_slice(), second.as_slice())
        }
        (Cond::Not(cond), Cond::Not(second)) => is_same_condition(cond.get(), second.get()),
        _ => false,
    }
}

fn is_no_step(steps: &[Step]) -> bool
    ensures { result ≡ same_way Arrived (ways steps.now) }
{
    match steps {
        [] => true,
        [_first, _rest @ ..] => false,
    }
}

fn is_no_condition(conds: &[Cond]) -> bool
    ensures { result ≡ same_conditions NoConditions (conditions conds.now) }
{
    match conds {
        [] => true,
        [_first, _rest @ ..] => false,
    }
}
