//! The states of filters.
#![tactic(auto, using(px_xpath::proofs::FilterViews::views, crate::proofs::Parts::parts_joined))]

ghost use Rattle.std.specs.Prelude.{◌≡◌, ◌<◌, ◌≤◌, ◌+◌, ◌++◌, ◌∷◌, [], true, IfOk, OnOk, length, option_to_list};
ghost use Rattle.px_xpath.specs.Histories.{condition_size, conditions_size, count_of, joint, parts_behind, way_size};
ghost use Rattle.px_xpath.specs.Proper.{all_proper, condition_proper, steps_proper};
ghost use Rattle.px_xpath.specs.Views.{condition, conditions, ways};
ghost use Rattle.px_afa.specs.Building.{body_made, condition_made, conditions_made, end_made, joined, way_made};
ghost use Rattle.px_afa.specs.Ends.{end_of, end_size};

use crate::builder::Builder;
use crate::state::{Body, State};
use px_text::Words;
use px_xpath::{Cond, Relation, Step, Value};
use std::alloc::{AllocError, Global};

/// The state of the steps of a path, or of its end where no step is left.
#[cycle(filters)]
pub fn way(
    alloc: Global,
    builder: &mut Builder,
    steps: &[Step],
    end: Option<(Relation, &Value)>,
) -> Result<Option<u32>, AllocError>
    requires proper { steps_proper (ways steps.now) ≡ true }
    requires room { length builder.old + way_size (ways steps.now) (end_size end) ≤ 500_000 }
    ensures made { IfOk result (λ part. record { states = builder.new; parts = option_to_list part }
        ≡ way_made (ways steps.now) (end_of end.entry) builder.old) }
    ensures count { IfOk result (λ part. length (option_to_list part) ≡
        parts_behind (ways steps.now) (end_size end.entry)) }
    ensures few { OnOk result (length builder.new ≤
        length builder.old + way_size (ways steps.now) (end_size end.entry)) }
{
    match steps {
        [] => end_part(builder, end),
        [step, onward @ ..] => {
            let mut parts = Vec::new(alloc);
            condition_parts(alloc, builder, step.conds.as_slice(), &mut parts)?;
            let behind = way(alloc, builder, onward, end)?;
            push_part(&mut parts, behind)?;
            let body = body_of(alloc, builder, &parts)?;
            let n = builder.share(State::Path {
                axis: step.axis,
                test: step.test.clone()?,
                body,
            })?;
            Ok(Some(n))
        }
    }
}

// Puts the states of conditions behind other parts.
#[cycle(filters)]
fn condition_parts(
    alloc: Global,
    builder: &mut Builder,
    conds: &[Cond],
    parts: &mut Vec<u32>,
) -> Result<(), AllocError>
    requires proper { all_proper (conditions conds.now) ≡ true }
    requires room { length builder.old + conditions_size (conditions conds.now) ≤ 500_000 }
    ensures made { OnOk result (record { states = builder.new; parts = parts.new.items } ≡
        joined parts.old.items (conditions_made (conditions conds.now) builder.old)) }
    ensures count { OnOk result (length parts.new.items ≡
        length parts.old.items + count_of (conditions conds.now)) }
    ensures few { OnOk result (length builder.new ≤
        length builder.old + conditions_size (conditions conds.now)) }
{
    match conds {
        [] => Ok(()),
        [cond, rest @ ..] => {
            let n = condition_state(alloc, builder, cond)?;
            parts.push(n)?;
            condition_parts(alloc, builder, rest, parts)
        }
    }
}

#[cycle(filters)]
fn condition_state(alloc: Global, builder: &mut Builder, cond: &Cond) -> Result<u32, AllocError>
    requires proper { condition_proper (condition cond.now) ≡ true }
    requires room { length builder.old + condition_size (condition cond.now) ≤ 500_000 }
    ensures made { IfOk result (λ n. record { states = builder.new; number = n } ≡
        condition_made (condition cond.now) builder.old) }
    ensures few { OnOk result (length builder.new ≤
        length builder.old + condition_size (condition cond.now)) }
{
    match cond {
        Cond::Exists(path) => Ok(only(way(alloc, builder, path.steps.as_slice(), None)?)),
        Cond::Compare(path, relation, value) => {
            let end = Some((*relation, value));
            Ok(only(way(alloc, builder, path.steps.as_slice(), end)?))
        }
        Cond::And(conds) => {
            let mut parts = Vec::new(alloc);
            condition_parts(alloc, builder, conds.as_slice(), &mut parts)?;
            builder.share(State::And {
                parts: words(alloc, &parts)?,
            })
        }
        Cond::Or(conds) => {
            let mut parts = Vec::new(alloc);
            condition_parts(alloc, builder, conds.as_slice(), &mut parts)?;
            builder.share(State::Or {
                parts: words(alloc, &parts)?,
            })
        }
        Cond::Not(cond) => {
            let part = condition_state(alloc, builder, cond.get())?;
            builder.share(State::Not { part })
        }
    }
}

// The value at the end of a compared path.
fn end_part(
    builder: &mut Builder,
    end: Option<(Relation, &Value)>,
) -> Result<Option<u32>, AllocError>
    requires room { length builder.old + end_size end ≤ 500_000 }
    ensures made { IfOk result (λ part. record { states = builder.new; parts = option_to_list part }
        ≡ end_made (end_of end.entry) builder.old) }
    ensures count { IfOk result (λ part. length (option_to_list part) ≡ end_size end.entry) }
    ensures few { OnOk result (length builder.new ≤ length builder.old + end_size end.entry) }
{
    match end {
        None => Ok(None),
        Some((relation, value)) => {
            let n = builder.share(State::Value {
                relation,
                value: value.clone()?,
            })?;
            Ok(Some(n))
        }
    }
}

fn push_part(parts: &mut Vec<u32>, part: Option<u32>) -> Result<(), AllocError>
    ensures pushed { OnOk result (parts.new.items ≡ parts.old.items ++ option_to_list part) }
    ensures count { OnOk result (length parts.new.items ≡
        length parts.old.items + length (option_to_list part)) }
{
    if let Some(n) = part {
        parts.push(n)?;
    }
    Ok(())
}

// What has to be true at a place for all parts to be.
fn body_of(alloc: Global, builder: &mut Builder, parts: &[u32]) -> Result<Body, AllocError>
    requires room { length builder.old + joint (length parts.now) ≤ 500_000 }
    ensures made { IfOk result (λ body. record { states = builder.new; body = body } ≡
        body_made parts.now builder.old) }
    ensures few { OnOk result (length builder.new ≤ length builder.old + joint (length parts.now)) }
{
    match parts {
        [] => Ok(Body::Always),
        [n] => Ok(Body::State(*n)),
        [_, _, ..] => {
            let n = builder.share(State::And {
                parts: words(alloc, parts)?,
            })?;
            Ok(Body::State(n))
        }
    }
}

/// The one part of a path that has a step or an end.
pub fn only(part: Option<u32>) -> u32
    requires some { length (option_to_list part) ≡ 1 }
    ensures it { option_to_list part ≡ result ∷ [] }
{
    match part {
        Some(n) => n,
        None => unreachable!(),
    }
}

fn words(alloc: Global, parts: &[u32]) -> Result<Words, AllocError>
    ensures same { IfOk result (λ words. words ≡ parts.now) }
{
    let mut items = Vec::with_capacity(alloc, parts.len())?;
    for part in parts {
        items.push(u64::from(*part))?;
    }
    Ok(Words::of(items))
}
