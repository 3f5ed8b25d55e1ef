//! What a child makes true for its parent.

ghost use Rattle.std.specs.Prelude.{◌≡◌, ℕ, ◌<◌, ◌++◌, IfOk, filter, length};
ghost use Rattle.px_text.specs.Sets.{has};
ghost use Rattle.px_afa.specs.Truth.{state_at, is_below};
ghost use Rattle.px_afa.specs.Sound.{IsSound};
ghost use Rattle.px_afa.specs.Functions.{pop as popped};
ghost use Rattle.px_step.specs.Popping.{has_body, is_given as given_by, is_lasting as lasting, lasts, all_guarded};

use crate::sorting::ascending;
use crate::truth::body_is_true;
use px_afa::{Program, State};
use px_text::Set;
use px_xpath::Axis;
use std::alloc::{AllocError, Global};

/// The states that a child with this label and this set makes true for its parent. It looks at
/// the states that the set's members guard, at those that the label meets and no state guards,
/// and for an element at the set. It takes memory for the states, and its only failure is want
/// of memory.
pub fn pop(alloc: Global, program: &Program, set: &Set, label: u32) -> Result<Set, AllocError>
    ensures popped { IfOk result (λ parent. parent ≡ popped program.now.states set.now label) }
{
    program.sound();
    let states = gathered(alloc, program, set, label)?;
    Ok(Set::from_vec(ascending(states)))
}

// The states of a pop, in any order.
fn gathered(alloc: Global, program: &Program, set: &Set, label: u32) -> Result<Vec<u32>, AllocError>
    ensures members { IfOk result (λ states. (n : ℕ) →
        has states.items n ≡ has (popped program.now.states set.now label) n) }
{
    program.sound();
    let mut given = Vec::new(alloc);
    add_guarded(program, set, label, &mut given)?;
    add_given(
        program,
        set,
        label,
        program.unguarded_exactly(label),
        &mut given,
    )?;
    add_given(
        program,
        set,
        label,
        program.unguarded_loosely(label),
        &mut given,
    )?;
    add_lasting(program, set, label, &mut given)?;
    Ok(given)
}

// Adds those given of the states whose body is guarded by a member of the set.
fn add_guarded(
    program: &Program,
    set: &Set,
    label: u32,
    given: &mut Vec<u32>,
) -> Result<(), AllocError>
    requires sound { IsSound program.now }
    ensures added { IfOk result (λ _. given.new.items ≡ given.old.items ++
        all_guarded program.now.states (given_by program.now.states label (has set.now)) set.now) }
{
    for guard in set.as_slice() {
        add_given(program, set, label, program.guarded_by(*guard), given)?;
    }
    Ok(())
}

// Adds those of the states that the child gives by their bodies.
fn add_given(
    program: &Program,
    set: &Set,
    label: u32,
    states: &[u32],
    given: &mut Vec<u32>,
) -> Result<(), AllocError>
    requires sound { IsSound program.now }
    ensures added { IfOk result (λ _. given.new.items ≡ given.old.items ++
        filter (given_by program.now.states label (has set.now)) states.now) }
{
    for n in states {
        if is_given(program, set, label, *n) {
            given.push(*n)?;
        }
    }
    Ok(())
}

// Whether the child meets a state's test and makes its body true.
fn is_given(program: &Program, set: &Set, label: u32, n: u32) -> bool
    requires sound { IsSound program.now }
    ensures given { result ≡ given_by program.now.states label (has set.now) n }
{
    program.is_met(n, label) && has_true_body(program, set, n)
}

// Whether a state is a Path whose body is true in the set.
fn has_true_body(program: &Program, set: &Set, n: u32) -> bool
    requires sound { IsSound program.now }
    requires there { n < length program.now.states }
    ensures body { result ≡ has_body program.now.states (has set.now)
        (state_at program.now.states n) }
{
    match program.state(n) {
        State::Path { body, .. } => body_is_true(program, set, *body),
        State::And { .. } => false,
        State::Or { .. } => false,
        State::Not { .. } => false,
        State::Value { .. } => false,
    }
}

// Adds the states of the set that last to the parent of an element.
fn add_lasting(
    program: &Program,
    set: &Set,
    label: u32,
    given: &mut Vec<u32>,
) -> Result<(), AllocError>
    ensures added { IfOk result (λ _. given.new.items ≡ given.old.items ++
        filter (lasts program.now.states label) set.now) }
{
    if !program.is_element(label) {
        return Ok(());
    }
    for n in set.as_slice() {
        if is_lasting(program, *n) {
            given.push(*n)?;
        }
    }
    Ok(())
}

/// Whether a number is that of a Path state of axis Below.
pub fn is_lasting(program: &Program, n: u32) -> bool
    ensures lasting { result ≡ lasting (state_at program.now.states n) }
{
    if n >= program.states() {
        return false;
    }
    match program.state(n) {
        State::Path { axis, .. } => goes_below(*axis),
        State::And { .. } => false,
        State::Or { .. } => false,
        State::Not { .. } => false,
        State::Value { .. } => false,
    }
}

fn goes_below(axis: Axis) -> bool
    ensures below { result ≡ is_below axis }
{
    match axis {
        Axis::Child => false,
        Axis::Below => true,
    }
}
