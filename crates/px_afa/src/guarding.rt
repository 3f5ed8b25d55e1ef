//! The guards of states.

ghost use Rattle.std.specs.Prelude.{◌≡◌, ◌≤◌, ◌||◌, List, Some, IfOk, cond, length, not, slice_get};
ghost use Rattle.px_afa.specs.declared.state.State.{State as AnyState};
ghost use Rattle.px_afa.specs.Building.{newest};
ghost use Rattle.px_afa.specs.Kept.{AreGuards};
ghost use Rattle.px_afa.specs.Lists.{flat};
ghost use Rattle.px_afa.specs.Tables as tables;
ghost use Rattle.px_afa.specs.Truth.{state_at};

use crate::state::{Body, State};
use px_xpath::Test;
use std::alloc::{AllocError, Global};

/// The guard of each state. Its only failure is want of memory.
pub fn guards(alloc: Global, states: &[State]) -> Result<Vec<Option<u32>>, AllocError>
    requires few { length states.now ≤ 500_000 }
    ensures all { IfOk result (λ guards. AreGuards guards.items (newest states.now)) }
{
    let mut guards = Vec::with_capacity(alloc, states.len())?;
    for (n, state) in states.iter().enumerate() {
        let guard = guard_of(&states[..n], &guards, n as u32, state);
        guards.push(guard)?;
    }
    Ok(guards)
}

/// The guard of what has to be true at a child.
pub fn body_guard(guards: &[Option<u32>], body: &Body) -> Option<u32>
    ensures it { (states : List AnyState) → AreGuards guards.now states →
        result ≡ tables.body_guard states body.now }
{
    match body {
        Body::Always => None,
        Body::State(n) => guard_at(guards, *n as usize),
    }
}

fn guard_at(guards: &[Option<u32>], n: usize) -> Option<u32>
    ensures it { result ≡ flat (slice_get guards.now n) }
{
    match guards.get(n) {
        Some(guard) => *guard,
        None => None,
    }
}

// The guard of the next state behind older ones.
fn guard_of(older: &[State], guards: &[Option<u32>], n: u32, state: &State) -> Option<u32>
    requires guards { AreGuards guards.now (newest older.now) }
    ensures it { result ≡ tables.guard_state state.now n
        (λ g. tables.is_rare (state_at (newest older.now) g)) (tables.guard_of (newest older.now)) }
{
    match state {
        State::Path { .. } => Some(n),
        State::Value { .. } => Some(n),
        State::And { parts } => guard_of_parts(older, guards, parts.as_slice()),
        State::Or { .. } => None,
        State::Not { .. } => None,
    }
}

fn guard_of_parts(older: &[State], guards: &[Option<u32>], parts: &[u64]) -> Option<u32>
    requires guards { AreGuards guards.now (newest older.now) }
    ensures it { result ≡ tables.guard_of_parts
        (λ g. tables.is_rare (state_at (newest older.now) g)) (tables.guard_of (newest older.now))
        parts.now }
{
    match parts {
        [] => None,
        [part, rest @ ..] => {
            let first = guard_at(guards, *part as usize);
            rarer(older, first, guard_of_parts(older, guards, rest))
        }
    }
}

// The first of two guards, unless the second alone is rare.
fn rarer(older: &[State], first: Option<u32>, second: Option<u32>) -> Option<u32>
    ensures it { result ≡ tables.rarer (λ g. tables.is_rare (state_at (newest older.now) g)) first
        second }
{
    match first {
        None => second,
        Some(g) => match second {
            None => Some(g),
            Some(h) => rarer_of(is_rare_at(older, g), g, is_rare_at(older, h), h),
        },
    }
}

fn rarer_of(is_first_rare: bool, first: u32, is_second_rare: bool, second: u32) -> Option<u32>
    ensures it { result ≡ cond (is_first_rare || not is_second_rare) (Some first) (Some second) }
{
    if is_first_rare {
        return Some(first);
    }
    if is_second_rare {
        return Some(second);
    }
    Some(first)
}

fn is_rare_at(older: &[State], n: u32) -> bool
    ensures it { result ≡ tables.is_rare (state_at (newest older.now) n) }
{
    match older.get(n as usize) {
        Some(state) => is_rare(state),
        None => false,
    }
}

// Whether few nodes have the state in their sets.
fn is_rare(state: &State) -> bool
    ensures it { result ≡ tables.is_rare (Some state.now) }
{
    match state {
        State::Path { test, .. } => match test {
            Test::Element(_) => false,
            Test::AnyElement => false,
            Test::Attribute(_) => true,
            Test::AnyAttribute => true,
            Test::Text => true,
        },
        State::Value { .. } => true,
        State::And { .. } => false,
        State::Or { .. } => false,
        State::Not { .. } => false,
    }
}
