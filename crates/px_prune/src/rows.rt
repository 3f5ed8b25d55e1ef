//! What the body of a state needs.

ghost use Rattle.std.specs.Prelude.{◌≡◌, ◌<◌, ◌||◌, ℕ, true, [], ◌∷◌, ◌++◌, IfOk, length, nat_lt};
ghost use Rattle.std.specs.List.{list_all, list_any};
ghost use Rattle.px_text.specs.Sets.{has};
ghost use Rattle.px_afa.specs.Truth.{state_at};
ghost use Rattle.px_afa.specs.Orders.{IsBodyBelow};
ghost use Rattle.px_afa.specs.Sound.{IsSound};
ghost use Rattle.px_afa.specs.Sets.{needs};
ghost use Rattle.px_afa.specs.Functions.{need, body_need};
ghost use Rattle.px_prune.specs.Needing.{path_need};

use px_afa::{Body, Program, State};
use px_step::ascending;
use std::alloc::{AllocError, Global};

/// The states that the body of a state needs, rising; none where it is no Path.
pub fn row_of(alloc: Global, program: &Program, n: u32) -> Result<Vec<u32>, AllocError>
    requires sound { IsSound program.now }
    requires there { n < length program.now.states }
    ensures row { IfOk result (λ row. row.items ≡
        path_need program.now.states (state_at program.now.states n)) }
{
    match program.state(n) {
        State::Path { body, .. } => body_row(alloc, program, *body),
        State::And { .. } => Ok(Vec::new(alloc)),
        State::Or { .. } => Ok(Vec::new(alloc)),
        State::Not { .. } => Ok(Vec::new(alloc)),
        State::Value { .. } => Ok(Vec::new(alloc)),
    }
}

// The states that a body needs, rising.
fn body_row(alloc: Global, program: &Program, body: Body) -> Result<Vec<u32>, AllocError>
    requires sound { IsSound program.now }
    requires there { IsBodyBelow body (length program.now.states) }
    ensures row { IfOk result (λ row. row.items ≡ body_need program.now.states body) }
{
    match body {
        Body::Always => Ok(Vec::new(alloc)),
        Body::State(n) => state_row(alloc, program, n),
    }
}

// The states that a state needs, rising.
fn state_row(alloc: Global, program: &Program, n: u32) -> Result<Vec<u32>, AllocError>
    requires sound { IsSound program.now }
    requires there { n < length program.now.states }
    ensures row { IfOk result (λ row. row.items ≡ need program.now.states n) }
{
    let mut needed = Vec::new(alloc);
    add_needs(program, n, &mut needed)?;
    Ok(ascending(needed))
}

// Adds the states that a state needs.
#[cycle(needing)]
fn add_needs(program: &Program, n: u32, needed: &mut Vec<u32>) -> Result<(), AllocError>
    requires sound { IsSound program.now }
    requires there { n < length program.now.states }
    ensures added { IfOk result (λ _. (k : ℕ) →
        has needed.new.items k ≡ (has needed.old.items k || needs program.now.states n k)) }
{
    match program.state(n) {
        State::Path { .. } => add(n, needed),
        State::Value { .. } => add(n, needed),
        State::Not { part } => add_needs(program, *part, needed),
        State::And { parts } => add_part_needs(program, parts.as_slice(), needed),
        State::Or { parts } => add_part_needs(program, parts.as_slice(), needed),
    }
}

// Adds the states that some of the states need.
#[cycle(needing)]
fn add_part_needs(program: &Program, parts: &[u64], needed: &mut Vec<u32>) -> Result<(), AllocError>
    requires sound { IsSound program.now }
    requires there { list_all (λ p. nat_lt p (length program.now.states)) parts.now ≡ true }
    ensures added { IfOk result (λ _. (k : ℕ) →
        has needed.new.items k ≡ (has needed.old.items k || list_any
        (λ p. needs program.now.states p k) parts.now)) }
{
    for part in parts {
        add_needs(program, *part as u32, needed)?;
    }
    Ok(())
}

fn add(n: u32, needed: &mut Vec<u32>) -> Result<(), AllocError>
    ensures added { IfOk result (λ _. needed.new.items ≡ needed.old.items ++ n ∷ []) }
{
    needed.push(n)?;
    Ok(())
}
