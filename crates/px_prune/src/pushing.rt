//! What is needed inside a child.

ghost use Rattle.std.specs.Prelude.{◌≡◌, ◌||◌, ℕ, IfOk};
ghost use Rattle.px_text.specs.Sets.{has};
ghost use Rattle.px_afa.specs.Functions.{push as pushed};
ghost use Rattle.px_prune.specs.Needing.{is_met_need, is_lasting_need};

use crate::compiled::Compiled;
use px_afa::Program;
use px_step::{ascending, is_lasting};
use px_text::Set;
use std::alloc::{AllocError, Global};

/// The states that are needed inside a child with this label where `need` holds those that are
/// needed of its parent. It takes memory for them, and its only failure is want of memory.
pub fn push(alloc: Global, compiled: &Compiled, need: &Set, label: u32) -> Result<Set, AllocError>
    ensures pushed { IfOk result (λ inside. inside ≡ pushed compiled.now.states need.now label) }
{
    compiled.program().sound();
    let inside = gathered(alloc, compiled, need, label)?;
    Ok(Set::from_vec(ascending(inside)))
}

// The states of a push, in any order.
fn gathered(
    alloc: Global,
    compiled: &Compiled,
    need: &Set,
    label: u32,
) -> Result<Vec<u32>, AllocError>
    ensures members { IfOk result (λ inside. (k : ℕ) →
        has inside.items k ≡ has (pushed compiled.now.states need.now label) k) }
{
    let mut inside = Vec::new(alloc);
    for p in need.as_slice() {
        add_met(compiled, label, *p, &mut inside)?;
        add_lasting(compiled.program(), label, *p, &mut inside)?;
    }
    Ok(inside)
}

// Adds what the body of a state needs, if the child meets its test.
fn add_met(compiled: &Compiled, label: u32, p: u32, inside: &mut Vec<u32>) -> Result<(), AllocError>
    ensures added { IfOk result (λ _. (k : ℕ) →
        has inside.new.items k ≡ (has inside.old.items k || is_met_need compiled.now.states label p
        k)) }
{
    if compiled.program().is_met(p, label) {
        inside.extend_from_slice(compiled.needs().of(p))?;
    }
    Ok(())
}

// Adds a state that is looked for below the children too, if the child is an element.
fn add_lasting(
    program: &Program,
    label: u32,
    p: u32,
    inside: &mut Vec<u32>,
) -> Result<(), AllocError>
    ensures added { IfOk result (λ _. (k : ℕ) →
        has inside.new.items k ≡ (has inside.old.items k || is_lasting_need program.now.states label
        p k)) }
{
    if program.is_element(label) && is_lasting(program, p) {
        inside.push(p)?;
    }
    Ok(())
}
