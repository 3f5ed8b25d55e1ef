//! The sets behind the operands of a step, and its answer.
ghost use Rattle.std.specs.Prelude.{◌≡◌, ◌≢◌, ℕ, List, true, Some, None, IfOk};
ghost use Rattle.px_text.specs.Operands.{Operand};
ghost use Rattle.px_afa.specs.Steps.{answer_of};
ghost use Rattle.px_rule.specs.Table.{is_inside};
ghost use Rattle.px_intern.specs.Answers.{IsSound};
ghost use Rattle.px_runner.specs.Operands.{IsPlain, IsOperand, AreOperands};
ghost use Rattle.px_runner.specs.Remembering.{number_of as number};
ghost use Rattle.px_call.specs.Values.{IsValue, AreRead, OnlyLooked};

use px_intern::set_of;
use px_prune::{Compiled, push};
use px_rule::{Law, Seat, Shared};
use px_runner::Held;
use px_step::{add, mask, pop, value_number, value_text};
use px_text::{Op, Set};
use std::alloc::{AllocError, Global};

/// The number of an operand, where it has one.
pub(crate) fn number_of(held: &Held) -> Option<u32>
    ensures number { result ≡ number held.now }
{
    match held {
        Held::Plain(n) => Some(*n),
        Held::Numbered(n) => Some(*n),
        Held::Own(_) => None,
    }
}

// The class or the label that an operand is.
fn plain(held: &Held) -> u32
    requires there { (n : ℕ) × IsPlain held.now n }
    ensures plain { IsPlain held.now result }
{
    match held {
        Held::Plain(n) => *n,
        _ => unreachable!(),
    }
}

/// The set that an operand is, and no states for a class or a label.
pub(crate) fn read<L: Law>(
    alloc: Global,
    shared: &Shared<L>,
    seat: &mut Seat<L>,
    held: &Held,
) -> Result<Set, AllocError>
    requires table { seat.old.table ≡ shared.now }
    requires inside { is_inside seat.old.view.stay.place ≡ true }
    requires sound { IsSound L.right shared.now.shape seat.old.view }
    requires operand { (x : Operand) ×
        IsOperand (IsValue L.right shared.now.shape seat.old.view) held.now x }
    ensures table { seat.new.table ≡ seat.old.table }
    ensures looked { OnlyLooked L.right shared.now.shape seat.old.view seat.new.view }
    ensures set { IfOk result (λ set. (x : List ℕ) →
        IsValue L.right shared.now.shape seat.old.view held.now x → set ≡ x) }
{
    match held {
        Held::Plain(_) => Ok(Set::empty(alloc)),
        Held::Numbered(number) => set_of(alloc, shared, seat, *number),
        Held::Own(set) => set.clone(),
    }
}

// The answer of a step whose sets were read.
fn answer(
    alloc: Global,
    compiled: &Compiled,
    op: Op,
    first: &Set,
    second: &Set,
    b: &Held,
) -> Result<Set, AllocError>
    requires operands { (x : Operand) × (y : Operand) × AreRead op first.now second.now b.now x y }
    ensures answer { IfOk result (λ set. (x y : Operand) →
        AreRead op first.now second.now b.now x y → set ≡ answer_of compiled.now.states op x y) }
{
    match op {
        Op::TextClass => value_text(alloc, compiled.program(), plain(b)),
        Op::NumberClass => value_number(alloc, compiled.program(), plain(b)),
        Op::Pop => pop(alloc, compiled.program(), first, plain(b)),
        Op::Add => add(alloc, first, second),
        Op::Push => push(alloc, compiled, first, plain(b)),
        Op::Mask => mask(alloc, first, second),
    }
}

/// The answer of a step, by the program. Its only failure is want of memory.
pub(crate) fn solve<L: Law>(
    alloc: Global,
    shared: &Shared<L>,
    seat: &mut Seat<L>,
    compiled: &Compiled,
    op: Op,
    a: &Held,
    b: &Held,
) -> Result<Set, AllocError>
    requires table { seat.old.table ≡ shared.now }
    requires inside { is_inside seat.old.view.stay.place ≡ true }
    requires sound { IsSound L.right shared.now.shape seat.old.view }
    requires operands { (x : Operand) × (y : Operand) ×
        AreOperands compiled.now.states (IsValue L.right shared.now.shape seat.old.view) op a.now
        b.now x y }
    ensures table { seat.new.table ≡ seat.old.table }
    ensures looked { OnlyLooked L.right shared.now.shape seat.old.view seat.new.view }
    ensures answer { IfOk result (λ set. (x y : Operand) →
        AreOperands compiled.now.states (IsValue L.right shared.now.shape seat.old.view) op a.now
        b.now x y → set ≡ answer_of compiled.now.states op x y) }
{
    let first = read(alloc, shared, seat, a)?;
    let second = read(alloc, shared, seat, b)?;
    answer(alloc, compiled, op, &first, &second, b)
}
