//! One step over a bank.
ghost use Rattle.std.specs.Prelude.{◌≡◌, ℕ, ◌<◌, List, true, Some, IfOk};
ghost use Rattle.px_text.specs.Operands.{Operand, set_of};
ghost use Rattle.px_afa.specs.Steps.{Step};
ghost use Rattle.px_rule.specs.Table.{is_inside, bank_in, version_in};
ghost use Rattle.px_rule.specs.Kept.{Tells};
ghost use Rattle.px_intern.specs.Answers.{IsSound};
ghost use Rattle.px_runner.specs.Operands.{AreOperands};
ghost use Rattle.px_runner.specs.Remembering.{number_of as number};
ghost use Rattle.px_call.specs.Steps.{Asked};
ghost use Rattle.px_call.specs.Memory.{IsProgramAt};
ghost use Rattle.px_call.specs.Values.{IsValue};
ghost use Rattle.px_call.specs.Making.{Puts, Fills, Makes, MakesBeside, Works};

use crate::law::ProgramLaw;
use crate::solving::solve;
use px_intern::{Find, Intern, Put, find, intern, put};
use px_prune::Compiled;
use px_rule::{Seat, Shared};
use px_runner::Held;
use px_text::{Op, Set};
use std::alloc::{AllocError, Global};

/// How a step over a bank went.
#[derive(Drop)]
pub(crate) enum Outcome {
    /// It was found, with the number of its answer.
    Found(u32),
    /// It was computed and put, with the number of its answer.
    Computed(u32),
    /// Its answer has the number, and no place is free for the word of the step.
    KeyFull { number: u32, word: u64 },
    /// No place is free for the word, which is of its answer.
    SetFull { set: Set, word: u64 },
}

// Puts a step whose answer has a number.
fn put_step<L: ProgramLaw>(
    shared: &Shared<L>,
    seat: &mut Seat<L>,
    op: Op,
    a: u32,
    b: u32,
    number: u32,
) -> Outcome
    requires table { seat.old.table ≡ shared.now }
    requires inside { is_inside seat.old.view.stay.place ≡ true }
    requires fields { (a < 1048576) × (b < 1048576) × (number < 1048576) }
    requires step { (s : Step) × Asked L.right shared.now.shape (bank_in seat.old.view.stay.place)
        (version_in seat.old.view.stay.place) seat.old.view op a b s ×
        Tells L.right shared.now.shape (bank_in seat.old.view.stay.place)
        (version_in seat.old.view.stay.place) seat.old.view true number (set_of s.answer) }
    ensures table { seat.new.table ≡ seat.old.table }
    ensures works { Works L.right shared.now.shape seat.old.view seat.new.view }
    ensures puts { Puts L.right shared.now.shape op a b number seat.old.view seat.new.view result }
{
    match put(shared, seat, op, a, b, number) {
        Put::Put => Outcome::Computed(number),
        Put::Full { word } => Outcome::KeyFull { number, word },
    }
}

// Computes a step that was not found, and puts it.
fn fill<L: ProgramLaw>(
    alloc: Global,
    shared: &Shared<L>,
    seat: &mut Seat<L>,
    compiled: &Compiled,
    op: Op,
    a: &Held,
    b: &Held,
    numbers: (u32, u32),
) -> Result<Outcome, AllocError>
    requires table { seat.old.table ≡ shared.now }
    requires inside { is_inside seat.old.view.stay.place ≡ true }
    requires sound { IsSound L.right shared.now.shape seat.old.view }
    requires program { IsProgramAt L.automata_of seat.old.view compiled.now }
    requires numbers { (number a.now ≡ Some numbers.0) × (number b.now ≡ Some numbers.1) }
    requires small { (numbers.0 < 1048576) × (numbers.1 < 1048576) }
    requires operands { (x : Operand) × (y : Operand) ×
        AreOperands compiled.now.states (IsValue L.right shared.now.shape seat.old.view) op a.now
        b.now x y }
    ensures table { seat.new.table ≡ seat.old.table }
    ensures works { Works L.right shared.now.shape seat.old.view seat.new.view }
    ensures fills { IfOk result (λ o. Fills L.right shared.now.shape compiled.now.states op a.now
        b.now numbers.0 numbers.1 seat.old.view seat.new.view o) }
{
    let set = solve(alloc, shared, seat, compiled, op, a, b)?;
    match intern(shared, seat, &set) {
        Intern::Full { word } => Ok(Outcome::SetFull { set, word }),
        Intern::Number(number) => Ok(put_step(shared, seat, op, numbers.0, numbers.1, number)),
    }
}

/// Finds a step between numbers in the bank, or computes it and puts it there.
pub(crate) fn make_step<L: ProgramLaw>(
    alloc: Global,
    shared: &Shared<L>,
    seat: &mut Seat<L>,
    compiled: &Compiled,
    op: Op,
    a: &Held,
    b: &Held,
    numbers: (u32, u32),
) -> Result<Outcome, AllocError>
    requires table { seat.old.table ≡ shared.now }
    requires inside { is_inside seat.old.view.stay.place ≡ true }
    requires program { IsProgramAt L.automata_of seat.old.view compiled.now }
    requires numbers { (number a.now ≡ Some numbers.0) × (number b.now ≡ Some numbers.1) }
    requires small { (numbers.0 < 1048576) × (numbers.1 < 1048576) }
    requires operands { (x : Operand) × (y : Operand) ×
        AreOperands compiled.now.states (IsValue L.right shared.now.shape seat.old.view) op a.now
        b.now x y }
    ensures table { seat.new.table ≡ seat.old.table }
    ensures works { Works L.right shared.now.shape seat.old.view seat.new.view }
    ensures makes { IfOk result (λ o. Makes L.right shared.now.shape compiled.now.states op a.now
        b.now numbers.0 numbers.1 seat.old.view seat.new.view o) }
{
    match find(shared, seat, op, numbers.0, numbers.1) {
        Find::Found(number) => Ok(Outcome::Found(number)),
        Find::Absent => fill(alloc, shared, seat, compiled, op, a, b, numbers),
    }
}

/// Computes a step with an operand that the bank has no room for.
pub(crate) fn make_beside<L: ProgramLaw>(
    alloc: Global,
    shared: &Shared<L>,
    seat: &mut Seat<L>,
    compiled: &Compiled,
    op: Op,
    a: &Held,
    b: &Held,
) -> Result<Held, AllocError>
    requires table { seat.old.table ≡ shared.now }
    requires inside { is_inside seat.old.view.stay.place ≡ true }
    requires sound { IsSound L.right shared.now.shape seat.old.view }
    requires operands { (x : Operand) × (y : Operand) ×
        AreOperands compiled.now.states (IsValue L.right shared.now.shape seat.old.view) op a.now
        b.now x y }
    ensures table { seat.new.table ≡ seat.old.table }
    ensures works { Works L.right shared.now.shape seat.old.view seat.new.view }
    ensures makes { IfOk result (λ held. MakesBeside L.right shared.now.shape compiled.now.states op
        a.now b.now seat.old.view seat.new.view held) }
{
    let set = solve(alloc, shared, seat, compiled, op, a, b)?;
    match intern(shared, seat, &set) {
        Intern::Number(number) => Ok(Held::Numbered(number)),
        Intern::Full { .. } => Ok(Held::Own(set)),
    }
}
