//! A memo of its own.

ghost use Rattle.std.specs.Prelude.{◌≡◌, ◌<◌, ℕ, List, [], Some, IfSome, IfOk, slice_get};
ghost use Rattle.std.specs.Arc.{arc_value};
ghost use Rattle.px_text.specs.Operands.{Operand};
ghost use Rattle.px_afa.specs.Sets.{first_set};
ghost use Rattle.px_afa.specs.Steps.{answer_of};
ghost use Rattle.px_runner.specs.Operands.{IsPlain, AreOperands};
ghost use Rattle.px_runner.specs.Remembering.{StandsFor, Grows, IsFact, number_of as number, code_of as code, key_of as key};

use crate::held::Held;
use crate::memo::Memo;
use crate::store::Store;
use px_afa::Program;
use px_prune::{Compiled, push};
use px_step::{add, mask, pop, value_number, value_text};
use px_text::{Op, Set};
use std::alloc::{AllocError, Global};
use std::collections::HashMap;
use std::marker::Model;
use std::sync::Arc;

/// A memo that keeps each different set once under a number, and computes each step of its program
/// once. A step that it knows is one look-up, which copies no set.
#[derive(Drop)]
pub struct PrivateMemo {
    alloc: Global,
    compiled: Arc<Compiled>,
    // the number of the set of first states, once it was asked for
    firsts: Option<u32>,
    sets: Store,
    // the number of the answer, under the operation and the numbers of its operands
    facts: HashMap<u128, u32>,
}

impl Model for PrivateMemo {
    ghost use Rattle.std.specs.Arc.{arc_value};
    ghost use Rattle.px_runner.specs.Remembering.{Remembered, AreFacts, AreFirsts};

    ghost Value = { Remembered };

    ghost view = { λ memo. record { automata = arc_value memo.compiled; sets = memo.sets } };

    ghost invariant = { λ memo. AreFirsts (arc_value memo.compiled) memo.sets memo.firsts ×
        AreFacts (arc_value memo.compiled).states memo.sets memo.facts };
}

impl Memo for PrivateMemo {
    ghost use Rattle.px_runner.specs.Remembering.{StandsFor};

    ghost automata = { λ memo. memo.automata };

    ghost stands_for = { λ memo held set. StandsFor memo.sets held set };

    ghost tells = { λ memo steps sets. Unit {0} };

    fn program(&self) -> &Program {
        self.compiled.program()
    }

    fn firsts(&mut self) -> Result<Held, AllocError> {
        match self.firsts {
            Some(n) => Ok(Held::Numbered(n)),
            None => self.learn_firsts(),
        }
    }

    fn hold(&mut self, set: &Set) -> Result<Held, AllocError> {
        match self.sets.find(set) {
            Some(n) => Ok(Held::Numbered(n)),
            None => self.sets.add(set.clone()?),
        }
    }

    fn step(&mut self, op: Op, a: &Held, b: &Held) -> Result<Held, AllocError> {
        match self.known(op, a, b) {
            Some(n) => Ok(Held::Numbered(n)),
            None => self.learn(op, a, b),
        }
    }

    fn set_of(&mut self, held: &Held) -> Result<Set, AllocError> {
        self.sets.at(held).clone()
    }
}

impl PrivateMemo {
    /// A memo for a program that knows no step yet. It takes no memory.
    pub fn new(alloc: Global, compiled: Arc<Compiled>) -> PrivateMemo
        ensures new { result ≡ record { automata = arc_value compiled; sets = [] } }
    {
        PrivateMemo {
            alloc,
            compiled,
            firsts: None,
            sets: Store::new(alloc),
            facts: HashMap::new(alloc),
        }
    }

    // A value for the set of first states, of which it keeps the number.
    fn learn_firsts(&mut self) -> Result<Held, AllocError>
        ensures stands { IfOk result (λ held. StandsFor self.new.sets held
            (first_set self.old.automata.firsts)) }
        ensures same { self.new.automata ≡ self.old.automata }
        ensures grows { Grows self.old.sets self.new.sets }
    {
        let set = self.compiled.firsts().clone()?;
        let firsts = self.sets.keep(set)?;
        self.firsts = number_of(&firsts);
        Ok(firsts)
    }

    // The number of the answer of a step, where the memo knows it.
    fn known(&self, op: Op, a: &Held, b: &Held) -> Option<u32>
        ensures known { IfSome result (λ n. (x y : Operand) →
            AreOperands self.now.automata.states (StandsFor self.now.sets) op a.now b.now x y →
            slice_get self.now.sets n ≡ Some (answer_of self.now.automata.states op x y)) }
    {
        let a = number_of(a)?;
        let b = number_of(b)?;
        self.facts.get(&key_of(op, a, b)).copied()
    }

    // Computes a step, and keeps its answer.
    fn learn(&mut self, op: Op, a: &Held, b: &Held) -> Result<Held, AllocError>
        requires operands { (x : Operand) × (y : Operand) ×
            AreOperands self.old.automata.states (StandsFor self.old.sets) op a.now b.now x y }
        ensures stands { IfOk result (λ held. (x y : Operand) →
            AreOperands self.old.automata.states (StandsFor self.old.sets) op a.now b.now x y →
            StandsFor self.new.sets held (answer_of self.old.automata.states op x y)) }
        ensures same { self.new.automata ≡ self.old.automata }
        ensures grows { Grows self.old.sets self.new.sets }
    {
        let set = self.computed(op, a, b)?;
        let answer = self.sets.keep(set)?;
        self.remember(op, a, b, &answer)?;
        Ok(answer)
    }

    // Keeps a step with its answer, where all have numbers.
    fn remember(&mut self, op: Op, a: &Held, b: &Held, answer: &Held) -> Result<(), AllocError>
        requires fact { (x : Operand) × (y : Operand) ×
            AreOperands self.old.automata.states (StandsFor self.old.sets) op a.now b.now x y
            × StandsFor self.old.sets answer.now (answer_of self.old.automata.states op x y) }
        ensures same { self.new ≡ self.old }
    {
        if let (Some(a), Some(b), Held::Numbered(n)) = (number_of(a), number_of(b), answer) {
            return self.add_fact(op, a, b, *n);
        }
        Ok(())
    }

    // Keeps the number of an answer under the operation and the numbers of its operands.
    fn add_fact(&mut self, op: Op, a: u32, b: u32, answer: u32) -> Result<(), AllocError>
        requires fact { IsFact self.old.automata.states self.old.sets op a b answer }
        ensures same { self.new ≡ self.old }
    {
        self.facts.insert(key_of(op, a, b), answer)?;
        Ok(())
    }

    // The answer of a step.
    fn computed(&self, op: Op, a: &Held, b: &Held) -> Result<Set, AllocError>
        requires operands { (x : Operand) × (y : Operand) ×
            AreOperands self.now.automata.states (StandsFor self.now.sets) op a.now b.now x y }
        ensures answer { IfOk result (λ set. (x y : Operand) →
            AreOperands self.now.automata.states (StandsFor self.now.sets) op a.now b.now x y →
            set ≡ answer_of self.now.automata.states op x y) }
    {
        match op {
            Op::TextClass => value_text(self.alloc, self.program(), plain(b)),
            Op::NumberClass => value_number(self.alloc, self.program(), plain(b)),
            Op::Pop => pop(self.alloc, self.program(), self.sets.at(a), plain(b)),
            Op::Add => add(self.alloc, self.sets.at(a), self.sets.at(b)),
            Op::Push => push(self.alloc, &self.compiled, self.sets.at(a), plain(b)),
            Op::Mask => mask(self.alloc, self.sets.at(a), self.sets.at(b)),
        }
    }
}

// The class or the label that a value is.
fn plain(held: &Held) -> u32
    requires there { (n : ℕ) × IsPlain held.now n }
    ensures plain { IsPlain held.now result }
{
    match held {
        Held::Plain(n) => *n,
        _ => unreachable!(),
    }
}

// The number by which a fact knows a value.
fn number_of(held: &Held) -> Option<u32>
    ensures number { result ≡ number held.now }
{
    match held {
        Held::Plain(n) => Some(*n),
        Held::Numbered(n) => Some(*n),
        Held::Own(_) => None,
    }
}

fn code_of(op: Op) -> u128
    ensures code { result ≡ code op }
    ensures small { result < 6 }
{
    match op {
        Op::TextClass => 0,
        Op::NumberClass => 1,
        Op::Pop => 2,
        Op::Add => 3,
        Op::Push => 4,
        Op::Mask => 5,
    }
}

// An operation and two numbers in one.
fn key_of(op: Op, a: u32, b: u32) -> u128
    ensures key { result ≡ key op a b }
{
    (code_of(op) * 4_294_967_296 + a as u128) * 4_294_967_296 + b as u128
}
