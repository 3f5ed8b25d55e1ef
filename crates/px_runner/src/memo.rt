//! What makes the machine's steps.

ghost use Rattle.std.specs.Prelude.{◌≡◌, ℕ, List, [], ◌∷◌, IfOk, OnErr};
ghost use Rattle.px_text.specs.Operands.{Operand};
ghost use Rattle.px_afa.specs.Building.{Automata};
ghost use Rattle.px_afa.specs.Sets.{first_set};
ghost use Rattle.px_afa.specs.Steps as steps;
ghost use Rattle.px_afa.specs.Steps.{Step, answer_of};
ghost use Rattle.px_runner.specs.Operands.{AreStates, AreOperands};
ghost use Rattle.px_runner.specs.Memos.{Keeps, Advances, Makes};

use crate::held::Held;
use px_afa::Program;
use px_text::{Op, Set};
use std::alloc::AllocError;

/// What makes the steps of the machine for one program, and may remember them. Its values stand
/// for sets of states. On every answer it goes on working for the same program, and each value goes
/// on standing for its set. Each call takes memory as the memo needs it, and its only
/// failure is want of memory.
pub trait Memo {
    ghost use Rattle.px_runner.specs.declared.held.Held.{Held};

    // the program that it works for
    ghost automata: { Self → Automata };

    // the value stands for the set
    ghost stands_for: { Self → Held → List ℕ → Type 0 };

    // it made these steps and held these sets, as far as it tells
    ghost tells: { Self → List Step → List (List ℕ) → Type 0 };

    /// The program that it works for. It takes no memory.
    fn program(&self) -> &Program
        ensures program { result.now ≡ automata self.now };

    /// A value for the set of the first states of all filters. A memo keeps it, so that a document
    /// that follows another asks for no work.
    fn firsts(&mut self) -> Result<Held, AllocError>
        ensures ok { IfOk result (λ held. Advances automata stands_for tells self.old self.new []
            (first_set (automata self.old).firsts ∷ [])) }
        ensures stands { IfOk result (λ held. stands_for self.new held
            (first_set (automata self.old).firsts)) }
        ensures err { OnErr result (Keeps automata stands_for self.old self.new) };

    /// A value for a set of states.
    fn hold(&mut self, set: &Set) -> Result<Held, AllocError>
        requires { AreStates (automata self.old).states set.now }
        ensures ok { IfOk result (λ held. Advances automata stands_for tells self.old self.new []
            (set.now ∷ [])) }
        ensures stands { IfOk result (λ held. stands_for self.new held set.now) }
        ensures err { OnErr result (Keeps automata stands_for self.old self.new) };

    /// A value for the answer of a step. A class or a label is `Plain`, and the first operand of
    /// `TextClass` and `NumberClass` is `Plain(0)`.
    fn step(&mut self, op: Op, a: &Held, b: &Held) -> Result<Held, AllocError>
        requires { (x : Operand) × (y : Operand) ×
            AreOperands (automata self.old).states (stands_for self.old) op a.now b.now x y }
        ensures ok { IfOk result (λ held. (x y : Operand) →
            AreOperands (automata self.old).states (stands_for self.old) op a.now b.now x y →
            Makes automata stands_for tells self.old self.new held
            (steps.step (automata self.old).states op x y ∷ [])
            (answer_of (automata self.old).states op x y)) }
        ensures err { OnErr result (Keeps automata stands_for self.old self.new) };

    /// The set that a value stands for.
    fn set_of(&mut self, held: &Held) -> Result<Set, AllocError>
        requires { (set : List ℕ) × stands_for self.old held.now set ×
            AreStates (automata self.old).states set }
        ensures set { IfOk result (λ found. (set : List ℕ) → stands_for self.old held.now set →
            AreStates (automata self.old).states set → found ≡ set) }
        ensures ok { IfOk result (λ found. Advances automata stands_for tells self.old self.new []
            []) }
        ensures err { OnErr result (Keeps automata stands_for self.old self.new) };
}
