//! The steps of a memo, one function for each operation.

ghost use Rattle.std.specs.Prelude.{◌≡◌, ℕ, List, [], ◌∷◌, IfOk, OnErr};
ghost use Rattle.px_text.specs.declared.op.Op.TheVariants.{TextClass, NumberClass, Pop, Add, Push, Mask};
ghost use Rattle.px_text.specs.Operands.{index, set_of};
ghost use Rattle.px_afa.specs.Functions as functions;
ghost use Rattle.px_afa.specs.Sets as sets;
ghost use Rattle.px_afa.specs.Steps.{step};
ghost use Rattle.px_runner.specs.Operands.{IsTextClass, IsNumberClass, IsLabel};
ghost use Rattle.px_runner.specs.Memos.{Keeps};
ghost use Rattle.px_runner.specs.Gives.{Holds, Gives};

use crate::held::Held;
use crate::memo::Memo;
use px_text::Op;
use std::alloc::AllocError;

/// The Value states with a string literal that are true of texts of the class.
pub fn value_text<M: Memo>(memo: &mut M, class: u32) -> Result<Held, AllocError>
    requires { IsTextClass (M.automata memo.old).states class }
    ensures ok { IfOk result (λ held. Gives M.automata M.stands_for M.tells memo.old memo.new held
        (step (M.automata memo.old).states TextClass (index 0) (index class) ∷ [])
        (functions.value_text (M.automata memo.old).states class)) }
    ensures err { OnErr result (Keeps M.automata M.stands_for memo.old memo.new) }
{
    memo.step(Op::TextClass, &Held::Plain(0), &Held::Plain(class))
}

/// The Value states with a number that are true of texts of the class.
pub fn value_number<M: Memo>(memo: &mut M, class: u32) -> Result<Held, AllocError>
    requires { IsNumberClass (M.automata memo.old).states class }
    ensures ok { IfOk result (λ held. Gives M.automata M.stands_for M.tells memo.old memo.new held
        (step (M.automata memo.old).states NumberClass (index 0) (index class) ∷ [])
        (functions.value_number (M.automata memo.old).states class)) }
    ensures err { OnErr result (Keeps M.automata M.stands_for memo.old memo.new) }
{
    memo.step(Op::NumberClass, &Held::Plain(0), &Held::Plain(class))
}

/// The states that a child with the label and the set makes true for its parent.
pub fn pop<M: Memo>(memo: &mut M, set: &Held, label: u32) -> Result<Held, AllocError>
    requires set { (s : List ℕ) × Holds M.automata M.stands_for memo.old set.now s }
    requires label { IsLabel (M.automata memo.old).states label }
    ensures ok { IfOk result (λ held. (s : List ℕ) →
        Holds M.automata M.stands_for memo.old set.now s →
        Gives M.automata M.stands_for M.tells memo.old memo.new held
        (step (M.automata memo.old).states Pop (set_of s) (index label) ∷ [])
        (functions.pop (M.automata memo.old).states s label)) }
    ensures err { OnErr result (Keeps M.automata M.stands_for memo.old memo.new) }
{
    memo.step(Op::Pop, set, &Held::Plain(label))
}

/// The states that are needed inside a child with the label, for those that are needed round it.
pub fn push<M: Memo>(memo: &mut M, needed: &Held, label: u32) -> Result<Held, AllocError>
    requires set { (s : List ℕ) × Holds M.automata M.stands_for memo.old needed.now s }
    requires label { IsLabel (M.automata memo.old).states label }
    ensures ok { IfOk result (λ held. (s : List ℕ) →
        Holds M.automata M.stands_for memo.old needed.now s →
        Gives M.automata M.stands_for M.tells memo.old memo.new held
        (step (M.automata memo.old).states Push (set_of s) (index label) ∷ [])
        (functions.push (M.automata memo.old).states s label)) }
    ensures err { OnErr result (Keeps M.automata M.stands_for memo.old memo.new) }
{
    memo.step(Op::Push, needed, &Held::Plain(label))
}

/// The union of two sets.
pub fn add<M: Memo>(memo: &mut M, a: &Held, b: &Held) -> Result<Held, AllocError>
    requires { (x : List ℕ) × (y : List ℕ) × Holds M.automata M.stands_for memo.old a.now x ×
        Holds M.automata M.stands_for memo.old b.now y }
    ensures ok { IfOk result (λ held. (x y : List ℕ) →
        Holds M.automata M.stands_for memo.old a.now x →
        Holds M.automata M.stands_for memo.old b.now y →
        Gives M.automata M.stands_for M.tells memo.old memo.new held
        (step (M.automata memo.old).states Add (set_of x) (set_of y) ∷ []) (sets.add x y)) }
    ensures err { OnErr result (Keeps M.automata M.stands_for memo.old memo.new) }
{
    memo.step(Op::Add, a, b)
}

/// The intersection of two sets.
pub fn mask<M: Memo>(memo: &mut M, a: &Held, b: &Held) -> Result<Held, AllocError>
    requires { (x : List ℕ) × (y : List ℕ) × Holds M.automata M.stands_for memo.old a.now x ×
        Holds M.automata M.stands_for memo.old b.now y }
    ensures ok { IfOk result (λ held. (x y : List ℕ) →
        Holds M.automata M.stands_for memo.old a.now x →
        Holds M.automata M.stands_for memo.old b.now y →
        Gives M.automata M.stands_for M.tells memo.old memo.new held
        (step (M.automata memo.old).states Mask (set_of x) (set_of y) ∷ []) (sets.mask x y)) }
    ensures err { OnErr result (Keeps M.automata M.stands_for memo.old memo.new) }
{
    memo.step(Op::Mask, a, b)
}
