//! What a child gives to its parent.

ghost use Rattle.std.specs.Prelude.{◌≡◌, ℕ, List, [], ◌∷◌, ◌++◌, IfOk, OnOk, OnErr};
ghost use Rattle.px_text.specs.declared.op.Op.TheVariants.{Add};
ghost use Rattle.px_text.specs.Operands.{set_of};
ghost use Rattle.px_afa.specs.Sets as sets;
ghost use Rattle.px_afa.specs.Steps.{step, value_steps, raise_steps};
ghost use Rattle.px_runner.specs.Operands.{IsTextClass, IsNumberClass, IsLabel};
ghost use Rattle.px_runner.specs.Memos.{Keeps, Advances};
ghost use Rattle.px_runner.specs.Gives.{Holds, Gives, class_values, class_steps, raised};
ghost use Rattle.px_runner.specs.Events.{Open, with_child, values_in, whole_set, end_steps};
ghost use Rattle.px_runner.specs.Frames.{IsOpen};

use crate::frame::Frame;
use crate::held::Held;
use crate::memo::Memo;
use crate::ops::{add, mask, pop, value_number, value_text};
use std::alloc::AllocError;

/// The Value states that are true of texts of these classes.
pub fn values<M: Memo>(memo: &mut M, text: u32, number: u32) -> Result<Held, AllocError>
    requires text { IsTextClass (M.automata memo.old).states text }
    requires number { IsNumberClass (M.automata memo.old).states number }
    ensures ok { IfOk result (λ held. Gives M.automata M.stands_for M.tells memo.old memo.new held
        (class_steps (M.automata memo.old).states text number)
        (class_values (M.automata memo.old).states text number)) }
    ensures err { OnErr result (Keeps M.automata M.stands_for memo.old memo.new) }
{
    let text = value_text(memo, text)?;
    let number = value_number(memo, number)?;
    add(memo, &text, &number)
}

/// The Value states that are true of a text.
pub fn text_values<M: Memo>(memo: &mut M, text: &[u8]) -> Result<Held, AllocError>
    ensures ok { IfOk result (λ held. Gives M.automata M.stands_for M.tells memo.old memo.new held
        (value_steps (M.automata memo.old).states text.now)
        (values_in (M.automata memo.old).states text.now)) }
    ensures err { OnErr result (Keeps M.automata M.stands_for memo.old memo.new) }
{
    let literal = memo.program().text_class(text);
    let number = memo.program().number_class(text);
    values(memo, literal, number)
}

/// What has been gathered after a child with the label and the set, of which only the needed states
/// are kept.
pub fn raise<M: Memo>(
    memo: &mut M,
    needed: &Held,
    gathered: &Held,
    set: &Held,
    label: u32,
) -> Result<Held, AllocError>
    requires sets { (n a s : List ℕ) × Holds M.automata M.stands_for memo.old needed.now n ×
        Holds M.automata M.stands_for memo.old gathered.now a ×
        Holds M.automata M.stands_for memo.old set.now s }
    requires label { IsLabel (M.automata memo.old).states label }
    ensures ok { IfOk result (λ held. (n a s : List ℕ) →
        Holds M.automata M.stands_for memo.old needed.now n →
        Holds M.automata M.stands_for memo.old gathered.now a →
        Holds M.automata M.stands_for memo.old set.now s →
        Gives M.automata M.stands_for M.tells memo.old memo.new held
        (raise_steps (M.automata memo.old).states n a s label)
        (raised (M.automata memo.old).states n a s label)) }
    ensures err { OnErr result (Keeps M.automata M.stands_for memo.old memo.new) }
{
    let popped = pop(memo, set, label)?;
    let masked = mask(memo, &popped, needed)?;
    add(memo, gathered, &masked)
}

/// Gives a child's set to an open element.
pub fn give<M: Memo>(
    memo: &mut M,
    frame: &mut Frame,
    set: &Held,
    label: u32,
) -> Result<(), AllocError>
    requires frame { (o : Open) × IsOpen M.automata M.stands_for memo.old frame.old o }
    requires set { (s : List ℕ) × Holds M.automata M.stands_for memo.old set.now s }
    requires label { IsLabel (M.automata memo.old).states label }
    ensures ok { OnOk result ((o : Open) (s text : List ℕ) →
        IsOpen M.automata M.stands_for memo.old frame.old o →
        Holds M.automata M.stands_for memo.old set.now s →
        IsOpen M.automata M.stands_for memo.new frame.new
        (with_child (M.automata memo.old).states o s label text)
        × Advances M.automata M.stands_for M.tells memo.old memo.new
        (raise_steps (M.automata memo.old).states o.needed o.gathered s label) []) }
    ensures begins { OnOk result (frame.new.begins ≡ frame.old.begins) }
    ensures err { OnErr result (Keeps M.automata M.stands_for memo.old memo.new) }
{
    let gathered = raise(memo, &frame.needed, &frame.gathered, set, label)?;
    frame.gathered = gathered;
    Ok(())
}

/// Gives an element that ends, whose text is given, to its parent.
pub fn close<M: Memo>(
    memo: &mut M,
    child: &Frame,
    parent: &mut Frame,
    text: &[u8],
) -> Result<(), AllocError>
    requires child { (c : Open) × IsOpen M.automata M.stands_for memo.old child.now c }
    requires parent { (p : Open) × IsOpen M.automata M.stands_for memo.old parent.old p }
    ensures ok { OnOk result ((c p : Open) (said : List ℕ) →
        IsOpen M.automata M.stands_for memo.old child.now c →
        IsOpen M.automata M.stands_for memo.old parent.old p → c.text ≡ text.now →
        IsOpen M.automata M.stands_for memo.new parent.new
        (with_child (M.automata memo.old).states p (whole_set (M.automata memo.old).states c)
        c.label said)
        × Advances M.automata M.stands_for M.tells memo.old memo.new
        (end_steps (M.automata memo.old).states c (p ∷ [])) []) }
    ensures begins { OnOk result (parent.new.begins ≡ parent.old.begins) }
    ensures err { OnErr result (Keeps M.automata M.stands_for memo.old memo.new) }
{
    let values = text_values(memo, text)?;
    let set = add(memo, &child.gathered, &values)?;
    give(memo, parent, &set, child.label)
}
