//! The law of a table whose steps are those of a program.
ghost use Rattle.std.specs.Prelude.{ℕ, List};
ghost use Rattle.px_text.specs.declared.op.Op.{Op};
ghost use Rattle.px_text.specs.Operands.{Operand};
ghost use Rattle.px_afa.specs.Building.{Automata};
ghost use Rattle.px_afa.specs.Steps.{answer_of};

use px_rule::Law;

/// What a history is about, where it has a program behind it and the right answers of steps are
/// those of the program.
pub trait ProgramLaw: Law {
    // the program behind a history
    ghost automata_of: { List Self.Entry → Automata };

    // what an operation gives under it is the right answer
    ghost answers_are_right: { (log : List Self.Entry) (op : Op) (x y : Operand) →
        Self.right log op x y (answer_of (automata_of log).states op x y) };
}
