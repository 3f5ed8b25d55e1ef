//! What the entries of a history mean, and which answers of steps are right.
ghost use Rattle.std.specs.Prelude.{◌≡◌, ℕ, List, [], length, ◌<◌};
ghost use Rattle.px_text.specs.declared.op.Op.{Op};
ghost use Rattle.px_text.specs.Operands.{Operand};

/// What a history is about. It has meanings alone, and no method that runs.
pub trait Law {
    /// What a history lists.
    type Entry;

    // the number of the pass that asked for the entry
    ghost who: { Self.Entry → ℕ };

    // which histories there may be
    ghost legal: { List Self.Entry → Type 0 };

    // which set is the answer of a step after these entries
    ghost right: { List Self.Entry → Op → Operand → Operand → List ℕ → Type 0 };

    ghost legal_empty: { legal [] };

    ghost legal_short: { (log : List Self.Entry) → legal log → length log < 1048576 };

    ghost one_answer: { (log : List Self.Entry) (op : Op) (a b : Operand) (x y : List ℕ) →
        right log op a b x → right log op a b y → x ≡ y };
}
