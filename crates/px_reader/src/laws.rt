//! Laws of the definitions: that the machine over lines is right, and that all bytes have one
//! verdict.

ghost use Rattle.std.specs.Prelude.{◌≡◌, ◌↔◌, List, ℕ, Some, IsSome};
ghost use Rattle.px_text.specs.Nodes.{Root};
ghost use Rattle.px_reader.specs.Machine.{Before, accepts, reaches};
ghost use Rattle.px_reader.specs.Spelling.{Spells, kinds, events_of};
ghost use Rattle.px_reader.specs.Trees as trees;
ghost use Rattle.px_reader.specs.Verdicts.{Begins, Verdict, HasVerdict};

/// Lines begin a document exactly where the machine goes on behind them, and where they spell a
/// tree it gives that tree's events.
pub fn machine_is_right()
    ensures begins { (lines : List (List ℕ)) →
        Begins lines ↔ IsSome (reaches Before (kinds lines)) }
    ensures spells { (lines : List (List ℕ)) (root : Root) → Spells lines root →
        accepts Before (kinds lines) ≡ Some (events_of root) }
{}

/// What lines spell is a tree: the names of an element's attributes differ, and no text is empty.
pub fn what_is_spelt_is_a_tree()
    ensures { (lines : List (List ℕ)) (root : Root) → Spells lines root → trees.IsTree root }
{}

/// All bytes have a verdict, and no bytes have two.
pub fn verdicts_are_one()
    ensures some { (bytes : List ℕ) → (verdict : Verdict) × HasVerdict bytes verdict }
    ensures one { (bytes : List ℕ) (verdict other : Verdict) → HasVerdict bytes verdict →
        HasVerdict bytes other → verdict ≡ other }
{}
