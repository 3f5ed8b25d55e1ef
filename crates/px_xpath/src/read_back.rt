//! That the printed form of a filter is read back as that filter.

ghost use Rattle.std.specs.Prelude.{ℕ, ◌≤◌, List, length};
ghost use Rattle.px_xpath.specs.Filters.{Way};
ghost use Rattle.px_xpath.specs.Faults.{IsText};
ghost use Rattle.px_xpath.specs.Printed.{printed};

/// The printed form of a filter that a text is, is a text of that filter, where it is no longer
/// than a text may be.
pub fn printed_is_read_back()
    ensures { (text : List ℕ) (filter : Way) → IsText text filter →
        length (printed filter) ≤ 4_096 → IsText (printed filter) filter }
{}
