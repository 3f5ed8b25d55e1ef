//! Laws of the definitions: where tokens begin a filter, that they write at most one, and that
//! every text is one filter or has one fault.

ghost use Rattle.std.specs.Prelude.{◌≡◌, ◌↔◌, ◌⊎◌, ℕ, List, true, IsSome};
ghost use Rattle.px_xpath.specs.declared.fault.FilterFault.{FilterFault};
ghost use Rattle.px_xpath.specs.Filters.{Way};
ghost use Rattle.px_xpath.specs.Tokens as tokens;
ghost use Rattle.px_xpath.specs.Grammar.{Writes};
ghost use Rattle.px_xpath.specs.Faults.{Begins, HasFault, IsText};
ghost use Rattle.px_xpath.specs.Machine.{Start, accepts, reaches};

/// Tokens begin a filter exactly where the machine goes on behind them, and write one exactly
/// where it may end there.
pub fn machine_is_right()
    ensures begins { (ts : List tokens.Token) → Begins ts ↔ IsSome (reaches Start ts) }
    ensures writes { (ts : List tokens.Token) → ((filter : Way) ×
        Writes ts filter) ↔ (accepts Start ts ≡ true) }
{}

/// Tokens write at most one filter.
pub fn writes_at_most_one()
    ensures { (ts : List tokens.Token) (filter other : Way) → Writes ts filter → Writes ts other →
        filter ≡ other }
{}

/// Every text is a filter or has a fault.
pub fn every_text_is_read_or_refused()
    ensures { (text : List ℕ) → ((filter : Way) × IsText text filter) ⊎ ((fault : FilterFault) ×
        HasFault text fault) }
{}

/// A text is at most one filter, has at most one fault, and none where it is a filter.
pub fn a_text_is_one_filter_or_has_one_fault()
    ensures filter { (text : List ℕ) (filter other : Way) → IsText text filter → IsText text other →
        filter ≡ other }
    ensures fault { (text : List ℕ) (fault other : FilterFault) → HasFault text fault →
        HasFault text other → fault ≡ other }
    ensures never_both { (text : List ℕ) (filter : Way) (fault : FilterFault) → IsText text filter →
        HasFault text fault → ⊥ }
{}
