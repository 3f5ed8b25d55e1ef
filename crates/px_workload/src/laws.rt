//! Laws of legal histories, which a program of the live filters asks for.

ghost use Rattle.std.specs.Prelude.{◌+◌, ◌≤◌, ◌++◌, ◌∷◌, [], List, length, map};
ghost use Rattle.px_text.specs.Sets.{Rising};
ghost use Rattle.px_xpath.specs.Histories.{Change, IsLegal, live, live_size};

/// The ids of the filters that are live behind a legal history rise and are below 2^20, and their
/// sizes together are within the limit. The version of a change that may come next is above them.
pub fn live_filters_are_in_order()
    ensures rising { (history : List Change) → IsLegal history →
        Rising (map (λ s. s.id) (live history)) }
    ensures small { (history : List Change) → IsLegal history → live_size (live history) ≤ 500_000 }
    ensures next { (history : List Change) (change : Change) → IsLegal (history ++ change ∷ []) →
        Rising (map (λ s. s.id) (live history) ++ (length history + 1) ∷ []) }
{}
