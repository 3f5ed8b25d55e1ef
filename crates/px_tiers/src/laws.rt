//! Laws of live filters that are shared out among lists, over the lists alone.

ghost use Rattle.std.specs.Prelude.{◌≡◌, ℕ, ◌+◌, ◌++◌, ◌∷◌, [], All, Bool, List, length, map};
ghost use Rattle.px_text.specs.Sets.{has, Rising};
ghost use Rattle.px_xpath.specs.Filters.{Way};
ghost use Rattle.px_xpath.specs.Histories.{Subscription};
ghost use Rattle.px_tiers.specs.Parts.{Homes, AreShared, IsGathered, ids_where, passes_at_home, others, without_home, moved, among};

/// Where the live filters are shared out among lists, and none waits: an id passes exactly where it
/// passes in the one list in which it is at home. So whatever gathers such ids in rising order has
/// those of the live list.
pub fn parts_find_what_passes()
    ensures found { (homes : Homes) (parts : List (List Subscription)) (live : List Subscription)
        (test : Way → Bool) → AreShared homes parts [] live →
        (id : ℕ) → passes_at_home homes test 1 parts id ≡ has (ids_where test live) id }
    ensures ids { (homes : Homes) (parts : List (List Subscription)) (live : List Subscription)
        (test : Way → Bool) → AreShared homes parts [] live →
        Rising (map (λ s. s.id) live) → (ids : List ℕ) → Rising ids → ((id : ℕ) →
        has ids id ≡ passes_at_home homes test 1 parts id) → ids ≡ ids_where test live }
{}

/// A change of one id takes its home from it, and leaves all others where they are. The id waits.
pub fn a_change_leaves_the_others()
    ensures shared { (homes : Homes) (parts : List (List Subscription)) (waiting : List ℕ)
        (before after : List Subscription) (id : ℕ) →
        AreShared homes parts waiting before → others id after ≡ others id before →
        AreShared (without_home id homes) parts (waiting ++ id ∷ []) after }
{}

/// Those that wait and those of the last lists make one new list in their place: its ids are at
/// home there, and nobody waits.
pub fn gathered_filters_move()
    ensures shared { (homes : Homes) (older younger : List (List Subscription))
        (waiting ids : List ℕ) (live : List Subscription) →
        AreShared homes (older ++ younger) waiting live →
        All (IsGathered homes (length older) ids) live →
        AreShared (moved ids (length older + 1) homes) (older ++ among ids live ∷ []) [] live }
{}
