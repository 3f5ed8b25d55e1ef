//! Laws of the definitions.

ghost use Rattle.std.specs.Prelude.{◌≡◌, ℕ, ◌+◌, ◌*◌, ◌<◌, ◌≤◌, Bool, true, List, Some, length, map, filter};
ghost use Rattle.px_text.specs.Nodes.{Root};
ghost use Rattle.px_xpath.specs.Histories.{Subscription, Change, live_size, matches};
ghost use Rattle.px_xpath.specs.Meaning.{holds};
ghost use Rattle.px_afa.specs.declared.state.Body.{Body};
ghost use Rattle.px_afa.specs.declared.state.State.{State};
ghost use Rattle.px_afa.specs.Contents.{Kind, root_content};
ghost use Rattle.px_afa.specs.Building.{automata, program};
ghost use Rattle.px_afa.specs.Sets.{true_in, body_in};
ghost use Rattle.px_afa.specs.Labels.{names_of, label_number};
ghost use Rattle.px_afa.specs.Classes.{text_class, number_class};
ghost use Rattle.px_afa.specs.Machine.{IsTold, machine_of};
ghost use Rattle.px_afa.specs.Accepting.{true_firsts};
ghost use Rattle.px_afa.specs.Tables.{guard_of, body_guard};
ghost use Rattle.px_afa.specs.Steps.{steps_of};
ghost use Rattle.px_afa.specs.Counts.{elements, leaves};
ghost use Rattle.px_afa.specs.Sound.{AreLive, AreProper, IsSound};

/// The label of a child and the classes of its text tell what the states test.
pub fn labels_and_classes_tell()
    ensures told { (states : List State) → IsTold (machine_of states) }
{}

/// A filter holds of a document exactly where its first state is true at the document root,
/// although equal states of all filters are one.
pub fn first_states_are_right()
    ensures live { (live : List Subscription) (root : Root) →
        true_firsts (automata live).states (automata live).firsts (root_content root) ≡
        map (λ s. s.id) (filter (λ s. holds s.filter root) live) }
    ensures behind { (history : List Change) (root : Root) →
        true_firsts (program history).states (program history).firsts (root_content root) ≡
        matches history root }
{}

/// A program has at most as many states as its filters have sizes together, and more.
pub fn programs_are_sound()
    ensures states { (live : List Subscription) → AreProper live →
        length (automata live).states ≤ live_size live }
    ensures sound { (live : List Subscription) → AreLive live → AreProper live →
        IsSound (automata live) }
{}

/// Labels and classes are small: below 500,003 and at most 1,000,001 where there are at most
/// 500,000 states.
pub fn labels_and_classes_are_small()
    ensures labels { (states : List State) (kind : Kind) →
        label_number (names_of states) kind < length states + 3 }
    ensures texts { (states : List State) (text : List ℕ) → text_class states text ≤ length states }
    ensures numbers { (states : List State) (text : List ℕ) →
        number_class states text ≤ 2 * length states + 1 }
{}

/// A state, and what has to be true at a child, is true only in sets that have its guard.
pub fn guards_are_in_sets()
    ensures body { (states : List State) (set : ℕ → Bool) (body : Body) (guard : ℕ) →
        body_in (true_in states set) body ≡ true → body_guard states body ≡ Some guard →
        set guard ≡ true }
    ensures guard { (states : List State) (set : ℕ → Bool) (n guard : ℕ) →
        true_in states set n ≡ true → guard_of states n ≡ Some guard → set guard ≡ true }
{}

/// The machine makes 8 steps for each element and 6 for each attribute and text.
pub fn steps_are_counted()
    ensures count { (history : List Change) (root : Root) →
        steps_of history root ≡ 8 * elements (root_content root) + 6 * leaves (root_content root) }
{}
