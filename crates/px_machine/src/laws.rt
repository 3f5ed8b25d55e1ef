//! Laws of the machine, over the definitions alone.

ghost use Rattle.std.specs.Prelude.{◌≡◌, ◌||◌, ℕ, Bool, false, List};
ghost use Rattle.px_text.specs.Nodes.{Root};
ghost use Rattle.px_text.specs.Sets.{has};
ghost use Rattle.px_reader.specs.Spelling.{events_of};
ghost use Rattle.px_xpath.specs.Histories.{Change, live, matches};
ghost use Rattle.px_afa.specs.declared.state.State.{State};
ghost use Rattle.px_afa.specs.Contents.{root_content};
ghost use Rattle.px_afa.specs.Building.{Automata, program};
ghost use Rattle.px_afa.specs.Truth.{state_at};
ghost use Rattle.px_afa.specs.Machine.{machine_of};
ghost use Rattle.px_afa.specs.Accepting.{HaveSteps, accepted};
ghost use Rattle.px_runner.specs.Events.{values_in};
ghost use Rattle.px_machine.specs.Unpruned.{gives, Shell, Runs, Accepts, bare};
ghost use Rattle.px_machine.specs.Reads.{is_value, reads_value};

/// Whatever lists of sets stand for what open elements gathered, in any order and with all states
/// kept: what the document root has in the end accepts the ids that the definition accepts.
pub fn gathered_without_needs()
    ensures accepted { (automata : Automata) (root : Root) (end : List Shell) (ids : List ℕ) →
        Runs automata.states bare (events_of root) end → Accepts automata.firsts end ids →
        ids ≡ accepted (machine_of automata.states) automata.firsts (root_content root) }
    ensures matches { (history : List Change) (root : Root) (end : List Shell) (ids : List ℕ) →
        HaveSteps (live history) →
        Runs (program history).states bare (events_of root) end →
        Accepts (program history).firsts end ids → ids ≡ matches history root }
{}

/// Where no Path that a label meets looks at a Value, sets that differ by Values alone give the
/// same. So the text of such a child need not be looked at.
pub fn unread_values()
    ensures same { (states : List State) (label : ℕ) (a b : ℕ → Bool) →
        reads_value states label ≡ false →
        ((k : ℕ) → is_value (state_at states k) ≡ false → a k ≡ b k) → (p : ℕ) →
        gives states label a p ≡ gives states label b p }
    ensures text { (states : List State) (label : ℕ) (gathered : ℕ → Bool) (text : List ℕ) →
        reads_value states label ≡ false →
        (p : ℕ) → gives states label (λ k. gathered k || has (values_in states text) k) p ≡
        gives states label gathered p }
{}
