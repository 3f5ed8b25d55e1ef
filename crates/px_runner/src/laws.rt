//! Laws of the machine, over the definitions alone.

ghost use Rattle.std.specs.Prelude.{◌≡◌, List, [], map, filter, length};
ghost use Rattle.px_text.specs.Nodes.{Root};
ghost use Rattle.px_reader.specs.Spelling.{events_of};
ghost use Rattle.px_xpath.specs.Histories.{Subscription, Change, live, matches};
ghost use Rattle.px_xpath.specs.Meaning.{holds};
ghost use Rattle.px_afa.specs.declared.state.First.{First};
ghost use Rattle.px_afa.specs.Contents.{Content, root_content};
ghost use Rattle.px_afa.specs.Building.{Automata, automata, program};
ghost use Rattle.px_afa.specs.Sets.{first_set};
ghost use Rattle.px_afa.specs.Machine.{Machine, machine_of, gathered_of};
ghost use Rattle.px_afa.specs.Accepting.{HaveSteps, accepted, accepted_of_all};
ghost use Rattle.px_afa.specs.Steps.{run_of};
ghost use Rattle.px_runner.specs.declared.runner.Runner.{Runner};
ghost use Rattle.px_runner.specs.Running.{HasRun, steps_made};
ghost use Rattle.px_runner.specs.Events.{ground, after_events, events_steps};

use crate::memo::Memo;

/// Event by event, the machine makes the steps that the recursion on a document makes, and gathers
/// at the document root what that gathers. All elements are closed then.
pub fn events_follow_content()
    ensures gathered { (automata : Automata) (root : Root) →
        (after_events automata.states (ground automata) (events_of root)).innermost.gathered
        ≡ gathered_of (machine_of automata.states) (first_set automata.firsts) []
        (root_content root) }
    ensures closed { (automata : Automata) (root : Root) →
        (after_events automata.states (ground automata) (events_of root)).outer ≡ [] }
    ensures steps { (automata : Automata) (root : Root) →
        events_steps automata.states (ground automata) (events_of root) ≡ run_of automata root }
{}

/// Keeping only the states that are needed changes no accepted id, whatever the labels and the
/// values of texts are.
pub fn pruning_changes_nothing()
    ensures same { (machine : Machine) (firsts : List First) (root : Content) →
        accepted machine firsts root ≡ accepted_of_all machine firsts root }
{}

/// The machine accepts exactly the filters that hold of the document, with only the needed states
/// kept and with all.
pub fn accepted_are_matches()
    ensures live { (live : List Subscription) → HaveSteps live → (root : Root) →
        accepted (machine_of (automata live).states) (automata live).firsts (root_content root) ≡
        map (λ s. s.id) (filter (λ s. holds s.filter root) live) }
    ensures behind { (history : List Change) → HaveSteps (live history) → (root : Root) →
        accepted (machine_of (program history).states) (program history).firsts (root_content root)
        ≡ matches history root }
    ensures unpruned { (history : List Change) → HaveSteps (live history) → (root : Root) →
        accepted_of_all (machine_of (program history).states) (program history).firsts
        (root_content root) ≡ matches history root }
{}

/// When it has taken all events of a document, a runner has made the steps of the run over it.
pub fn steps_are_counted<M: Memo>()
    ensures count { (memo : M) (runner : Runner) (root : Root) →
        HasRun M.automata M.stands_for memo runner (events_of root) →
        steps_made runner ≡ length (run_of (M.automata memo) root) }
{}
