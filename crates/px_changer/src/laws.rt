//! Laws of a history that names nobody.
ghost use Rattle.std.specs.Prelude.{◌≡◌, List};
ghost use Rattle.px_text.specs.Nodes.{Root};
ghost use Rattle.px_workload.specs.declared.change.Change.{Change};
ghost use Rattle.px_workload.specs.Changes.{history};
ghost use Rattle.px_xpath.specs.Histories.{live, matches};
ghost use Rattle.px_changer.specs.Telling.{all_anonymous};

/// Who made the changes is no matter of what is live behind them, and of what matches a document.
pub fn what_is_live_names_nobody()
    ensures live { (changes : List Change) →
        live (history (all_anonymous changes)) ≡ live (history changes) }
    ensures matches { (changes : List Change) (root : Root) →
        matches (history (all_anonymous changes)) root ≡ matches (history changes) root }
{}
