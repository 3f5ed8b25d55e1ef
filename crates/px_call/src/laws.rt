//! Laws of the counts, over the definitions alone.
ghost use Rattle.px_call.specs.Laws.{AddUp, SettledKeeps, FullOwns, SecondCall, CountsMove, CountsOfRun, HeldInRun, WritesOfRun};

use px_rule::Law;

/// Found, computed and own steps add up to the steps of the run. Where no path was full, none is
/// own, and the bank keeps the word of each.
pub fn counts_add_up<L: Law>()
    ensures add_up { AddUp L.right }
    ensures settled { SettledKeeps L.right }
{}

/// Where a path was full, some step is the call's own. That each set which a call holds is empty or
/// the first operand of a step, which this asks for, is so over every whole document.
pub fn a_full_call_has_own_steps<L: Law>()
    ensures full { FullOwns L.right }
    ensures held { HeldInRun }
{}

/// A call that found no path full, and later another on the same steps at the same bank and
/// version, whatever the seat did between them: the second computes nothing, keeps no step for
/// itself and finds no path full.
pub fn a_second_call_computes_nothing<L: Law>()
    ensures second { SecondCall L.right }
{}

/// The counts between two views inside a bank are those between the views before entering it and
/// after leaving it, since the seat knows the same of the history and of places there. Over the
/// events of a document they are those of its run.
pub fn counts_hold_outside<L: Law>()
    ensures moved { CountsMove L.right }
    ensures run { CountsOfRun L.right }
{}

/// A call writes the words of steps of the run and the node words of their sets, whatever the
/// document is that its events begin.
pub fn only_words_of_the_run_are_written<L: Law>()
    ensures words { WritesOfRun L.right }
{}
