//! Laws of sessions.
ghost use Rattle.px_session.specs.Laws.{StaysInside, CountsAdd};

use px_hub::an_open_call_counts_its_steps;

/// While a session runs, its pass is inside its bank at its version, or there is a cause why no
/// bank serves it; and what was found, computed and its own so far are together the steps that the
/// events so far have brought.
pub fn a_session_counts_its_steps()
    ensures place { StaysInside }
    ensures counts { CountsAdd }
{
    an_open_call_counts_its_steps();
}
