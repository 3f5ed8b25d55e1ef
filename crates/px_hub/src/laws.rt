//! Laws of the calls that filter.
ghost use Rattle.std.specs.Prelude.{◌≡◌, ℕ, List, Result, Ok};
ghost use Rattle.px_reader.specs.declared.event.Event.{Event};
ghost use Rattle.px_rule.specs.declared.shape.Shape.{Shape};
ghost use Rattle.px_rule.specs.Table.{TableName};
ghost use Rattle.px_hub.specs.declared.reply.Reply.{Reply};
ghost use Rattle.px_hub.specs.declared.reply.Why.TheVariants.{Settled};
ghost use Rattle.px_hub.specs.declared.reply.FilterCallFault.{FilterCallFault};
ghost use Rattle.px_hub.specs.declared.engine.Engine.{Engine};
ghost use Rattle.px_hub.specs.Passes.{PassView};
ghost use Rattle.px_hub.specs.OpenCalls.{HasTaken, IsInsideOrNot, CountSteps};
ghost use Rattle.px_hub.specs.Replying.{Stays, Filters, SameBetween, AnswersAgain};

use crate::law::Workload;
use px_call::{a_full_call_has_own_steps, a_second_call_computes_nothing, counts_add_up};

/// Behind a settled reply a call on the same bytes, with the same version, program and bank of the
/// pass, answers the same ids, and finds all steps or its bank gone. Between the two may lie other
/// calls that filter.
pub fn a_settled_document_is_found_again()
    ensures again { (z : Shape) (v w next after : PassView) (bytes : List ℕ) (reply : Reply)
        (answer : Result Reply FilterCallFault) →
        Filters z v w bytes (Ok reply) → reply.why ≡ Settled → SameBetween w next →
        Filters z next after bytes answer → AnswersAgain reply answer }
    ensures between { (v w : PassView) → Stays v w → SameBetween v w }
{
    a_full_call_has_own_steps::<Workload>();
    a_second_call_computes_nothing::<Workload>();
}

/// While a call is open, the pass is inside its bank at its version, or there is a cause why no
/// bank serves the call; and what was found, computed and the call's own are together the steps
/// that the events so far have brought.
pub fn an_open_call_counts_its_steps()
    ensures place { (table : TableName) (v p : PassView) (engine : Engine) (given : List Event) →
        HasTaken table v p engine given → IsInsideOrNot v p }
    ensures counts { (table : TableName) (v p : PassView) (engine : Engine) (given : List Event) →
        HasTaken table v p engine given → CountSteps v engine given }
{
    counts_add_up::<Workload>();
}
