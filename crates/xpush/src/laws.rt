//! Laws of the definitions: what the record of a run says, and that the output is a function of the
//! input.

ghost use Rattle.std.specs.Prelude.{◌≡◌, ℕ, List, IsTrue};
ghost use Rattle.px_feed.specs.declared.status.Status.{Status};
ghost use Rattle.px_feed.specs.declared.status.Status.TheVariants as statuses;
ghost use Rattle.xpush.specs.Answers.{Moment, OutOf, Ran};
ghost use Rattle.xpush.specs.Forms.{Form};
ghost use Rattle.xpush.specs.Runs.{Answers, WritesFront, WritesWhole};
ghost use Rattle.px_lines.specs.Served.{is_cut_short, is_finished};

/// What the record of a run says, fact by fact: the answer of a run that was not cut short, the
/// front that was written by one that was, what was written where the source met a fault, and that
/// words in a form are never `Usage`.
pub fn a_run_says()
    ensures output { (form : Form) (before after : Moment) (status : Status) →
        Ran form before after status → IsTrue (is_finished status) →
        Answers form before.left after.left before.held after.held status }
    ensures front { (form : Form) (before after : Moment) (status : Status) →
        Ran form before after status → IsTrue (is_cut_short status) →
        WritesFront form before.left before.held after.held }
    ensures whole_items { (form : Form) (before after : Moment) (status : Status) →
        Ran form before after status → status ≡ statuses.ReadFault →
        WritesWhole form before.left after.left before.held after.held }
    ensures not_usage { (form : Form) (before after : Moment) →
        Ran form before after statuses.Usage → ⊥ }
{}

/// Under one form the same bytes have one text that is written, and one status.
pub fn an_output_is_one()
    ensures { (form : Form) (bytes text other : List ℕ) (status end : Status) →
        OutOf form bytes text status → OutOf form bytes other end → (text ≡ other) ×
        (status ≡ end) }
{}
