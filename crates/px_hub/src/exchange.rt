//! What a pass and the desk tell one another, under the lock.
ghost use Rattle.std.specs.Prelude.{◌≡◌, ◌≤◌, ◌++◌, ◌∷◌, [], true, length, Some, None};
ghost use Rattle.px_rule.specs.declared.view.Kind.TheVariants.{Desk, Pass};
ghost use Rattle.px_rule.specs.Histories.{Begins, named};
ghost use Rattle.px_rule.specs.Rule.{is_pass};
ghost use Rattle.px_rule.specs.Steps.{CanJoin, IsMet, IsTold, whole_asking, whole_heard, whole_met};
ghost use Rattle.px_hub.specs.Settling.{SameDesk, Settled, with_entry};

use px_rule::{Law, Seat, Shared};

/// The desk takes in a note of a pass. Its history goes on from the note's.
pub(crate) fn hear<L: Law>(shared: &Shared<L>, desk: &mut Seat<L>, note: Seat<L>)
    requires tables { (desk.old.table ≡ shared.now) × (note.table ≡ shared.now) }
    requires desk { desk.old.view.past.kind ≡ Desk }
    requires pair { CanJoin desk.old.view note.view }
    ensures table { desk.new.table ≡ desk.old.table }
    ensures view { desk.new.view ≡ whole_heard desk.old.view note.view }
    ensures before { Begins note.view.past.seen desk.old.view.past.seen }
    ensures last { note.view.past.last ≤ length desk.old.view.past.seen }
{
    shared.join(desk, note);
}

/// A pass takes in a note. Both histories begin what it has then seen.
pub(crate) fn take_in<L: Law>(shared: &Shared<L>, pass: &mut Seat<L>, note: Seat<L>)
    requires tables { (pass.old.table ≡ shared.now) × (note.table ≡ shared.now) }
    requires pass { is_pass pass.old.view.past.kind ≡ true }
    requires pair { CanJoin pass.old.view note.view }
    ensures table { pass.new.table ≡ pass.old.table }
    ensures view { pass.new.view ≡ whole_met pass.old.view note.view }
    ensures told { IsTold L.who L.legal (whole_met pass.old.view note.view) }
    ensures met { IsMet pass.old.view note.view (whole_met pass.old.view note.view) }
{
    shared.join(pass, note);
}

/// A pass whose note the desk has taken in sees all that the desk has seen, and loads the version
/// word; the desk hears what it found.
pub(crate) fn settle<L: Law>(shared: &Shared<L>, desk: &mut Seat<L>, pass: &mut Seat<L>)
    requires tables { (desk.old.table ≡ shared.now) × (pass.old.table ≡ shared.now) }
    requires desk { (desk.old.view.past.kind ≡ Desk) × (desk.old.view.stay.keeps ≡ true) }
    requires pass { is_pass pass.old.view.past.kind ≡ true }
    requires before { Begins pass.old.view.past.seen desk.old.view.past.seen }
    ensures tables { (desk.new.table ≡ shared.now) × (pass.new.table ≡ shared.now) }
    ensures desk { SameDesk desk.old.view desk.new.view }
    ensures banks { desk.new.view.stay ≡ desk.old.view.stay }
    ensures pass { Settled L.who L.legal desk.old.view.past.seen desk.old.view.past.made
        desk.old.view.stay pass.old.view pass.new.view }
{
    shared.load(desk);
    let shown = shared.note(desk);
    take_in(shared, pass, shown);
    shared.load(pass);
    let told = shared.note(pass);
    hear(shared, desk, told);
}

/// The pass sees all that the desk has seen.
pub(crate) fn catch_up<L: Law>(shared: &Shared<L>, desk: &mut Seat<L>, pass: &mut Seat<L>)
    requires tables { (desk.old.table ≡ shared.now) × (pass.old.table ≡ shared.now) }
    requires desk { (desk.old.view.past.kind ≡ Desk) × (desk.old.view.stay.keeps ≡ true) }
    requires pass { is_pass pass.old.view.past.kind ≡ true }
    ensures tables { (desk.new.table ≡ shared.now) × (pass.new.table ≡ shared.now) }
    ensures desk { SameDesk desk.old.view desk.new.view }
    ensures banks { desk.new.view.stay ≡ desk.old.view.stay }
    ensures pass { Settled L.who L.legal desk.old.view.past.seen desk.old.view.past.made
        desk.old.view.stay pass.old.view pass.new.view }
{
    let note = shared.note(pass);
    hear(shared, desk, note);
    settle(shared, desk, pass);
}

/// The desk accepts an entry of the pass, which then sees it as the last.
pub(crate) fn accept<L: Law>(
    shared: &Shared<L>,
    desk: &mut Seat<L>,
    pass: &mut Seat<L>,
    entry: &L::Entry,
)
    requires tables { (desk.old.table ≡ shared.now) × (pass.old.table ≡ shared.now) }
    requires desk { (desk.old.view.past.kind ≡ Desk) × (desk.old.view.stay.keeps ≡ true) ×
        (desk.old.view.past.permit ≡ None) }
    requires pass { pass.old.view.past.kind ≡ Pass (L.who entry.now) }
    requires own { named L.who (L.who entry.now) pass.old.view.past.seen ≡ pass.old.view.past.mine }
    requires legal { L.legal (desk.old.view.past.seen ++ entry.now ∷ []) }
    ensures tables { (desk.new.table ≡ shared.now) × (pass.new.table ≡ shared.now) }
    ensures desk { SameDesk (with_entry entry.now desk.old.view) desk.new.view }
    ensures banks { desk.new.view.stay ≡ desk.old.view.stay }
    ensures before { Begins pass.old.view.past.seen desk.old.view.past.seen }
    ensures pass { Settled L.who L.legal (desk.old.view.past.seen ++
        entry.now ∷ []) desk.old.view.past.made desk.old.view.stay
        (whole_asking (Some entry.now) pass.old.view) pass.new.view }
{
    let permit = shared.ask(pass, entry);
    hear(shared, desk, permit);
    shared.change(desk, entry);
    settle(shared, desk, pass);
}
