//! The table and its seats, and the calls on the history.
ghost use Rattle.std.specs.Prelude.{◌≡◌, ◌+◌, ◌<◌, ◌++◌, ◌∷◌, [], true, length, Some, None, IfOk};
ghost use Rattle.px_rule.specs.declared.view.Kind.TheVariants.{Desk, Pass};
ghost use Rattle.px_rule.specs.Words.{IsShape};
ghost use Rattle.px_rule.specs.Histories.{named};
ghost use Rattle.px_rule.specs.Rule.{is_pass};
ghost use Rattle.px_rule.specs.Steps.{CanJoin, joined, opening_view, whole_note, whole_asking, whole_more, whole_pass, whole_accepted, IsTold, IsHeard, IsMet, Loads};
ghost use Rattle.px_rule.specs.Clauses.{Moment};

use crate::law::Law;
use crate::rule::Token;
use crate::shape::Shape;
use crate::table::Table;
use std::alloc::{AllocError, Global};
use std::marker::{Brand, Model};

/// The table of words, which threads share. Contracts see which table it is.
#[derive(Drop)]
pub struct Shared<L: Law> {
    pub(crate) table: Table<L>,
}

impl<L: Law> Model for Shared<L> {
    ghost use Rattle.px_rule.specs.Table.{TableName};

    ghost Value = { TableName };

    ghost view = { λ shared. record
        { id = shared.table.words.shared.table_id; shape = shared.table.shape } };
}

/// A seat of the table: the token with which steps are made. Contracts see its table and what it
/// knows.
#[derive(Drop)]
pub struct Seat<L: Law> {
    pub(crate) token: Token<L>,
    pub(crate) shape: Shape,
    /// The bank that the seat is in, if it is in one.
    pub(crate) bank: u32,
}

impl<L: Law> Model for Seat<L> {
    ghost use Rattle.std.specs.Prelude.{◌≡◌, []};
    ghost use Rattle.px_rule.specs.Table.{Seated, IsSeat};

    ghost Value = { Seated L.Entry };

    ghost view = { λ seat. record {
      table = record { id = seat.token.table_id; shape = seat.shape };
      view = seat.token.me.0;
    } };

    ghost invariant = { λ seat. (seat.token.me.1 ≡ []) ×
        IsSeat seat.shape seat.bank seat.token.me.0 };
}

impl<L: Law> Shared<L> {
    /// Makes the words, all 0, and gives the desk's seat. Its only failure is want of memory.
    pub fn create(alloc: Global, shape: Shape) -> Result<(Shared<L>, Seat<L>), AllocError>
        requires shape { IsShape shape }
        ensures shape { IfOk result (λ t. t.0.shape ≡ shape) }
        ensures desk { IfOk result (λ t. (t.1.table ≡ t.0) × (t.1.view ≡ opening_view shape)) }
    {
        let (table, token) = Table::<L>::create(alloc, shape)?;
        let desk = Seat {
            token,
            shape,
            bank: 0,
        };
        Ok((Shared { table }, desk))
    }

    /// How large the table is.
    pub fn shape(&self) -> Shape
        ensures shape { result ≡ self.now.shape }
        ensures lawful { IsShape result }
    {
        self.table.shape
    }

    /// Makes the pass with the next number, before any change.
    pub fn pass(&self, desk: &mut Seat<L>) -> Seat<L>
        requires table { desk.old.table ≡ self.now }
        requires desk { desk.old.view.past.kind ≡ Desk }
        requires new { desk.old.view.past.seen ≡ [] }
        requires room { desk.old.view.past.made < 65 }
        ensures table { (desk.new.table ≡ desk.old.table) × (result.table ≡ desk.old.table) }
        ensures desk { desk.new.view ≡ whole_more desk.old.view }
        ensures pass { result.view ≡ whole_pass desk.old.view }
    {
        Seat {
            token: self.table.pass(&mut desk.token),
            shape: desk.shape,
            bank: 0,
        }
    }

    /// Makes a note of the desk or of a pass: a copy of what it has seen.
    pub fn note(&self, seat: &mut Seat<L>) -> Seat<L>
        requires table { seat.old.table ≡ self.now }
        ensures table { result.table ≡ seat.old.table }
        ensures seat { seat.new ≡ seat.old }
        ensures note { result.view ≡ whole_note None seat.old.view }
    {
        Seat {
            token: self.table.note(&mut seat.token),
            shape: seat.shape,
            bank: 0,
        }
    }

    /// Makes a note of a pass with a permit for an entry that names it, once its own entries are
    /// all among those that it has seen.
    pub fn ask(&self, pass: &mut Seat<L>, entry: &L::Entry) -> Seat<L>
        requires table { pass.old.table ≡ self.now }
        requires pass { pass.old.view.past.kind ≡ Pass (L.who entry.now) }
        requires own { named L.who (L.who entry.now) pass.old.view.past.seen ≡
            pass.old.view.past.mine }
        ensures table { (pass.new.table ≡ pass.old.table) × (result.table ≡ pass.old.table) }
        ensures pass { pass.new.view ≡ whole_asking (Some entry.now) pass.old.view }
        ensures note { result.view ≡ whole_note (Some entry.now) pass.old.view }
    {
        Seat {
            token: self.table.ask::<Brand>(&mut pass.token, entry),
            shape: pass.shape,
            bank: 0,
        }
    }

    /// Takes a note without a permit into a pass, or a pass's note into the desk, with a permit
    /// only while the desk holds none. It tells that all that the seat has then seen begins one
    /// legal history: the desk's goes on from the note's, and a pass's from both.
    pub fn join(&self, seat: &mut Seat<L>, note: Seat<L>)
        requires tables { (seat.old.table ≡ self.now) × (note.table ≡ self.now) }
        requires pair { CanJoin seat.old.view note.view }
        ensures table { seat.new.table ≡ seat.old.table }
        ensures view { seat.new.view ≡ joined seat.old.view note.view }
        ensures told { IsTold L.who L.legal seat.new.view }
        ensures heard { seat.old.view.past.kind ≡ Desk → IsHeard seat.old.view note.view }
        ensures met { is_pass seat.old.view.past.kind ≡ true →
            IsMet seat.old.view note.view seat.new.view }
    {
        let Seat {
            token,
            shape: _,
            bank: _,
        } = note;
        self.table.join(&mut seat.token, token);
    }

    /// Loads the version word. It tells that all the seat has seen begins one legal history of that
    /// length, and that the rule held.
    pub fn load(&self, seat: &mut Seat<L>) -> u64
        requires table { seat.old.table ≡ self.now }
        ensures table { seat.new.table ≡ seat.old.table }
        ensures told { Loads L.who L.legal seat.old.view result seat.new.view }
        ensures rule { Moment L.who L.legal L.right self.now.shape seat.old.view result }
    {
        self.table.load::<Brand>(&mut seat.token)
    }

    /// Accepts the entry of the desk's permit, and answers the new version.
    pub fn change(&self, desk: &mut Seat<L>, entry: &L::Entry) -> u64
        requires table { desk.old.table ≡ self.now }
        requires desk { desk.old.view.past.kind ≡ Desk }
        requires permit { desk.old.view.past.permit ≡ Some entry.now }
        requires legal { L.legal (desk.old.view.past.seen ++ entry.now ∷ []) }
        ensures table { desk.new.table ≡ desk.old.table }
        ensures view { desk.new.view ≡ whole_accepted desk.old.view }
        ensures version { result ≡ length desk.old.view.past.seen + 1 }
    {
        self.table.accept(&mut desk.token, entry) + 1
    }
}
