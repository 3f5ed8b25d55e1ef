//! The steps on the base's own table, each with what it owes the rule.
ghost use Rattle.std.specs.Prelude.{◌≡◌, ℕ, ◌+◌, ◌*◌, ◌<◌, ◌≤◌, ◌++◌, ◌∷◌, [], true, length, Some, None, IfOk};
ghost use mathlib.Core.Option.{some};
ghost use lib.ListN.{get_elem?};
ghost use Rattle.px_rule.specs.declared.view.Kind.TheVariants.{Desk, Pass};
ghost use Rattle.px_rule.specs.declared.view.Place.TheVariants.{Outside, Inside};
ghost use Rattle.px_rule.specs.declared.view.Stand.{Stand};
ghost use Rattle.px_rule.specs.Words.{IsShape, size_of, words_of, packed};
ghost use Rattle.px_rule.specs.Histories.{named};
ghost use Rattle.px_rule.specs.Rule.{is_desk, is_pass};
ghost use Rattle.px_rule.specs.Steps.{IsIn, CanJoin, joined, opening_view, whole_note, whole_asking, whole_more, whole_pass, IsTold, Loads, Accepts, Enters, Leaves, Claims, Zeroed, Published, Looked, Written, Shown, MayWrite};
ghost use Rattle.px_rule.specs.Clauses.{Moment};

use crate::law::Law;
use crate::plays::{
    Accepting, Aim, Asked, Asking, Claiming, Entering, Joining, Leaving, Loading, Looking, Making,
    Noting, Publishing, Telling, Writing, Zeroing,
};
use crate::rule::{Token, Words};
use crate::shape::Shape;
use std::alloc::{AllocError, Global};

/// The words, and their shape.
#[derive(Drop)]
pub(crate) struct Table<L: Law> {
    pub(crate) words: Words<L>,
    pub(crate) shape: Shape,
    ghost key_is: { words.shared.key ≡ shape },
    ghost sized: { words.shared.table_id.words ≡ words_of shape },
    ghost lawful: { IsShape shape },
}

impl<L: Law> Table<L> {
    pub(crate) fn create(alloc: Global, shape: Shape) -> Result<(Table<L>, Token<L>), AllocError>
        requires shape { IsShape shape }
        ensures opens { IfOk result (λ t. (t.0.shape ≡ shape) ×
            (t.1.table_id ≡ t.0.words.shared.table_id) × (t.1.me ≡ (opening_view shape, []))) }
    {
        let zeros = vec![in alloc; 0; word_count(&shape)]?;
        let (words, token) = Words::<L>::of_words(alloc, &zeros, &shape)?;
        Ok((Table { words, shape }, token))
    }

    pub(crate) fn pass(&self, desk: &mut Token<L>) -> Token<L>
        requires table { desk.old.table_id ≡ self.now.words.shared.table_id }
        requires desk { desk.old.me.0.past.kind ≡ Desk }
        requires new { desk.old.me.0.past.seen ≡ [] }
        requires room { desk.old.me.0.past.made < 65 }
        ensures desk { (desk.new.table_id ≡ desk.old.table_id) ×
            (desk.new.me ≡ (whole_more desk.old.me.0, desk.old.me.1)) }
        ensures pass { (result.table_id ≡ desk.old.table_id) ×
            (result.me ≡ (whole_pass desk.old.me.0, [])) }
    {
        self.words.shared.split_seat::<Making>(desk)
    }

    pub(crate) fn note(&self, seat: &mut Token<L>) -> Token<L>
        requires table { seat.old.table_id ≡ self.now.words.shared.table_id }
        ensures seat { (seat.new.table_id ≡ seat.old.table_id) × (seat.new.me ≡ seat.old.me) }
        ensures note { (result.table_id ≡ seat.old.table_id) ×
            (result.me ≡ (whole_note None seat.old.me.0, [])) }
    {
        self.words.shared.split_seat::<Noting>(seat)
    }

    pub(crate) fn ask<A: Asked<L::Entry>>(&self, pass: &mut Token<L>, entry: &L::Entry) -> Token<L>
        requires entry { A.entry ≡ Some entry.now }
        requires table { pass.old.table_id ≡ self.now.words.shared.table_id }
        requires pass { pass.old.me.0.past.kind ≡ Pass (L.who entry.now) }
        requires own { named L.who (L.who entry.now) pass.old.me.0.past.seen ≡
            pass.old.me.0.past.mine }
        ensures pass { (pass.new.table_id ≡ pass.old.table_id) ×
            (pass.new.me ≡ (whole_asking A.entry pass.old.me.0, pass.old.me.1)) }
        ensures note { (result.table_id ≡ pass.old.table_id) ×
            (result.me ≡ (whole_note A.entry pass.old.me.0, [])) }
    {
        let _ = entry;
        self.words.shared.split_seat::<Asking<A>>(pass)
    }

    pub(crate) fn join(&self, seat: &mut Token<L>, note: Token<L>)
        requires tables { (seat.old.table_id ≡ self.now.words.shared.table_id) ×
            (note.table_id ≡ self.now.words.shared.table_id) × (note.me.1 ≡ []) }
        requires pair { CanJoin seat.old.me.0 note.me.0 }
        ensures view { (seat.new.table_id ≡ seat.old.table_id) ×
            (seat.new.me ≡ (joined seat.old.me.0 note.me.0, seat.old.me.1)) }
        ensures told { IsTold L.who L.legal (joined seat.old.me.0 note.me.0) }
    {
        self.words.shared.join_seat::<Joining>(seat, note);
        self.words.shared.load::<Telling<L>>(seat, 0);
    }

    pub(crate) fn load<A: Aim>(&self, seat: &mut Token<L>) -> u64
        requires aim { A.shape ≡ self.now.shape }
        requires table { seat.old.table_id ≡ self.now.words.shared.table_id }
        ensures same { seat.new.table_id ≡ seat.old.table_id }
        ensures told { Loads L.who L.legal seat.old.me.0 result seat.new.me.0 ×
            Moment L.who L.legal L.right A.shape seat.old.me.0 result ×
            (seat.new.me.1 ≡ seat.old.me.1) }
    {
        self.words.shared.load::<Loading<L, A>>(seat, 0)
    }

    pub(crate) fn accept(&self, desk: &mut Token<L>, entry: &L::Entry) -> u64
        requires table { desk.old.table_id ≡ self.now.words.shared.table_id }
        requires desk { desk.old.me.0.past.kind ≡ Desk }
        requires permit { desk.old.me.0.past.permit ≡ Some entry.now }
        requires legal { L.legal (desk.old.me.0.past.seen ++ entry.now ∷ []) }
        ensures same { desk.new.table_id ≡ desk.old.table_id }
        ensures view { Accepts desk.old.me.0 result desk.new.me.0 ×
            (desk.new.me.1 ≡ desk.old.me.1) }
    {
        let _ = entry;
        self.words.shared.fetch_add::<Accepting<L>>(desk, 0, 1)
    }

    pub(crate) fn enter<A: Aim>(&self, seat: &mut Token<L>, bank: u32, version: u32) -> u64
        requires aim { (A.bank ≡ bank) × (A.version ≡ version) }
        requires table { seat.old.table_id ≡ self.now.words.shared.table_id }
        requires bank { bank < self.now.shape.banks }
        requires pass { is_pass seat.old.me.0.past.kind ≡ true }
        requires outside { seat.old.me.0.stay.place ≡ Outside }
        ensures same { seat.new.table_id ≡ seat.old.table_id }
        ensures view { Enters A.bank A.version seat.old.me.0 result seat.new.me.0 ×
            (seat.new.me.1 ≡ seat.old.me.1) }
    {
        let _ = version;
        self.words
            .shared
            .fetch_add::<Entering<A>>(seat, bank as usize + 1, 1)
    }

    pub(crate) fn leave(&self, seat: &mut Token<L>, bank: u32)
        requires table { seat.old.table_id ≡ self.now.words.shared.table_id }
        requires bank { bank < self.now.shape.banks }
        requires pass { is_pass seat.old.me.0.past.kind ≡ true }
        requires is_in { IsIn bank seat.old.me.0.stay.place }
        ensures same { seat.new.table_id ≡ seat.old.table_id }
        ensures view { Leaves seat.old.me.0 seat.new.me.0 × (seat.new.me.1 ≡ seat.old.me.1) }
    {
        self.words
            .shared
            .fetch_sub::<Leaving>(seat, bank as usize + 1, 1);
    }

    pub(crate) fn claim<A: Aim>(&self, desk: &mut Token<L>, bank: u32, old: u32, new: u32) -> u64
        requires aim { (A.bank ≡ bank) × (A.old ≡ old) × (A.version ≡ new) }
        requires table { desk.old.table_id ≡ self.now.words.shared.table_id }
        requires bank { bank < self.now.shape.banks }
        requires desk { is_desk desk.old.me.0.past.kind ≡ true }
        requires stand { (a : Stand) × (get_elem? desk.old.me.0.stay.stands bank ≡ some a) ×
            (a.version ≡ old) × (a.building ≡ 0) }
        requires none_built { (j : ℕ) (c : Stand) → get_elem? desk.old.me.0.stay.stands j ≡ some c →
            c.building ≡ 0 }
        requires new { (old < new) × (new ≤ length desk.old.me.0.past.seen) }
        ensures same { desk.new.table_id ≡ desk.old.table_id }
        ensures view { Claims A.bank A.old A.version desk.old.me.0 result desk.new.me.0 ×
            (desk.new.me.1 ≡ desk.old.me.1) }
    {
        self.words
            .shared
            .compare_exchange::<Claiming<A>>(
                desk,
                bank as usize + 1,
                free_word(old),
                built_word(new),
            )
    }

    pub(crate) fn zero<A: Aim>(&self, desk: &mut Token<L>, bank: u32, place: u32)
        requires aim { A.bank ≡ bank }
        requires table { desk.old.table_id ≡ self.now.words.shared.table_id }
        requires bank { bank < self.now.shape.banks }
        requires place { place < size_of self.now.shape }
        requires desk { is_desk desk.old.me.0.past.kind ≡ true }
        requires built { (a : Stand) × (get_elem? desk.old.me.0.stay.stands bank ≡ some a) ×
            (a.building ≡ 1) × (a.zeroed ≡ place) }
        ensures same { desk.new.table_id ≡ desk.old.table_id }
        ensures view { Zeroed A.bank desk.old.me.0 desk.new.me.0 × (desk.new.me.1 ≡ desk.old.me.1) }
    {
        self.words
            .shared
            .store::<Zeroing<A>>(desk, self.index(bank, place), 0)
    }

    pub(crate) fn publish<A: Aim>(&self, desk: &mut Token<L>, bank: u32)
        requires aim { A.bank ≡ bank }
        requires table { desk.old.table_id ≡ self.now.words.shared.table_id }
        requires bank { bank < self.now.shape.banks }
        requires desk { is_desk desk.old.me.0.past.kind ≡ true }
        requires built { (a : Stand) × (get_elem? desk.old.me.0.stay.stands bank ≡ some a) ×
            (a.building ≡ 1) × (size_of self.now.shape ≤ a.zeroed) }
        ensures same { desk.new.table_id ≡ desk.old.table_id }
        ensures view { Published A.bank desk.old.me.0 desk.new.me.0 ×
            (desk.new.me.1 ≡ desk.old.me.1) }
    {
        self.words
            .shared
            .fetch_and::<Publishing<A>>(desk, bank as usize + 1, !(0xf << 16));
    }

    pub(crate) fn look<A: Aim>(&self, seat: &mut Token<L>, bank: u32, place: u32) -> u64
        requires aim { (A.bank ≡ bank) × (A.place ≡ place) × (A.shape ≡ self.now.shape) }
        requires table { seat.old.table_id ≡ self.now.words.shared.table_id }
        requires bank { bank < self.now.shape.banks }
        requires place { place < size_of self.now.shape }
        requires inside { seat.old.me.0.stay.place ≡ Inside A.bank A.version }
        requires version { A.version ≤ length seat.old.me.0.past.seen }
        ensures same { seat.new.table_id ≡ seat.old.table_id }
        ensures view { (Looked A.bank A.version A.place seat.old.me.0 result seat.new.me.0 ×
            Shown L.right A.shape A.bank A.version A.place seat.old.me.0 result) ×
            (seat.new.me.1 ≡ seat.old.me.1) }
    {
        self.words
            .shared
            .load::<Looking<L, A>>(seat, self.index(bank, place))
    }

    pub(crate) fn write<A: Aim>(&self, seat: &mut Token<L>, bank: u32, place: u32, word: u64) -> u64
        requires aim { (A.bank ≡ bank) × (A.place ≡ place) × (A.word ≡ word) ×
            (A.shape ≡ self.now.shape) }
        requires table { seat.old.table_id ≡ self.now.words.shared.table_id }
        requires bank { bank < self.now.shape.banks }
        requires inside { seat.old.me.0.stay.place ≡ Inside A.bank A.version }
        requires version { A.version ≤ length seat.old.me.0.past.seen }
        requires word { MayWrite L.right self.now.shape A.bank A.version place word seat.old.me.0 }
        ensures same { seat.new.table_id ≡ seat.old.table_id }
        ensures view { (Written A.bank A.version A.place A.word seat.old.me.0 result seat.new.me.0 ×
            Shown L.right A.shape A.bank A.version A.place seat.old.me.0 result) ×
            (seat.new.me.1 ≡ seat.old.me.1) }
    {
        self.words
            .shared
            .compare_exchange::<Writing<L, A>>(seat, self.index(bank, place), 0, word)
    }

    // Where the place stands among the words.
    fn index(&self, bank: u32, place: u32) -> usize
        requires { (bank < self.now.shape.banks) × (place < size_of self.now.shape) }
        ensures index { result ≡ 1 + (self.now.shape.banks + bank * size_of self.now.shape +
            place) }
        ensures within { result < self.now.words.shared.table_id.words }
    {
        1 + (self.shape.banks as usize
            + bank as usize * self.shape.bank_places() as usize
            + place as usize)
    }
}

// How many words there are.
fn word_count(shape: &Shape) -> usize
    requires { IsShape shape.now }
    ensures { result ≡ words_of shape.now }
{
    let banks = shape.banks as usize;
    1 + (banks + banks * shape.bank_places() as usize)
}

// The word of a bank that stands at a version with no call inside.
fn free_word(version: u32) -> u64
    ensures { result ≡ packed version 0 0 }
{
    u64::from(version) << 20
}

// The word of a bank that is being built for a version, with no call inside.
fn built_word(version: u32) -> u64
    ensures { result ≡ packed version 1 0 }
{
    (u64::from(version) << 20) + (1 << 16)
}
