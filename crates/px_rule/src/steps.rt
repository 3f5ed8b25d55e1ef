//! The single steps on the words of banks and on their places, of which the crates above make their
//! calls.
ghost use Rattle.std.specs.Prelude.{◌≡◌, ℕ, ◌<◌, ◌≤◌, true, length};
ghost use mathlib.Core.Option.{some};
ghost use lib.ListN.{get_elem?};
ghost use Rattle.px_rule.specs.declared.view.Kind.TheVariants.{Desk};
ghost use Rattle.px_rule.specs.declared.view.Place.TheVariants.{Outside};
ghost use Rattle.px_rule.specs.declared.view.Stand.{Stand};
ghost use Rattle.px_rule.specs.Words.{size_of};
ghost use Rattle.px_rule.specs.Rule.{is_pass};
ghost use Rattle.px_rule.specs.Steps.{Enters, Leaves, Claims, Zeroed, Published, Looked, Written, Shown, MayWrite};
ghost use Rattle.px_rule.specs.Kept.{Sound};
ghost use Rattle.px_rule.specs.Table.{is_in, is_inside, bank_in, version_in};

use crate::law::Law;
use crate::shared::{Seat, Shared};
use std::marker::Brand;

impl<L: Law> Shared<L> {
    /// Counts a pass in at a bank, for a version, and answers the bank's word as it was.
    pub fn enter_step(&self, seat: &mut Seat<L>, bank: u32, version: u32) -> u64
        requires table { seat.old.table ≡ self.now }
        requires bank { bank < self.now.shape.banks }
        requires pass { is_pass seat.old.view.past.kind ≡ true }
        requires outside { seat.old.view.stay.place ≡ Outside }
        requires version { version ≤ length seat.old.view.past.seen }
        ensures table { seat.new.table ≡ seat.old.table }
        ensures view { Enters bank version seat.old.view result seat.new.view }
    {
        seat.bank = bank;
        self.table.enter::<Brand>(&mut seat.token, bank, version)
    }

    /// Counts a pass out of the bank that it is in.
    pub fn leave_step(&self, seat: &mut Seat<L>)
        requires table { seat.old.table ≡ self.now }
        requires is_in { is_in seat.old.view.stay.place ≡ true }
        ensures table { seat.new.table ≡ seat.old.table }
        ensures view { Leaves seat.old.view seat.new.view }
    {
        let bank = seat.bank;
        self.table.leave(&mut seat.token, bank)
    }

    /// Takes a bank that stands at the old version for a new one, if no call is inside. It answers
    /// the word as it was, which is that of the bank at the old version with count 0 exactly where
    /// the bank was taken.
    pub fn claim_step(&self, desk: &mut Seat<L>, bank: u32, old: u32, new: u32) -> u64
        requires table { desk.old.table ≡ self.now }
        requires bank { bank < self.now.shape.banks }
        requires desk { desk.old.view.past.kind ≡ Desk }
        requires stand { (a : Stand) × (get_elem? desk.old.view.stay.stands bank ≡ some a) ×
            (a.version ≡ old) × (a.building ≡ 0) }
        requires none_built { (j : ℕ) (c : Stand) → get_elem? desk.old.view.stay.stands j ≡ some c →
            c.building ≡ 0 }
        requires new { (old < new) × (new ≤ length desk.old.view.past.seen) }
        ensures table { desk.new.table ≡ desk.old.table }
        ensures view { Claims bank old new desk.old.view result desk.new.view }
    {
        self.table.claim::<Brand>(&mut desk.token, bank, old, new)
    }

    /// Stores 0 to the next place of the bank that is being built.
    pub fn zero_step(&self, desk: &mut Seat<L>, bank: u32, place: u32)
        requires table { desk.old.table ≡ self.now }
        requires bank { bank < self.now.shape.banks }
        requires place { place < size_of self.now.shape }
        requires desk { desk.old.view.past.kind ≡ Desk }
        requires built { (a : Stand) × (get_elem? desk.old.view.stay.stands bank ≡ some a) ×
            (a.building ≡ 1) × (a.zeroed ≡ place) }
        ensures table { desk.new.table ≡ desk.old.table }
        ensures view { Zeroed bank desk.old.view desk.new.view }
    {
        self.table.zero::<Brand>(&mut desk.token, bank, place)
    }

    /// Takes the building bit away from a bank of which all places were zeroed.
    pub fn publish_step(&self, desk: &mut Seat<L>, bank: u32)
        requires table { desk.old.table ≡ self.now }
        requires bank { bank < self.now.shape.banks }
        requires desk { desk.old.view.past.kind ≡ Desk }
        requires built { (a : Stand) × (get_elem? desk.old.view.stay.stands bank ≡ some a) ×
            (a.building ≡ 1) × (size_of self.now.shape ≤ a.zeroed) }
        ensures table { desk.new.table ≡ desk.old.table }
        ensures view { Published bank desk.old.view desk.new.view }
    {
        self.table.publish::<Brand>(&mut desk.token, bank)
    }

    /// Reads a place of the bank that the pass is inside, and answers its word. It tells that all
    /// that the pass keeps of the bank stands in one right bank.
    pub fn look_step(&self, seat: &mut Seat<L>, place: u32) -> u64
        requires table { seat.old.table ≡ self.now }
        requires inside { is_inside seat.old.view.stay.place ≡ true }
        requires place { place < size_of self.now.shape }
        ensures table { seat.new.table ≡ seat.old.table }
        ensures view { Looked (bank_in seat.old.view.stay.place)
            (version_in seat.old.view.stay.place) place seat.old.view result seat.new.view }
        ensures shown { Shown L.right self.now.shape (bank_in seat.old.view.stay.place)
            (version_in seat.old.view.stay.place) place seat.old.view result }
        ensures sound { Sound L.right self.now.shape (bank_in seat.new.view.stay.place)
            (version_in seat.new.view.stay.place) seat.new.view }
    {
        let bank = seat.bank;
        self.table.look::<Brand>(&mut seat.token, bank, place)
    }

    /// Writes a word to a place of the bank that the pass is inside, if that is empty, and answers
    /// the word found: 0 where it was written. It tells what a look does.
    pub fn write_step(&self, seat: &mut Seat<L>, place: u32, word: u64) -> u64
        requires table { seat.old.table ≡ self.now }
        requires inside { is_inside seat.old.view.stay.place ≡ true }
        requires word { MayWrite L.right self.now.shape (bank_in seat.old.view.stay.place)
            (version_in seat.old.view.stay.place) place word seat.old.view }
        ensures table { seat.new.table ≡ seat.old.table }
        ensures view { Written (bank_in seat.old.view.stay.place)
            (version_in seat.old.view.stay.place) place word seat.old.view result seat.new.view }
        ensures shown { Shown L.right self.now.shape (bank_in seat.old.view.stay.place)
            (version_in seat.old.view.stay.place) place seat.old.view result }
        ensures sound { Sound L.right self.now.shape (bank_in seat.new.view.stay.place)
            (version_in seat.new.view.stay.place) seat.new.view }
    {
        let bank = seat.bank;
        self.table
            .write::<Brand>(&mut seat.token, bank, place, word)
    }
}
