//! Entering and leaving a bank, and giving it a new version.
ghost use Rattle.std.specs.Prelude.{◌≡◌, ℕ, ◌+◌, ◌<◌, ◌≤◌, true, length};
ghost use mathlib.Core.Option.{some};
ghost use lib.ListN.{get_elem?};
ghost use Rattle.px_rule.specs.declared.view.Kind.TheVariants.{Desk};
ghost use Rattle.px_rule.specs.declared.view.Place.TheVariants.{Outside};
ghost use Rattle.px_rule.specs.declared.view.Stand.{Stand};
ghost use Rattle.px_rule.specs.Words.{size_of};
ghost use Rattle.px_rule.specs.Rule.{is_pass};
ghost use Rattle.px_rule.specs.Steps.{Leaves, Published};
ghost use Rattle.px_rule.specs.Table.{is_in};
ghost use Rattle.px_banks.specs.Answers.{EnterGives, ClaimGives, IsCleared};

use crate::answers::{Claim, Enter};
use px_rule::{Law, Seat, Shared, stands_at};

/// Counts a pass in at a bank that stands at the version. Else it is `Gone`, and the pass has left
/// again.
pub fn enter<L: Law>(shared: &Shared<L>, seat: &mut Seat<L>, bank: u32, version: u32) -> Enter
    requires table { seat.old.table ≡ shared.now }
    requires bank { bank < shared.now.shape.banks }
    requires pass { is_pass seat.old.view.past.kind ≡ true }
    requires outside { seat.old.view.stay.place ≡ Outside }
    requires version { version ≤ length seat.old.view.past.seen }
    ensures table { seat.new.table ≡ seat.old.table }
    ensures answer { EnterGives bank version seat.old.view seat.new.view result }
    ensures one_step { seat.new.view.stay.enters ≡ seat.old.view.stay.enters + 1 }
{
    let word = shared.enter_step(seat, bank, version);
    if stands_at(word, version) {
        return Enter::Entered;
    }
    shared.leave_step(seat);
    Enter::Gone { word }
}

/// Counts a pass out of the bank that it is in.
pub fn leave<L: Law>(shared: &Shared<L>, pass: &mut Seat<L>)
    requires table { pass.old.table ≡ shared.now }
    requires is_in { is_in pass.old.view.stay.place ≡ true }
    ensures table { pass.new.table ≡ pass.old.table }
    ensures view { Leaves pass.old.view pass.new.view }
{
    shared.leave_step(pass)
}

/// Takes a bank that no call is inside, to build it for a new version. Else it is `Busy`, and the
/// desk keeps the word found.
pub fn claim<L: Law>(shared: &Shared<L>, desk: &mut Seat<L>, bank: u32, old: u32, new: u32) -> Claim
    requires table { desk.old.table ≡ shared.now }
    requires bank { bank < shared.now.shape.banks }
    requires desk { desk.old.view.past.kind ≡ Desk }
    requires stand { (a : Stand) × (get_elem? desk.old.view.stay.stands bank ≡ some a) ×
        (a.version ≡ old) × (a.building ≡ 0) }
    requires none_built { (j : ℕ) (c : Stand) → get_elem? desk.old.view.stay.stands j ≡ some c →
        c.building ≡ 0 }
    requires new { (old < new) × (new ≤ length desk.old.view.past.seen) }
    ensures table { desk.new.table ≡ desk.old.table }
    ensures answer { ClaimGives bank old new desk.old.view desk.new.view result }
{
    let word = shared.claim_step(desk, bank, old, new);
    if word == u64::from(old) << 20 {
        Claim::Claimed
    } else {
        Claim::Busy { word }
    }
}

/// Stores 0 to each place of the bank that was claimed.
pub fn zero<L: Law>(shared: &Shared<L>, desk: &mut Seat<L>, bank: u32)
    requires table { desk.old.table ≡ shared.now }
    requires bank { bank < shared.now.shape.banks }
    requires desk { desk.old.view.past.kind ≡ Desk }
    requires built { (a : Stand) × (get_elem? desk.old.view.stay.stands bank ≡ some a) ×
        (a.building ≡ 1) × (a.zeroed ≡ 0) }
    ensures table { desk.new.table ≡ desk.old.table }
    ensures past { desk.new.view.past ≡ desk.old.view.past }
    ensures ready { (a : Stand) × (get_elem? desk.new.view.stay.stands bank ≡ some a) ×
        (a.building ≡ 1) × (size_of shared.now.shape ≤ a.zeroed) }
    ensures cleared { IsCleared bank (size_of shared.now.shape) desk.old.view desk.new.view }
{
    for place in 0..shared.shape().bank_places() {
        shared.zero_step(desk, bank, place);
    }
}

/// Takes the building bit away from a bank of which all places were zeroed. It stands at its
/// version.
pub fn publish<L: Law>(shared: &Shared<L>, desk: &mut Seat<L>, bank: u32)
    requires table { desk.old.table ≡ shared.now }
    requires bank { bank < shared.now.shape.banks }
    requires desk { desk.old.view.past.kind ≡ Desk }
    requires built { (a : Stand) × (get_elem? desk.old.view.stay.stands bank ≡ some a) ×
        (a.building ≡ 1) × (size_of shared.now.shape ≤ a.zeroed) }
    ensures table { desk.new.table ≡ desk.old.table }
    ensures past { desk.new.view.past ≡ desk.old.view.past }
    ensures view { Published bank desk.old.view desk.new.view }
{
    shared.publish_step(desk, bank);
}
