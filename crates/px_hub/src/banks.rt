//! A bank for the newest version.
ghost use Rattle.std.specs.Prelude.{◌≡◌, ◌≢◌, ℕ, ◌+◌, ◌<◌, ◌≤◌, true, length, slice_index, replicate, All};
ghost use mathlib.Core.Option.{some};
ghost use lib.ListN.{get_elem?};
ghost use Rattle.px_rule.specs.declared.view.Kind.TheVariants.{Desk};
ghost use Rattle.px_rule.specs.declared.view.Stand.{Stand};
ghost use Rattle.px_rule.specs.Words.{size_of};
ghost use Rattle.px_rule.specs.Rule.{is_pass};
ghost use Rattle.px_rule.specs.Steps.{loaded, number_of};
ghost use Rattle.px_hub.specs.Settling.{SameDesk, Settled};
ghost use Rattle.px_hub.specs.Banking.{AreStands, IsNext, IsStanding, TryGives, ClaimsGive, GivesHome};

use crate::exchange::{hear, settle};
use crate::home::Home;
use px_banks::{Claim, claim, publish, zero};
use px_rule::{Law, Seat, Shared};
use px_text::Words;

// The first bank that stands at the version.
fn standing_at(stands: &[u32], version: u32) -> Option<u32>
    requires few { length stands.now ≤ 16 }
    ensures { IsStanding stands.now version result }
{
    for bank in 0..stands.len() as u32 {
        if stands[bank as usize] == version {
            return Some(bank);
        }
    }
    None
}

// The bank that is to be tried next: of those of which no word was found the one that stands at the
// lowest version, and of two at one version the one with the lower number.
fn oldest(stands: &[u32], words: &[u64]) -> Option<u32>
    requires few { (length stands.now ≤ 16) × (length words.now ≡ length stands.now) }
    ensures { IsNext stands.now words.now (length stands.now) result }
{
    let mut next = None;
    for bank in 0..stands.len() as u32 {
        next = earlier(stands, words, next, bank);
    }
    next
}

// The bank that is to be tried next among one more.
fn earlier(stands: &[u32], words: &[u64], next: Option<u32>, bank: u32) -> Option<u32>
    requires within { (bank < length stands.now) × (length words.now ≡ length stands.now) }
    requires next { IsNext stands.now words.now bank next }
    ensures { IsNext stands.now words.now (bank + 1) result }
{
    if words[bank as usize] != 0 {
        return next;
    }
    match next {
        Some(best) if stands[best as usize] <= stands[bank as usize] => next,
        _ => Some(bank),
    }
}

// Renews a bank that no call is inside, or keeps the word that was found.
fn try_bank<L: Law>(
    shared: &Shared<L>,
    desk: &mut Seat<L>,
    bank: u32,
    old: u32,
    version: u32,
) -> Claim
    requires table { desk.old.table ≡ shared.now }
    requires bank { bank < shared.now.shape.banks }
    requires desk { desk.old.view.past.kind ≡ Desk }
    requires stand { (a : Stand) × (get_elem? desk.old.view.stay.stands bank ≡ some a) ×
        (a.version ≡ old) × (a.building ≡ 0) }
    requires none_built { (j : ℕ) (c : Stand) → get_elem? desk.old.view.stay.stands j ≡ some c →
        c.building ≡ 0 }
    requires version { (old < version) × (version ≤ length desk.old.view.past.seen) }
    ensures table { desk.new.table ≡ desk.old.table }
    ensures answer { TryGives (size_of shared.now.shape) bank version desk.old.view desk.new.view
        result }
{
    match claim(shared, desk, bank, old, version) {
        Claim::Claimed => {
            zero(shared, desk, bank);
            publish(shared, desk, bank);
            Claim::Claimed
        }
        Claim::Busy { word } => Claim::Busy { word },
    }
}

// Tries the banks in their order until one is free. The words found are kept.
fn try_banks<L: Law>(
    shared: &Shared<L>,
    desk: &mut Seat<L>,
    stands: &[u32],
    version: u32,
    words: &mut Vec<u64>,
) -> Option<u32>
    requires table { desk.old.table ≡ shared.now }
    requires desk { desk.old.view.past.kind ≡ Desk }
    requires stands { AreStands shared.now.shape.banks stands.now desk.old.view.stay.stands }
    requires few { shared.now.shape.banks ≤ 16 }
    requires older { All (λ n. n < version) stands.now }
    requires version { version ≤ length desk.old.view.past.seen }
    requires words { words.old.items ≡ replicate shared.now.shape.banks 0 }
    ensures table { desk.new.table ≡ desk.old.table }
    ensures past { desk.new.view.past ≡ desk.old.view.past }
    ensures keeps { desk.new.view.stay.keeps ≡ desk.old.view.stay.keeps }
    ensures words { length words.new.items ≡ shared.now.shape.banks }
    ensures answer { ClaimsGive stands.now version desk.old.view.past.asker
        desk.old.view.past.asker_loads (size_of shared.now.shape) desk.old.view.stay
        desk.new.view.stay words.new.items result }
{
    while let Some(bank) = oldest(stands, words.as_slice()) {
        match try_bank(shared, desk, bank, stands[bank as usize], version) {
            Claim::Claimed => return Some(bank),
            Claim::Busy { word } => words[bank as usize] = word,
        }
    }
    None
}

// The first bank that stands at the newest version, or else one that is renewed, or the words of
// all.
fn choose_home<L: Law>(
    shared: &Shared<L>,
    desk: &mut Seat<L>,
    stands: &mut Vec<u32>,
    version: u32,
    mut words: Vec<u64>,
) -> Home
    requires table { desk.old.table ≡ shared.now }
    requires desk { desk.old.view.past.kind ≡ Desk }
    requires stands { AreStands shared.now.shape.banks stands.old.items desk.old.view.stay.stands }
    requires reached { All (λ n. n ≤ version) stands.old.items }
    requires version { version ≡ length desk.old.view.past.seen }
    requires words { words.items ≡ replicate shared.now.shape.banks 0 }
    ensures table { desk.new.table ≡ desk.old.table }
    ensures past { desk.new.view.past ≡ desk.old.view.past }
    ensures keeps { desk.new.view.stay.keeps ≡ desk.old.view.stay.keeps }
    ensures stands { AreStands shared.now.shape.banks stands.new.items desk.new.view.stay.stands }
    ensures reached { All (λ n. n ≤ version) stands.new.items }
    ensures home { GivesHome stands.old.items version desk.old.view.past.asker
        desk.old.view.past.asker_loads shared.now.shape.banks desk.new.view.stay result }
{
    let _shape = shared.shape();
    if let Some(bank) = standing_at(stands.as_slice(), version) {
        return Home::Bank(bank);
    }
    match try_banks(shared, desk, stands.as_slice(), version, &mut words) {
        Some(bank) => {
            stands[bank as usize] = version;
            Home::Bank(bank)
        }
        None => Home::NoBank(Words::of(words)),
    }
}

/// Gives the pass a bank that stands at the newest version, or renews one for it, or keeps the
/// words of all; and the pass catches up with the desk. Claims that fail name the pass, and a load
/// of this call.
pub(crate) fn give_home<L: Law>(
    shared: &Shared<L>,
    desk: &mut Seat<L>,
    pass: &mut Seat<L>,
    stands: &mut Vec<u32>,
    version: u32,
    words: Vec<u64>,
) -> Home
    requires tables { (desk.old.table ≡ shared.now) × (pass.old.table ≡ shared.now) }
    requires desk { (desk.old.view.past.kind ≡ Desk) × (desk.old.view.stay.keeps ≡ true) }
    requires pass { is_pass pass.old.view.past.kind ≡ true }
    requires stands { AreStands shared.now.shape.banks stands.old.items desk.old.view.stay.stands }
    requires reached { All (λ n. n ≤ version) stands.old.items }
    requires version { version ≡ length desk.old.view.past.seen }
    requires words { words.items ≡ replicate shared.now.shape.banks 0 }
    ensures tables { (desk.new.table ≡ shared.now) × (pass.new.table ≡ shared.now) }
    ensures desk { SameDesk desk.old.view desk.new.view }
    ensures stands { AreStands shared.now.shape.banks stands.new.items desk.new.view.stay.stands }
    ensures reached { All (λ n. n ≤ version) stands.new.items }
    ensures home { GivesHome stands.old.items version (number_of pass.old.view.past.kind)
        (pass.old.view.past.loads + 1) shared.now.shape.banks desk.new.view.stay result }
    ensures pass { (found : ℕ) × Settled L.who L.legal desk.old.view.past.seen
        desk.old.view.past.made desk.new.view.stay
        (record pass.old.view { past = loaded pass.old.view.past found }) pass.new.view }
{
    shared.load(pass);
    let note = shared.note(pass);
    hear(shared, desk, note);
    let home = choose_home(shared, desk, stands, version, words);
    settle(shared, desk, pass);
    home
}
