//! Laws of the definitions: One number, and what lasts of that which a seat knows.
ghost use Rattle.std.specs.Prelude.{◌≡◌, ℕ, ◌<◌, ◌≤◌, Bool, List, Option, length};
ghost use Rattle.px_text.specs.Operands.{Operand};
ghost use Rattle.px_rule.specs.declared.shape.Shape.{Shape};
ghost use Rattle.px_rule.specs.declared.view.View.{View};
ghost use Rattle.px_rule.specs.Histories.{Begins};
ghost use Rattle.px_rule.specs.RightBanks.{Grown, SetAt, OneNumber, OneSet, RightBank};
ghost use Rattle.px_rule.specs.Steps.{IsTold, Enters, Leaves, Loads, whole_asking, whole_met};
ghost use Rattle.px_rule.specs.Kept.{Grew, Since, KeptAt, Tells, KeyBlocked, SetBlocked, Gapped, GapGained};

use crate::law::Law;

/// One number: in a right bank, whatever its paths, a set has one number. In any bank a number
/// names one set, and goes on naming it while only empty places are written.
pub fn a_set_has_one_number<L: Law>()
    ensures one_number { (nodes steps : ℕ) (path : ℕ → ℕ → ℕ) (long : ℕ →
        ℕ) (log : List L.Entry) (mem : ℕ → ℕ) → RightBank nodes steps path long (L.right log) mem →
        OneNumber nodes mem }
    ensures one_set { (nodes : ℕ) (mem : ℕ → ℕ) → OneSet nodes mem }
    ensures lasts { (nodes : ℕ) (mem later : ℕ → ℕ) → Grown mem later → (s : ℕ) (x : List ℕ) →
        SetAt nodes mem s x → SetAt nodes later s x }
{}

/// What a seat keeps of a bank at version n, what numbers stand for in its view, which keys and
/// sets are blocked and which gaps it gained is so in every view that has come since.
pub fn what_is_known_lasts<L: Law>()
    ensures kept { (k n p x : ℕ) (v w : View L.Entry) → Since n v w → KeptAt k n p x v →
        KeptAt k n p x w }
    ensures told { (z : Shape) (k n : ℕ) (v w : View L.Entry) → Since n v w →
        (t : Bool) (a : ℕ) (o : Operand) → Tells L.right z k n v t a o →
        Tells L.right z k n w t a o }
    ensures key { (z : Shape) (k n word : ℕ) (v w : View L.Entry) → Since n v w →
        KeyBlocked z k n word v → KeyBlocked z k n word w }
    ensures set { (z : Shape) (k n : ℕ) (v w : View L.Entry) → Since n v w →
        (xs : List ℕ) (word : ℕ) → SetBlocked L.right z k n v xs word →
        SetBlocked L.right z k n w xs word }
    ensures gap { (z : Shape) (k n before word : ℕ) (v w : View L.Entry) → Since n v w →
        GapGained z k n before word v → GapGained z k n before word w }
    ensures gained { (z : Shape) (k n before word : ℕ) (v : View L.Entry) →
        before < v.touch.touches → Gapped z k n word v → GapGained z k n before word v }
{}

/// Every call of a pass leaves a view that has come since the one before it: inside a bank, at its
/// entering and leaving, at a load, at a note with or without a permit, where it takes a note in,
/// and where its history has grown.
pub fn every_call_keeps_what_is_known<L: Law>()
    ensures inside { (n : ℕ) (v w : View L.Entry) → Grew v w → Since n v w }
    ensures enter { (n k m x : ℕ) (v w : View L.Entry) → Enters k m v x w → Since n v w }
    ensures leave { (n : ℕ) (v w : View L.Entry) → Leaves v w → Since n v w }
    ensures load { (n x : ℕ) (v w : View L.Entry) → Loads L.who L.legal v x w → Since n v w }
    ensures ask { (n : ℕ) (permit : Option L.Entry) (v : View L.Entry) →
        Since n v (whole_asking permit v) }
    ensures meet { (n : ℕ) (v note : View L.Entry) → n ≤ length v.past.seen →
        IsTold L.who L.legal (whole_met v note) → Since n v (whole_met v note) }
    ensures grown { (n : ℕ) (v w : View L.Entry) → n ≤ length v.past.seen →
        Begins v.past.seen w.past.seen → w.touch ≡ v.touch → Since n v w }
    ensures follows { (n : ℕ) (u v w : View L.Entry) → Since n u v → Since n v w → Since n u w }
{}
