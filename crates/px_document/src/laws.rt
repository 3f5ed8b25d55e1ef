//! A law of the definitions: one thing is found of an input.

ghost use Rattle.std.specs.Prelude.{◌≡◌, ℕ, List};
ghost use Rattle.px_document.specs.Outputs.{Explains, Verifies};
ghost use Rattle.px_document.specs.declared.finding.Finding.{Finding};

/// Of a filter's text and the bytes of a document one thing is found, as of a filter's text and the
/// bytes of a proof and a document.
pub fn a_finding_is_one()
    ensures explained { (filter bytes : List ℕ) (finding other : Finding) →
        Explains filter bytes finding → Explains filter bytes other → finding ≡ other }
    ensures verified { (filter bytes : List ℕ) (finding other : Finding) →
        Verifies filter bytes finding → Verifies filter bytes other → finding ≡ other }
{}
