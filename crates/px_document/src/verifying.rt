//! What a proof shows of a document.

ghost use Rattle.std.specs.Prelude.{◌≡◌, ◌<◌, ◌≤◌, IfOk, Err, Option, List, ℕ, length};
ghost use Rattle.px_io.specs.Faults.{Rose};
ghost use Rattle.px_reader.specs.Verdicts.{IsTree};
ghost use Rattle.px_tree.specs.Trees as trees;
ghost use Rattle.px_xpath.specs.Faults.{HasFault};
ghost use Rattle.px_xpath.specs.Whole.{filter as way_of};
ghost use Rattle.px_xpath.specs.declared.fault.FilterFault.{FilterFault};
ghost use Rattle.px_document.specs.CutShort.{CutAtProof};
ghost use Rattle.px_document.specs.Documents.{HasCome};
ghost use Rattle.px_document.specs.Outputs.{IsFound, IsFoundUnder, Verifies, VerifiesInput, VerifiesVerdict};
ghost use Rattle.px_document.specs.Proofs.{GivesFineOpening, OpensDocument};
ghost use Rattle.px_document.specs.Stops.{halt_of};

use crate::document::buffer;
use crate::explaining::{no_filter, outcome};
use crate::finding::Finding;
use crate::opening::{Halt, Opened, read_opening};
use crate::stop::Cut;
use px_explain::{Checked, Proof, ProofFault, check};
use px_feed::OutLine;
use px_io::Source;
use px_tree::Tree;
use px_xpath::{Filter, parse};
use std::alloc::Global;

/// What the proof and the document that are left in the source show of the filter that a text
/// writes. A filter that is refused is found before anything is read, and then a proof that is, the
/// document's fault, and a wrong node of the proof. Where the source meets a fault, no line that
/// was read whole is at fault.
pub fn verification<S: Source>(alloc: Global, text: &[u8], source: &mut S) -> Result<Finding, Cut>
    ensures found { IfOk result (λ finding. IsFound (Verifies text.now) (S.left source.old)
        (S.left source.new) finding) }
    ensures failed { result ≡ Err Cut.Source → Rose (S.faults source.old) (S.faults source.new) }
    ensures not_at_fault { result ≡ Err Cut.Source →
        CutAtProof text.now (S.left source.old) (S.left source.new) }
    ensures unread { (fault : FilterFault) → HasFault text.now fault →
        S.left source.new ≡ S.left source.old }
    ensures never_falls { S.faults source.old ≤ S.faults source.new }
{
    match parse(alloc, text) {
        Ok(filter) => verified(alloc, &filter, source),
        Err(fault) => no_filter(fault),
    }
}

// What the proof and the document show of the filter.
fn verified<S: Source>(alloc: Global, filter: &Filter, source: &mut S) -> Result<Finding, Cut>
    ensures found { IfOk result (λ finding. IsFoundUnder
        (λ bytes. VerifiesInput (way_of filter.now) bytes) (S.left source.old) (S.left source.new)
        finding) }
    ensures failed { result ≡ Err Cut.Source → Rose (S.faults source.old) (S.faults source.new) }
    ensures not_at_fault { result ≡ Err Cut.Source →
        GivesFineOpening (S.left source.old) (S.left source.new) }
    ensures never_falls { S.faults source.old ≤ S.faults source.new }
{
    let Ok(mut storage) = buffer(alloc) else {
        return Err(Cut::Memory);
    };
    let buffer = storage.as_mut_slice();
    match read_opening(alloc, source, buffer) {
        Ok(opened) => verified_behind(alloc, filter, opened, source, buffer),
        Err(halt) => halted(halt),
    }
}

// What the proof shows with the rest of the document.
fn verified_behind<S: Source>(
    alloc: Global,
    filter: &Filter,
    opened: Opened,
    source: &mut S,
    buffer: &mut [u8],
) -> Result<Finding, Cut>
    requires room { 0 < length buffer.old }
    requires come { (bytes : List ℕ) × HasCome opened.document bytes }
    ensures found { (left : Option (List ℕ)) → OpensDocument left (S.left source.old) opened →
        IfOk result (λ finding. IsFoundUnder (λ bytes. VerifiesInput (way_of filter.now) bytes) left
        (S.left source.new) finding) }
    ensures failed { result ≡ Err Cut.Source → Rose (S.faults source.old) (S.faults source.new) }
    ensures not_at_fault { (left : Option (List ℕ)) →
        OpensDocument left (S.left source.old) opened →
        result ≡ Err Cut.Source → GivesFineOpening left (S.left source.new) }
    ensures never_falls { S.faults source.old ≤ S.faults source.new }
{
    let Opened { proof, document } = opened;
    match document.read_tree(alloc, source, buffer) {
        Ok(tree) => Ok(shown(filter, &tree, &proof)),
        Err(stop) => outcome(stop),
    }
}

// What the proof shows of the tree.
fn shown(filter: &Filter, tree: &Tree, proof: &Proof) -> Finding
    ensures { VerifiesVerdict (way_of filter.now) proof.now (IsTree (trees.tree tree.now)) result }
{
    match check(filter, tree, proof) {
        Checked::Yes => Finding::Line(OutLine::Yes),
        Checked::No => Finding::Line(OutLine::No),
        Checked::Wrong { at } => Finding::WrongNode { at },
    }
}

// What is found where a proof in front of a document was not read.
fn halted(halt: Halt) -> Result<Finding, Cut>
    ensures { result ≡ halt_of halt }
{
    match halt {
        Halt::Proof(ProofFault::NotAProof { line }) => Ok(Finding::NoProofLine { line }),
        Halt::Proof(ProofFault::TooMany) => Ok(Finding::ProofTooMany),
        Halt::Proof(ProofFault::Memory) => Err(Cut::Memory),
        Halt::Document(stop) => outcome(stop),
    }
}
