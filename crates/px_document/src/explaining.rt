//! Why a document matches a filter, or why it does not.

ghost use Rattle.std.specs.Prelude.{◌≡◌, ◌≤◌, IfOk, Err};
ghost use Rattle.px_io.specs.Faults.{Rose};
ghost use Rattle.px_xpath.specs.Whole.{filter as way_of};
ghost use Rattle.px_tree.specs.Trees as trees;
ghost use Rattle.px_text.specs.Nodes.{Root};
ghost use Rattle.px_reader.specs.declared.fault.DocFault.{DocFault};
ghost use Rattle.px_xpath.specs.Faults.{HasFault};
ghost use Rattle.px_xpath.specs.Filters.{Way};
ghost use Rattle.px_xpath.specs.declared.fault.FilterFault.{FilterFault};
ghost use Rattle.px_xpath.specs.Meaning.{holds};
ghost use Rattle.px_explain.specs.Table.{Justifies};
ghost use Rattle.px_document.specs.CutShort.{CutAtDocument};
ghost use Rattle.px_document.specs.Documents.{GivesFault, GivesFine, GivesTree};
ghost use Rattle.px_document.specs.Outputs.{Explains, ExplainsDocument, ExplainsTree, IsFound, IsFoundUnder};
ghost use Rattle.px_document.specs.Stops.{no_filter_of, outcome_of};

use crate::document::{Document, buffer};
use crate::finding::Finding;
use crate::stop::{Cut, Stop};
use px_explain::{ExplainFault, Proof, explain};
use px_feed::{FeedFault, FeedKind, OutLine};
use px_io::Source;
use px_tree::Tree;
use px_xpath::{Filter, ParseFault, parse};
use std::alloc::Global;

/// What the document that is left in the source is explained by under the filter that a text
/// writes. A filter that is refused is found before anything is read. Where the source meets a
/// fault, no line that was read whole is at fault.
pub fn explanation<S: Source>(alloc: Global, text: &[u8], source: &mut S) -> Result<Finding, Cut>
    ensures found { IfOk result (λ finding. IsFound (Explains text.now) (S.left source.old)
        (S.left source.new) finding) }
    ensures failed { result ≡ Err Cut.Source → Rose (S.faults source.old) (S.faults source.new) }
    ensures not_at_fault { result ≡ Err Cut.Source →
        CutAtDocument text.now (S.left source.old) (S.left source.new) }
    ensures unread { (fault : FilterFault) → HasFault text.now fault →
        S.left source.new ≡ S.left source.old }
    ensures never_falls { S.faults source.old ≤ S.faults source.new }
{
    match parse(alloc, text) {
        Ok(filter) => explained(alloc, &filter, source),
        Err(fault) => no_filter(fault),
    }
}

/// The finding for a filter that is refused.
pub fn no_filter(fault: ParseFault) -> Result<Finding, Cut>
    ensures { result ≡ no_filter_of fault }
{
    match fault {
        ParseFault::Filter(fault) => Ok(Finding::Line(OutLine::NoFilter(fault))),
        ParseFault::Memory => Err(Cut::Memory),
    }
}

// What the document is explained by under the filter.
fn explained<S: Source>(alloc: Global, filter: &Filter, source: &mut S) -> Result<Finding, Cut>
    ensures found { IfOk result (λ finding. IsFoundUnder
        (λ bytes. ExplainsDocument (way_of filter.now) bytes) (S.left source.old)
        (S.left source.new) finding) }
    ensures failed { result ≡ Err Cut.Source → Rose (S.faults source.old) (S.faults source.new) }
    ensures not_at_fault { result ≡ Err Cut.Source →
        GivesFine (S.left source.old) (S.left source.new) }
    ensures never_falls { S.faults source.old ≤ S.faults source.new }
{
    match read_document(alloc, source) {
        Ok(tree) => explained_tree(alloc, filter, &tree),
        Err(stop) => outcome(stop),
    }
}

// The tree of the document that is left in the source.
fn read_document<S: Source>(alloc: Global, source: &mut S) -> Result<Tree, Stop>
    ensures tree { IfOk result (λ tree. GivesTree (S.left source.old) (S.left source.new)
        (trees.tree tree)) }
    ensures fault { (fault : DocFault) → result ≡ Err (Stop.Doc fault) →
        GivesFault (S.left source.old) (S.left source.new) fault }
    ensures failed { result ≡ Err Stop.Source → Rose (S.faults source.old) (S.faults source.new) }
    ensures not_at_fault { result ≡ Err Stop.Source →
        GivesFine (S.left source.old) (S.left source.new) }
    ensures never_falls { S.faults source.old ≤ S.faults source.new }
{
    let mut storage = buffer(alloc)?;
    let document = Document::new(alloc)?;
    document.read_tree(alloc, source, storage.as_mut_slice())
}

/// What is found where the reading of a document was stopped.
pub fn outcome(stop: Stop) -> Result<Finding, Cut>
    ensures { result ≡ outcome_of stop }
{
    match stop {
        Stop::Doc(fault) => Ok(Finding::Line(OutLine::Faulty(FeedFault {
            line: fault.line,
            kind: FeedKind::Doc(fault.kind),
        }))),
        Stop::Source => Err(Cut::Source),
        Stop::Memory => Err(Cut::Memory),
    }
}

// What the tree is explained by.
fn explained_tree(alloc: Global, filter: &Filter, tree: &Tree) -> Result<Finding, Cut>
    ensures found { IfOk result (λ finding. ExplainsTree (way_of filter.now) (trees.tree tree.now)
        finding) }
    ensures not_read { result ≡ Err Cut.Source → ⊥ }
{
    match explain(alloc, filter, tree) {
        Ok(proof) => Ok(explained_by(proof)),
        Err(ExplainFault::TooMany) => Ok(Finding::ProofTooMany),
        Err(ExplainFault::Memory) => Err(Cut::Memory),
    }
}

// The finding of a proof, which says its answer itself.
fn explained_by(proof: Proof) -> Finding
    ensures { (filter : Way) (root : Root) → Justifies filter root proof (holds filter root) →
        result ≡ Finding.Explained (holds filter root) proof }
{
    let matches = proof.says_yes();
    Finding::Explained { matches, proof }
}
