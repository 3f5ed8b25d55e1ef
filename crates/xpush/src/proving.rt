//! The commands `explain` and `verify`: why a document matches a filter, and what a proof shows.

ghost use Rattle.std.specs.Prelude.{◌≡◌, ◌≤◌, ◌||◌, IsTrue};
ghost use Rattle.px_io.specs.Faults.{Rose};
ghost use Rattle.px_io.specs.Flows.{AddsTo};
ghost use Rattle.px_document.specs.CutShort.{CutAtDocument, CutAtProof};
ghost use Rattle.px_document.specs.Findings as findings;
ghost use Rattle.px_document.specs.Outputs as outputs;
ghost use Rattle.xpush.specs.Runs.{Proved, WritesFront};
ghost use Rattle.px_lines.specs.Served.{is_finished, is_cut_short};
ghost use Rattle.xpush.specs.Forms.{Explains, Verifies};
ghost use Rattle.px_lines.specs.Fronts.{AddsFront};

use px_document::{Cut, Finding, explanation, text_of, verification};
use px_feed::Status;
use px_io::{Sink, Source};
use px_lines::write_answer;
use std::alloc::Global;

/// Writes what the document that is left in the source is explained by under the filter.
pub fn explain_document<S: Source, K: Sink>(
    alloc: Global,
    filter: &[u8],
    source: &mut S,
    sink: &mut K,
) -> Status
    ensures not_usage { result ≡ Status.Usage → ⊥ }
    ensures output { IsTrue (is_finished result) →
        Proved (outputs.Explains filter.now) (S.left source.old) (S.left source.new)
        (K.held sink.old) (K.held sink.new) result }
    ensures front { IsTrue (is_cut_short result) →
        WritesFront (Explains filter.now) (S.left source.old) (K.held sink.old) (K.held sink.new) }
    ensures read_fault { result ≡ Status.ReadFault →
        Rose (S.faults source.old) (S.faults source.new) }
    ensures not_at_fault { result ≡ Status.ReadFault →
        CutAtDocument filter.now (S.left source.old) (S.left source.new) }
    ensures unwritten { result ≡ Status.ReadFault → K.held sink.new ≡ K.held sink.old }
    ensures write_fault { result ≡ Status.WriteFault →
        Rose (K.faults sink.old) (K.faults sink.new) }
    ensures source_counts { S.faults source.old ≤ S.faults source.new }
    ensures sink_counts { K.faults sink.old ≤ K.faults sink.new }
{
    match explanation(alloc, filter, source) {
        Ok(finding) => write_finding(alloc, &finding, sink),
        Err(Cut::Source) => Status::ReadFault,
        Err(Cut::Memory) => Status::Memory,
    }
}

/// Writes what the proof and the document that are left in the source show of the filter.
pub fn verify_proof<S: Source, K: Sink>(
    alloc: Global,
    filter: &[u8],
    source: &mut S,
    sink: &mut K,
) -> Status
    ensures not_usage { result ≡ Status.Usage → ⊥ }
    ensures output { IsTrue (is_finished result) →
        Proved (outputs.Verifies filter.now) (S.left source.old) (S.left source.new)
        (K.held sink.old) (K.held sink.new) result }
    ensures front { IsTrue (is_cut_short result) →
        WritesFront (Verifies filter.now) (S.left source.old) (K.held sink.old) (K.held sink.new) }
    ensures read_fault { result ≡ Status.ReadFault →
        Rose (S.faults source.old) (S.faults source.new) }
    ensures not_at_fault { result ≡ Status.ReadFault →
        CutAtProof filter.now (S.left source.old) (S.left source.new) }
    ensures unwritten { result ≡ Status.ReadFault → K.held sink.new ≡ K.held sink.old }
    ensures write_fault { result ≡ Status.WriteFault →
        Rose (K.faults sink.old) (K.faults sink.new) }
    ensures source_counts { S.faults source.old ≤ S.faults source.new }
    ensures sink_counts { K.faults sink.old ≤ K.faults sink.new }
{
    match verification(alloc, filter, source) {
        Ok(finding) => write_finding(alloc, &finding, sink),
        Err(Cut::Source) => Status::ReadFault,
        Err(Cut::Memory) => Status::Memory,
    }
}

// Writes what was found, with which the run ends.
fn write_finding<K: Sink>(alloc: Global, finding: &Finding, sink: &mut K) -> Status
    ensures ends { IsTrue (is_finished result || is_cut_short result) }
    ensures whole { IsTrue (is_finished result) →
        AddsTo (K.held sink.old) (findings.text finding.now) (K.held sink.new) ×
        (result ≡ findings.status finding.now) }
    ensures front { IsTrue (is_cut_short result) →
        AddsFront (K.held sink.old) (findings.text finding.now) (K.held sink.new) }
    ensures write_fault { result ≡ Status.WriteFault →
        Rose (K.faults sink.old) (K.faults sink.new) }
    ensures sink_counts { K.faults sink.old ≤ K.faults sink.new }
{
    match text_of(alloc, finding) {
        Ok(text) => write_answer(text.as_slice(), finding.status(), sink),
        Err(_) => Status::Memory,
    }
}
