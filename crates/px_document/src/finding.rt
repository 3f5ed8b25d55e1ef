//! What is found of a filter, a proof and a document.

ghost use Rattle.std.specs.Prelude.{◌≡◌, ◌⊎◌, IfOk};
ghost use Rattle.px_document.specs.Findings as findings;
ghost use Rattle.px_feed.specs.Matches as matches;
ghost use Rattle.px_feed.specs.declared.status.Status.TheVariants as statuses;

use px_explain::{Proof, write_proof};
use px_feed::{OutLine, Status, line_of};
use px_text::Bytes;
use std::alloc::{AllocError, Global};

/// What a run of `explain` or of `verify` finds.
#[derive(Drop)]
pub enum Finding {
    /// The fault of the filter or of the document, or the answer that a proof shows.
    Line(OutLine),
    /// The line, from 1, that is none of a proof.
    NoProofLine { line: u64 },
    /// There are more nodes than a proof has, or a larger number.
    ProofTooMany,
    /// The place, from 0, of the first wrong node of a proof.
    WrongNode { at: u32 },
    /// Whether the document matches, and the proof.
    Explained { matches: bool, proof: Proof },
}

impl Finding {
    /// How the run ends that has written the finding.
    pub fn status(&self) -> Status
        ensures status { result ≡ findings.status self.now }
        ensures finished { (result ≡ statuses.Done) ⊎ (result ≡ statuses.Refused) }
    {
        match self {
            Finding::Line(line) => status_behind(line),
            Finding::Explained { matches, .. } => status_behind(&answer(*matches)),
            _ => Status::Refused,
        }
    }
}

// How a run ends that has written this line and no other.
fn status_behind(line: &OutLine) -> Status
    ensures status { result ≡ matches.status_behind line.now }
    ensures finished { (result ≡ statuses.Done) ⊎ (result ≡ statuses.Refused) }
{
    match line {
        OutLine::Yes => Status::Done,
        _ => Status::Refused,
    }
}

// The line of an answer.
fn answer(matches: bool) -> OutLine
    ensures { result ≡ findings.answer matches }
{
    if matches { OutLine::Yes } else { OutLine::No }
}

/// The text of a finding: its lines, each with its line feed. It fails only for want of memory.
pub fn text_of(alloc: Global, finding: &Finding) -> Result<Bytes, AllocError>
    ensures text { IfOk result (λ bytes. bytes ≡ findings.text finding.now) }
{
    match finding {
        Finding::Line(line) => line_of(alloc, line),
        Finding::NoProofLine { line } => no_line(alloc, *line),
        Finding::ProofTooMany => Bytes::of(alloc, b"! proof too-many\n"),
        Finding::WrongNode { at } => wrong_node(alloc, *at),
        Finding::Explained { matches, proof } => explained(alloc, *matches, proof),
    }
}

fn no_line(alloc: Global, line: u64) -> Result<Bytes, AllocError>
    ensures text { IfOk result (λ bytes. bytes ≡ findings.no_line line) }
{
    let text = format!(in alloc; "! proof line {line}\n")?;
    Ok(Bytes::from_vec(text.into_bytes()))
}

fn wrong_node(alloc: Global, at: u32) -> Result<Bytes, AllocError>
    ensures text { IfOk result (λ bytes. bytes ≡ findings.wrong_node at) }
{
    let text = format!(in alloc; "! proof wrong {at}\n")?;
    Ok(Bytes::from_vec(text.into_bytes()))
}

// The answer's line, and those of the proof.
fn explained(alloc: Global, matches: bool, proof: &Proof) -> Result<Bytes, AllocError>
    ensures text { IfOk result (λ bytes. bytes ≡ findings.explained matches proof.now) }
{
    let line = line_of(alloc, &answer(matches))?;
    let lines = write_proof(alloc, proof)?;
    let mut text = Vec::from_slice(alloc, line.as_slice())?;
    text.extend_from_slice(lines.as_slice())?;
    Ok(Bytes::from_vec(text))
}
