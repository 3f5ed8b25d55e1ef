//! A proof in front of a document, read from a source.

ghost use Rattle.std.specs.Prelude.{◌≡◌, ◌<◌, ◌≤◌, ◌+◌, ◌++◌, Ok, Err, IfOk, IfErr, IfSome, Option, None, List, ℕ, length};
ghost use Rattle.px_io.specs.Faults.{Rose};
ghost use Rattle.px_explain.specs.Incoming as proofs;
ghost use Rattle.px_explain.specs.Incoming.{HasProof, HasTaken, TakesOn};
ghost use Rattle.px_document.specs.Documents.{HasCome};
ghost use Rattle.px_document.specs.Proofs.{EndsProof, GivesFineOpening, Halts, HaltsAt, HaltsIn, OpensDocument, Takes};

use crate::document::Document;
use crate::stop::Stop;
use px_explain::{Proof, ProofFault, ProofReader};
use px_io::{ReadAnswer, Source};
use std::alloc::Global;

/// Every read gives a byte at least, and a proof has at most 100,000 lines of 13 bytes, so this
/// many reads find its end or its fault.
const MOST_READS: u32 = 1_400_000;

/// What stops the reading of a proof in front of a document.
#[derive(Clone, Copy, Debug, Drop)]
pub enum Halt {
    /// The proof is at fault.
    Proof(ProofFault),
    /// The document is at fault, or nothing more is read.
    Document(Stop),
}

/// A proof, and the document behind it, of which some bytes have come.
#[derive(Drop)]
pub struct Opened {
    pub proof: Proof,
    pub document: Document,
}

/// Reads the proof at the front of what is left in the source.
pub fn read_opening<S: Source>(
    alloc: Global,
    source: &mut S,
    buffer: &mut [u8],
) -> Result<Opened, Halt>
    requires { 0 < length buffer.old }
    ensures opened { IfOk result (λ opened. OpensDocument (S.left source.old) (S.left source.new)
        opened) }
    ensures halted { IfErr result (λ halt. Halts halt (S.left source.old)) }
    ensures failed { result ≡ Err (Halt.Document Stop.Source) →
        Rose (S.faults source.old) (S.faults source.new) }
    ensures not_at_fault { result ≡ Err (Halt.Document Stop.Source) →
        GivesFineOpening (S.left source.old) (S.left source.new) }
    ensures never_falls { S.faults source.old ≤ S.faults source.new }
    ensures room { length buffer.new ≡ length buffer.old }
{
    let mut proof = ProofReader::new(alloc);
    for _ in 0..MOST_READS {
        match read_piece(alloc, source, buffer, &mut proof) {
            Ok(None) => {}
            Ok(Some(document)) => return Ok(in_front(proof, document)),
            Err(halt) => return Err(halt),
        }
    }
    unreachable!()
}

// The proof, which is whole, in front of the document.
fn in_front(proof: ProofReader, document: Document) -> Opened
    requires { (begun : List ℕ) × (bytes : List ℕ) × HasProof proof begun bytes }
    ensures { (left now : Option (List ℕ)) → EndsProof left now proof document →
        OpensDocument left now result }
{
    Opened {
        proof: proof.finish(),
        document,
    }
}

// Takes the next piece of the source for the proof. Where the proof ends in it, the document
// begins with what is behind.
fn read_piece<S: Source>(
    alloc: Global,
    source: &mut S,
    buffer: &mut [u8],
    proof: &mut ProofReader,
) -> Result<Option<Document>, Halt>
    requires { 0 < length buffer.old }
    ensures more { result ≡ Ok None → (least : ℕ) (left : Option (List ℕ)) →
        Takes least left (S.left source.old) proof.old →
        Takes (least + 1) left (S.left source.new) proof.new }
    ensures ended { IfOk result (λ found. IfSome found
        (λ document. (least : ℕ) (left : Option (List ℕ)) →
        Takes least left (S.left source.old) proof.old →
        EndsProof left (S.left source.new) proof.new document)) }
    ensures halted { IfErr result (λ halt. (least : ℕ) (left : Option (List ℕ)) →
        Takes least left (S.left source.old) proof.old → Halts halt left) }
    ensures failed { result ≡ Err (Halt.Document Stop.Source) →
        Rose (S.faults source.old) (S.faults source.new) }
    ensures not_at_fault { (least : ℕ) (left : Option (List ℕ)) →
        Takes least left (S.left source.old) proof.old →
        result ≡ Err (Halt.Document Stop.Source) → GivesFineOpening left (S.left source.new) }
    ensures never_falls { S.faults source.old ≤ S.faults source.new }
    ensures room { length buffer.new ≡ length buffer.old }
{
    match source.read(buffer) {
        ReadAnswer::Got(count) => take_piece(alloc, proof, &buffer[..count]),
        ReadAnswer::End => Err(Halt::Proof(proof.end())),
        ReadAnswer::Failed => Err(Halt::Document(Stop::Source)),
    }
}

// Takes the next piece for the proof, and what is behind the proof for the document.
fn take_piece(
    alloc: Global,
    proof: &mut ProofReader,
    piece: &[u8],
) -> Result<Option<Document>, Halt>
    ensures more { result ≡ Ok None → TakesOn proof.old proof.new piece.now }
    ensures ended { IfOk result (λ found. IfSome found (λ document. (begun : List ℕ) ×
        proofs.EndsProof proof.old proof.new piece.now begun × HasCome document begun)) }
    ensures halted { IfErr result (λ halt. (bytes : List ℕ) → HasTaken proof.old bytes →
        HaltsIn halt (bytes ++ piece.now)) }
    ensures not_read { result ≡ Err (Halt.Document Stop.Source) → ⊥ }
{
    match proof.feed(piece) {
        Ok(None) => Ok(None),
        Ok(Some(behind)) => match begin_document(alloc, behind) {
            Ok(document) => Ok(Some(document)),
            Err(halt) => Err(halt),
        },
        Err(fault) => Err(Halt::Proof(fault)),
    }
}

// The document that begins with these bytes.
fn begin_document(alloc: Global, bytes: &[u8]) -> Result<Document, Halt>
    ensures come { IfOk result (λ document. HasCome document bytes.now) }
    ensures halted { IfErr result (λ halt. HaltsAt halt bytes.now) }
{
    let Ok(mut document) = Document::new(alloc) else {
        return Err(Halt::Document(Stop::Memory));
    };
    match document.take(bytes) {
        Ok(()) => Ok(document),
        Err(stop) => Err(Halt::Document(stop)),
    }
}
