//! Proofs that come in pieces, in front of a document.

ghost use Rattle.std.specs.Prelude.{◌≡◌, ◌≢◌, ◌++◌, ◌∷◌, [], ℕ, List, Ok, None, true, false, codes, length, IsTrue, IfOk, IfErr, IfSome, OnOk};
ghost use Rattle.px_explain.specs.Incoming.{EndsProof, FailsAtEnd, FailsBy, HasProof, HasTaken, TakesOn, fault_behind};
ghost use Rattle.px_explain.specs.Openings.{Opens, ProofThen, has_no_feed};
ghost use Rattle.px_explain.specs.declared.reading.ProofFault.TheVariants as fault;

use crate::lines::node_of;
use crate::node::ProofNode;
use crate::proof::{MOST_NODES, Proof};
use crate::reading::ProofFault;
use memchr::memchr;
use std::alloc::Global;

/// The most bytes of a line, without its line feed.
const MOST_BYTES: usize = 16;

/// The lines of a proof as they come in pieces, up to a line `=`, behind which a document stands.
#[derive(Drop)]
pub struct ProofReader {
    nodes: Vec<ProofNode>,
    /// What has come of the next line: at most 16 bytes.
    begun: Vec<u8>,
}

impl ProofReader {
    /// A reader that has taken nothing. It takes no memory.
    pub fn new(alloc: Global) -> ProofReader
        ensures { HasTaken result [] }
    {
        ProofReader {
            nodes: Vec::new(alloc),
            begun: Vec::new(alloc),
        }
    }

    /// Takes the next bytes. At `None` more are wanted. At `Some` the line `=` has come, and the
    /// document begins with what is answered, which is behind it in the piece: the reader may then
    /// only be finished.
    ///
    /// A line is at fault once it has 17 bytes or its line feed, and behind 100,000 lines each but
    /// `=` is one too many. After a fault the reader may only be dropped.
    pub fn feed<'a>(&mut self, piece: &'a [u8]) -> Result<Option<&'a [u8]>, ProofFault>
        ensures more { IfOk result (λ found. found ≡ None → TakesOn self.old self.new piece.now) }
        ensures whole { IfOk result (λ found. IfSome found
            (λ behind. EndsProof self.old self.new piece.now behind.now)) }
        ensures fault { IfErr result (λ fault. FailsBy self.old piece.now fault) }
    {
        let mut rest = piece;
        while let Some(at) = memchr(b'\n', rest) {
            match self.end_line(&rest[..at]) {
                Ok(true) => return Ok(Some(&rest[at + 1..])),
                Ok(false) => rest = &rest[at + 1..],
                Err(fault) => return Err(fault),
            }
        }
        match self.begin_line(rest) {
            Ok(()) => Ok(None),
            Err(fault) => Err(fault),
        }
    }

    /// What is wrong where the bytes end before a line `=`.
    pub fn end(&self) -> ProofFault
        ensures fault { FailsAtEnd self.now result }
        ensures found { result ≢ fault.Memory }
    {
        if self.begun.is_empty() {
            return ProofFault::NotAProof {
                line: self.nodes.len() as u64 + 1,
            };
        }
        self.fault()
    }

    /// The proof, once the line `=` has come. It takes no memory.
    pub fn finish(self) -> Proof
        requires { (document : List ℕ) × (bytes : List ℕ) × HasProof self document bytes }
        ensures { (document bytes : List ℕ) → HasProof self document bytes →
            Opens bytes (ProofThen result document) }
    {
        Proof::of(self.nodes)
    }

    // Takes the part of a piece that ends a line, without its line feed: whether the line is `=`.
    fn end_line(&mut self, part: &[u8]) -> Result<bool, ProofFault>
        requires { has_no_feed part.now ≡ true }
        ensures more { result ≡ Ok false → TakesOn self.old self.new (part.now ++ 10 ∷ []) }
        ensures whole { result ≡ Ok true → (behind : List ℕ) →
            EndsProof self.old self.new (part.now ++ 10 ∷ behind) behind }
        ensures fault { IfErr result (λ fault. FailsBy self.old (part.now ++ 10 ∷ []) fault) }
    {
        match self.begin_line(part) {
            Ok(()) => {
                if self.begun.as_slice() == b"=".as_slice() {
                    return Ok(true);
                }
                match self.take_line() {
                    Ok(()) => Ok(false),
                    Err(fault) => Err(fault),
                }
            }
            Err(fault) => Err(fault),
        }
    }

    // Takes the part of a piece that begins a line, or goes on with it.
    fn begin_line(&mut self, part: &[u8]) -> Result<(), ProofFault>
        requires { has_no_feed part.now ≡ true }
        ensures more { OnOk result (TakesOn self.old self.new part.now) }
        ensures fault { IfErr result (λ fault. FailsBy self.old part.now fault) }
    {
        if part.len() > MOST_BYTES.saturating_sub(self.begun.len()) {
            return Err(self.fault());
        }
        match self.begun.extend_from_slice(part) {
            Ok(()) => Ok(()),
            Err(_) => Err(ProofFault::Memory),
        }
    }

    // Takes the line that has begun, now that its line feed has come.
    fn take_line(&mut self) -> Result<(), ProofFault>
        requires other { self.old.begun.items ≢ codes "=" }
        ensures more { OnOk result (TakesOn self.old self.new (10 ∷ [])) }
        ensures fault { IfErr result (λ fault. FailsBy self.old (10 ∷ []) fault) }
    {
        if self.nodes.len() >= MOST_NODES {
            return Err(ProofFault::TooMany);
        }
        let Some(node) = node_of(self.begun.as_slice()) else {
            return Err(self.fault());
        };
        match self.nodes.push(node) {
            Ok(()) => {
                self.begun.clear();
                Ok(())
            }
            Err(_) => Err(ProofFault::Memory),
        }
    }

    // The fault of a line behind those that were taken.
    fn fault(&self) -> ProofFault
        ensures { result ≡ fault_behind (length self.now.nodes.items) }
    {
        if self.nodes.len() < MOST_NODES {
            ProofFault::NotAProof {
                line: self.nodes.len() as u64 + 1,
            }
        } else {
            ProofFault::TooMany
        }
    }
}
