//! Proofs read from their text.

ghost use Rattle.std.specs.Prelude.{◌≡◌, ◌≤◌, ◌+◌, List, length, MatchResult};
ghost use Rattle.px_explain.specs.Bounds.{AreSmall};
ghost use Rattle.px_explain.specs.Texts.{text_of};
ghost use Rattle.px_explain.specs.declared.node.ProofNode as node_type;
ghost use Rattle.px_explain.specs.Refusing.{Refuses};
ghost use Rattle.px_explain.specs.declared.reading.ProofFault.TheVariants as fault;

use crate::lines::line_at;
use crate::node::ProofNode;
use crate::proof::{MOST_NODES, Proof};
use std::alloc::Global;

/// Why a text is not read as a proof.
#[derive(Clone, Copy, Debug, Drop, PartialEq, Eq)]
pub enum ProofFault {
    /// The first line that is no line of a proof, counted from 1.
    NotAProof { line: u64 },
    /// There is more behind 100,000 lines of a proof.
    TooMany,
    Memory,
}

/// The proof that a text writes. It takes memory for its nodes alone.
pub fn read_proof(alloc: Global, text: &[u8]) -> Result<Proof, ProofFault>
    ensures exact { MatchResult result (λ proof. (text.now ≡ text_of proof) ×
        AreSmall proof) (λ fault. Refuses fault text.now) }
    // What was written is read back.
    ensures back { (nodes : List node_type.ProofNode) → length nodes ≤ 100_000 → AreSmall nodes →
        text.now ≡ text_of nodes → MatchResult result (λ proof. proof ≡ nodes) (λ f. f ≡
        fault.Memory) }
{
    read(alloc, text)
}

// The same, by its first clause.
fn read(alloc: Global, text: &[u8]) -> Result<Proof, ProofFault>
    ensures { MatchResult result (λ proof. (text.now ≡ text_of proof) ×
        AreSmall proof) (λ fault. Refuses fault text.now) }
{
    let mut nodes = Vec::new(alloc);
    let mut rest = text;
    while !rest.is_empty() {
        if nodes.len() >= MOST_NODES {
            return Err(ProofFault::TooMany);
        }
        match line_at(rest) {
            Some((node, behind)) => {
                if nodes.push(node).is_err() {
                    return Err(ProofFault::Memory);
                }
                rest = behind;
            }
            None => return Err(not_a_proof(&nodes)),
        }
    }
    Ok(Proof::of(nodes))
}

// That the line behind these nodes is none of a proof.
fn not_a_proof(nodes: &Vec<ProofNode>) -> ProofFault
    requires few { length nodes.now.items ≤ 100_000 }
    ensures { result ≡ fault.NotAProof (length nodes.now.items + 1) }
{
    ProofFault::NotAProof {
        line: nodes.len() as u64 + 1,
    }
}
