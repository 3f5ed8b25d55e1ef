//! Proofs while they are written.

ghost use Rattle.std.specs.Prelude.{◌≡◌, ◌∷◌, []};
ghost use Rattle.px_explain.specs.Bounds.{Exceeds};
ghost use Rattle.px_explain.specs.Writing.{Writes};

use crate::fault::ExplainFault;
use crate::node::ProofNode;
use crate::proof::{MOST_NODES, Proof};
use std::alloc::Global;
use std::marker::Model;

/// What is written of a proof. Contracts see the nodes, which are at most 100,000 and have no
/// number above 32 bits.
#[derive(Drop)]
pub struct Draft {
    nodes: Vec<ProofNode>,
}

impl Model for Draft {
    ghost use Rattle.std.specs.Prelude.{List, length, ◌≤◌};
    ghost use Rattle.px_explain.specs.Bounds.{AreSmall};
    ghost use Rattle.px_explain.specs.declared.node.ProofNode.{ProofNode};

    ghost Value = { List ProofNode };

    ghost view = { λ draft. draft.nodes.items };

    ghost invariant = { λ draft. (length draft.nodes.items ≤ 100_000) ×
        AreSmall draft.nodes.items };
}

impl Draft {
    pub fn new(alloc: Global) -> Draft
        ensures empty { result ≡ [] }
    {
        Draft {
            nodes: Vec::new(alloc),
        }
    }

    /// Writes one node behind the others.
    pub fn push(&mut self, node: ProofNode) -> Result<(), ExplainFault>
        ensures writes { Writes (node ∷ []) self.old self.new result }
    {
        if self.nodes.len() >= MOST_NODES {
            return Err(ExplainFault::TooMany);
        }
        match self.nodes.push(node) {
            Ok(()) => Ok(()),
            Err(_) => Err(ExplainFault::Memory),
        }
    }

    /// The proof that was written. It takes no memory.
    pub fn finish(self) -> Proof
        ensures same { result ≡ self }
        ensures fits { Exceeds self → ⊥ }
    {
        Proof::of(self.nodes)
    }
}
