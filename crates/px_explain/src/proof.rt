//! Proofs as lists of nodes.

ghost use Rattle.std.specs.Prelude.{◌≡◌, ◌≤◌, Bool, length};
ghost use Rattle.px_text.specs.Nodes.{Root};
ghost use Rattle.px_xpath.specs.Filters.{Way};
ghost use Rattle.px_explain.specs.Table.{Justifies};
ghost use Rattle.px_explain.specs.Checking as checking;

use crate::node::ProofNode;
use std::marker::Model;

/// The most nodes that a proof has.
pub const MOST_NODES: usize = 100_000;

/// A proof: at most 100,000 nodes, in the order in which they are needed. Contracts see their list.
#[derive(Debug, Drop)]
pub struct Proof {
    nodes: Vec<ProofNode>,
}

impl Model for Proof {
    ghost use Rattle.std.specs.Prelude.{List, length, ◌≤◌};
    ghost use Rattle.px_explain.specs.declared.node.ProofNode.{ProofNode};

    ghost Value = { List ProofNode };

    ghost view = { λ proof. proof.nodes.items };

    ghost invariant = { λ proof. length proof.nodes.items ≤ 100_000 };
}

impl Proof {
    /// The proof of these nodes. It takes no memory.
    pub fn of(nodes: Vec<ProofNode>) -> Proof
        requires few { length nodes.items ≤ 100_000 }
        ensures same { result ≡ nodes.items }
    {
        Proof { nodes }
    }

    /// The nodes, in order.
    pub fn as_slice(&self) -> &[ProofNode]
        ensures same { result.now ≡ self.now }
        ensures few { length self.now ≤ 100_000 }
    {
        self.nodes.as_slice()
    }

    /// Whether the proof is one of `yes`. What it shows of a filter and a document, if it shows
    /// anything, is this answer.
    pub fn says_yes(&self) -> bool
        ensures { (filter : Way) (root : Root) (answer : Bool) →
            Justifies filter root self.now answer → result ≡ answer }
    {
        match self.nodes.as_slice().split_first() {
            Some((first, _)) => proves_path(first),
            None => false,
        }
    }
}

// Whether a node proves that a path holds.
fn proves_path(node: &ProofNode) -> bool
    ensures { result ≡ checking.proves_path node.now }
{
    match node {
        ProofNode::Y(_) => true,
        _ => false,
    }
}
