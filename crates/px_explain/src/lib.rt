//! Proofs of an answer: why a filter holds of a document, or why it does not, and a checker that
//! trusts nothing.
//!
//! A [`Proof`] is a list of nodes, in the order in which they are needed. It is read from the
//! front: each [`ProofNode`] proves the claim that is next, and says which claims are proved behind
//! it (`specs/Table.antt`). [`explain`] gives the canonical proof (`specs/Canonical.antt`), and
//! [`check`] says what any list of nodes shows. That the one accepts the other, and that what is
//! shown is so, are laws of the definitions ([`canonical_is_accepted`], [`justified_is_so`]).
//! [`write_proof`] and [`read_proof`] are the text of a proof, a line for each node, and a
//! [`ProofReader`] takes the lines of one in pieces, up to a line `=` with a document behind it.
//!
//! It stands on the plain evaluator, and knows no machine.
#![tactic(auto, using(px_xpath::proofs::FilterViews::views, px_tree::proofs::TreeViews::views, px_meaning::proofs::Weights::steps, crate::proofs::Seeking::seeking))]

mod checker;
mod checking;
mod draft;
mod explainer;
mod explaining;
mod fault;
mod laws;
mod lines;
mod node;
mod places;
mod proof;
mod proof_reader;
mod reading;
mod serving;
mod writer;

pub use checker::{Checked, check};
pub use explainer::explain;
pub use fault::ExplainFault;
pub use laws::{an_input_opens_one_way, canonical_is_accepted, justified_is_so};
pub use lines::node_of;
pub use node::ProofNode;
pub use proof::Proof;
pub use proof_reader::ProofReader;
pub use reading::{ProofFault, read_proof};
pub use writer::write_proof;
