//! Documents as trees of elements, attributes and texts.
//!
//! The machine never makes a tree. This crate is for those that ask about a document as XPath does,
//! node by node: the plain evaluator (px_meaning) and the proofs of an answer (px_explain).
//! [`build`] takes the events of a reader or of a kept document and gives the one [`Tree`] that has
//! them: the definition that says which tree that is, the spelling of a tree as events, stands in
//! px_reader. A tree owns its names and texts, and keeps attributes and children in the order of
//! the document; neighbouring texts stay apart where a passed-by line parted them.
#![tactic(auto)]

mod from_events;
mod tree;

pub use from_events::build;
pub use px_text::Attribute;
pub use tree::{Element, Node, Tree};
