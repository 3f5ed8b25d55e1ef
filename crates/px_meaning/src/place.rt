//! The places of a document.

ghost use Rattle.std.specs.Prelude.{◌≡◌};
ghost use Rattle.px_meaning.specs.Places.{place, place_of_node};

use px_text::{Attribute, Bytes};
use px_tree::{Element, Node, Tree};

/// A place of a document, with all that is below it.
#[derive(Clone, Copy, Drop)]
pub enum Place<'a> {
    Document(&'a Tree),
    Element(&'a Element),
    Attribute(&'a Attribute),
    Text(&'a Bytes),
}

/// The place of a node.
pub fn place_of(node: &Node) -> Place
    ensures { place result ≡ place_of_node node.now }
{
    match node {
        Node::Elem(element) => Place::Element(element),
        Node::Text(text) => Place::Text(text),
    }
}
