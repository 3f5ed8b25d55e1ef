//! Trees as values of the program.

use px_text::{Attribute, Bytes};
use sqlite_items::Items;

/// A document, by its root element.
#[derive(Drop)]
pub struct Tree {
    pub root: Element,
}

/// An element, with its attributes and children in the order of the document.
#[cycle(tree)]
#[derive(Drop)]
pub struct Element {
    pub name: Bytes,
    pub attributes: Items<Attribute>,
    pub children: Items<Node>,
}

/// A child of an element.
#[cycle(tree)]
#[derive(Drop)]
pub enum Node {
    Elem(Element),
    Text(Bytes),
}
