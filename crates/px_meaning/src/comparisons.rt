//! How the string-value of a place stands to a value. That of an element is never joined: its
//! texts are looked at one by one.

ghost use Rattle.std.specs.Prelude.{◌≡◌, ◌≢◌, ◌++◌, List, ℕ, Option, option_map, MatchOption, bytes_eq};
ghost use Rattle.px_text.specs.Numbers.{read, order, decimal_of};
ghost use Rattle.px_text.specs.Nodes.{characters, string_value};
ghost use Rattle.px_text.specs.Nodes as document;
ghost use Rattle.px_tree.specs.Trees.{nodes};
ghost use Rattle.px_xpath.specs.Meaning as meaning;
ghost use Rattle.px_meaning.specs.Places.{place, place_of_node};
ghost use Rattle.px_text.specs.Scans.{HasTaken};

use crate::place::Place;
use px_text::{Decimal, NumberScan};
use px_tree::Node;
use px_xpath::{Relation, Value};
use std::cmp::Ordering;

/// Whether the string-value of a place stands so to a value.
pub fn compares(relation: Relation, value: &Value, at: Place) -> bool
    ensures { result ≡ meaning.compares relation value.now (string_value (place at.entry)) }
{
    match value {
        Value::Number(number) => allows_if_number(relation, order_of(at, number)),
        Value::Literal(literal) => match relation {
            Relation::Equal => reads(at, literal.as_slice()),
            Relation::NotEqual => !reads(at, literal.as_slice()),
            _ => false,
        },
    }
}

// Whether the relation allows this order, or none, which a text has that is no number.
fn allows_if_number(relation: Relation, found: Option<Ordering>) -> bool
    ensures { result ≡ meaning.allows_if_number relation found }
{
    match found {
        Some(order) => match relation {
            Relation::Equal => order.is_eq(),
            Relation::NotEqual => order.is_ne(),
            Relation::Less => order.is_lt(),
            Relation::AtMost => order.is_le(),
            Relation::Greater => order.is_gt(),
            Relation::AtLeast => order.is_ge(),
        },
        None => matches!(relation, Relation::NotEqual),
    }
}

// How the number that the string-value of a place is stands to a decimal, if it is a number.
fn order_of(at: Place, number: &Decimal) -> Option<Ordering>
    ensures { result ≡ option_map (λ n. order n (decimal_of number.now))
        (read (string_value (place at.entry))) }
{
    let mut scan = NumberScan::start();
    take_place(&mut scan, at);
    scan.cmp(number)
}

// Takes the string-value of a place.
fn take_place(scan: &mut NumberScan, at: Place)
    ensures { (text : List ℕ) → HasTaken scan.old text →
        HasTaken scan.new (text ++ string_value (place at.entry)) }
{
    match at {
        Place::Document(tree) => take_texts(scan, tree.root.children.as_slice()),
        Place::Element(element) => take_texts(scan, element.children.as_slice()),
        Place::Attribute(attribute) => scan.take(attribute.value.as_slice()),
        Place::Text(text) => scan.take(text.as_slice()),
    }
}

// Takes the characters of all texts below nodes, in order.
#[cycle(scan)]
fn take_texts(scan: &mut NumberScan, children: &[Node])
    ensures { (text : List ℕ) → HasTaken scan.old text →
        HasTaken scan.new (text ++ characters (nodes children.now)) }
{
    for child in children {
        take_node(scan, child);
    }
}

// Takes the string-value of a node.
#[cycle(scan)]
fn take_node(scan: &mut NumberScan, node: &Node)
    ensures { (text : List ℕ) → HasTaken scan.old text →
        HasTaken scan.new (text ++ string_value (place_of_node node.now)) }
{
    match node {
        Node::Elem(element) => take_texts(scan, element.children.as_slice()),
        Node::Text(text) => scan.take(text.as_slice()),
    }
}

// Whether the string-value of a place is this literal.
fn reads(at: Place, literal: &[u8]) -> bool
    ensures { result ≡ bytes_eq (string_value (place at.entry)) literal.now }
{
    match at {
        Place::Document(tree) => texts_read(tree.root.children.as_slice(), literal),
        Place::Element(element) => texts_read(element.children.as_slice(), literal),
        Place::Attribute(attribute) => attribute.value.as_slice() == literal,
        Place::Text(text) => text.as_slice() == literal,
    }
}

// Whether the characters of all texts below nodes are this literal.
fn texts_read(children: &[Node], literal: &[u8]) -> bool
    ensures { result ≡ bytes_eq (characters (nodes children.now)) literal.now }
{
    match behind_texts(literal, children) {
        Some(rest) => rest.is_empty(),
        None => false,
    }
}

// What is left of a literal behind the characters of all texts below nodes, if it begins with
// them.
#[cycle(literal)]
fn behind_texts<'a>(literal: &'a [u8], children: &[Node]) -> Option<&'a [u8]>
    ensures { let front = characters (nodes children.now) in
        MatchOption result ((rest : List ℕ) →
        literal.now ≢ front ++ rest) (λ rest. literal.now ≡ front ++ rest.now) }
{
    let mut rest = literal;
    for child in children {
        rest = behind_node(rest, child)?;
    }
    Some(rest)
}

// What is left of a literal behind the string-value of a node, if it begins with that.
#[cycle(literal)]
fn behind_node<'a>(literal: &'a [u8], node: &Node) -> Option<&'a [u8]>
    ensures { let front = string_value (place_of_node node.now) in
        MatchOption result ((rest : List ℕ) →
        literal.now ≢ front ++ rest) (λ rest. literal.now ≡ front ++ rest.now) }
{
    match node {
        Node::Elem(element) => behind_texts(literal, element.children.as_slice()),
        Node::Text(text) => literal.strip_prefix(text.as_slice()),
    }
}
