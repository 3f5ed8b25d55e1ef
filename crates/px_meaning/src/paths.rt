//! Whether a path leads from a place to one where its end holds.

ghost use Rattle.std.specs.Prelude.{◌≡◌, map};
ghost use Rattle.std.specs.List.{list_any};
ghost use Rattle.px_text.specs.Nodes.{members, all_below, AtAttribute};
ghost use Rattle.px_tree.specs.Trees.{nodes};
ghost use Rattle.px_xpath.specs.Meaning as meaning;
ghost use Rattle.px_xpath.specs.Views.{ways};
ghost use Rattle.px_meaning.specs.Places.{place, node_and_below, element_and_below};
ghost use Rattle.px_meaning.specs.Ends as ends;
ghost use Rattle.px_meaning.specs.Ends.{passes};

use crate::comparisons::compares;
use crate::conditions::all_hold;
use crate::place::{Place, place_of};
use px_text::Attribute;
use px_tree::{Element, Node};
use px_xpath::{Axis, Relation, Step, Test, Value};

/// What has to hold at the last place of a path.
#[derive(Clone, Copy, Drop)]
pub enum End<'a> {
    Always,
    Compared(Relation, &'a Value),
}

/// Whether the end of a path holds at its last place.
pub fn end_holds(end: End, at: Place) -> bool
    ensures { result ≡ ends.end_holds end.entry (place at.entry) }
{
    match end {
        End::Always => true,
        End::Compared(relation, value) => compares(relation, value, at),
    }
}

/// Whether a place is of the kind and name that a step asks for.
pub fn meets(test: &Test, at: Place) -> bool
    ensures { result ≡ meaning.meets test.now (place at.entry) }
{
    match (test, at) {
        (Test::Element(wanted), Place::Element(element)) => element.name == *wanted,
        (Test::AnyElement, Place::Element(_)) => true,
        (Test::Attribute(wanted), Place::Attribute(attribute)) => attribute.name == *wanted,
        (Test::AnyAttribute, Place::Attribute(_)) => true,
        (Test::Text, Place::Text(_)) => true,
        _ => false,
    }
}

/// Whether steps lead from a place to one where the end holds.
#[cycle(holds)]
pub fn steps_hold(steps: &[Step], end: End, from: Place) -> bool
    ensures { result ≡ meaning.way_holds (ways steps.now) (ends.end_holds end.entry)
        (place from.entry) }
{
    match steps {
        [] => end_holds(end, from),
        [step, rest @ ..] => match (step.axis, from) {
            (Axis::Child, Place::Document(tree)) => {
                passes(step, rest, end, Place::Element(&tree.root))
            }
            (Axis::Below, Place::Document(tree)) => element_below(step, rest, end, &tree.root),
            (Axis::Child, Place::Element(element)) => {
                attributes_pass(step, rest, end, element.attributes.as_slice())
                    || children_pass(step, rest, end, element.children.as_slice())
            }
            (Axis::Below, Place::Element(element)) => {
                attributes_pass(step, rest, end, element.attributes.as_slice())
                    || below_pass(step, rest, end, element.children.as_slice())
            }
            _ => false,
        },
    }
}

/// Whether a place meets a step, and the rest of the path leads on from it.
#[cycle(holds)]
pub fn passes(step: &Step, rest: &[Step], end: End, at: Place) -> bool
    ensures { result ≡ passes step.now rest.now end.entry (place at.entry) }
{
    meets(&step.test, at) && all_hold(step.conds.as_slice(), at) && steps_hold(rest, end, at)
}

// Whether one of the attributes passes.
#[cycle(holds)]
fn attributes_pass(step: &Step, rest: &[Step], end: End, attributes: &[Attribute]) -> bool
    ensures { result ≡ list_any (passes step.now rest.now end.entry)
        (map AtAttribute attributes.now) }
{
    for attribute in attributes {
        if passes(step, rest, end, Place::Attribute(attribute)) {
            return true;
        }
    }
    false
}

// Whether one of the nodes passes.
#[cycle(holds)]
fn children_pass(step: &Step, rest: &[Step], end: End, children: &[Node]) -> bool
    ensures { result ≡ list_any (passes step.now rest.now end.entry)
        (members (nodes children.now)) }
{
    for child in children {
        if passes(step, rest, end, place_of(child)) {
            return true;
        }
    }
    false
}

// Whether one of the nodes, or of the attributes and nodes below them, passes.
#[cycle(holds)]
fn below_pass(step: &Step, rest: &[Step], end: End, children: &[Node]) -> bool
    ensures { result ≡ list_any (passes step.now rest.now end.entry)
        (all_below (nodes children.now)) }
{
    for child in children {
        if node_below(step, rest, end, child) {
            return true;
        }
    }
    false
}

// Whether the node, or an attribute or node below it, passes.
#[cycle(holds)]
fn node_below(step: &Step, rest: &[Step], end: End, node: &Node) -> bool
    ensures { result ≡ list_any (passes step.now rest.now end.entry) (node_and_below node.now) }
{
    match node {
        Node::Elem(element) => element_below(step, rest, end, element),
        Node::Text(text) => passes(step, rest, end, Place::Text(text)),
    }
}

// Whether the element, or an attribute or node below it, passes.
#[cycle(holds)]
fn element_below(step: &Step, rest: &[Step], end: End, element: &Element) -> bool
    ensures { result ≡ list_any (passes step.now rest.now end.entry)
        (element_and_below element.now) }
{
    passes(step, rest, end, Place::Element(element))
        || attributes_pass(step, rest, end, element.attributes.as_slice())
        || below_pass(step, rest, end, element.children.as_slice())
}
