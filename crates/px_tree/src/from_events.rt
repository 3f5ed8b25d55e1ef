//! Trees from the events that a reader gives.

ghost use Rattle.std.specs.Prelude.{◌≡◌, ◌≤◌, ◌++◌, ◌∷◌, List, map, length, IfOk};
ghost use Rattle.px_text.specs.Nodes.{Nodes, Root};
ghost use Rattle.px_text.specs.declared.attribute.Attribute as attribute;
ghost use Rattle.px_reader.specs.declared.event.Event as event;
ghost use Rattle.px_reader.specs.declared.event.Event.TheVariants.{End};
ghost use Rattle.px_reader.specs.Spelling as spelling;
ghost use Rattle.px_tree.specs.Trees as trees;
ghost use Rattle.px_tree.specs.Events.{attributes_of, behind_attributes};

use crate::tree::{Element, Node, Tree};
use px_reader::Event;
use px_text::{Attribute, Bytes};
use sqlite_items::Items;
use std::alloc::{AllocError, Global};

/// The tree of a document's events. It takes memory for the tree, and its only failure is want
/// of memory.
pub fn build(alloc: Global, events: &[Event]) -> Result<Tree, AllocError>
    requires of_a_tree { (root : Root) × (events.now ≡ spelling.events_of root) }
    ensures { (root : Root) → events.now ≡ spelling.events_of root →
        IfOk result (λ t. trees.tree t ≡ root) }
{
    match events {
        [Event::Start { name }, behind @ ..] => {
            let (root, _) = read_element(alloc, name, behind)?;
            Ok(Tree { root })
        }
        _ => unreachable!(),
    }
}

// The element with this name whose attributes and children the events begin with, and the events
// behind its end.
#[cycle(build)]
fn read_element<'a>(
    alloc: Global,
    name: &Bytes,
    events: &'a [Event],
) -> Result<(Element, &'a [Event]), AllocError>
    ensures fewer { IfOk result (λ r. length r.1.now ≤ length events.now) }
    ensures parts { (attributes : List attribute.Attribute) (children : Nodes)
        (rest : List event.Event) →
        events.now ≡ map spelling.attribute_event attributes ++ (spelling.events children ++
        End ∷ rest) →
        IfOk result (λ r. (r.0.name ≡ name.now) × (r.0.attributes ≡ attributes) ×
        (trees.nodes r.0.children ≡ children) × (r.1.now ≡ rest)) }
{
    let (attributes, behind) = read_attributes(alloc, events)?;
    let (children, behind) = read_children(alloc, behind)?;
    let element = Element {
        name: name.clone()?,
        attributes,
        children,
    };
    Ok((element, behind))
}

// The attributes that the events begin with, and the events behind them.
fn read_attributes(
    alloc: Global,
    events: &[Event],
) -> Result<(Items<Attribute>, &[Event]), AllocError>
    ensures fewer { IfOk result (λ r. length r.1.now ≤ length events.now) }
    ensures parts { IfOk result (λ r. (r.0 ≡ attributes_of events.now) ×
        (r.1.now ≡ behind_attributes events.now)) }
{
    let mut attributes = Items::new(alloc);
    let mut behind = events;
    while let [Event::Attr { name, value }, rest @ ..] = behind {
        attributes.push(Attribute {
            name: name.clone()?,
            value: value.clone()?,
        })?;
        behind = rest;
    }
    Ok((attributes, behind))
}

// The children that the events begin with, up to the end of their element, and the events behind
// that.
#[cycle(build)]
fn read_children(alloc: Global, events: &[Event]) -> Result<(Items<Node>, &[Event]), AllocError>
    ensures fewer { IfOk result (λ r. length r.1.now ≤ length events.now) }
    ensures parts { (children : Nodes) (rest : List event.Event) →
        events.now ≡ spelling.events children ++ End ∷ rest →
        IfOk result (λ r. (trees.nodes r.0 ≡ children) × (r.1.now ≡ rest)) }
{
    let mut children = Items::new(alloc);
    let mut behind = events;
    while let Some((event, rest)) = behind.split_first() {
        match event {
            Event::Start { name } => {
                let (element, left) = read_element(alloc, name, rest)?;
                children.push(Node::Elem(element))?;
                behind = left;
            }
            Event::Text { text } => {
                children.push(Node::Text(text.clone()?))?;
                behind = rest;
            }
            Event::Attr { .. } | Event::End => return Ok((children, rest)),
        }
    }
    Ok((children, behind))
}
