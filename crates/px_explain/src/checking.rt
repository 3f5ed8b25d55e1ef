//! Whether a proof shows what it is to show: the nodes are taken from the front, and each function
//! answers what is left behind the proof of one thing, or at `Err` what is left from the first
//! wrong node on.

ghost use Rattle.std.specs.Prelude.{◌≡◌, ◌∷◌, ◌++◌, [], true, false, length, map, nat_eq, option_map};
ghost use Rattle.px_text.specs.Nodes.{members, all_below, AtAttribute};
ghost use Rattle.px_tree.specs.Trees.{nodes};
ghost use Rattle.px_xpath.specs.Meaning.{candidates};
ghost use Rattle.px_xpath.specs.Views as views;
ghost use Rattle.px_xpath.specs.Views.{conditions, ways};
ghost use Rattle.px_meaning.specs.Places.{place, node_and_below, element_and_below};
ghost use Rattle.px_meaning.specs.Ends as ends;
ghost use Rattle.px_explain.specs.Table as table;
ghost use Rattle.px_explain.specs.Table.{Path, Each, OneOf, claim, list, nth, rest_holds};
ghost use Rattle.px_explain.specs.Leaving.{Leaves, fails, ends_false};

use crate::node::ProofNode;
use crate::places::candidate;
use px_meaning::{End, Place, end_holds, meets, place_of};
use px_text::Attribute;
use px_tree::{Element, Node};
use px_xpath::{Axis, Cond, Step};

/// That a path holds at a place, or does not.
#[cycle(checking)]
pub fn path_left<'a>(
    answer: bool,
    steps: &[Step],
    end: End,
    from: Place,
    proof: &'a [ProofNode],
) -> Result<&'a [ProofNode], &'a [ProofNode]>
    ensures { Leaves (Path answer (ways steps.now) (ends.end_holds end.entry) (place from.entry) ∷
        []) proof.now result }
{
    match steps {
        [] => Err(proof),
        [step, rest @ ..] => {
            if answer {
                held_left(step, rest, end, from, proof)
            } else {
                failed_left(step, rest, end, from, proof)
            }
        }
    }
}

// That a path holds.
#[cycle(checking)]
fn held_left<'a>(
    step: &Step,
    rest: &[Step],
    end: End,
    from: Place,
    proof: &'a [ProofNode],
) -> Result<&'a [ProofNode], &'a [ProofNode]>
    ensures { Leaves (Path true (ways (step.now ∷ rest.now)) (ends.end_holds end.entry)
        (place from.entry) ∷ []) proof.now result }
{
    match proof.split_first() {
        Some((node, behind)) => match node {
            ProofNode::Y(number) => match numbered(step.axis, from, *number) {
                Some(at) => {
                    if leads(step, rest, end, at) {
                        led_left(step, rest, end, at, behind)
                    } else {
                        Err(proof)
                    }
                }
                None => Err(proof),
            },
            _ => Err(proof),
        },
        None => Err(proof),
    }
}

// That each condition of a step holds at a place, and the rest of the path.
#[cycle(checking)]
fn led_left<'a>(
    step: &Step,
    rest: &[Step],
    end: End,
    at: Place,
    proof: &'a [ProofNode],
) -> Result<&'a [ProofNode], &'a [ProofNode]>
    ensures { Leaves (map (claim true (place at.entry)) (list (conditions step.now.conds)) ++
        rest_holds (ways rest.now) (ends.end_holds end.entry) (place at.entry)) proof.now result }
{
    match conditions_left(true, step.conds.as_slice(), at, proof) {
        Ok(behind) => rest_left(rest, end, at, behind),
        Err(wrong) => Err(wrong),
    }
}

// The candidate of this number, counted from 1.
fn numbered<'a>(axis: Axis, from: Place<'a>, number: u32) -> Option<Place<'a>>
    ensures { option_map place result ≡ nth (candidates axis (place from.entry)) number }
{
    if number == 0 {
        return None;
    }
    match candidate(axis, from, number as usize - 1) {
        Ok(at) => Some(at),
        Err(_) => None,
    }
}

// Whether a path may go through this candidate: it meets the test, and a path that ends here
// compares true.
fn leads(step: &Step, rest: &[Step], end: End, at: Place) -> bool
    ensures { result ≡ table.leads step.now.test (ways rest.now) (ends.end_holds end.entry)
        (place at.entry) }
{
    if !meets(&step.test, at) {
        return false;
    }
    match rest {
        [] => end_holds(end, at),
        [_next, _behind @ ..] => true,
    }
}

// That the rest of a path holds, if there is one.
#[cycle(checking)]
fn rest_left<'a>(
    rest: &[Step],
    end: End,
    at: Place,
    proof: &'a [ProofNode],
) -> Result<&'a [ProofNode], &'a [ProofNode]>
    ensures { Leaves (rest_holds (ways rest.now) (ends.end_holds end.entry) (place at.entry))
        proof.now result }
{
    match rest {
        [] => Ok(proof),
        [_next, _behind @ ..] => path_left(true, rest, end, at, proof),
    }
}

// That each of some conditions holds, or does not, in order.
#[cycle(checking)]
fn conditions_left<'a>(
    answer: bool,
    conds: &[Cond],
    at: Place,
    proof: &'a [ProofNode],
) -> Result<&'a [ProofNode], &'a [ProofNode]>
    ensures { Leaves (map (claim answer (place at.entry)) (list (conditions conds.now))) proof.now
        result }
{
    let mut left = proof;
    for cond in conds {
        match condition_left(answer, cond, at, left) {
            Ok(behind) => left = behind,
            Err(wrong) => return Err(wrong),
        }
    }
    Ok(left)
}

// That a condition holds, or does not.
#[cycle(checking)]
fn condition_left<'a>(
    answer: bool,
    cond: &Cond,
    at: Place,
    proof: &'a [ProofNode],
) -> Result<&'a [ProofNode], &'a [ProofNode]>
    ensures { Leaves (claim answer (place at.entry) (views.condition cond.now) ∷ []) proof.now
        result }
{
    match cond {
        Cond::Exists(path) => path_left(answer, path.steps.as_slice(), End::Always, at, proof),
        Cond::Compare(path, relation, value) => {
            let end = End::Compared(*relation, value);
            path_left(answer, path.steps.as_slice(), end, at, proof)
        }
        Cond::And(conds) => and_left(answer, conds.as_slice(), at, proof),
        Cond::Or(conds) => or_left(answer, conds.as_slice(), at, proof),
        Cond::Not(part) => not_left(answer, part.get(), at, proof),
    }
}

// That each of some conditions holds, or that one of them does not.
#[cycle(checking)]
fn and_left<'a>(
    answer: bool,
    conds: &[Cond],
    at: Place,
    proof: &'a [ProofNode],
) -> Result<&'a [ProofNode], &'a [ProofNode]>
    ensures { Leaves (Each answer (conditions conds.now) (place at.entry) ∷ []) proof.now result }
{
    match proof.split_first() {
        Some((node, behind)) => {
            if answer {
                match node {
                    ProofNode::A => conditions_left(true, conds, at, behind),
                    _ => Err(proof),
                }
            } else {
                match node {
                    ProofNode::B(number) => match part(conds, *number) {
                        Some(cond) => condition_left(false, cond, at, behind),
                        None => Err(proof),
                    },
                    _ => Err(proof),
                }
            }
        }
        None => Err(proof),
    }
}

// That one of some conditions holds, or that none does.
#[cycle(checking)]
fn or_left<'a>(
    answer: bool,
    conds: &[Cond],
    at: Place,
    proof: &'a [ProofNode],
) -> Result<&'a [ProofNode], &'a [ProofNode]>
    ensures { Leaves (OneOf answer (conditions conds.now) (place at.entry) ∷ []) proof.now result }
{
    match proof.split_first() {
        Some((node, behind)) => {
            if answer {
                match node {
                    ProofNode::O(number) => match part(conds, *number) {
                        Some(cond) => condition_left(true, cond, at, behind),
                        None => Err(proof),
                    },
                    _ => Err(proof),
                }
            } else {
                match node {
                    ProofNode::P => conditions_left(false, conds, at, behind),
                    _ => Err(proof),
                }
            }
        }
        None => Err(proof),
    }
}

// That a condition does not hold, or that it does.
#[cycle(checking)]
fn not_left<'a>(
    answer: bool,
    part: &Cond,
    at: Place,
    proof: &'a [ProofNode],
) -> Result<&'a [ProofNode], &'a [ProofNode]>
    ensures { Leaves (table.Not answer (views.condition part.now) (place at.entry) ∷ []) proof.now
        result }
{
    match proof.split_first() {
        Some((node, behind)) => match node {
            ProofNode::Bang => condition_left(!answer, part, at, behind),
            _ => Err(proof),
        },
        None => Err(proof),
    }
}

// The condition of this number, counted from 1.
fn part(conds: &[Cond], number: u32) -> Option<&Cond>
    ensures { option_map (λ cond. views.condition cond.now) result ≡
        nth (list (conditions conds.now)) number }
{
    if number == 0 {
        return None;
    }
    match conds.get(number as usize - 1) {
        Some(cond) => Some(cond),
        None => None,
    }
}

// That a path does not hold.
#[cycle(checking)]
fn failed_left<'a>(
    step: &Step,
    rest: &[Step],
    end: End,
    from: Place,
    proof: &'a [ProofNode],
) -> Result<&'a [ProofNode], &'a [ProofNode]>
    ensures { Leaves (Path false (ways (step.now ∷ rest.now)) (ends.end_holds end.entry)
        (place from.entry) ∷ []) proof.now result }
{
    match proof.split_first() {
        Some((node, behind)) => match node {
            ProofNode::N(count) => {
                if are_so_many(step.axis, from, *count) {
                    candidates_left(step, rest, end, from, behind)
                } else {
                    Err(proof)
                }
            }
            _ => Err(proof),
        },
        None => Err(proof),
    }
}

// Whether a step has so many candidates.
fn are_so_many(axis: Axis, from: Place, count: u32) -> bool
    ensures { result ≡ nat_eq (length (candidates axis (place from.entry))) count }
{
    match candidate(axis, from, count as usize) {
        Ok(_) => false,
        Err(over) => over == 0,
    }
}

// That each candidate of a step fails.
#[cycle(checking)]
fn candidates_left<'a>(
    step: &Step,
    rest: &[Step],
    end: End,
    from: Place,
    proof: &'a [ProofNode],
) -> Result<&'a [ProofNode], &'a [ProofNode]>
    ensures { Leaves (map (fails step.now rest.now end.entry)
        (candidates step.now.axis (place from.entry))) proof.now result }
{
    match (step.axis, from) {
        (Axis::Child, Place::Document(tree)) => {
            candidate_left(step, rest, end, Place::Element(&tree.root), proof)
        }
        (Axis::Below, Place::Document(tree)) => element_left(step, rest, end, &tree.root, proof),
        (Axis::Child, Place::Element(element)) => {
            match attributes_left(step, rest, end, element.attributes.as_slice(), proof) {
                Ok(behind) => children_left(step, rest, end, element.children.as_slice(), behind),
                Err(wrong) => Err(wrong),
            }
        }
        (Axis::Below, Place::Element(element)) => {
            match attributes_left(step, rest, end, element.attributes.as_slice(), proof) {
                Ok(behind) => below_left(step, rest, end, element.children.as_slice(), behind),
                Err(wrong) => Err(wrong),
            }
        }
        _ => Ok(proof),
    }
}

// That each attribute fails.
#[cycle(checking)]
fn attributes_left<'a>(
    step: &Step,
    rest: &[Step],
    end: End,
    attributes: &[Attribute],
    proof: &'a [ProofNode],
) -> Result<&'a [ProofNode], &'a [ProofNode]>
    ensures { Leaves (map (fails step.now rest.now end.entry) (map AtAttribute attributes.now))
        proof.now result }
{
    let mut left = proof;
    for attribute in attributes {
        match candidate_left(step, rest, end, Place::Attribute(attribute), left) {
            Ok(behind) => left = behind,
            Err(wrong) => return Err(wrong),
        }
    }
    Ok(left)
}

// That each node fails.
#[cycle(checking)]
fn children_left<'a>(
    step: &Step,
    rest: &[Step],
    end: End,
    children: &[Node],
    proof: &'a [ProofNode],
) -> Result<&'a [ProofNode], &'a [ProofNode]>
    ensures { Leaves (map (fails step.now rest.now end.entry) (members (nodes children.now)))
        proof.now result }
{
    let mut left = proof;
    for child in children {
        match candidate_left(step, rest, end, place_of(child), left) {
            Ok(behind) => left = behind,
            Err(wrong) => return Err(wrong),
        }
    }
    Ok(left)
}

// That each node fails, and each attribute and node below it.
#[cycle(checking)]
fn below_left<'a>(
    step: &Step,
    rest: &[Step],
    end: End,
    children: &[Node],
    proof: &'a [ProofNode],
) -> Result<&'a [ProofNode], &'a [ProofNode]>
    ensures { Leaves (map (fails step.now rest.now end.entry) (all_below (nodes children.now)))
        proof.now result }
{
    let mut left = proof;
    for child in children {
        match node_left(step, rest, end, child, left) {
            Ok(behind) => left = behind,
            Err(wrong) => return Err(wrong),
        }
    }
    Ok(left)
}

// That a node fails, and each attribute and node below it.
#[cycle(checking)]
fn node_left<'a>(
    step: &Step,
    rest: &[Step],
    end: End,
    node: &Node,
    proof: &'a [ProofNode],
) -> Result<&'a [ProofNode], &'a [ProofNode]>
    ensures { Leaves (map (fails step.now rest.now end.entry) (node_and_below node.now)) proof.now
        result }
{
    match node {
        Node::Elem(element) => element_left(step, rest, end, element, proof),
        Node::Text(text) => candidate_left(step, rest, end, Place::Text(text), proof),
    }
}

// That an element fails, and each attribute and node below it.
#[cycle(checking)]
fn element_left<'a>(
    step: &Step,
    rest: &[Step],
    end: End,
    element: &Element,
    proof: &'a [ProofNode],
) -> Result<&'a [ProofNode], &'a [ProofNode]>
    ensures { Leaves (map (fails step.now rest.now end.entry) (element_and_below element.now))
        proof.now result }
{
    match candidate_left(step, rest, end, Place::Element(element), proof) {
        Ok(behind) => inside_left(step, rest, end, element, behind),
        Err(wrong) => Err(wrong),
    }
}

// That each attribute of an element fails, and each attribute and node below it.
#[cycle(checking)]
fn inside_left<'a>(
    step: &Step,
    rest: &[Step],
    end: End,
    element: &Element,
    proof: &'a [ProofNode],
) -> Result<&'a [ProofNode], &'a [ProofNode]>
    ensures { Leaves (map (fails step.now rest.now end.entry)
        (map AtAttribute element.now.attributes ++
        all_below (nodes element.now.children))) proof.now result }
{
    match attributes_left(step, rest, end, element.attributes.as_slice(), proof) {
        Ok(behind) => below_left(step, rest, end, element.children.as_slice(), behind),
        Err(wrong) => Err(wrong),
    }
}

// That a candidate fails: the test, a condition, the rest of the path, or the end.
#[cycle(checking)]
fn candidate_left<'a>(
    step: &Step,
    rest: &[Step],
    end: End,
    at: Place,
    proof: &'a [ProofNode],
) -> Result<&'a [ProofNode], &'a [ProofNode]>
    ensures { Leaves (fails step.now rest.now end.entry (place at.entry) ∷ []) proof.now result }
{
    match proof.split_first() {
        Some((node, behind)) => match node {
            ProofNode::T => {
                if meets(&step.test, at) {
                    Err(proof)
                } else {
                    Ok(behind)
                }
            }
            ProofNode::C(number) => match part(step.conds.as_slice(), *number) {
                Some(cond) => condition_left(false, cond, at, behind),
                None => Err(proof),
            },
            ProofNode::R => match rest {
                [] => Err(proof),
                [_next, _behind @ ..] => path_left(false, rest, end, at, behind),
            },
            ProofNode::V => {
                if ends_false(rest, end, at) {
                    Ok(behind)
                } else {
                    Err(proof)
                }
            }
            _ => Err(proof),
        },
        None => Err(proof),
    }
}

// Whether a path ends at this place and compares false.
fn ends_false(rest: &[Step], end: End, at: Place) -> bool
    ensures { result ≡ ends_false (ways rest.now) (ends.end_holds end.entry) (place at.entry) }
{
    match rest {
        [] => !end_holds(end, at),
        [_next, _behind @ ..] => false,
    }
}
