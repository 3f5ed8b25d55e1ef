//! The machine along runs that were worked out by hand.

ghost use Rattle.std.specs.Prelude.{◌≡◌, IfOk, IsTrue};
ghost use Rattle.std.specs.List.{list_all};
ghost use Rattle.px_text.specs.Names.{is_digit};
ghost use Rattle.px_text.specs.Nodes.{Root};
ghost use Rattle.px_reader.specs.Spelling as spelling;

use crate::document::{events_in, run_over};
use crate::trouble::Trouble;
use crate::workload::{add as add_filter, filters, shared};
use px_afa::{Body, Program, State};
use px_prune::{Compiled, push};
use px_reader::{Doc, Event};
use px_runner::{Memo, PrivateMemo};
use px_step::{accept, add};
use px_text::{Bytes, Decimal, Ids, Set, Words};
use px_workload::{Change, Journal};
use px_xpath::{Axis, Relation, Test, Value};
use std::alloc::{AllocError, Global};
use std::sync::Arc;
use std::test::Fail;

mod steps;

/// The filter whose run is told step by step.
const WORKED: &[u8] = b"//a[b/text()=1 and .//a[@c>2]]";

/// The document of that run.
const WORKED_DOCUMENT: &[u8] = b"(a\n(b\n-1\n)b\n(a\nAc 3\n)a\n)a\n";

/// What the machine tells at the end of a document.
#[derive(Drop)]
struct Outcome {
    /// the ids that it accepts
    ids: Ids,
    /// how many steps it made
    steps: u64,
}

// The program of filters, with the ids 1, 2 and so on.
fn program_of(alloc: Global, texts: &[&[u8]]) -> Result<Program, Trouble> {
    let mut journal = Journal::new(alloc);
    for text in texts {
        add_filter(alloc, &mut journal, text)?;
    }
    let live = filters(alloc, &journal)?;
    Ok(Program::build(alloc, live.as_slice())?)
}

// The same, compiled.
fn compiled_of(alloc: Global, texts: &[&[u8]]) -> Result<Arc<Compiled>, Trouble> {
    let program = program_of(alloc, texts)?;
    Ok(Compiled::of(alloc, shared(alloc, program)?)?)
}

// The program of two equal filters with the ids 1 and 3; the filter between them was dropped.
fn program_of_equals(alloc: Global) -> Result<Program, Trouble> {
    let mut journal = Journal::new(alloc);
    add_filter(alloc, &mut journal, b"/a")?;
    add_filter(alloc, &mut journal, b"/b")?;
    add_filter(alloc, &mut journal, b"/a")?;
    drop_out(&mut journal, 2)?;
    let live = filters(alloc, &journal)?;
    Ok(Program::build(alloc, live.as_slice())?)
}

// Drops a filter, which is live.
fn drop_out(journal: &mut Journal, id: u32) -> Result<(), Trouble> {
    let change = Change::Drop { who: 0, id };
    if journal.refusal(&change).is_some() {
        return Err(Trouble::Full);
    }
    journal.reserve()?;
    journal.append(change);
    Ok(())
}

// Whether the machine accepts these ids of a document under filters, after so many steps.
fn accepts(
    alloc: Global,
    texts: &[&[u8]],
    document: &[u8],
    ids: &[u32],
    steps: u64,
) -> Result<bool, Trouble> {
    let outcome = judged(alloc, texts, document)?;
    Ok(outcome.ids.as_slice() == ids && outcome.steps == steps)
}

// The machine at the end of a document under filters, with a memo of its own.
fn judged(alloc: Global, texts: &[&[u8]], document: &[u8]) -> Result<Outcome, Trouble> {
    let events = events_in(alloc, document)?;
    let mut memo = PrivateMemo::new(alloc, compiled_of(alloc, texts)?);
    judged_by(alloc, &mut memo, &events)
}

// The machine at the end of the events of a document.
fn judged_by<M: Memo>(alloc: Global, memo: &mut M, events: &[Event]) -> Result<Outcome, Trouble>
    requires tree { (root : Root) × (events.now ≡ spelling.events_of root) }
{
    let runner = run_over(alloc, memo, events)?;
    let steps = runner.steps();
    let ids = runner.finish(alloc, memo)?;
    Ok(Outcome { ids, steps })
}

// The set of some numbers, which a set can hold.
fn set_of(alloc: Global, numbers: &[u32]) -> Result<Set, Trouble> {
    let mut set = Set::empty(alloc);
    for n in numbers {
        set = with_number(alloc, &set, *n)?;
    }
    Ok(set)
}

// A set with one number more, unless it is too large for any set.
fn with_number(alloc: Global, set: &Set, n: u32) -> Result<Set, Trouble> {
    if n >= 1_048_576 {
        return Err(Trouble::Full);
    }
    Ok(add(alloc, set, &Set::of(alloc, &[n])?)?)
}

// Whether a set of one state is accepted with these ids.
fn accepts_state(
    alloc: Global,
    program: &Program,
    state: u32,
    ids: &[u32],
) -> Result<bool, Trouble> {
    let set = set_of(alloc, &[state])?;
    Ok(accept(alloc, program, &set)?.as_slice() == ids)
}

// Threads may share a value of this type.
fn is_shared<T: Send + Sync>(_shared: &T) {}

// Whether these are the need sets along the worked run.
fn has_needs(alloc: Global, compiled: &Compiled) -> Result<bool, AllocError> {
    let ground = compiled.firsts();
    let outer = push(alloc, compiled, ground, 5)?;
    let b = push(alloc, compiled, &outer, 3)?;
    let inner = push(alloc, compiled, &outer, 5)?;
    Ok(
        are(ground, &[7])
            && are(&outer, &[2, 5, 7])
            && are(&b, &[1, 5, 7])
            && are(&inner, &[2, 4, 5, 7]),
    )
}

// Whether a set has these numbers.
fn are(set: &Set, numbers: &[u32]) -> bool {
    set.as_slice() == numbers
}

// The states of the worked filter, by their numbers.
fn worked_states(alloc: Global) -> Result<Vec<State>, AllocError> {
    let mut states = Vec::new(alloc);
    states.push(value(Relation::Equal, b"1"))?;
    states.push(path(Axis::Child, Test::Text, 0))?;
    states.push(path(Axis::Child, Test::Element(Bytes::of(alloc, b"b")?), 1))?;
    states.push(value(Relation::Greater, b"2"))?;
    states.push(path(Axis::Child, Test::Attribute(Bytes::of(alloc, b"c")?), 3))?;
    states.push(path(Axis::Below, Test::Element(Bytes::of(alloc, b"a")?), 4))?;
    states.push(both(alloc, 2, 5)?)?;
    states.push(path(Axis::Below, Test::Element(Bytes::of(alloc, b"a")?), 6))?;
    Ok(states)
}

// The state of a step whose body is another state.
fn path(axis: Axis, test: Test, body: u32) -> State {
    State::Path {
        axis,
        test,
        body: Body::State(body),
    }
}

// The state of two parts.
fn both(alloc: Global, one: u64, other: u64) -> Result<State, AllocError> {
    let parts = Words::of(Vec::from_slice(alloc, &[one, other])?);
    Ok(State::And { parts })
}

// The state of a relation to the number of a digit.
fn value(relation: Relation, digit: &[u8; 1]) -> State
    requires digit { IsTrue (list_all is_digit digit.now) }
{
    let value = Value::Number(Decimal::of_digits(false, digit, b""));
    State::Value { relation, value }
}

// Whether the program has these states, and no others.
fn has_states(program: &Program, states: &[State]) -> bool {
    for n in 0..program.states() {
        let Some(state) = states.get(n as usize) else {
            return false;
        };
        if *program.state(n) != *state {
            return false;
        }
    }
    program.states() as usize == states.len()
}

#[test]
fn the_worked_filter_has_its_states(rt: HostRuntime) -> Result<(), Fail> {
    let alloc = rt.alloc();
    let program = program_of(alloc, &[WORKED])?;
    assert!(rt; has_states(&program, &worked_states(alloc)?));
    Ok(())
}

#[test]
fn the_worked_filter_has_its_labels_and_classes(rt: HostRuntime) -> Result<(), Fail> {
    let program = program_of(rt.alloc(), &[WORKED])?;
    assert_eq!(rt; program.label_of_element(b"b"), 3);
    assert_eq!(rt; program.label_of_attribute(b"c"), 4);
    assert_eq!(rt; program.label_of_element(b"a"), 5);
    assert_eq!(rt; program.text_class(b"1"), 0);
    assert_eq!(rt; program.number_class(b""), 0);
    assert_eq!(rt; program.number_class(b"1"), 2);
    assert_eq!(rt; program.number_class(b"3"), 5);
    Ok(())
}

#[test]
fn the_worked_run_needs_its_sets(rt: HostRuntime) -> Result<(), Fail> {
    let alloc = rt.alloc();
    let compiled = compiled_of(alloc, &[WORKED])?;
    is_shared(&compiled);
    assert!(rt; has_needs(alloc, &compiled)?);
    Ok(())
}

#[test]
fn the_worked_run_is_accepted(rt: HostRuntime) -> Result<(), Fail> {
    let alloc = rt.alloc();
    assert!(rt; accepts(alloc, &[WORKED], WORKED_DOCUMENT, &[1], 36)?);
    Ok(())
}

#[test]
fn equal_filters_have_one_state(rt: HostRuntime) -> Result<(), Fail> {
    let alloc = rt.alloc();
    let program = program_of_equals(alloc)?;
    assert_eq!(rt; program.states(), 1);
    assert!(rt; accepts_state(alloc, &program, 0, &[1, 3])?);
    Ok(())
}

#[test]
fn three_filters_are_judged_in_one_pass(rt: HostRuntime) -> Result<(), Fail> {
    let texts: [&[u8]; 3] = [b"/a", b"//b", b"/a[not(b)]"];
    assert!(rt; accepts(rt.alloc(), &texts, b"(a\n(b\n)b\n)a\n", &[1, 2], 16)?);
    Ok(())
}

#[test]
fn what_stands_under_not_is_needed(rt: HostRuntime) -> Result<(), Fail> {
    let alloc = rt.alloc();
    let texts: [&[u8]; 1] = [b"/a[not(b)]"];
    assert!(rt; accepts(alloc, &texts, b"(a\n(c\n)c\n)a\n", &[1], 16)?);
    assert!(rt; accepts(alloc, &texts, b"(a\n(b\n)b\n)a\n", &[], 16)?);
    Ok(())
}
