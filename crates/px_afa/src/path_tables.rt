//! What Path states are looked up by.

ghost use Rattle.std.specs.Prelude.{◌≡◌, ◌<◌, ◌≤◌, ◌+◌, ◌++◌, ◌&&◌, ◌∷◌, [], List, ℕ, Option, Some, IfOk, IfSome, OnOk, cond, length, map};
ghost use Rattle.px_afa.specs.declared.state.State.{State as AnyState};
ghost use Rattle.px_afa.specs.Building.{newest};
ghost use Rattle.px_afa.specs.Contents.{Kind};
ghost use Rattle.px_afa.specs.Kept.{AreGuards, AreNames};
ghost use Rattle.px_afa.specs.Labels.{label_at, label_in, names_of};
ghost use Rattle.px_afa.specs.Lists.{is_key, row};
ghost use Rattle.px_afa.specs.PathKept.{ArePathTables, met_of};
ghost use Rattle.px_afa.specs.Tables as tables;
ghost use Rattle.px_afa.specs.Truth.{state_at};

use crate::groups::{Groups, push_if};
use crate::guarding::{body_guard, guards};
use crate::names::Names;
use crate::state::State;
use px_xpath::Test;
use std::alloc::{AllocError, Global};

/// Which labels meet the test of a state.
#[derive(Clone, Copy, Drop)]
pub enum Met {
    Label(u32),
    AnyElement,
    AnyAttribute,
    Nothing,
}

/// Path states by the labels that they test and by what guards them.
#[derive(Drop)]
pub struct PathTables {
    names: Names,
    tests: Vec<Met>,
    guarded: Groups,
    exactly: Groups,
    any_elements: Vec<u32>,
    any_attributes: Vec<u32>,
}

impl PathTables {
    /// The tables of the states. Its only failure is want of memory.
    pub fn of(alloc: Global, states: &[State]) -> Result<PathTables, AllocError>
        requires few { length states.now ≤ 500_000 }
        ensures all { IfOk result (λ tables. ArePathTables tables (newest states.now)) }
    {
        let names = Names::of(alloc, states)?;
        let guards = guards(alloc, states)?;
        let tests = tests(alloc, states, &names)?;
        let guarded = guarded(alloc, states, &guards)?;
        let exactly = exactly(alloc, states, &guards, &names)?;
        let any_elements = any_elements(alloc, states, &guards)?;
        let any_attributes = any_attributes(alloc, states, &guards)?;
        Ok(PathTables {
            names,
            tests,
            guarded,
            exactly,
            any_elements,
            any_attributes,
        })
    }

    /// The names, with their labels.
    pub fn names(&self) -> &Names
        ensures same { result.now ≡ self.now.names }
    {
        &self.names
    }

    /// Whether a label meets the test of a state, which is a Path.
    pub fn is_met(&self, n: u32, label: u32) -> bool
        ensures value { (states : List AnyState) → ArePathTables self.now states →
            result ≡ tables.is_met (label_at states label) (state_at states n) }
    {
        match self.tests.get(n as usize) {
            Some(met) => is_met(&self.names, *met, label),
            None => false,
        }
    }

    /// The Path states whose body has a guard.
    pub fn guarded_by(&self, guard: u32) -> &[u32]
        ensures all { (states : List AnyState) → ArePathTables self.now states →
            result.now ≡ tables.guarded_by states guard }
    {
        self.guarded.row(guard)
    }

    /// The Path states without a guard that test the very name of a label, or texts.
    pub fn unguarded_exactly(&self, label: u32) -> &[u32]
        ensures all { (states : List AnyState) → ArePathTables self.now states →
            result.now ≡ tables.unguarded_exactly states label }
    {
        self.exactly.row(label)
    }

    /// The Path states without a guard that test any name, where the label is of that kind.
    pub fn unguarded_loosely(&self, label: u32) -> &[u32]
        ensures all { (states : List AnyState) → ArePathTables self.now states →
            result.now ≡ tables.unguarded_loosely states label }
    {
        if self.names.is_element(label) {
            return &self.any_elements;
        }
        if self.names.is_attribute(label) {
            return &self.any_attributes;
        }
        &[]
    }
}

fn is_met(names: &Names, met: Met, label: u32) -> bool
    ensures value { (kinds : List Kind) (state : Option AnyState) → AreNames names.now kinds →
        met ≡ met_of kinds state → result ≡ tables.is_met (label_in kinds label) state }
{
    match met {
        Met::Label(wanted) => label == wanted,
        Met::AnyElement => names.is_element(label),
        Met::AnyAttribute => names.is_attribute(label),
        Met::Nothing => false,
    }
}

fn tests(alloc: Global, states: &[State], names: &Names) -> Result<Vec<Met>, AllocError>
    requires names { AreNames names.now (names_of (newest states.now)) }
    ensures all { IfOk result (λ tests. tests.items ≡
        map (λ s. met_of (names_of (newest states.now)) (Some s)) states.now) }
{
    let mut tests = Vec::with_capacity(alloc, states.len())?;
    for state in states {
        tests.push(test(names, state))?;
    }
    Ok(tests)
}

// Which labels meet the test of a state.
fn test(names: &Names, state: &State) -> Met
    ensures it { (kinds : List Kind) → AreNames names.now kinds →
        result ≡ met_of kinds (Some state.now) }
{
    match state {
        State::Path { test, .. } => match test {
            Test::Element(name) => Met::Label(names.element(name.as_slice())),
            Test::AnyElement => Met::AnyElement,
            Test::Attribute(name) => Met::Label(names.attribute(name.as_slice())),
            Test::AnyAttribute => Met::AnyAttribute,
            Test::Text => Met::Label(0),
        },
        State::And { .. } => Met::Nothing,
        State::Or { .. } => Met::Nothing,
        State::Not { .. } => Met::Nothing,
        State::Value { .. } => Met::Nothing,
    }
}

fn guarded(alloc: Global, states: &[State], guards: &[Option<u32>]) -> Result<Groups, AllocError>
    requires few { length states.now ≤ 500_000 }
    requires guards { AreGuards guards.now (newest states.now) }
    ensures all { IfOk result (λ groups. (guard : ℕ) →
        row groups guard ≡ tables.guarded_by (newest states.now) guard) }
{
    let mut groups = Groups::new(alloc, states.len())?;
    for (n, state) in states.iter().enumerate() {
        groups.put(guard_key(guards, state), n as u32)?;
    }
    Ok(groups)
}

// The guard of a Path state's body.
fn guard_key(guards: &[Option<u32>], state: &State) -> Option<u32>
    ensures key { (states : List AnyState) → AreGuards guards.now states → (guard : ℕ) →
        is_key result guard ≡ tables.is_guarded_by states guard (Some state.now) }
    ensures within { (states : List AnyState) → AreGuards guards.now states →
        IfSome result (λ guard. guard < length states) }
{
    match state {
        State::Path { body, .. } => body_guard(guards, body),
        State::And { .. } => None,
        State::Or { .. } => None,
        State::Not { .. } => None,
        State::Value { .. } => None,
    }
}

fn exactly(
    alloc: Global,
    states: &[State],
    guards: &[Option<u32>],
    names: &Names,
) -> Result<Groups, AllocError>
    requires few { length states.now ≤ 500_000 }
    requires guards { AreGuards guards.now (newest states.now) }
    requires names { AreNames names.now (names_of (newest states.now)) }
    ensures all { IfOk result (λ groups. (label : ℕ) →
        row groups label ≡ tables.unguarded_exactly (newest states.now) label) }
{
    let mut groups = Groups::new(alloc, names.labels())?;
    for (n, state) in states.iter().enumerate() {
        groups.put(exact_key(guards, names, state), n as u32)?;
    }
    Ok(groups)
}

// The label of the very name that a Path state without a guard tests, or of texts.
fn exact_key(guards: &[Option<u32>], names: &Names, state: &State) -> Option<u32>
    ensures key { (states : List AnyState) → AreGuards guards.now states →
        AreNames names.now (names_of states) → (label : ℕ) →
        is_key result label ≡ (tables.is_unguarded states (Some state.now) && tables.tests_exactly
        (names_of states) label (Some state.now)) }
    ensures within { (kinds : List Kind) → AreNames names.now kinds →
        IfSome result (λ label. label < 3 + length kinds) }
{
    if is_unguarded(guards, state) {
        exact_label(names, state)
    } else {
        None
    }
}

fn exact_label(names: &Names, state: &State) -> Option<u32>
    ensures key { (kinds : List Kind) → AreNames names.now kinds → (label : ℕ) →
        is_key result label ≡ tables.tests_exactly kinds label (Some state.now) }
    ensures within { (kinds : List Kind) → AreNames names.now kinds →
        IfSome result (λ label. label < 3 + length kinds) }
{
    match test(names, state) {
        Met::Label(label) => Some(label),
        Met::AnyElement => None,
        Met::AnyAttribute => None,
        Met::Nothing => None,
    }
}

fn is_unguarded(guards: &[Option<u32>], state: &State) -> bool
    ensures value { (states : List AnyState) → AreGuards guards.now states →
        result ≡ tables.is_unguarded states (Some state.now) }
{
    match state {
        State::Path { body, .. } => body_guard(guards, body).is_none(),
        State::And { .. } => false,
        State::Or { .. } => false,
        State::Not { .. } => false,
        State::Value { .. } => false,
    }
}

fn any_elements(
    alloc: Global,
    states: &[State],
    guards: &[Option<u32>],
) -> Result<Vec<u32>, AllocError>
    requires few { length states.now ≤ 500_000 }
    requires guards { AreGuards guards.now (newest states.now) }
    ensures all { IfOk result (λ found. found.items ≡
        tables.states_where (newest states.now)
        (λ s. tables.is_unguarded (newest states.now) s && tables.tests_any_element s)) }
{
    let mut found = Vec::new(alloc);
    for (n, state) in states.iter().enumerate() {
        push_if(&mut found, is_any_element(guards, state), n as u32)?;
    }
    Ok(found)
}

fn any_attributes(
    alloc: Global,
    states: &[State],
    guards: &[Option<u32>],
) -> Result<Vec<u32>, AllocError>
    requires few { length states.now ≤ 500_000 }
    requires guards { AreGuards guards.now (newest states.now) }
    ensures all { IfOk result (λ found. found.items ≡
        tables.states_where (newest states.now)
        (λ s. tables.is_unguarded (newest states.now) s && tables.tests_any_attribute s)) }
{
    let mut found = Vec::new(alloc);
    for (n, state) in states.iter().enumerate() {
        push_if(&mut found, is_any_attribute(guards, state), n as u32)?;
    }
    Ok(found)
}

// Whether a Path state without a guard tests for any element.
fn is_any_element(guards: &[Option<u32>], state: &State) -> bool
    ensures value { (states : List AnyState) → AreGuards guards.now states →
        result ≡ (tables.is_unguarded states (Some state.now) && tables.tests_any_element
        (Some state.now)) }
{
    is_unguarded(guards, state) && tests_any_element(state)
}

fn tests_any_element(state: &State) -> bool
    ensures value { result ≡ tables.tests_any_element (Some state.now) }
{
    match state {
        State::Path { test, .. } => match test {
            Test::AnyElement => true,
            Test::Element(_) => false,
            Test::AnyAttribute => false,
            Test::Attribute(_) => false,
            Test::Text => false,
        },
        State::And { .. } => false,
        State::Or { .. } => false,
        State::Not { .. } => false,
        State::Value { .. } => false,
    }
}

// Whether a Path state without a guard tests for any attribute.
fn is_any_attribute(guards: &[Option<u32>], state: &State) -> bool
    ensures value { (states : List AnyState) → AreGuards guards.now states →
        result ≡ (tables.is_unguarded states (Some state.now) && tables.tests_any_attribute
        (Some state.now)) }
{
    is_unguarded(guards, state) && tests_any_attribute(state)
}

fn tests_any_attribute(state: &State) -> bool
    ensures value { result ≡ tables.tests_any_attribute (Some state.now) }
{
    match state {
        State::Path { test, .. } => match test {
            Test::AnyAttribute => true,
            Test::Element(_) => false,
            Test::AnyElement => false,
            Test::Attribute(_) => false,
            Test::Text => false,
        },
        State::And { .. } => false,
        State::Or { .. } => false,
        State::Not { .. } => false,
        State::Value { .. } => false,
    }
}
