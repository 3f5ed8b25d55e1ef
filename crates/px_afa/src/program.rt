//! The program of all live filters.

ghost use Rattle.std.specs.Prelude.{◌≡◌, ◌<◌, ◌∷◌, [], IfOk, length, Some};
ghost use Rattle.px_xpath.specs.Subscribed.{subscriptions};
ghost use Rattle.px_afa.specs.Building.{automata};
ghost use Rattle.px_afa.specs.Contents.{AttributeKind, ElementKind};
ghost use Rattle.px_afa.specs.Labels as labels;
ghost use Rattle.px_afa.specs.Classes as classes;
ghost use Rattle.px_afa.specs.Sets.{accept};
ghost use Rattle.px_afa.specs.Sound.{AreLive, IsSound};
ghost use Rattle.px_afa.specs.Tables as tables;
ghost use Rattle.px_afa.specs.Truth.{state_at};

use crate::first_ids::ids_by_first;
use crate::groups::Groups;
use crate::listing::listed;
use crate::path_tables::PathTables;
use crate::state::{First, Related, State};
use crate::value_tables::ValueTables;
use px_xpath::{Numbered, Relation};
use std::alloc::{AllocError, Global};
use std::marker::Model;

/// The states of all filters under their numbers, equal states once, and the first state of each
/// filter. Contracts see the states newest first, so that a state's number is the number of those
/// behind it, and the firsts in order of the filters.
#[derive(Drop)]
pub struct Program {
    states: Vec<State>,
    firsts: Vec<First>,
    paths: PathTables,
    values: ValueTables,
    /// The ids of the filters that begin with each state.
    ids: Groups,
}

impl Model for Program {
    ghost use Rattle.px_afa.specs.Building.{Automata, newest};

    ghost Value = { Automata };

    ghost use Rattle.px_afa.specs.ProgramKept.{IsKept};

    ghost view = { λ program. record
        { states = newest program.states.items; firsts = program.firsts.items } };

    ghost invariant = { IsKept };
}

impl Program {
    /// The program of live filters, whose ids rise and whose sizes are at most 500,000 together. It
    /// takes memory for the states and for what they are looked up by, and its only failure is want
    /// of memory.
    pub fn build(alloc: Global, live: &[Numbered]) -> Result<Program, AllocError>
        requires live { AreLive (subscriptions live.now) }
        ensures program { IfOk result (λ program. program ≡ automata (subscriptions live.now)) }
    {
        let (states, firsts) = listed(alloc, live)?;
        let paths = PathTables::of(alloc, &states)?;
        let values = ValueTables::of(alloc, &states)?;
        let ids = ids_by_first(alloc, &states, &firsts)?;
        Ok(Program {
            states,
            firsts,
            paths,
            values,
            ids,
        })
    }

    /// The parts of each state have lower numbers, there are at most 500,000 states, the first
    /// state of each filter is a Path, and the ids of the filters rise.
    pub fn sound(&self)
        ensures sound { IsSound self.now }
    {
        let _states = &self.states;
    }

    /// How many states there are. It takes no memory.
    pub fn states(&self) -> u32
        ensures count { result ≡ length self.now.states }
    {
        self.states.len() as u32
    }

    /// The state of a number. It takes no memory.
    pub fn state(&self, n: u32) -> &State
        requires there { n < length self.now.states }
        ensures it { state_at self.now.states n ≡ Some result.now }
    {
        &self.states[n as usize]
    }

    /// Each filter's id with its first state, in order of the filters. It takes no memory.
    pub fn firsts(&self) -> &[First]
        ensures all { result.now ≡ self.now.firsts }
    {
        &self.firsts
    }

    /// The ids of the filters whose first state is this one, rising. It takes no memory.
    pub fn ids_of(&self, state: u32) -> &[u32]
        ensures all { result.now ≡ accept self.now.firsts (state ∷ []) }
    {
        self.ids.row(state)
    }

    /// The label of an element's name: 1 where no state tests it. It takes no memory.
    pub fn label_of_element(&self, name: &[u8]) -> u32
        ensures label { result ≡ labels.label_number (labels.names_of self.now.states)
            (ElementKind name.now) }
    {
        self.paths.names().element(name)
    }

    /// The label of an attribute's name: 2 where no state tests it. It takes no memory.
    pub fn label_of_attribute(&self, name: &[u8]) -> u32
        ensures label { result ≡ labels.label_number (labels.names_of self.now.states)
            (AttributeKind name.now) }
    {
        self.paths.names().attribute(name)
    }

    /// Whether the label is an element's. It takes no memory.
    pub fn is_element(&self, label: u32) -> bool
        ensures value { result ≡ labels.is_element_label (labels.names_of self.now.states) label }
    {
        self.paths.names().is_element(label)
    }

    /// The class of a text among the string literals: 0 where it equals none. It takes no memory.
    pub fn text_class(&self, text: &[u8]) -> u32
        ensures class { result ≡ classes.text_class self.now.states text.now }
    {
        self.values.text_class(text)
    }

    /// The class of a text among the number literals: 0 where it is no number. It takes no memory.
    pub fn number_class(&self, text: &[u8]) -> u32
        ensures class { result ≡ classes.number_class self.now.states text.now }
    {
        self.values.number_class(text)
    }

    /// Whether a label meets the test of a state, which is a Path. It takes no memory.
    pub fn is_met(&self, n: u32, label: u32) -> bool
        ensures value { result ≡ tables.is_met (labels.label_at self.now.states label)
            (state_at self.now.states n) }
    {
        self.paths.is_met(n, label)
    }

    /// The Path states whose body has this guard, rising: they are true at a child only where the
    /// guard is in its set. It takes no memory.
    pub fn guarded_by(&self, guard: u32) -> &[u32]
        ensures all { result.now ≡ tables.guarded_by self.now.states guard }
    {
        self.paths.guarded_by(guard)
    }

    /// The Path states without a guard that test the very name of a label, or texts, rising.
    /// It takes no memory.
    pub fn unguarded_exactly(&self, label: u32) -> &[u32]
        ensures all { result.now ≡ tables.unguarded_exactly self.now.states label }
    {
        self.paths.unguarded_exactly(label)
    }

    /// The Path states without a guard that test any name, where the label is of that kind, rising.
    /// It takes no memory.
    pub fn unguarded_loosely(&self, label: u32) -> &[u32]
        ensures all { result.now ≡ tables.unguarded_loosely self.now.states label }
    {
        self.paths.unguarded_loosely(label)
    }

    /// The Value states that are equal to the literal of a text class, rising. It takes no memory.
    pub fn equal_texts(&self, class: u32) -> &[u32]
        ensures all { result.now ≡ tables.equal_texts self.now.states class }
    {
        self.values.equal_texts(class)
    }

    /// The Value states that are not equal to a literal, rising. It takes no memory.
    pub fn unequal_texts(&self) -> &[u32]
        ensures all { result.now ≡ tables.unequal_texts self.now.states }
    {
        self.values.unequal_texts()
    }

    /// The class of a Value state's own value, and 0 of any other state. It takes no memory.
    pub fn own_class(&self, n: u32) -> u32
        ensures class { result ≡ tables.own_class self.now.states (state_at self.now.states n) }
    {
        self.values.own_class(n)
    }

    /// The Value states with this relation to a number, each with the class of its number, by
    /// rising classes. It takes no memory.
    pub fn related(&self, relation: Relation) -> &[Related]
        ensures all { tables.AreRelated self.now.states relation result.now }
    {
        self.values.related(relation)
    }
}
