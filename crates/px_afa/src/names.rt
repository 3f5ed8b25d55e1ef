//! The labels of names.

ghost use Rattle.std.specs.Prelude.{◌≡◌, ◌<◌, ◌≤◌, ◌+◌, List, Some, IfOk, OnOk, length, vec_len};
ghost use Rattle.px_afa.specs.Building.{newest};
ghost use Rattle.px_afa.specs.Contents.{Kind, AttributeKind, ElementKind};
ghost use Rattle.px_afa.specs.Kept.{AreNames, flag_at};
ghost use Rattle.px_afa.specs.Labels.{is_attribute_label, is_element_label, label_number, names_of, state_name, tested, with_name};

use crate::dictionary::Dictionary;
use crate::state::State;
use px_xpath::Test;
use std::alloc::{AllocError, Global};

/// The names that states test, with their labels.
#[derive(Drop)]
pub struct Names {
    elements: Dictionary,
    attributes: Dictionary,
    /// Of each label from 3 on whether it is an element's.
    are_elements: Vec<bool>,
}

impl Names {
    /// The names that the states test. Its only failure is want of memory.
    pub fn of(alloc: Global, states: &[State]) -> Result<Names, AllocError>
        requires few { length states.now ≤ 500_000 }
        ensures all { IfOk result (λ names. AreNames names (names_of (newest states.now))) }
    {
        let mut names = Names {
            elements: Dictionary::new(alloc),
            attributes: Dictionary::new(alloc),
            are_elements: Vec::new(alloc),
        };
        for state in states {
            names.add(alloc, state)?;
        }
        Ok(names)
    }

    /// The number of labels.
    pub fn labels(&self) -> usize
        requires few { vec_len self.now.are_elements ≤ 500_000 }
        ensures count { (kinds : List Kind) → AreNames self.now kinds → result ≡ 3 + length kinds }
    {
        3 + self.are_elements.len()
    }

    /// The label of an element's name.
    pub fn element(&self, name: &[u8]) -> u32
        ensures label { (kinds : List Kind) → AreNames self.now kinds →
            result ≡ label_number kinds (ElementKind name.now) }
    {
        self.elements.find(name).unwrap_or(1)
    }

    /// The label of an attribute's name.
    pub fn attribute(&self, name: &[u8]) -> u32
        ensures label { (kinds : List Kind) → AreNames self.now kinds →
            result ≡ label_number kinds (AttributeKind name.now) }
    {
        self.attributes.find(name).unwrap_or(2)
    }

    /// Whether the label is an element's.
    pub fn is_element(&self, label: u32) -> bool
        ensures value { (kinds : List Kind) → AreNames self.now kinds →
            result ≡ is_element_label kinds label }
    {
        match self.flag(label) {
            Some(is_element) => is_element,
            None => label == 1,
        }
    }

    /// Whether the label is an attribute's.
    pub fn is_attribute(&self, label: u32) -> bool
        ensures value { (kinds : List Kind) → AreNames self.now kinds →
            result ≡ is_attribute_label kinds label }
    {
        match self.flag(label) {
            Some(is_element) => !is_element,
            None => label == 2,
        }
    }

    fn flag(&self, label: u32) -> Option<bool>
        ensures it { result ≡ flag_at self.now.are_elements.items label }
    {
        if label < 3 {
            None
        } else {
            self.are_elements.get(label as usize - 3).copied()
        }
    }

    fn add(&mut self, alloc: Global, state: &State) -> Result<(), AllocError>
        requires few { vec_len self.old.are_elements < 500_000 }
        ensures added { OnOk result ((kinds : List Kind) → AreNames self.old kinds →
            AreNames self.new (with_name (state_name state.now) kinds)) }
    {
        match state {
            State::Path { test, .. } => self.add_test(alloc, test),
            State::And { .. } => Ok(()),
            State::Or { .. } => Ok(()),
            State::Not { .. } => Ok(()),
            State::Value { .. } => Ok(()),
        }
    }

    fn add_test(&mut self, alloc: Global, test: &Test) -> Result<(), AllocError>
        requires few { vec_len self.old.are_elements < 500_000 }
        ensures added { OnOk result ((kinds : List Kind) → AreNames self.old kinds →
            AreNames self.new (with_name (tested test.now) kinds)) }
    {
        match test {
            Test::Element(name) => self.add_element(alloc, name.as_slice()),
            Test::Attribute(name) => self.add_attribute(alloc, name.as_slice()),
            Test::AnyElement => Ok(()),
            Test::AnyAttribute => Ok(()),
            Test::Text => Ok(()),
        }
    }

    fn add_element(&mut self, alloc: Global, name: &[u8]) -> Result<(), AllocError>
        requires few { vec_len self.old.are_elements < 500_000 }
        ensures added { OnOk result ((kinds : List Kind) → AreNames self.old kinds →
            AreNames self.new (with_name (Some (ElementKind name.now)) kinds)) }
    {
        match self.elements.find(name) {
            Some(_) => Ok(()),
            None => {
                let label = 3 + self.are_elements.len() as u32;
                self.elements.put(alloc, name, label)?;
                self.are_elements.push(true)?;
                Ok(())
            }
        }
    }

    fn add_attribute(&mut self, alloc: Global, name: &[u8]) -> Result<(), AllocError>
        requires few { vec_len self.old.are_elements < 500_000 }
        ensures added { OnOk result ((kinds : List Kind) → AreNames self.old kinds →
            AreNames self.new (with_name (Some (AttributeKind name.now)) kinds)) }
    {
        match self.attributes.find(name) {
            Some(_) => Ok(()),
            None => {
                let label = 3 + self.are_elements.len() as u32;
                self.attributes.put(alloc, name, label)?;
                self.are_elements.push(false)?;
                Ok(())
            }
        }
    }
}
