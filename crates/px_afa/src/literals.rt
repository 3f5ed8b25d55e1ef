//! The classes of string literals.

ghost use Rattle.std.specs.Prelude.{◌≡◌, ◌<◌, ◌≤◌, ◌+◌, List, ℕ, Some, IfOk, OnOk, length};
ghost use Rattle.px_afa.specs.Building.{newest};
ghost use Rattle.px_afa.specs.Classes.{class_of_text, literals_of, state_literal, with_literal};
ghost use Rattle.px_afa.specs.Kept.{AreLiterals, literal_in};

use crate::dictionary::Dictionary;
use crate::state::State;
use px_xpath::Value;
use std::alloc::{AllocError, Global};

/// The string literals of states, with their classes.
#[derive(Drop)]
pub struct Literals {
    classes: Dictionary,
    count: u32,
}

impl Literals {
    /// The literals of the states. Its only failure is want of memory.
    pub fn of(alloc: Global, states: &[State]) -> Result<Literals, AllocError>
        requires few { length states.now ≤ 500_000 }
        ensures all { IfOk result (λ table. AreLiterals table (literals_of (newest states.now))) }
    {
        let mut literals = Literals {
            classes: Dictionary::new(alloc),
            count: 0,
        };
        for state in states {
            literals.add(alloc, state)?;
        }
        Ok(literals)
    }

    /// How many literals there are.
    pub fn count(&self) -> u32
        ensures count { (literals : List (List ℕ)) → AreLiterals self.now literals →
            result ≡ length literals }
    {
        self.count
    }

    /// The class of a text: that of the literal which it equals, or 0.
    pub fn class(&self, text: &[u8]) -> u32
        ensures class { (literals : List (List ℕ)) → AreLiterals self.now literals →
            result ≡ class_of_text 1 literals text.now }
    {
        self.classes.find(text).unwrap_or(0)
    }

    fn add(&mut self, alloc: Global, state: &State) -> Result<(), AllocError>
        requires few { self.old.count < 500_000 }
        ensures added { OnOk result ((literals : List (List ℕ)) → AreLiterals self.old literals →
            AreLiterals self.new (with_literal (state_literal state.now) literals)) }
    {
        match state {
            State::Value { value, .. } => self.add_value(alloc, value),
            State::Path { .. } => Ok(()),
            State::And { .. } => Ok(()),
            State::Or { .. } => Ok(()),
            State::Not { .. } => Ok(()),
        }
    }

    fn add_value(&mut self, alloc: Global, value: &Value) -> Result<(), AllocError>
        requires few { self.old.count < 500_000 }
        ensures added { OnOk result ((literals : List (List ℕ)) → AreLiterals self.old literals →
            AreLiterals self.new (with_literal (literal_in value.now) literals)) }
    {
        match value {
            Value::Literal(text) => self.add_text(alloc, text.as_slice()),
            Value::Number(_) => Ok(()),
        }
    }

    fn add_text(&mut self, alloc: Global, text: &[u8]) -> Result<(), AllocError>
        requires few { self.old.count < 500_000 }
        ensures added { OnOk result ((literals : List (List ℕ)) → AreLiterals self.old literals →
            AreLiterals self.new (with_literal (Some text.now) literals)) }
    {
        match self.classes.find(text) {
            Some(_) => Ok(()),
            None => {
                let class = self.count + 1;
                self.classes.put(alloc, text, class)?;
                self.count = class;
                Ok(())
            }
        }
    }
}
