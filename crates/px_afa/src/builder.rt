//! States under numbers, equal states once.

ghost use Rattle.std.specs.Prelude.{◌≡◌, ◌<◌, ◌≤◌, ◌+◌, ◌∷◌, [], None, IfOk, OnOk, length};
ghost use Rattle.px_afa.specs.Building.{newest, number_of, share};

use crate::state::State;
use std::alloc::{AllocError, Global};
use std::collections::BTreeMap;
use std::marker::Model;

/// The states that were made so far. Contracts see them newest first.
#[derive(Drop)]
pub struct Builder {
    states: Vec<State>,
    /// The number of each state.
    numbers: BTreeMap<State, u32>,
}

impl Model for Builder {
    ghost use Rattle.std.specs.Prelude.{List};
    ghost use Rattle.px_afa.specs.declared.state.State.{State as StateValue};

    ghost Value = { List StateValue };

    ghost use Rattle.px_afa.specs.Building.{newest};
    ghost use Rattle.px_afa.specs.Numbering.{AreNumbered};

    ghost view = { λ builder. newest builder.states.items };

    ghost invariant = { λ builder. AreNumbered (newest builder.states.items) builder.numbers };
}

impl Builder {
    /// A builder without states. It takes no memory.
    pub fn new(alloc: Global) -> Builder
        ensures none { result ≡ [] }
    {
        Builder {
            states: Vec::new(alloc),
            numbers: BTreeMap::new(alloc),
        }
    }

    /// The number of a state, which is the next one where the state is new.
    /// It takes memory for a new state and a copy of it, and its only failure is want of memory.
    pub fn share(&mut self, state: State) -> Result<u32, AllocError>
        requires few { length self.old < 500_000 }
        ensures shared { IfOk result (λ n. record { states = self.new; number = n } ≡
            share state self.old) }
        ensures few { OnOk result (length self.new ≤ length self.old + 1) }
    {
        match self.number_of(&state) {
            Some(n) => Ok(n),
            None => self.add(state),
        }
    }

    /// The states in order of their numbers.
    pub fn into_states(self) -> Vec<State>
        ensures all { newest result.items ≡ self }
    {
        self.states
    }

    fn number_of(&self, state: &State) -> Option<u32>
        ensures found { result ≡ number_of state.now self.now }
    {
        self.numbers.get(state).copied()
    }

    fn add(&mut self, state: State) -> Result<u32, AllocError>
        requires few { length self.old < 500_000 }
        requires new { number_of state self.old ≡ None }
        ensures next { IfOk result (λ n. n ≡ length self.old) }
        ensures added { OnOk result (self.new ≡ state ∷ self.old) }
    {
        let n = self.states.len() as u32;
        let key = state.copy()?;
        self.states.reserve(1)?;
        self.numbers.insert(key, n)?;
        self.states.push(state)?;
        Ok(n)
    }
}
