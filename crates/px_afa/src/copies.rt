//! Copies of states.

ghost use Rattle.std.specs.Prelude.{◌≡◌, IfOk};

use crate::state::State;
use std::alloc::AllocError;

impl State {
    /// An equal state. It takes memory for its name, literal or parts, and its only failure is want
    /// of memory.
    pub(crate) fn copy(&self) -> Result<State, AllocError>
        ensures same { IfOk result (λ copy. copy ≡ self.now) }
    {
        Ok(match self {
            State::Path { axis, test, body } => State::Path {
                axis: *axis,
                test: test.clone()?,
                body: *body,
            },
            State::And { parts } => State::And {
                parts: parts.clone()?,
            },
            State::Or { parts } => State::Or {
                parts: parts.clone()?,
            },
            State::Not { part } => State::Not { part: *part },
            State::Value { relation, value } => State::Value {
                relation: *relation,
                value: value.clone()?,
            },
        })
    }
}
