//! The states of a program.

use px_text::Words;
use px_xpath::{Axis, Relation, Test, Value};

/// What has to be true at a child: nothing, or the state of this number.
#[derive(Clone, Copy, Debug, Drop, PartialEq, Eq, PartialOrd, Ord)]
pub enum Body {
    Always,
    State(u32),
}

/// What can be true at a node. A state names its parts by their numbers, which are below its own.
#[derive(Drop, PartialEq, Eq, PartialOrd, Ord)]
pub enum State {
    /// Some child meets the test and the body is true there; or, for `Below`, the same state is
    /// true at a child that is an element.
    Path { axis: Axis, test: Test, body: Body },
    /// All parts are true here.
    And { parts: Words },
    /// Some part is true here.
    Or { parts: Words },
    /// The part is not true here.
    Not { part: u32 },
    /// The string-value of the node compares true with the value.
    Value { relation: Relation, value: Value },
}

/// A filter by its id, with its first state: that of its whole path.
#[derive(Clone, Copy, Debug, Drop, PartialEq, Eq)]
pub struct First {
    pub id: u32,
    pub state: u32,
}

/// A Value state that compares with a number, with the class of its number.
#[derive(Clone, Copy, Debug, Drop, PartialEq, Eq, PartialOrd, Ord)]
pub struct Related {
    pub class: u32,
    pub state: u32,
}
