//! Filters as values of the program.

ghost use Rattle.std.specs.Prelude.{IsTrue};
ghost use Rattle.std.specs.Arc.{arc_value};
ghost use Rattle.px_xpath.specs.Views.{way};
ghost use Rattle.px_xpath.specs.Proper.{is_proper};

use px_text::{Bytes, Decimal};
use sqlite_items::{Boxed, Items};
use std::sync::Arc;

/// How far below a place a step looks: among its children, or among all that is below it.
#[derive(Clone, Copy, Debug, Drop, PartialEq, Eq, PartialOrd, Ord)]
pub enum Axis {
    Child,
    Below,
}

/// Which places a step stands for.
#[derive(Clone, Drop, PartialEq, Eq, PartialOrd, Ord)]
pub enum Test {
    Element(Bytes),
    AnyElement,
    Attribute(Bytes),
    AnyAttribute,
    Text,
}

/// How the string-value of a place is to stand to a value.
#[derive(Clone, Copy, Debug, Drop, PartialEq, Eq, PartialOrd, Ord)]
pub enum Relation {
    Equal,
    NotEqual,
    Less,
    AtMost,
    Greater,
    AtLeast,
}

/// What a string-value is compared with.
#[derive(Clone, Drop, PartialEq, Eq, PartialOrd, Ord)]
pub enum Value {
    Number(Decimal),
    Literal(Bytes),
}

/// A path by its steps, of which there is at least one.
#[cycle(filter)]
#[derive(Drop)]
pub struct Path {
    pub steps: Items<Step>,
}

/// A step of a path: where it looks, for what, and the conditions that have to hold there.
#[cycle(filter)]
#[derive(Drop)]
pub struct Step {
    pub axis: Axis,
    pub test: Test,
    pub conds: Items<Cond>,
}

/// A condition on a place. An `And` and an `Or` have at least two members.
#[cycle(filter)]
#[derive(Drop)]
pub enum Cond {
    Exists(Path),
    Compare(Path, Relation, Value),
    And(Items<Cond>),
    Or(Items<Cond>),
    Not(Boxed<Cond>),
}

/// A filter: each path in it has a step, each `and` and `or` two members, and a literal only an
/// equality before it. Its path is shared by all that were made of it with `share`.
#[derive(Drop)]
pub struct Filter {
    pub path: Arc<Path>,
    ghost proper: { IsTrue (is_proper (way (arc_value path))) },
}
