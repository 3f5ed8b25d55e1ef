//! The rule as the base takes it: what holds of all words and all views between any two steps.
use crate::law::Law;
use crate::shape::Shape;
use crate::view::View;
use atomic_table::{Seat, Table, TableRule};
use std::alloc::Global;
use std::marker::PhantomData;

/// The rule of the shared words, under a law.
pub struct PushRule<L> {
    law: PhantomData<L>,
}

impl<L: Law> TableRule<(), View<L::Entry>, Shape> for PushRule<L> {
    ghost use Rattle.px_rule.specs.Rule.{Rule};
    ghost use Rattle.px_rule.specs.Steps.{opening_view};

    ghost holds = { λ shape. Rule L.who L.legal L.right shape };

    ghost first = { opening_view };
}

pub(crate) type Words<L> = Table<(), View<<L as Law>::Entry>, Shape, PushRule<L>, Global>;

pub(crate) type Token<L> = Seat<(), View<<L as Law>::Entry>>;
