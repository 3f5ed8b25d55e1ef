//! When two axes, tests, relations or values are equal or tied in their order: where they are the
//! same.

ghost use Rattle.std.specs.Prelude.{◌≡◌};
ghost use Rattle.std.specs.Bool.{Decides};
ghost use Rattle.std.specs.Ordering.{is_eq};

use crate::filter::{Axis, Relation, Test, Value};

/// `==` holds of two axes, tests, relations or values exactly where they are the same, and their
/// order answers `Equal` exactly there.
pub fn equal_is_same()
    ensures axes { (a b : Axis) → Decides (⟦<Axis as PartialEq>⟧.eq a b) (a ≡ b) }
    ensures tests { (a b : Test) → Decides (⟦<Test as PartialEq>⟧.eq a b) (a ≡ b) }
    ensures relations { (a b : Relation) → Decides (⟦<Relation as PartialEq>⟧.eq a b) (a ≡ b) }
    ensures values { (a b : Value) → Decides (⟦<Value as PartialEq>⟧.eq a b) (a ≡ b) }
    ensures tied_axes { (a b : Axis) → Decides (is_eq (⟦<Axis as Ord>⟧.cmp a b)) (a ≡ b) }
    ensures tied_tests { (a b : Test) → Decides (is_eq (⟦<Test as Ord>⟧.cmp a b)) (a ≡ b) }
    ensures tied_relations { (a b : Relation) →
        Decides (is_eq (⟦<Relation as Ord>⟧.cmp a b)) (a ≡ b) }
    ensures tied_values { (a b : Value) → Decides (is_eq (⟦<Value as Ord>⟧.cmp a b)) (a ≡ b) }
{}
