//! What each kind of step tells the seat that makes it.
use crate::law::Law;
use crate::view::View;
use atomic_table::{Join, Play, Split};
use std::marker::{Brand, PhantomData};

/// What a call means to do with its step. Each call picks it.
pub(crate) trait Aim {
    ghost use Rattle.std.specs.Prelude.{ℕ};
    ghost use Rattle.px_rule.specs.declared.shape.Shape.{Shape};

    ghost shape: { Shape };

    ghost bank: { ℕ };

    ghost old: { ℕ };

    ghost version: { ℕ };

    ghost place: { ℕ };

    ghost word: { ℕ };
}

impl Aim for Brand {
    ghost use Rattle.px_rule.specs.Table.{no_shape};

    ghost shape = { no_shape };

    ghost bank = { 0 };

    ghost old = { 0 };

    ghost version = { 0 };

    ghost place = { 0 };

    ghost word = { 0 };
}

/// The entry that a permit is asked for.
pub(crate) trait Asked<E> {
    ghost use Rattle.std.specs.Prelude.{Option};

    ghost entry: { Option E };
}

impl<E> Asked<E> for Brand {
    ghost use Rattle.std.specs.Prelude.{None};

    ghost entry = { None };
}

/// Load.
pub(crate) struct Loading<L, A> {
    law: PhantomData<(L, A)>,
}

impl<L: Law, A: Aim> Play<(), View<L::Entry>> for Loading<L, A> {
    ghost use Rattle.std.specs.Prelude.{◌≡◌};
    ghost use Rattle.px_rule.specs.Steps.{Loads};
    ghost use Rattle.px_rule.specs.Clauses.{Moment};

    ghost then = { λ _ me n after. Loads L.who L.legal me.0 n after.0 ×
        Moment L.who L.legal L.right A.shape me.0 n × (after.1 ≡ me.1) };
}

/// A load behind a join. It leaves the view.
pub(crate) struct Telling<L> {
    law: PhantomData<L>,
}

impl<L: Law> Play<(), View<L::Entry>> for Telling<L> {
    ghost use Rattle.std.specs.Prelude.{◌≡◌};
    ghost use Rattle.px_rule.specs.Steps.{Told};

    ghost then = { λ _ me n after. (after.0 ≡ me.0) × Told L.who L.legal me.0.past n ×
        (after.1 ≡ me.1) };
}

/// Accept.
pub(crate) struct Accepting<L> {
    law: PhantomData<L>,
}

impl<L: Law> Play<(), View<L::Entry>> for Accepting<L> {
    ghost use Rattle.std.specs.Prelude.{◌≡◌};
    ghost use Rattle.px_rule.specs.Steps.{Accepts};

    ghost then = { λ _ me n after. Accepts me.0 n after.0 × (after.1 ≡ me.1) };
}

/// Enter.
pub(crate) struct Entering<A> {
    aim: PhantomData<A>,
}

impl<E, A: Aim> Play<(), View<E>> for Entering<A> {
    ghost use Rattle.std.specs.Prelude.{◌≡◌};
    ghost use Rattle.px_rule.specs.Steps.{Enters};

    ghost then = { λ _ me n after. Enters A.bank A.version me.0 n after.0 × (after.1 ≡ me.1) };
}

/// Leave.
pub(crate) struct Leaving;

impl<E> Play<(), View<E>> for Leaving {
    ghost use Rattle.std.specs.Prelude.{◌≡◌};
    ghost use Rattle.px_rule.specs.Steps.{Leaves};

    ghost then = { λ _ me _ after. Leaves me.0 after.0 × (after.1 ≡ me.1) };
}

/// Claim.
pub(crate) struct Claiming<A> {
    aim: PhantomData<A>,
}

impl<E, A: Aim> Play<(), View<E>> for Claiming<A> {
    ghost use Rattle.std.specs.Prelude.{◌≡◌};
    ghost use Rattle.px_rule.specs.Steps.{Claims};

    ghost then = { λ _ me n after. Claims A.bank A.old A.version me.0 n after.0 ×
        (after.1 ≡ me.1) };
}

/// Zero.
pub(crate) struct Zeroing<A> {
    aim: PhantomData<A>,
}

impl<E, A: Aim> Play<(), View<E>> for Zeroing<A> {
    ghost use Rattle.std.specs.Prelude.{◌≡◌};
    ghost use Rattle.px_rule.specs.Steps.{Zeroed};

    ghost then = { λ _ me _ after. Zeroed A.bank me.0 after.0 × (after.1 ≡ me.1) };
}

/// Publish.
pub(crate) struct Publishing<A> {
    aim: PhantomData<A>,
}

impl<E, A: Aim> Play<(), View<E>> for Publishing<A> {
    ghost use Rattle.std.specs.Prelude.{◌≡◌};
    ghost use Rattle.px_rule.specs.Steps.{Published};

    ghost then = { λ _ me _ after. Published A.bank me.0 after.0 × (after.1 ≡ me.1) };
}

/// Look.
pub(crate) struct Looking<L, A> {
    law: PhantomData<(L, A)>,
}

impl<L: Law, A: Aim> Play<(), View<L::Entry>> for Looking<L, A> {
    ghost use Rattle.std.specs.Prelude.{◌≡◌};
    ghost use Rattle.px_rule.specs.Steps.{Looked, Shown};

    ghost then = { λ _ me n after. (Looked A.bank A.version A.place me.0 n after.0 ×
        Shown L.right A.shape A.bank A.version A.place me.0 n) × (after.1 ≡ me.1) };
}

/// Write.
pub(crate) struct Writing<L, A> {
    law: PhantomData<(L, A)>,
}

impl<L: Law, A: Aim> Play<(), View<L::Entry>> for Writing<L, A> {
    ghost use Rattle.std.specs.Prelude.{◌≡◌};
    ghost use Rattle.px_rule.specs.Steps.{Written, Shown};

    ghost then = { λ _ me n after. (Written A.bank A.version A.place A.word me.0 n after.0 ×
        Shown L.right A.shape A.bank A.version A.place me.0 n) × (after.1 ≡ me.1) };
}

/// Split: a note.
pub(crate) struct Noting;

impl<E> Split<View<E>> for Noting {
    ghost use Rattle.std.specs.Prelude.{None};
    ghost use Rattle.px_rule.specs.Steps.{whole_note};

    ghost left = { λ v. v };

    ghost right = { whole_note None };
}

/// Split: a note with a permit.
pub(crate) struct Asking<A> {
    asked: PhantomData<A>,
}

impl<E, A: Asked<E>> Split<View<E>> for Asking<A> {
    ghost use Rattle.px_rule.specs.Steps.{whole_note, whole_asking};

    ghost left = { whole_asking A.entry };

    ghost right = { whole_note A.entry };
}

/// Split: the next pass.
pub(crate) struct Making;

impl<E> Split<View<E>> for Making {
    ghost use Rattle.px_rule.specs.Steps.{whole_more, whole_pass};

    ghost left = { whole_more };

    ghost right = { whole_pass };
}

/// Join: a note into a pass, or a pass's note into the desk.
pub(crate) struct Joining;

impl<E> Join<View<E>> for Joining {
    ghost use Rattle.px_rule.specs.Steps.{joined, whole_spent};

    ghost both = { joined };

    ghost spent = { whole_spent };
}
