//! What a seat knows of the numbers that it drew, and the rule of the word.
use atomic_table::{Join, Play, Seat, Split, Table, TableRule};
use std::alloc::Global;
use std::collections::LinkedList;
use std::marker::{Brand, PhantomData};

/// How many numbers there are to draw, and how many parts the right to know them all has.
#[derive(Clone, Copy, Drop)]
pub struct Quota {
    pub limit: u64,
    pub parts: u64,
}

/// What a seat knows. No value of it is made.
pub struct Hand {
    pub parts: u64,
    /// The numbers that it drew, in order.
    pub drawn: LinkedList<u64>,
    /// How many of them are not below the limit.
    pub ends: u64,
}

/// Each number is drawn once.
pub struct EachOnce;

impl TableRule<(), Hand, Quota> for EachOnce {
    ghost use Rattle.px_crew.specs.Drawn.{Given, hand};
    ghost use Rattle.std.specs.Prelude.{[]};

    ghost holds = { Given };

    ghost first = { λ quota. hand quota.parts [] 0 };
}

pub type Word = Table<(), Hand, Quota, EachOnce, Global>;

pub type Token = Seat<(), Hand>;

/// The quota of a table, which each call picks.
pub(crate) trait Known {
    ghost use Rattle.px_crew.specs.declared.rule.Quota.{Quota};

    ghost quota: { Quota };
}

impl Known for Brand {
    ghost use Rattle.px_crew.specs.Drawn.{quota_of};

    ghost quota = { quota_of 0 0 };
}

pub(crate) struct Drawing<K> {
    quota: PhantomData<K>,
}

impl<K: Known> Play<(), Hand> for Drawing<K> {
    ghost use Rattle.std.specs.Prelude.{◌≡◌};
    ghost use Rattle.px_crew.specs.Drawn.{Drew};

    ghost then = { λ _ me n after. Drew K.quota me.0 n after.0 × (after.1 ≡ me.1) };
}

pub(crate) struct Learning<K> {
    quota: PhantomData<K>,
}

impl<K: Known> Play<(), Hand> for Learning<K> {
    ghost use Rattle.std.specs.Prelude.{◌≡◌};
    ghost use Rattle.px_crew.specs.Drawn.{Learnt};

    ghost then = { λ _ me n after. Learnt K.quota me.0 n after.0 × (after.1 ≡ me.1) };
}

pub(crate) struct Sharing;

impl Split<Hand> for Sharing {
    ghost use Rattle.px_crew.specs.Drawn.{hand, one_part_less};
    ghost use Rattle.std.specs.Prelude.{[]};

    ghost left = { one_part_less };

    ghost right = { λ _. hand 1 [] 0 };
}

impl Join<Hand> for Sharing {
    ghost use Rattle.px_crew.specs.Drawn.{hand, both};
    ghost use Rattle.std.specs.Prelude.{[]};

    ghost both = { both };

    ghost spent = { hand 0 [] 0 };
}
