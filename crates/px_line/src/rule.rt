//! What a seat knows of the items of a line, and the rule of the line.
use crossbeam_queue::protocol::{Join, Lesson, Outcome, Protocol, Split};
use std::collections::LinkedList;

/// What waits in a line.
pub trait Item {
    ghost use Rattle.std.specs.Prelude.{ℕ, List};

    /// The number of the giver of this item.
    ghost giver: { Self → ℕ };

    /// Whether an item may be given behind these, which its giver gave before it.
    ghost next: { List Self → Self → Type 0 };
}

/// What a seat knows. No value of it is made.
pub struct Known<T> {
    /// Its parts of the right to take.
    pub parts: u64,
    /// Whether it takes alone, so that what it took is all that was taken, in order.
    pub alone: bool,
    /// The number of the giver that it is.
    pub gives: Option<u64>,
    /// It may make the givers from this number on.
    pub makes: Option<u64>,
    /// The items that it gave, in order.
    pub given: LinkedList<T>,
    /// The items that it took, in order.
    pub taken: LinkedList<T>,
    /// The givers that it took in at their end, and all that each of them gave.
    pub ended: LinkedList<(u64, LinkedList<T>)>,
}

/// What was given is what was taken and then what waits.
pub struct InLine;

impl<T: Item> Protocol<T, Known<T>> for InLine {
    ghost use Rattle.px_line.specs.Lines.{Standing, first};

    ghost holds = { Standing T.giver T.next };

    ghost first = { first };
}

/// An item was given.
pub(crate) struct Gives;

impl<T> Outcome<T, Known<T>> for Gives {
    ghost use Rattle.std.specs.Prelude.{◌≡◌};
    ghost use Rattle.px_line.specs.Lines.{with_given};

    ghost then = { λ v x w. w ≡ with_given v x };
}

impl<T: Item> Lesson<T, Known<T>> for Gives {
    ghost use Rattle.px_line.specs.Lines.{Waits};

    ghost fact = { Waits T.giver };
}

/// An item was taken.
pub(crate) struct Taking;

impl<T: Item> Outcome<T, Known<T>> for Taking {
    ghost use Rattle.px_line.specs.Lines.{Takes};

    ghost then = { Takes T.giver T.next };
}

impl<T: Item> Lesson<T, Known<T>> for Taking {
    ghost use Rattle.px_line.specs.Lines.{Learns};

    ghost fact = { Learns T.giver T.next };
}

/// A taker is cut off, or taken in.
pub(crate) struct Takers;

impl<T> Split<Known<T>> for Takers {
    ghost use Rattle.std.specs.Prelude.{◌-◌};
    ghost use Rattle.px_line.specs.Lines.{cut, new_taker};

    ghost left = { λ v. cut (v.parts - 1) v };

    ghost right = { λ _. new_taker };
}

impl<T> Join<Known<T>> for Takers {
    ghost use Rattle.px_line.specs.Lines.{with_taker, nobody};

    ghost both = { with_taker };

    ghost spent = { nobody };
}

/// A giver is made, or taken in at its end.
pub(crate) struct Givers;

impl<T> Split<Known<T>> for Givers {
    ghost use Rattle.px_line.specs.Lines.{number_of, made, new_giver};

    ghost left = { λ v. made (number_of v.makes) v };

    ghost right = { λ v. new_giver (number_of v.makes) };
}

impl<T> Join<Known<T>> for Givers {
    ghost use Rattle.px_line.specs.Lines.{number_of, with_ended, nobody};

    ghost both = { λ v w. with_ended v (number_of w.gives) w.given };

    ghost spent = { nobody };
}
