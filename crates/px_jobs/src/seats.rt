//! The giver, the takers, and what remains of them at the end.
use crate::job::Job;
use px_line::Seat;
use std::marker::Model;

/// The one that gives. Contracts see its line and the jobs that it gave, in order.
#[derive(Drop)]
pub struct Giver<L> {
    pub(crate) gives: Seat<Job<L>>,
    pub(crate) rest: Seat<Job<L>>,
}

impl<L> Model for Giver<L> {
    ghost use Rattle.std.specs.Prelude.{◌≡◌, [], ◌<◌, Some, None};
    ghost use Rattle.px_jobs.specs.Jobs.{Giving};

    ghost Value = { Giving L };

    ghost view = { λ giver. record {
      line = giver.gives.table;
      parts = giver.rest.knows.parts;
      given = giver.gives.knows.given;
    } };

    ghost invariant = { λ giver. (giver.rest.table ≡ giver.gives.table)
        × (giver.gives.knows.gives ≡ Some 0) × (giver.gives.knows.makes ≡ None)
        × (giver.gives.knows.parts ≡ 0) × (giver.rest.knows.taken ≡ [])
        × (0 < giver.rest.knows.parts) };
}

/// One that takes. Contracts see its line and the jobs that it took, in order.
#[derive(Drop)]
pub struct Taker<L> {
    pub(crate) seat: Seat<Job<L>>,
}

impl<L> Model for Taker<L> {
    ghost use Rattle.std.specs.Prelude.{◌≡◌};
    ghost use Rattle.px_jobs.specs.Jobs.{Taking};

    ghost Value = { Taking L };

    ghost view = { λ taker. record { line = taker.seat.table; taken = taker.seat.knows.taken } };

    ghost invariant = { λ taker. taker.seat.knows.parts ≡ 1 };
}

/// The giver at its end, and the takers that it has taken in. It takes what is left in the line.
#[derive(Drop)]
pub struct Rest<L> {
    pub(crate) seat: Seat<Job<L>>,
}

impl<L> Model for Rest<L> {
    ghost use Rattle.std.specs.Prelude.{◌≡◌, ◌<◌, Some};
    ghost use Rattle.px_line.specs.Lines.{ended_of};
    ghost use Rattle.px_jobs.specs.Jobs.{Ending, or_nothing};

    ghost Value = { Ending L };

    ghost view = { λ rest. record {
      line = rest.seat.table;
      parts = rest.seat.knows.parts;
      given = or_nothing (ended_of 0 rest.seat.knows.ended);
      taken = rest.seat.knows.taken;
    } };

    ghost invariant = { λ rest. (0 < rest.seat.knows.parts)
        × (ended_of 0 rest.seat.knows.ended ≡
        Some (or_nothing (ended_of 0 rest.seat.knows.ended))) };
}
