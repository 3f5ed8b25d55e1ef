//! The line, and the seats of those who give and take.
ghost use Rattle.std.specs.Prelude.{◌≡◌, ◌<◌, ◌-◌, None, Some, IfOk, MatchResult, MatchOption};
ghost use Rattle.px_line.specs.Lines.{first, made, new_giver, new_taker, cut, number_of, HasNumber};
ghost use Rattle.px_line.specs.Lines.{with_given, with_taker, with_ended, Keeps, Takes, Waits, Learns, HasLearnt, Held};

use crate::queue;
use crate::queue::{Queue, Token};
use crate::rule::Item;
use std::alloc::{AllocError, Global};
use std::marker::Model;
use std::sync::Wait;

/// A line in which items wait. Contracts see which line it is, and how many may wait.
#[derive(Drop)]
pub struct Line<T: Item> {
    queue: Queue<T>,
}

impl<T: Item> Model for Line<T> {
    ghost use Rattle.crossbeam_queue.specs.Passes.{ruled_capacity};
    ghost use Rattle.px_line.specs.Lines.{LineName};

    ghost Value = { LineName };

    ghost view = { λ line. record {
      table = line.queue.table.shared.table_id;
      capacity = ruled_capacity line.queue;
    } };
}

/// A seat at a line: what its holder may do there. Contracts see its line and what it knows.
#[derive(Drop)]
pub struct Seat<T: Item> {
    token: Token<T>,
}

impl<T: Item> Model for Seat<T> {
    ghost use Rattle.std.specs.Prelude.{◌≡◌, []};
    ghost use Rattle.crossbeam_queue.specs.Passes.{view as known};
    ghost use Rattle.px_line.specs.Lines.{Seated};

    ghost Value = { Seated T };

    ghost view = { λ seat. record { table = seat.token.table_id; knows = known seat.token } };

    ghost invariant = { λ seat. seat.token.me.1 ≡ [] };
}

impl<T: Item> Line<T> {
    /// A line in which nothing waits, and its first seat. Its only failure is want of memory.
    pub fn create(alloc: Global, capacity: u32) -> Result<(Line<T>, Seat<T>), AllocError>
        requires some { 0 < capacity }
        ensures capacity { IfOk result (λ opened. opened.0.capacity ≡ capacity) }
        ensures table { IfOk result (λ opened. opened.1.table ≡ opened.0.table) }
        ensures seat { IfOk result (λ opened. opened.1.knows ≡ first) }
    {
        let (queue, token) = queue::create(alloc, capacity)?;
        Ok((Line { queue }, Seat { token }))
    }

    /// Makes the next giver.
    pub fn giver(&self, seat: &mut Seat<T>) -> Seat<T>
        requires table { seat.old.table ≡ self.now.table }
        requires makes { HasNumber seat.old.knows.makes × (seat.old.knows.gives ≡ None) }
        ensures table { (seat.new.table ≡ seat.old.table) × (result.table ≡ seat.old.table) }
        ensures left { seat.new.knows ≡ made (number_of seat.old.knows.makes) seat.old.knows }
        ensures giver { result.knows ≡ new_giver (number_of seat.old.knows.makes) }
    {
        Seat {
            token: queue::make_giver(&self.queue, &mut seat.token),
        }
    }

    /// Cuts off a taker. From then on the seat no more takes alone.
    pub fn taker(&self, seat: &mut Seat<T>) -> Seat<T>
        requires table { seat.old.table ≡ self.now.table }
        requires parts { 1 < seat.old.knows.parts }
        ensures table { (seat.new.table ≡ seat.old.table) × (result.table ≡ seat.old.table) }
        ensures left { seat.new.knows ≡ cut (seat.old.knows.parts - 1) seat.old.knows }
        ensures taker { result.knows ≡ new_taker }
    {
        Seat {
            token: queue::cut_taker(&self.queue, &mut seat.token),
        }
    }

    /// Puts an item at the back. It comes back only where the line was full at some moment of this
    /// call, and then nothing was given.
    pub fn give<R: Wait>(&self, rt: &R, seat: &mut Seat<T>, item: T) -> Result<(), T>
        requires table { seat.old.table ≡ self.now.table }
        requires giver { seat.old.knows.gives ≡ Some (T.giver item) }
        requires only { seat.old.knows.makes ≡ None }
        requires next { T.next seat.old.knows.given item }
        ensures table { seat.new.table ≡ seat.old.table }
        ensures keeps { Keeps seat.old.knows seat.new.knows }
        ensures given { MatchResult result
            (λ _. seat.new.knows ≡ with_given seat.old.knows item)
            (λ back. (back ≡ item) × (seat.new.knows ≡ seat.old.knows) ×
            Held self.now.capacity (Waits T.giver seat.old.knows)) }
    {
        queue::give(&self.queue, rt, &mut seat.token, item)
    }

    /// Takes the item at the front. There is none only where none waited at some moment of this
    /// call, and then the seat learns what it can of all that was given.
    pub fn take<R: Wait>(&self, rt: &R, seat: &mut Seat<T>) -> Option<T>
        requires table { seat.old.table ≡ self.now.table }
        requires part { 0 < seat.old.knows.parts }
        ensures table { seat.new.table ≡ seat.old.table }
        ensures keeps { Keeps seat.old.knows seat.new.knows }
        ensures taken { MatchOption result
            ((seat.new.knows ≡ seat.old.knows) × Held 0 (Learns T.giver T.next seat.old.knows))
            (λ item. Takes T.giver T.next seat.old.knows item seat.new.knows) }
    {
        queue::take(&self.queue, rt, &mut seat.token)
    }

    /// Learns what the seat can know of all that was given, at one moment of this call.
    pub fn learn(&self, seat: &mut Seat<T>)
        requires table { seat.old.table ≡ self.now.table }
        ensures same { seat.new ≡ seat.old }
        ensures learnt { HasLearnt T.giver T.next seat.old.knows }
    {
        queue::learn(&self.queue, &mut seat.token);
    }

    /// Takes in a taker, and all that it took.
    pub fn join(&self, seat: &mut Seat<T>, taker: Seat<T>)
        requires tables { (seat.old.table ≡ self.now.table) × (taker.table ≡ self.now.table) }
        ensures table { seat.new.table ≡ seat.old.table }
        ensures both { seat.new.knows ≡ with_taker seat.old.knows taker.knows }
    {
        let Seat { token } = taker;
        queue::join(&self.queue, &mut seat.token, token);
    }

    /// Takes in a giver at its end, and all that it gave. Nothing more of it comes.
    pub fn end(&self, seat: &mut Seat<T>, giver: Seat<T>)
        requires tables { (seat.old.table ≡ self.now.table) × (giver.table ≡ self.now.table) }
        requires giver { HasNumber giver.knows.gives × (giver.knows.parts ≡ 0) }
        ensures table { seat.new.table ≡ seat.old.table }
        ensures ended { seat.new.knows ≡
            with_ended seat.old.knows (number_of giver.knows.gives) giver.knows.given }
    {
        let Seat { token } = giver;
        queue::end(&self.queue, &mut seat.token, token);
    }
}
