//! Looking for the word of a step, and putting it.
ghost use Rattle.std.specs.Prelude.{◌≡◌, ◌+◌, ◌<◌, ◌≤◌, true};
ghost use Rattle.px_rule.specs.Words.{step_word as word_of_step};
ghost use Rattle.px_rule.specs.Table.{is_inside};
ghost use Rattle.px_rule.specs.Kept.{Grew};
ghost use Rattle.px_intern.specs.Answers.{IsSound, Finds, IsRightStep, WroteOnly, Puts};

use crate::answers::{Find, Put, Sought};
use crate::paths::{first_place, place_after, turns};
use crate::walk::seek;
use px_rule::{Law, Seat, Shared, step_word};
use px_text::Op;

/// Looks for a step in the bank that the seat is inside, and answers the number of its result, or
/// that it is absent.
pub fn find<L: Law>(shared: &Shared<L>, seat: &mut Seat<L>, op: Op, a: u32, b: u32) -> Find
    requires table { seat.old.table ≡ shared.now }
    requires inside { is_inside seat.old.view.stay.place ≡ true }
    requires fields { (a < 1048576) × (b < 1048576) }
    ensures table { seat.new.table ≡ seat.old.table }
    ensures grew { Grew seat.old.view seat.new.view }
    ensures sound { IsSound L.right shared.now.shape seat.new.view }
    ensures wrote_none { seat.new.view.touch.wrote ≡ seat.old.view.touch.wrote }
    ensures touched { (seat.old.view.touch.touches < seat.new.view.touch.touches) ×
        (seat.new.view.touch.touches ≤ seat.old.view.touch.touches + 64) }
    ensures answer { Finds L.right shared.now.shape op a b seat.old.view seat.new.view result }
{
    let key = step_word(op, a, b, 0);
    let mut at = first_place(shared, key);
    for turn in 0..turns(shared, key) {
        let found = shared.look_step(seat, at);
        if found == 0 {
            return Find::Absent;
        }
        if found >> 20 == key >> 20 {
            return Find::Found((found % (1 << 20)) as u32);
        }
        at = place_after(shared, key, at);
    }
    Find::Absent
}

/// Puts a step with the number of its answer into the bank that the seat is inside. `Full` is
/// answered where no place of its path is free.
pub fn put<L: Law>(shared: &Shared<L>, seat: &mut Seat<L>, op: Op, a: u32, b: u32, r: u32) -> Put
    requires table { seat.old.table ≡ shared.now }
    requires inside { is_inside seat.old.view.stay.place ≡ true }
    requires fields { (a < 1048576) × (b < 1048576) × (r < 1048576) }
    requires step { IsRightStep L.right shared.now.shape seat.old.view op a b r }
    ensures table { seat.new.table ≡ seat.old.table }
    ensures grew { Grew seat.old.view seat.new.view }
    ensures sound { IsSound L.right shared.now.shape seat.new.view }
    ensures wrote { WroteOnly (word_of_step op a b r) seat.old.view seat.new.view }
    ensures touched { seat.new.view.touch.touches ≤ seat.old.view.touch.touches + 128 }
    ensures answer { Puts shared.now.shape (word_of_step op a b r) seat.old.view seat.new.view
        result }
{
    let word = step_word(op, a, b, r);
    match seek(shared, seat, word) {
        Sought::At { .. } => Put::Put,
        Sought::Blocked => Put::Full { word },
    }
}
