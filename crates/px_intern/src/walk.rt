//! Walking the path of a word, and writing it to the first empty place.
ghost use Rattle.std.specs.Prelude.{◌≡◌, ℕ, ◌+◌, ◌<◌, ◌≤◌, true};
ghost use Rattle.px_rule.specs.Words.{key_of, IsShape, size_of, path_of, long_of};
ghost use Rattle.px_rule.specs.Table.{is_inside};
ghost use Rattle.px_rule.specs.Kept.{Grew};
ghost use Rattle.px_intern.specs.Answers.{IsSound, IsProper, IsPassed, WroteOnly, TryGives, SeekGives};

use crate::answers::Sought;
use crate::paths::{first_place, place_after, turns};
use px_rule::{Law, Seat, Shared};

// Looks at a place of the path of a word, writes the word there if it is empty, and answers what
// stands there.
fn try_place<L: Law>(shared: &Shared<L>, seat: &mut Seat<L>, word: u64, at: u32) -> u64
    requires table { seat.old.table ≡ shared.now }
    requires inside { is_inside seat.old.view.stay.place ≡ true }
    requires shape { IsShape shared.now.shape }
    requires within { at < size_of shared.now.shape }
    requires word { IsProper L.right shared.now.shape seat.old.view word }
    requires path { (turn : ℕ) × (turn < long_of shared.now.shape (key_of word)) ×
        (at ≡ path_of shared.now.shape (key_of word) turn) ×
        IsPassed shared.now.shape word turn seat.old.view }
    ensures table { seat.new.table ≡ seat.old.table }
    ensures grew { Grew seat.old.view seat.new.view }
    ensures sound { IsSound L.right shared.now.shape seat.new.view }
    ensures wrote { WroteOnly word seat.old.view seat.new.view }
    ensures touched { seat.new.view.touch.touches ≤ seat.old.view.touch.touches + 2 }
    ensures found { TryGives shared.now.shape word seat.old.view seat.new.view at result }
{
    let found = shared.look_step(seat, at);
    if found != 0 {
        return found;
    }
    let found = shared.write_step(seat, at, word);
    if found == 0 { word } else { found }
}

/// Walks the path of a word until a place has a word of its key, and writes it to the first empty
/// place.
pub(crate) fn seek<L: Law>(shared: &Shared<L>, seat: &mut Seat<L>, word: u64) -> Sought
    requires table { seat.old.table ≡ shared.now }
    requires inside { is_inside seat.old.view.stay.place ≡ true }
    requires word { IsProper L.right shared.now.shape seat.old.view word }
    ensures table { seat.new.table ≡ seat.old.table }
    ensures grew { Grew seat.old.view seat.new.view }
    ensures sound { IsSound L.right shared.now.shape seat.new.view }
    ensures wrote { WroteOnly word seat.old.view seat.new.view }
    ensures touched { seat.new.view.touch.touches ≤ seat.old.view.touch.touches + 128 }
    ensures shape { IsShape shared.now.shape }
    ensures answer { SeekGives shared.now.shape word seat.old.view seat.new.view result }
{
    let mut at = first_place(shared, word);
    for turn in 0..turns(shared, word) {
        let found = try_place(shared, seat, word, at);
        if found >> 20 == word >> 20 {
            return Sought::At { place: at };
        }
        at = place_after(shared, word, at);
    }
    Sought::Blocked
}
