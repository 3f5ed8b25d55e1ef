//! The number of a set, and the set of a number.
ghost use Rattle.std.specs.Prelude.{◌≡◌, ◌+◌, ◌*◌, ◌/◌, ◌%◌, ◌≤◌, ℕ, true, length, List, IfOk};
ghost use Rattle.px_text.specs.Sets.{Rising};
ghost use Rattle.px_rule.specs.Table.{is_inside};
ghost use Rattle.px_rule.specs.Kept.{Grew};
ghost use Rattle.px_intern.specs.Answers.{IsSound, Names, StaysSound, WroteNodes, Interns};

use crate::answers::{Intern, Sought};
use crate::walk::seek;
use px_rule::{Law, Seat, Shared, node_word};
use px_text::Set;
use std::alloc::{AllocError, Global};

/// The number of a set in the bank that the seat is inside: the same for all seats, while the bank
/// has its version. `Full` is answered where no place is free for a node word of the set.
pub fn intern<L: Law>(shared: &Shared<L>, seat: &mut Seat<L>, set: &Set) -> Intern
    requires table { seat.old.table ≡ shared.now }
    requires inside { is_inside seat.old.view.stay.place ≡ true }
    ensures table { seat.new.table ≡ seat.old.table }
    ensures grew { Grew seat.old.view seat.new.view }
    ensures sound { StaysSound L.right shared.now.shape seat.old.view seat.new.view }
    ensures wrote { WroteNodes L.right shared.now.shape set.now seat.old.view seat.new.view }
    ensures touched { seat.new.view.touch.touches ≤
        seat.old.view.touch.touches + 128 * length set.now }
    ensures answer { Interns L.right shared.now.shape set.now seat.new.view result }
{
    intern_rising(shared, seat, set.as_slice())
}

// The number of the set of these elements, which rise. Its node words are sought from the greatest
// element down.
fn intern_rising<L: Law>(shared: &Shared<L>, seat: &mut Seat<L>, elements: &[u32]) -> Intern
    requires table { seat.old.table ≡ shared.now }
    requires inside { is_inside seat.old.view.stay.place ≡ true }
    requires set { Rising elements.now }
    ensures table { seat.new.table ≡ seat.old.table }
    ensures grew { Grew seat.old.view seat.new.view }
    ensures sound { StaysSound L.right shared.now.shape seat.old.view seat.new.view }
    ensures wrote { WroteNodes L.right shared.now.shape elements.now seat.old.view seat.new.view }
    ensures touched { seat.new.view.touch.touches ≤
        seat.old.view.touch.touches + 128 * length elements.now }
    ensures answer { Interns L.right shared.now.shape elements.now seat.new.view result }
{
    let mut number = 0;
    let mut left = elements.len();
    while left > 0 {
        left -= 1;
        let element = elements[left];
        let word = node_word(element, number);
        match seek(shared, seat, word) {
            Sought::At { place } => number = place,
            Sought::Blocked => return Intern::Full { word },
        }
    }
    Intern::Number(number)
}

/// The set that a number stands for. The number is one that the seat was told. Its only failure is
/// want of memory.
pub fn set_of<L: Law>(
    alloc: Global,
    shared: &Shared<L>,
    seat: &mut Seat<L>,
    number: u32,
) -> Result<Set, AllocError>
    requires table { seat.old.table ≡ shared.now }
    requires inside { is_inside seat.old.view.stay.place ≡ true }
    requires told { (xs : List ℕ) × Names L.right shared.now.shape seat.old.view number xs }
    ensures table { seat.new.table ≡ seat.old.table }
    ensures grew { Grew seat.old.view seat.new.view }
    ensures sound { IsSound L.right shared.now.shape seat.new.view }
    ensures wrote_none { seat.new.view.touch.wrote ≡ seat.old.view.touch.wrote }
    ensures set { IfOk result (λ set. (xs : List ℕ) →
        Names L.right shared.now.shape seat.old.view number xs → set ≡ xs) }
{
    look_round(shared, seat);
    let elements = elements_of_set(alloc, shared, seat, number)?;
    Ok(Set::from_vec(elements))
}

// Looks at node place 0, where no word ever stands. The look tells that all that the seat keeps of
// the bank stands in one right bank.
fn look_round<L: Law>(shared: &Shared<L>, seat: &mut Seat<L>)
    requires table { seat.old.table ≡ shared.now }
    requires inside { is_inside seat.old.view.stay.place ≡ true }
    ensures table { seat.new.table ≡ seat.old.table }
    ensures grew { Grew seat.old.view seat.new.view }
    ensures sound { IsSound L.right shared.now.shape seat.new.view }
    ensures wrote_none { seat.new.view.touch.wrote ≡ seat.old.view.touch.wrote }
{
    shared.look_step(seat, 0);
}

// The rising elements of the set that a number stands for, read from its node words.
fn elements_of_set<L: Law>(
    alloc: Global,
    shared: &Shared<L>,
    seat: &mut Seat<L>,
    number: u32,
) -> Result<Vec<u32>, AllocError>
    requires table { seat.old.table ≡ shared.now }
    requires inside { is_inside seat.old.view.stay.place ≡ true }
    requires sound { IsSound L.right shared.now.shape seat.old.view }
    requires told { (xs : List ℕ) × Names L.right shared.now.shape seat.old.view number xs }
    ensures table { seat.new.table ≡ seat.old.table }
    ensures grew { Grew seat.old.view seat.new.view }
    ensures sound { IsSound L.right shared.now.shape seat.new.view }
    ensures wrote_none { seat.new.view.touch.wrote ≡ seat.old.view.touch.wrote }
    ensures set { IfOk result (λ set. (xs : List ℕ) →
        Names L.right shared.now.shape seat.old.view number xs → set.items ≡ xs) }
    ensures rising { IfOk result (λ set. Rising set.items) }
{
    let mut elements = Vec::new(alloc);
    let mut rest = number;
    while rest != 0 {
        let word = shared.look_step(seat, rest);
        let element = element_of(word);
        elements.push(element)?;
        rest = tail_of(word);
    }
    Ok(elements)
}

// The element of a node word.
fn element_of(word: u64) -> u32
    ensures element { result ≡ word / 1099511627776 % 1048576 }
{
    ((word >> 40) % (1 << 20)) as u32
}

// The number of the tail of a node word.
fn tail_of(word: u64) -> u32
    ensures tail { result ≡ word / 1048576 % 1048576 }
{
    ((word >> 20) % (1 << 20)) as u32
}
