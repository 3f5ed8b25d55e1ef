//! The steps on the base's own queue, each with what it owes the rule.
ghost use Rattle.std.specs.Prelude.{◌≡◌, ◌<◌, ◌≤◌, ◌-◌, None, Some, IfOk, MatchResult, MatchOption};
ghost use Rattle.crossbeam_queue.specs.Passes.{view, IsPassOf, ruled_capacity};
ghost use Rattle.px_line.specs.Lines.{first, made, new_giver, new_taker, cut, number_of, HasNumber};
ghost use Rattle.px_line.specs.Lines.{with_given, with_taker, with_ended, Keeps, Takes, Waits, Learns, HasLearnt, Held};

use crate::rule::{Givers, Gives, InLine, Item, Known, Takers, Taking};
use crossbeam_queue::{Pass, RuledArrayQueue};
use std::alloc::{AllocError, Global};
use std::sync::Wait;

pub(crate) type Queue<T> = RuledArrayQueue<T, Known<T>, InLine, Global>;

pub(crate) type Token<T> = Pass<T, Known<T>>;

pub(crate) fn create<T: Item>(
    alloc: Global,
    capacity: u32,
) -> Result<(Queue<T>, Token<T>), AllocError>
    requires some { 0 < capacity }
    ensures capacity { IfOk result (λ opened. ruled_capacity opened.0 ≡ capacity) }
    ensures token { IfOk result (λ opened. IsPassOf opened.0 opened.1 × (view opened.1 ≡ first)) }
{
    Queue::<T>::ruled(alloc, capacity as usize)
}

pub(crate) fn make_giver<T: Item>(queue: &Queue<T>, token: &mut Token<T>) -> Token<T>
    requires of { IsPassOf queue.now token.old }
    requires makes { HasNumber (view token.old).makes × ((view token.old).gives ≡ None) }
    ensures of { IsPassOf queue.now token.new × IsPassOf queue.now result }
    ensures left { view token.new ≡ made (number_of (view token.old).makes) (view token.old) }
    ensures right { view result ≡ new_giver (number_of (view token.old).makes) }
{
    queue.another::<Givers>(token)
}

pub(crate) fn cut_taker<T: Item>(queue: &Queue<T>, token: &mut Token<T>) -> Token<T>
    requires of { IsPassOf queue.now token.old }
    requires parts { 1 < (view token.old).parts }
    ensures of { IsPassOf queue.now token.new × IsPassOf queue.now result }
    ensures left { view token.new ≡ cut ((view token.old).parts - 1) (view token.old) }
    ensures right { view result ≡ new_taker }
{
    queue.another::<Takers>(token)
}

pub(crate) fn give<T: Item, R: Wait>(
    queue: &Queue<T>,
    rt: &R,
    token: &mut Token<T>,
    item: T,
) -> Result<(), T>
    requires of { IsPassOf queue.now token.old }
    requires giver { (view token.old).gives ≡ Some (T.giver item) }
    requires only { (view token.old).makes ≡ None }
    requires next { T.next (view token.old).given item }
    ensures of { IsPassOf queue.now token.new }
    ensures keeps { Keeps (view token.old) (view token.new) }
    ensures given { MatchResult result
        (λ _. view token.new ≡ with_given (view token.old) item)
        (λ back. (back ≡ item) × (view token.new ≡ view token.old) ×
        Held (ruled_capacity queue.now) (Waits T.giver (view token.old))) }
{
    queue.push_as::<Gives, R>(rt, token, item)
}

pub(crate) fn take<T: Item, R: Wait>(queue: &Queue<T>, rt: &R, token: &mut Token<T>) -> Option<T>
    requires of { IsPassOf queue.now token.old }
    requires part { 0 < (view token.old).parts }
    ensures of { IsPassOf queue.now token.new }
    ensures keeps { Keeps (view token.old) (view token.new) }
    ensures taken { MatchOption result
        ((view token.new ≡ view token.old) × Held 0 (Learns T.giver T.next (view token.old)))
        (λ item. Takes T.giver T.next (view token.old) item (view token.new)) }
{
    queue.pop_as::<Taking, R>(rt, token)
}

pub(crate) fn learn<T: Item>(queue: &Queue<T>, token: &mut Token<T>)
    requires of { IsPassOf queue.now token.old }
    ensures of { IsPassOf queue.now token.new }
    ensures same { view token.new ≡ view token.old }
    ensures learnt { HasLearnt T.giver T.next (view token.old) }
{
    queue.learn_as::<Taking>(token);
}

pub(crate) fn join<T: Item>(queue: &Queue<T>, token: &mut Token<T>, other: Token<T>)
    requires of { IsPassOf queue.now token.old × IsPassOf queue.now other }
    ensures of { IsPassOf queue.now token.new }
    ensures both { view token.new ≡ with_taker (view token.old) (view other) }
{
    queue.absorb::<Takers>(token, other);
}

pub(crate) fn end<T: Item>(queue: &Queue<T>, token: &mut Token<T>, other: Token<T>)
    requires of { IsPassOf queue.now token.old × IsPassOf queue.now other }
    requires giver { HasNumber (view other).gives × ((view other).parts ≡ 0) }
    ensures of { IsPassOf queue.now token.new }
    ensures ended { view token.new ≡
        with_ended (view token.old) (number_of (view other).gives) (view other).given }
{
    queue.absorb::<Givers>(token, other);
}
