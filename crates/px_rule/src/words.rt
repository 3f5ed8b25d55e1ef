//! Words of facts, and the places at which they are looked for.
ghost use Rattle.std.specs.Prelude.{◌≡◌, ℕ, ◌+◌, ◌-◌, ◌%◌, ◌^◌, ◌<◌, ◌≤◌};
ghost use Rattle.px_rule.specs.Kinds.{kind_of};
ghost use Rattle.px_rule.specs.Words.{node_word as word_of_node, step_word as word_of_step, key_of, IsShape, size_of, nodes_of, steps_of, path_of, long_of, shows};

use crate::shape::{Shape, two_to};
use px_text::Op;
use std::cmp::min;

/// The word of a node: the set of an element and of the set that the number of its tail names.
pub fn node_word(element: u32, tail: u32) -> u64
    requires fields { (element < 1048576) × (tail < 1048576) }
    ensures word { result ≡ word_of_node element tail }
{
    (1 << 60) + (u64::from(element) << 40) + (u64::from(tail) << 20)
}

/// The word of a step: the operation, its operands and its result.
pub fn step_word(op: Op, a: u32, b: u32, r: u32) -> u64
    requires fields { (a < 1048576) × (b < 1048576) × (r < 1048576) }
    ensures word { result ≡ word_of_step op a b r }
{
    (kind(op) << 60) + (u64::from(a) << 40) + (u64::from(b) << 20) + u64::from(r)
}

// The kind by which words name an operation.
fn kind(op: Op) -> u64
    ensures kind { result ≡ kind_of op }
    ensures short { result < 8 }
{
    match op {
        Op::TextClass => 2,
        Op::NumberClass => 3,
        Op::Pop => 4,
        Op::Add => 5,
        Op::Push => 6,
        Op::Mask => 7,
    }
}

/// The place at turn `i` of the path of a word, the node places of a bank first.
pub fn place(shape: &Shape, word: u64, i: u32) -> u32
    requires shape { IsShape shape.now }
    requires turn { i < long_of shape.now (key_of word) }
    ensures place { result ≡ path_of shape.now (key_of word) i }
    ensures within { result < size_of shape.now }
{
    let kind = word >> 60;
    let a = word >> 40 & 0xf_ffff;
    let b = word >> 20 & 0xf_ffff;
    let start = (kind * 40503 + a * 2_654_435_761 + b * 2_246_822_519) % (1 << 32);
    let nodes = u64::from(shape.node_places());
    let at = if kind == 1 {
        1 + node_turn(shape, start + u64::from(i))
    } else {
        nodes + step_turn(shape, start + u64::from(i))
    };
    at as u32
}

/// The place at the next turn of the path of a word, from the place at a turn: one further, and
/// after the last place of its kind the first.
pub fn next_place(shape: &Shape, word: u64, place: u32) -> u32
    requires shape { IsShape shape.now }
    requires place { place < size_of shape.now }
    requires path { (i : ℕ) × (place ≡ path_of shape.now (key_of word) i) }
    ensures next { (i : ℕ) → place ≡ path_of shape.now (key_of word) i →
        result ≡ path_of shape.now (key_of word) (i + 1) }
    ensures within { result < size_of shape.now }
{
    let places = shape.bank_places();
    let next = place + 1;
    if word >> 60 == 1 {
        if next == shape.node_places() {
            return 1;
        }
        return next;
    }
    if next == places {
        return shape.node_places();
    }
    next
}

// Which of the node places behind the first a path reaches at a number. Their count is one less
// than a power of two, so the remainder is taken by adding the number's parts.
fn node_turn(shape: &Shape, number: u64) -> u64
    requires shape { IsShape shape.now }
    ensures remainder { result ≡ number % (nodes_of shape.now - 1) }
    ensures within { result < nodes_of shape.now - 1 }
{
    let count = u64::from(shape.node_places() - 1);
    let mut rest = number;
    while rest > count {
        rest = parts_added(rest, shape.node_bits);
    }
    if rest == count { 0 } else { rest }
}

// The part of a number above its lowest bits, and that of these bits, added.
fn parts_added(number: u64, bits: u32) -> u64
    requires bits { (4 ≤ bits) × (bits ≤ 20) }
    requires large { 2 ^ bits ≤ number }
    ensures less { result < number }
    ensures remainder { result % (2 ^ bits - 1) ≡ number % (2 ^ bits - 1) }
{
    (number & u64::from(two_to(bits) - 1)) + (number >> bits)
}

// Which of the step places a path reaches at a number: their count is a power of two, so a mask
// takes the remainder.
fn step_turn(shape: &Shape, number: u64) -> u64
    requires shape { IsShape shape.now }
    ensures remainder { result ≡ number % steps_of shape.now }
    ensures within { result < steps_of shape.now }
{
    number & u64::from(shape.step_places() - 1)
}

/// How many places the path of a word has.
pub fn path_length(shape: &Shape, word: u64) -> u32
    requires shape { IsShape shape.now }
    ensures length { result ≡ long_of shape.now (key_of word) }
    ensures short { (0 < result) × (result ≤ 64) }
{
    if word >> 60 == 1 {
        min(64, shape.node_places() - 1)
    } else {
        min(64, shape.step_places())
    }
}

/// Whether the word of a bank shows that the bank stands at the version.
pub fn stands_at(word: u64, version: u32) -> bool
    ensures { result ≡ shows version word }
{
    word >> 20 == u64::from(version) && word >> 16 & 1 == 0
}
