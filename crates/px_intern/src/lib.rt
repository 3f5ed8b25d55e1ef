//! Sets and steps in a bank, filled by many threads at once.
//!
//! A bank at one version, an epoch, holds the facts of one machine: which number a set has, and
//! which result a step has. Each seat that is inside looks for facts there and adds what it misses.
//! Nobody waits, no fact is ever changed, and none is lost while the bank has its version.
//!
//! ```text
//!   the set 3, 5                             the step pop(12, 3) -> 0
//!
//!   node places                              step places
//!    6 | element 5 | tail 0 |                 the path of (pop, 12, 3) | pop | 12 | 3 | 0 |
//!   12 | element 3 | tail 6 |
//!
//!   the number of a set is the place of      a step word has the operation, the numbers of
//!   its node word; 0 is the empty set        its operands, and the number of its result
//! ```
//!
//! **A set.** [`intern`] goes from the greatest element down. The node word of an element and of
//! the number of the elements above it has a path of places of its own, at most 64. The walk looks
//! at one after the other: a place that holds the word gives the number; one with another word is
//! passed by; the first empty one is written by one exchange. Where somebody else's exchange came
//! first, the walk reads what that wrote and goes on as if it had stood there before. So whoever
//! comes first, a set has one number for all, and a number names one set. A set of m elements costs
//! at most 128 m touches. [`set_of`] reads a set back from its number, tail by tail.
//!
//! **A step.** [`find`] walks the path of the step's key, which is the word without its result, and
//! answers the result, or that the step is absent: the path has an empty place before any word of
//! the key, or words of other keys at all places. It takes at most 64 looks, and nearly always one:
//! a hash of three products, a mask, a load and a comparison. [`put`] adds a step, with at most
//! 128 touches. It asks that the result is right by the law of the table, so a found result is
//! believed without being computed again.
//!
//! **Full.** A path whose places all hold words of other keys has no room. [`intern`] and [`put`]
//! then answer `Full` with the word that found none, and in no other case. The caller goes on with
//! a set or a result of its own.
//!
//! **What the seat knows afterwards.** Each word that was seen or written is kept in the seat's
//! view, each empty place that ended a walk leaves a gap there, and each word written is noted. The
//! contracts are in these words: what a number stands for, which step word is kept, which key is
//! blocked, and that nothing else was written. They stand in `specs/Answers.antt`, over px_rule's
//! `specs/Kept.antt`.
//!
//! No call takes memory but `set_of`, for the set that it gives.
#![tactic(auto)]

mod answers;
mod paths;
mod sets;
mod steps;
#[cfg(test)]
mod tests;
#[cfg(test)]
mod timing;
mod walk;

pub use answers::{Find, Intern, Put};
pub use sets::{intern, set_of};
pub use steps::{find, put};
