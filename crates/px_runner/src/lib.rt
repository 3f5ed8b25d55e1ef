//! The machine of all filters, in one pass over the events of a document.
//!
//! A [`Runner`] keeps a frame for each open element, and one for the document root below them. A
//! frame has the states of the program that are needed of its element and those that the element
//! has gathered from its children so far. No event makes it look at a filter by itself:
//!
//! ```text
//!   event            the innermost frame                          steps
//!   Start NAME       a new one is put upon it: needed is what      Push
//!                    the needs of the one below ask of a child
//!                    with this label; nothing is gathered yet
//!   Attr, Text       the states that the value makes true are      TextClass, NumberClass, Add,
//!                    raised to the element that has the leaf       Pop, Mask, Add
//!   End              what it gathered, with the values of its      the same, and one Add before
//!                    own text, is raised to the one below          them
//!
//!   raised:  Pop     the states that hold at the parent because of this child, from the child's
//!                    set and label
//!            Mask    of these the ones that are needed of the parent
//!            Add     and these with what the parent has gathered
//! ```
//!
//! Under `/a[b]` the document `(a (b )b )a` takes 16 steps: a push at each start, and seven steps
//! at each end. When `b` ends, 'there is a child `b`' is raised to `a`; when `a` ends, the filter's
//! first state is raised to the document root. What the root has gathered says which filters hold,
//! and [`Runner::finish`] answers their ids.
//!
//! **Who makes the steps.** A [`Memo`]: it holds sets of states as values of its own ([`Held`]),
//! and each of its answers stands for the set that the step's definition gives. That is its
//! promise, and whoever implements the trait proves it, so a runner is right over every memo. The
//! memo may remember answers, share them with others, and tell in its contract which steps it made.
//! Here stands [`PrivateMemo`], which keeps each different set and each step once, for one runner
//! after another. Its memory is not bounded: whoever runs documents without end drops it in
//! between, or runs on the machine of px_machine, which forgets by itself.
//!
//! The laws tie the whole to XPath: the ids are those of the filters that match
//! ([`accepted_are_matches`]), leaving out what is not needed changes no answer
//! ([`pruning_changes_nothing`]), events say the same as the tree ([`events_follow_content`]), and
//! a document's steps are counted by its events ([`steps_are_counted`]).
#![tactic(auto)]

mod frame;
mod held;
mod laws;
mod memo;
mod ops;
mod private_memo;
mod raise;
mod runner;
mod store;

pub use held::Held;
pub use laws::{
    accepted_are_matches, events_follow_content, pruning_changes_nothing, steps_are_counted,
};
pub use memo::Memo;
pub use private_memo::PrivateMemo;
pub use runner::Runner;
