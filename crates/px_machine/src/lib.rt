//! The machine of all filters on which `serial` and `match` run. It remembers what whole leaves and
//! whole elements give, in place of single steps.
//!
//! A [`Machine`] owns its share of a program, and takes the events of one document after the other.
//! Each set of states has a number. For each open element the machine keeps the numbers of the sets
//! that its children gave; at its end it looks up what an element with this label, in which these
//! sets are, gives to its parent:
//!
//! ```text
//!   event            what is looked up, and made where it is new
//!   Start NAME       the label of the name
//!   Attr, Text       the set of the value, by its classes; what a leaf with this label gives
//!   End              the set of the element's whole text; what an element with this label gives,
//!                    in which the sets under these numbers are
//! ```
//!
//! So where documents are like those before them, an element costs a few look-ups, however many
//! filters there are; the functions on sets (px_step) run for what was never seen alone. The ids at
//! the end are those that the root's sets accept.
//!
//! **All states are kept.** px_runner masks what a child gives by what is needed of its parent.
//! Here nothing is masked, so that a fact depends on its element alone, and holds wherever an equal
//! one comes. [`gathered_without_needs`] says that the accepted ids are the same.
//!
//! **What is believed.** Each entry of each table is true by itself, and its whole key is compared
//! (`table.rt`, `lists.rt`). A hash says where to look first and is part of no proof; a look-up
//! tries a bounded number of places, so a document made to collide makes the machine forget, and no
//! call slow.
//!
//! **Memory.** From one document to the next a machine remembers at most so many bytes as its bound
//! says ([`Machine::bounded`]); where a document leaves more, all is forgotten behind it, and no
//! answer depends on it.
#![tactic(auto)]

mod facts;
mod frame;
mod hashing;
mod laws;
mod lists;
mod machine;
mod sets;
mod table;
#[cfg(test)]
mod tests;

pub use laws::{gathered_without_needs, unread_values};
pub use machine::Machine;
