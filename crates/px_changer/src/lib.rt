//! A hub whose changes are all made by one of its passes.
//!
//! The caller lends every pass of the hub: the first makes the changes, and the others make none. A
//! hub tells a pass only that changes of others may have come before its own. So behind each change
//! the others meet a note of the first ([`add`], [`remove`], [`replace`]): each then knows all that
//! the first has seen, and that none of it is its own. As every entry names a pass of the hub, all
//! name the first, and the history is that of the changes asked for here, one behind the other
//! (`IsAlone` of `specs/Alone.antt`).
//!
//! The answers are the lines of a feed, and the history is told as a feed tells it, where changes
//! name nobody (`told` of `specs/Telling.antt`).
#![tactic(auto)]

mod changes;
mod laws;
mod lines;
mod notes;

pub use changes::{add, remove, replace};
pub use laws::what_is_live_names_nobody;
