//! The machines of the live filters, of rising age.
//!
//! [`Tiers`] follows a history: [`Tiers::change`] takes note of a change and builds nothing, and
//! [`Tiers::matches`] answers a document. Before that it builds what waits into one new machine,
//! with the youngest of those that stand. So a change costs what it changes, and leaves the
//! machines of all other filters warm. That the ids are those of the live filters stands on a law
//! over lists alone ([`parts_find_what_passes`]).
#![tactic(auto)]

mod gathering;
mod home_table;
mod laws;
mod planning;
mod tier;
mod tiers;

pub use laws::{a_change_leaves_the_others, gathered_filters_move, parts_find_what_passes};
pub use tiers::Tiers;
