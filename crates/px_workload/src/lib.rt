//! The workload: the changes that were accepted, and the filters that are live behind them.
//!
//! A [`Change`] adds a filter, drops one or puts another in its place, and each accepted one makes
//! the next version. The id of a filter is the version that its add made, so no id comes twice.
//! Two values follow a history, and contracts see both as lists:
//!
//! - [`Journal`] accepts changes ([`Journal::append`], behind [`Journal::reserve`], cannot fail).
//!   It keeps a slot for each version with the filter that lives under this id, so a call on an id
//!   is one index, and gives the live filters as a list ([`Journal::snapshot`]). The changes
//!   themselves are known to proofs alone.
//! - [`Live`] is such a list, whose ids rise. It takes one change in place ([`Live::reserve`], then
//!   [`Live::take`]), so whoever follows a history pays for each change once.
//!
//! Filters are shared: neither copies one. That the list is the fold of the changes, whichever way
//! it came about, is the contract that the program of the filters is built on
//! ([`live_filters_are_in_order`]).
#![tactic(auto)]

mod change;
mod journal;
mod laws;
mod live;
mod past;
mod places;
mod refusal;
mod snapshot;
mod table;

pub use change::Change;
pub use journal::Journal;
pub use laws::live_filters_are_in_order;
pub use live::Live;
pub use refusal::Refusal;
