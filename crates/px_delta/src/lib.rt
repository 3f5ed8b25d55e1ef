//! Filters at two versions: a pass of an older version serves the filters that have not changed,
//! and only those that have run beside it.
//!
//! A change makes a new version, whose machine starts empty. A [`Delta`] holds two passes of one
//! hub: the **base**, whose bank is full of what earlier documents brought, and the **front**,
//! through which changes go.
//!
//! ```text
//!   live for the base     live for the front
//!   (1, /a)               -            dropped: its id is left out
//!   (2, /b)               (2, /b)      unchanged: the answer of the base stands
//!   (3, /c)               (3, /d)      dropped and added: the answer of the base is for /c
//!   -                     (4, /e)      added: a machine of its own runs beside the base
//! ```
//!
//! **Pairs, and never ids.** A replacement leaves an id live with another filter, so what is
//! compared is the pair of id and filter ([`same_filters_are_told`]). Two live lists are compared
//! anew in each call: the front is lent out, and the caller may put another pass in its place.
//!
//! **A document** ([`Delta::filter`]) is read once. It is first filtered by the base, as
//! [`px_hub::Hub::filter`] does it, whose reply is handed out as it came. Where filters were added,
//! the events go through a machine of these alone. That the ids of the base without the dropped
//! ones, with the added ones that match, are those of the front is a law over the lists alone
//! ([`two_live_lists_make_one`]): it asks nothing of how one list came from the other.
//!
//! **A rebase** ([`Delta::rebase`]) brings both passes to one version. It is for the caller to say
//! when: [`Delta::distance`] tells how far they are apart.
#![tactic(auto)]

mod changed;
mod changes;
mod delta;
mod filtering;
mod laws;
mod merging;
mod pairs;
mod private;
mod rebasing;
mod reply;
mod same;

pub use delta::Delta;
pub use laws::{same_filters_are_told, two_live_lists_make_one};
pub use reply::DeltaReply;
