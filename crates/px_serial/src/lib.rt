//! A feed answered on one thread, without a hub: the command `serial`.
//!
//! [`serve_feed`] takes the items of a feed one after the other. A change goes to a journal
//! (`changes`), and the tiers of machines are told which id it changed; a document goes to the
//! machines of the filters that are live there (`filtering`). Each line goes out in the order of
//! the items.
#![tactic(auto)]

mod changes;
mod filtering;
mod serving;

pub use serving::serve_feed;
