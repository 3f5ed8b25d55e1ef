//! Feeds: what their lines ask, and the lines that answer.
//!
//! [`Items`] reads a feed from a source and gives one [`Item`] after the other: a change of the
//! subscriptions, or a document with the events of its tree. It holds one document and one piece of
//! the source, and says at the end whether the feed ended well, at which line it is faulty, or what
//! failed ([`Taken`]). `ready` gives what the bytes read so far hold, and `next` reads on for it.
//!
//! An [`OutLine`] is the answer to one item of a feed, or to the one document of a match; its
//! text is that of its `Display`, and [`line_of`] gives it with its line feed. A [`Status`] is how
//! a run of the program ends. [`generate`] gives feeds of any size, for trials.
//!
//! What the output of a whole feed is stands in `specs/`: `Items` says which items some bytes are,
//! `Outputs` which lines answer them. The laws say that each feed has one list of items and one
//! output.
#![tactic(auto)]

mod cutter;
mod ending;
mod extent;
mod fault;
mod feed;
mod generator;
mod id;
mod intake;
mod item;
mod joiner;
mod laws;
mod line;
mod outside;
mod status;

pub use ending::Taken;
pub use feed::Items;
pub use generator::generate;
pub use id::id_of;
pub use item::Item;
pub use laws::{
    a_feed_has_one_list_of_items, an_output_is_one, every_feed_has_an_output, every_feed_has_items,
};
pub use line::{FeedFault, FeedKind, OutLine, line_of};
pub use status::Status;
