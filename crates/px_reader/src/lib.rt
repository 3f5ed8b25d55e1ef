//! Documents: PYX lines to the events of the tree that they spell, or to the first fault.
//!
//! `specs/` says which lines spell which tree, and what the verdict on some bytes is. A [`Reader`]
//! is fed the bytes in any pieces and gives the events; a [`Doc`] holds bytes that spell a tree.
//!
//! A scanner judges each line where it lies: what it brings is seen as a [`Happening`], an event
//! that borrows its bytes. A [`Recorder`] takes a document line by line so, and keeps its events.
#![tactic(auto)]

mod cuts;
mod doc;
mod event;
mod event_list;
mod extent;
mod fault;
mod happening;
mod judge;
mod laws;
mod lines;
mod name_stack;
mod owned;
mod phase;
mod reader;
mod recorder;
mod scanner;

pub use cuts::{split_at_space, without_end};
pub use doc::Doc;
pub use event::Event;
pub use event_list::EventList;
pub use fault::{DocFault, DocKind, LineFault, ReaderFault};
pub use happening::Happening;
pub use laws::{machine_is_right, verdicts_are_one, what_is_spelt_is_a_tree};
pub use reader::Reader;
pub use recorder::Recorder;
