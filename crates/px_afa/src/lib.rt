//! The program of all live filters: their states under numbers, and the labels and classes that
//! documents are seen by.
//!
//! A filter becomes states of an alternating automaton, each of which is true or false at a node
//! of a document; equal states of all filters are one. The idea is that of the XPush machine of
//! Gupta and Suciu, and the automaton, its numbers and the functions on sets of states are this
//! project's own. The definitions stand in `specs/`: what a state means (`Truth`), which states
//! filters have (`Building`), labels and classes, the functions on sets, and the machine over
//! them.
#![tactic(auto)]

mod builder;
mod constants;
mod copies;
mod dictionary;
mod filters;
mod first_ids;
mod groups;
mod guarding;
mod laws;
mod listing;
mod literals;
mod names;
mod path_tables;
mod program;
mod state;
mod value_tables;

pub use laws::{
    first_states_are_right, guards_are_in_sets, labels_and_classes_are_small,
    labels_and_classes_tell, programs_are_sound, steps_are_counted,
};
pub use program::Program;
pub use state::{Body, First, Related, State};
