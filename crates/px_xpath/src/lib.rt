//! The fragment of XPath 1.0 that subscriptions are written in: filters, and the texts that they
//! are read from.
//!
//! The definitions stand in `specs/`: the tokens of a text, the grammar over them, the fault of a
//! text that is no filter, and what a filter means at a tree.
#![tactic(auto)]

mod descent;
mod fault;
mod filter;
mod laws;
mod numbered;
mod order;
mod parser;
mod printer;
mod read_back;
mod sharing;
mod sizes;
mod token;
mod tokenizer;

pub use fault::{FilterFault, ParseFault};
pub use filter::{Axis, Cond, Filter, Path, Relation, Step, Test, Value};
pub use laws::{
    a_text_is_one_filter_or_has_one_fault, every_text_is_read_or_refused, machine_is_right,
    writes_at_most_one,
};
pub use numbered::Numbered;
pub use order::equal_is_same;
pub use parser::parse;
pub use printer::print;
pub use read_back::printed_is_read_back;
pub use sizes::size;
