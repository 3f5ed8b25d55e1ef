//! The functions on sets of states: what a text makes true, what a child makes true for its
//! parent, unions, intersections, and which filters accept.
//!
//! A set holds the Path and Value states that are true at a node; the other states are true by
//! their parts. Each call is one function of the machine over the states of a program, and costs
//! what its sets and the states that they touch ask, never a scan of all states.
#![tactic(auto)]

mod accepting;
mod children;
mod merges;
mod sorting;
mod truth;
mod values;

pub use accepting::accept;
pub use children::{is_lasting, pop};
pub use merges::{add, mask};
pub use sorting::ascending;
pub use values::{value_number, value_text};
