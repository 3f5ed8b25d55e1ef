//! Which states are needed inside a child, so that a machine keeps no others.
//!
//! Inside a child only those states matter that the needed states of its parent look at. What the
//! body of each state looks at is computed once for a program.
#![tactic(auto)]

mod compiled;
mod firsts;
mod needs;
mod pushing;
mod rows;

pub use compiled::Compiled;
pub use needs::Needs;
pub use pushing::push;
