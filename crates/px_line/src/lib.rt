//! A line in which items wait, with one rule for all that give and all that take.
//!
//! A line is a bounded queue under a rule that holds between any two steps of any threads. What a
//! thread may do there, and what it knows, is its [`Seat`]: plain data that costs no byte.
//!
//! ```text
//!   givers, numbered from 0                                  takers
//!   giver 0: given x, z  --.                             .-- taken x, y
//!                           >--> [ items that wait ] --->
//!   giver 1: given y     --'      oldest first           '-- taken (none)
//!
//!   all that were given, in order = all that were taken, in order, and then those that wait
//! ```
//!
//! - The first seat may make givers and cut off takers. Each giver has one seat, and a giver's seat
//!   knows all that it gave; it ends by being taken in ([`Line::end`]), and after that nothing more
//!   of it comes.
//! - Each item that was taken stands once, in the list of one seat. A seat that took in all others
//!   knows this of all that was taken.
//! - A seat that takes alone knows the order too, and of each item that it may stand behind those
//!   of its giver that came before it. Which items may is the item's own rule ([`Item`]).
//!
//! Jobs go from one giver to several takers, letters from several givers to one taker, by this one
//! rule.
//!
//! No contract says that a call returns, nor can one say that an item comes soon: a refusal names
//! a moment at which the line was full, and an empty answer one at which nothing waited.
#![tactic(auto)]

mod line;
mod queue;
mod rule;

pub use line::{Line, Seat};
pub use rule::{Item, Known};
