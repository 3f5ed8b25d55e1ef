//! Threads that share out numbered work, each number to one of them.
//!
//! Whoever has a row of documents and several workers needs two things, and both stand here. A
//! crew ([`run_crew`]) lets each worker do one job with a state of its own, which is lent to it and
//! comes back. The word of a batch ([`Draws`]) says which document is whose: each worker draws the
//! next number by one addition to that word, so no number is drawn twice, and none is left out.
//!
//! ```text
//!   Draws::create(quota) -> the word, and a drawer with every part
//!         share: one drawer for each worker, before any of them draws
//!   run_crew(crew, states, drawers)
//!         draw, work, draw, work, .. until a number is not below the limit
//!   join: each worker's drawer is taken in
//!   learn: the drawer with every part drew each number below the word once
//! ```
//!
//! It knows no document, no filter and no hub. A worker's number says nothing of when it works:
//! no contract here says that two workers ran beside each other.
#![tactic(auto)]

mod draws;
mod rule;
mod source;
#[cfg(test)]
mod tests;
mod workers;

pub use draws::{Drawer, Draws};
pub use rule::{Hand, Quota};
pub use workers::{Crew, run_crew};
