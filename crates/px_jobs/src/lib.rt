//! Jobs on their way from one giver to several takers, each job once.
//!
//! The giver puts jobs into a line of 1,024 places, in order of their numbers. Whoever is free
//! takes the job at the front. What a job carries is left open.
//!
//! ```text
//!   Jobs::create(takers) -> the line, its giver, the takers
//!     the giver's thread                 each taker's thread
//!     give, give, give, ..               take, work, take, work, ..
//!   Jobs::end(giver)    -> the rest
//!   Jobs::join(taker)      each taker, and all that it took, is taken in
//!   Jobs::take_rest        until nothing is left: then each job that was given was taken once
//! ```
//!
//! A job comes back to the giver only where the line was full at some moment of the call. No
//! contract says that a taker gets a job soon, or at all: a taker that finds nothing has learnt
//! nothing but that. What is left when all have ended is taken by [`Jobs::take_rest`].
#![tactic(auto)]

mod job;
mod jobs_line;
mod laws;
mod seats;
#[cfg(test)]
mod tests;

pub use job::Job;
pub use jobs_line::Jobs;
pub use laws::each_job_once;
pub use seats::{Giver, Rest, Taker};
