//! The life of an epoch: a bank is claimed, zeroed, published, entered and left, and never claimed
//! while a call is inside.
//!
//! An epoch is a bank at one version. The desk claims a bank that no call is inside for a new
//! version, stores 0 to each of its places and publishes it. A pass enters it for its own version,
//! works there and leaves. A pass that comes too late, or too early, is told so and has left
//! again. No call here takes memory or waits.
#![tactic(auto)]

mod answers;
mod banks;
#[cfg(test)]
mod tests;
mod uses;

pub use answers::{Claim, Enter};
pub use banks::{claim, enter, leave, publish, zero};
