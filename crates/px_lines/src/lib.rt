//! What every command that writes lines shares: lines on their way to a sink, and how far a run
//! that answers a feed has come.
//!
//! [`write_whole`] writes a piece in as many writes as the sink wants, and [`write_answer`] the
//! whole answer of a run. [`Outgoing`] keeps the lines that were said until they are worth a write,
//! and knows whether one of them is a refusal, and so how the run ends.
//!
//! A run that answers a feed says how far it has come in the words of `specs/Standing.antt`: the
//! items that were taken and answered, those that were taken and wait (`Stands`), and how it has
//! ended (`Ended`). `specs/Replying.antt` says which line answers an item, and `specs/Served.antt`
//! what such a run has written at its end. `proofs/` has the steps from one to the next.
#![tactic(auto)]

mod outgoing;
mod output;

pub use outgoing::Outgoing;
pub use output::{Written, write_answer, write_whole};
