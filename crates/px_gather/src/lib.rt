//! A run that answers a feed, with documents that wait until they are answered together.
//!
//! A [`Gathering`] takes the items of a feed one after the other and keeps the documents among
//! them. Whoever runs it answers all that wait, in the order of the feed, before the next change
//! is answered and before the run ends:
//!
//! ```text
//!   take        the next item, or how the feed has ended
//!   keep        a document, which waits from then on: until 256 do, or 67,108,864 bytes
//!   answer_all  the lines of all documents that wait
//!   answer      the line of a change, where no document waits
//!   end         the run ends as the feed did, where no document waits
//! ```
//!
//! How documents are filtered, and what a change does, is no matter of this crate. It says which
//! lines are asked of its caller: those of the definition for what the items ask, behind what was
//! asked before (`AreAnswers` of `specs/Asking.antt`). Where the caller gives them, the bytes
//! written are the output of the feed, and what was asked is what its items ask (`Ends` of
//! `specs/Waiting.antt`). `specs/Running.antt` has the words for a loop over it, together with the
//! states that answer, and `proofs/Turning.antt` the steps of its proof.
#![tactic(auto)]

mod gathering;
mod saying;

pub use gathering::Gathering;
