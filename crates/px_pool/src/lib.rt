//! Documents filtered side by side, by any number of workers over one hub.
//!
//! [`batch`] filters each document of a row once. There is a worker for each pass that it is lent:
//! all but one in threads of their own, or in the caller's where no thread can be started.
//!
//! ```text
//!   batch(hub, passes, docs)
//!     a word with as many numbers as there are documents     px_crew::Draws
//!     a worker beside each pass                              px_crew::run_crew
//!       draw a number, filter its document, draw, .. until a number is that of no document
//!     the replies of all workers, each put at its number
//! ```
//!
//! A number is drawn by one addition to the word, so no document is filtered twice, and none is
//! left out, however the workers take turns; a slow document holds up its own worker alone. A call
//! that filters takes no lock, and waits for nobody.
//!
//! **What is said.** `specs/Batches.antt`: each pass made its calls one behind the other, each of
//! them is a call of `px_hub::Hub::filter_read` on the document of its number, and its reply stands
//! at that number; each number is that of one call (`Batched`). So what a call says of its reply
//! and of its pass holds of each reply of a batch. Each pass keeps what it has seen, its program
//! and its bank, on every answer (`AllStay`). `specs/Counting.antt`: at which version each reply
//! is, and what the replies that name a pass count together.
//!
//! Not said: that two workers ran beside each other, which a test shows, or which of them answered
//! which document.
#![tactic(auto)]

mod batches;
mod gather;
mod laws;
mod notice;
mod worker;

pub use batches::batch;
pub use laws::{each_reply_is_of_the_pass_that_it_names, the_counts_of_a_batch_add_up};
