//! Letters on their way from feeders to mailboxes, each once and in order.
//!
//! A mailbox is a line of letters with one taker. Each feeder has an exit that leads to it, and
//! numbers its letters there from 1.
//!
//! ```text
//!   Mailbox::create(number, capacity)      Mailbox::exit(0), exit(1), ..: one for each feeder
//!     the thread of feeder f                 the thread of the mailbox
//!     Exit::put letter 1, 2, 3, ..           Mailbox::take: of each feeder 1, 2, 3, ..
//!     Exit::end -> its slip          ---->   Mailbox::take_in: all letters of f are known now
//! ```
//!
//! - What a mailbox gave of one feeder has `seq` 1, 2, 3 and on, without gap or repeat. Once it has
//!   taken in the slip of that feeder, it is a front of what the feeder put there; and where
//!   [`Mailbox::take`] then finds nothing, it is all of it.
//! - A letter comes back to the feeder only where the mailbox was full at some moment of the call.
//! - Nothing is said of the order between feeders, nor that a letter comes soon.
//!
//! A [`Sender`] has the exits of one feeder and the routes from ids to mailboxes. It posts the ids
//! of a document: for each id with a route a letter, put in order up to the first whose mailbox is
//! full. What is left waits for [`Sender::resume`], whatever becomes of the routes meanwhile. The
//! letters of each slip are those of the documents that were posted (`HasPosted`, `AreSlips`).
#![tactic(auto)]

mod laws;
mod letter;
mod mailbox;
mod pushing;
mod sender;
#[cfg(test)]
mod tests;
mod waiting;

pub use laws::{
    a_document_adds_its_letters, a_new_sender_has_posted_nothing, letters_are_numbered,
};
pub use letter::Letter;
pub use mailbox::{Exit, Mailbox, Slip};
pub use sender::Sender;
pub use waiting::Resumed;
