//! A filter call over a bank: what it counts, and why.
//!
//! A call takes the events of a document while its seat is inside a bank, and each step of the run
//! is come by in one of three ways:
//!
//! ```text
//!                   what the seat's view shows of it after the call
//!   found           the word of the step is kept, and the call wrote nothing for it
//!   computed        the word is kept, and since the call began the path of its key was
//!                   found to have an empty place, behind words of other keys; it was not
//!                   kept when the call began, nor found or computed before
//!   own             an operand, the answer or the key is blocked: all places of the path
//!                   of a word of it are kept with words of other keys
//! ```
//!
//! A [`Tally`] counts them. A call that finds no place for a word for the first time keeps that
//! word as `full`. `specs/Counted.antt` ties a tally to the steps and to the sets that were held,
//! by two views of one seat: the one with which the call began, and the one now.
//!
//! **Nobody can choose.** What stands in a right bank is not blocked, so a step is never both kept
//! and the call's own. With that the laws follow: the counts add up to the steps
//! ([`counts_add_up`]); a call that found a path full has steps of its own
//! ([`a_full_call_has_own_steps`]); after one that found none full, a second call on the same steps
//! computes nothing ([`a_second_call_computes_nothing`]); only words of the run are written
//! ([`only_words_of_the_run_are_written`]). They speak of the bank that the call was inside, and
//! hold of the pass before it entered and after it left ([`counts_hold_outside`]).
//!
//! **The memo.** A [`BankMemo`] makes the steps of a runner over the bank that its seat is inside:
//! it looks for a step there, computes it by the program where the bank lacks it, interns the
//! answer and puts the step. A number of the bank stands for a set; a set that the bank has no room
//! for is held by itself. What it tells of steps and sets is the relation above, since the seat
//! that an [`Entry`] names; and on every answer its seat is of the same table, and inside.
//!
//! **The call.** A [`BankCall`] takes the events of a document one by one. It keeps the runner and
//! the counts between two events, and no seat: [`BankCall::begin`], [`BankCall::event`] and
//! [`BankCall::finish`] borrow the seat, which stays inside the bank, and move it into a memo for
//! as long as they run. At the end of a document the ids are those of the filters that match, and
//! the counts are those of the steps of its run, since the seat that the call began with.
//!
//! Not said: anything of words that a step wrote which failed for want of memory.
#![tactic(auto)]

mod bank_memo;
mod booking;
mod call;
mod entry;
mod law;
mod laws;
mod solving;
mod stepping;
mod tally;

pub use bank_memo::BankMemo;
pub use call::BankCall;
pub use entry::Entry;
pub use law::ProgramLaw;
pub use laws::{
    a_full_call_has_own_steps, a_second_call_computes_nothing, counts_add_up, counts_hold_outside,
    only_words_of_the_run_are_written,
};
pub use tally::Tally;
