//! Documents that come in pieces, each filtered while its pieces come.
//!
//! A [`Session`] owns the pass with which it was opened, so nobody can refresh it or filter with it
//! while the document is open. It filters each line as soon as the line is whole:
//!
//! ```text
//!   Session::open   the pass enters its bank (px_hub::Hub::begin)
//!   Session::feed   a reader judges the lines that the piece ends, and the events that they bring
//!                   are taken at once (px_hub::Hub::advance)
//!   Session::end    the reply, or the fault (px_hub::Hub::finish, px_hub::Hub::abandon)
//! ```
//!
//! **What is said.** For every list of pieces the answer is that of `px_hub::Hub::filter` on the
//! pieces joined, at the version that the pass had when the session was opened, whatever other
//! passes did meanwhile ([`filter_pieces`]; `specs/Sessions.antt`). While it runs, the pass is
//! inside its bank, or has its cause not to be, and the steps counted so far are those that the
//! events so far have brought ([`a_session_counts_its_steps`]).
//!
//! **At a fault**, and where memory is refused, the call is given up at once: the pass leaves its
//! bank, and the session answers the same from then on.
//!
//! **A session must be spent**, by [`Session::end`] or [`Session::abandon`]: it cannot be dropped,
//! and code that loses one does not compile. So no bank is held for ever by a session that was
//! forgotten, and its pass comes back.
#![tactic(auto)]

mod laws;
mod opening;
mod pieces;
mod session;
mod taking;

pub use laws::a_session_counts_its_steps;
pub use opening::{Ended, Opened};
pub use pieces::filter_pieces;
pub use session::Session;
