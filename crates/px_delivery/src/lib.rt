//! Documents filtered by a hub, and letters of what they match to mailboxes.
//!
//! ```text
//!   Post::create          feeders, each with a way to every mailbox
//!     Feeder::route         letters of this id go to that mailbox from now on
//!     Feeder::deliver       one filter call of the hub, and a letter for each id with a route
//!     Feeder::resume        puts what is left
//!     Feeder::end           a slip for each mailbox
//!   Mailbox::take, take_in    at the other end (px_post)
//! ```
//!
//! The reply of [`Feeder::deliver`], its refusals and the pass behind it are those of
//! `Hub::filter`. A document counts where the call answers `Ok`, also where letters are left. What
//! was put and what is left are then the letters of one document more (`Posts` of px_post): its
//! ids are those of the reply, and its routes those at the call.
//!
//! `Sent::Part` and `Resumed::Full` name a mailbox that was full at one moment of the call: so
//! many letters waited there, and those of the feeder among them were the last that it had put. No
//! clause can name a moment of another thread, so nothing more is said of it.
#![tactic(auto)]

mod feeder;
mod post;
mod sent;

pub use feeder::Feeder;
pub use post::Post;
pub use px_post::{Letter, Mailbox, Resumed, Slip};
pub use sent::Sent;
