//! A feed answered by any number of workers, with the output of one: the commands `feed` and
//! `load`.
//!
//! [`feed_on`] answers the items of a feed by the passes of a hub. The first pass makes the changes
//! (px_changer), and documents wait until a change or the end comes, or until many or long ones
//! wait (px_gather). All passes are then refreshed, the others filter the documents side by side
//! (px_pool), and their lines are said in the order of the feed.
//!
//! So each document is answered behind the changes before it, and by the lines that one thread
//! would give.
//!
//! [`feed`] makes a hub for one feed. [`load`] makes one for a generated feed, of whose output it
//! writes the sums alone: they are taken line by line, by whoever hears the lines (`Listener`).
#![tactic(auto)]

mod answers;
mod feeding;
mod forgetting;
mod laws;
mod listener;
mod loading;
mod making;
mod running;
mod sums;
mod workers;

pub use feeding::feed_on;
pub use laws::a_load_has_one_line;
pub use loading::{Generated, load};
pub use making::feed;
pub use sums::Sums;
