//! What became of a document.
ghost use Rattle.std.specs.Prelude.{◌≡◌};
ghost use Rattle.px_delivery.specs.Delivered.{reply_of, end_of};

use px_hub::Reply;
use px_post::Resumed;

/// The reply to a document, and what became of its letters.
#[derive(Debug, PartialEq, Eq, Drop)]
pub enum Sent {
    /// All went.
    All {
        reply: Reply,
    },
    /// The first that is left is for this mailbox, which was full.
    Part {
        reply: Reply,
        mailbox: u32,
        /// How many are left.
        left: u64,
    },
}

// The reply, and what became of its letters.
pub(crate) fn answer(reply: Reply, end: Resumed) -> Sent
    ensures reply { reply_of result ≡ reply }
    ensures end { end_of result ≡ end }
{
    match end {
        Resumed::Done => Sent::All { reply },
        Resumed::Full { mailbox, left } => Sent::Part {
            reply,
            mailbox,
            left,
        },
    }
}
