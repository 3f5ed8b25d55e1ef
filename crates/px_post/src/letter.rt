//! A letter.
use px_line::Item;

/// That a document of a feeder has matched an id.
#[derive(Clone, Copy, PartialEq, Eq, Debug)]
pub struct Letter {
    pub feeder: u32,
    /// The letters of one feeder to one mailbox are numbered from 1.
    pub seq: u64,
    /// The number of the document, from 1.
    pub document: u64,
    pub id: u32,
}

impl Item for Letter {
    ghost use Rattle.px_post.specs.Mail.{feeder_of, IsNext};

    ghost giver = { feeder_of };

    ghost next = { IsNext };
}
