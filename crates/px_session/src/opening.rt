//! What opening and ending a session give.

use crate::session::Session;
use px_hub::{FilterCallFault, HubName, Pass, Reply};

/// A session, or the pass with which none could be opened.
pub enum Opened<N: HubName> {
    Open(Session<N>),
    NoMemory(Pass<N>),
}

/// The pass of a session that has ended, in no bank, and the answer to the document.
#[derive(Drop)]
pub struct Ended<N: HubName> {
    pub pass: Pass<N>,
    pub answer: Result<Reply, FilterCallFault>,
}
