//! A whole document in pieces.
ghost use Rattle.std.specs.Prelude.{◌≡◌, false, []};
ghost use Rattle.px_hub.specs.Passes.{PassView};
ghost use Rattle.px_hub.specs.Replying.{Filters};
ghost use Rattle.px_session.specs.Sessions.{Follows, joined};

use crate::opening::{Ended, Opened};
use crate::session::Session;
use px_hub::{FilterCallFault, Hub, HubName, Pass};
use px_text::Bytes;
use std::alloc::Global;

/// Filters a document that comes in these pieces, as `Hub::filter` does the pieces joined. The pass
/// comes back in no bank, with the version, the program and the bank that it had.
#[tactic(none)]
pub fn filter_pieces<N: HubName>(
    alloc: Global,
    hub: &Hub<N>,
    pass: Pass<N>,
    pieces: &[Bytes],
) -> Ended<N>
    requires { pass.is_open ≡ false }
    ensures { Filters N.table.shape pass result.pass (joined pieces.now) result.answer }
{
    match Session::open(alloc, hub, pass) {
        Opened::Open(session) => feed_and_end(hub, session, pieces),
        Opened::NoMemory(pass) => Ended {
            pass,
            answer: Err(FilterCallFault::Memory),
        },
    }
}

// Feeds a new session all pieces, and ends it.
#[tactic(none)]
fn feed_and_end<N: HubName>(hub: &Hub<N>, mut session: Session<N>, pieces: &[Bytes]) -> Ended<N>
    ensures { (v : PassView) → Follows N.table v session [] →
        Filters N.table.shape v result.pass (joined pieces.now) result.answer }
{
    feed_all(hub, &mut session, pieces);
    session.end(hub)
}

// Feeds a new session all pieces. Behind a fault each piece is answered it, and so is the end.
fn feed_all<N: HubName>(hub: &Hub<N>, session: &mut Session<N>, pieces: &[Bytes])
    ensures { (v : PassView) → Follows N.table v session.old [] →
        Follows N.table v session.new (joined pieces.now) }
{
    for piece in pieces {
        let _ = session.feed(hub, piece.as_slice());
    }
}
