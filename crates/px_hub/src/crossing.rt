//! What may go to other threads.
ghost use Rattle.std.specs.Thread.{IsSend, IsSync};
ghost use Rattle.px_hub.specs.contracts.hub.Hub as hub;
ghost use Rattle.px_hub.specs.contracts.note.Note as note;
ghost use Rattle.px_hub.specs.contracts.pass.Pass as pass;

use crate::name::HubName;

/// Threads may share a hub (`Sync`), and a pass, a note and the hub itself may go to another thread
/// (`Send`), whatever names the hub. It does nothing: call it before a call that asks this of these
/// types, as `std::thread::join` does of what its closures capture.
pub fn threads_may_share_a_hub<N: HubName>()
    ensures pass { IsSend (pass.the_row N.row N.HubName) }
    ensures note { IsSend (note.the_row N.row N.HubName) }
    ensures hub { IsSend (hub.the_row N.row N.HubName) }
    ensures shared { IsSync (hub.the_row N.row N.HubName) }
{}
