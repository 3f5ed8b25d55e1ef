//! What an open call filters its document with.
ghost use Rattle.std.specs.Prelude.{◌≡◌, ◌+◌, ◌<◌, ◌^◌, ◌∷◌, ◌++◌, [], List, length, OnOk};
ghost use Rattle.px_reader.specs.declared.event.Event.{Event as Happened};
ghost use Rattle.px_reader.specs.Happenings.{event_of};
ghost use Rattle.px_afa.specs.Building.{Automata};
ghost use Rattle.px_hub.specs.OpenCalls.{Has, IsFor, IsAlike, MayGrow};

use crate::law::Workload;
use crate::lone::Lone;
use crate::reply::Why;
use px_call::BankCall;
use px_prune::Compiled;
use px_reader::Happening;
use px_rule::{Seat, Shared};
use std::alloc::{AllocError, Global};

/// A machine of its own, for a cause, or the bank of the pass.
#[derive(Drop)]
pub(crate) enum Engine {
    Private { lone: Lone, why: Why },
    Shared { call: BankCall<Workload> },
}

impl Engine {
    /// Takes the next event of a document, alone or over the bank that the seat is inside. Its only
    /// failure is want of memory, and then the engine may only be dropped.
    pub(crate) fn event(
        &mut self,
        alloc: Global,
        shared: &Shared<Workload>,
        seat: &mut Seat<Workload>,
        compiled: &Compiled,
        next: Happening<'_>,
    ) -> Result<(), AllocError>
        requires table { seat.old.table ≡ shared.now }
        requires program { IsFor seat.old.view compiled.now self.old }
        requires begun { (automata : Automata) × (given : List Happened) ×
            Has automata compiled.now seat.old self.old given × (length given + 1 < 2 ^ 60) }
        ensures table { seat.new.table ≡ seat.old.table }
        ensures alike { IsAlike self.old self.new }
        ensures grew { MayGrow self.old seat.old.view seat.new.view }
        ensures ok { OnOk result ((automata : Automata) (given : List Happened) →
            Has automata compiled.now seat.old self.old given → length given + 1 < 2 ^ 60 →
            Has automata compiled.now seat.new self.new (given ++ (event_of next.entry) ∷ [])) }
    {
        match self {
            Engine::Private { lone, .. } => lone.event(next),
            Engine::Shared { call } => call.event(alloc, shared, seat, compiled, next),
        }
    }
}
