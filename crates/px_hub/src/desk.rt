//! What lies behind the lock.
use crate::at_version::AtVersion;
use crate::law::Workload;
use crate::name::HubName;
use px_rule::Seat;
use px_workload::Journal;
use std::marker::{Model, PhantomData};
use std::sync::Arc;

/// The journal, the desk's seat, the versions of the banks, and the newest program that was built.
/// Contracts see what the desk knows.
#[derive(Drop)]
pub(crate) struct Desk<N: HubName> {
    pub(crate) journal: Journal,
    pub(crate) seat: Seat<Workload>,
    pub(crate) stands: Vec<u32>,
    pub(crate) built: Arc<AtVersion>,
    pub(crate) of: PhantomData<N>,
}

impl<N: HubName> Model for Desk<N> {
    ghost use Rattle.std.specs.Arc.{arc_value};
    ghost use Rattle.px_workload.specs.declared.change.Change.{Change};
    ghost use Rattle.px_rule.specs.declared.view.View.{View};
    ghost use Rattle.px_hub.specs.Passes.{IsDesk, view_code};

    ghost Value = { View Change };

    ghost coded = { view_code };

    ghost view = { λ d. d.seat.view };

    ghost invariant = { λ d. IsDesk N.table N.passes d.seat d.journal.changes d.stands.items
        (arc_value d.built) };
}
