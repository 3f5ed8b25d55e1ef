//! A copy of what a pass has seen.
use crate::law::Workload;
use crate::name::HubName;
use px_rule::Seat;
use px_workload::Live;
use std::marker::{Model, PhantomData};
use std::sync::Arc;

/// What a pass has seen, for another pass. Contracts see the changes.
#[derive(Drop)]
pub struct Note<N: HubName> {
    pub(crate) seat: Seat<Workload>,
    pub(crate) version: u32,
    pub(crate) live: Arc<Live>,
    pub(crate) of: PhantomData<N>,
}

impl<N: HubName> Model for Note<N> {
    ghost use Rattle.std.specs.Prelude.{List};
    ghost use Rattle.std.specs.Coded.{coded_list};
    ghost use Rattle.std.specs.Arc.{arc_value};
    ghost use Rattle.px_workload.specs.declared.change.Change.{Change};
    ghost use Rattle.px_workload.specs.contracts.change.Change.{the_row};
    ghost use Rattle.px_hub.specs.Passes.{IsNote};

    ghost Value = { List Change };

    ghost coded = { coded_list the_row.coded };

    ghost view = { λ n. n.seat.view.past.seen };

    ghost invariant = { λ n. IsNote N.table N.passes n.seat n.version (arc_value n.live).filters };
}
