//! A bank renewed, as a crate above does it.
ghost use Rattle.std.specs.Prelude.{◌≡◌, ◌<◌};
ghost use mathlib.Core.Option.{some};
ghost use lib.ListN.{get_elem?};
ghost use Rattle.px_rule.specs.declared.view.Kind.TheVariants.{Desk};
ghost use Rattle.px_rule.specs.declared.view.Stand.{Stand};

use crate::banks::{publish, zero};
use px_rule::{Law, Seat, Shared};

/// Clears the bank that was claimed, and publishes it.
pub(crate) fn renew<L: Law>(shared: &Shared<L>, desk: &mut Seat<L>, bank: u32)
    requires table { desk.old.table ≡ shared.now }
    requires bank { bank < shared.now.shape.banks }
    requires desk { desk.old.view.past.kind ≡ Desk }
    requires built { (a : Stand) × (get_elem? desk.old.view.stay.stands bank ≡ some a) ×
        (a.building ≡ 1) × (a.zeroed ≡ 0) }
    ensures table { desk.new.table ≡ desk.old.table }
    ensures past { desk.new.view.past ≡ desk.old.view.past }
{
    zero(shared, desk, bank);
    publish(shared, desk, bank);
}
