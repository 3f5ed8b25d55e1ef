//! Two passes are brought to one version.

ghost use Rattle.std.specs.Prelude.{◌≡◌, false, IfOk, OnErr};
ghost use Rattle.px_delta.specs.Deltas.{delta_view, Rebased, Stopped};

use px_hub::{Hub, HubName, Pass};
use std::alloc::AllocError;
use std::sync::Wait;

/// Brings both passes to one version, and answers it. Its only failure is want of memory.
pub(crate) fn rebase<N: HubName>(
    hub: &Hub<N>,
    rt: &impl Wait,
    base: &mut Pass<N>,
    front: &mut Pass<N>,
) -> Result<u32, AllocError>
    requires base { base.old.is_open ≡ false }
    requires front { front.old.is_open ≡ false }
    ensures rebased { IfOk result (λ version. Rebased N.table.shape.banks version
        (delta_view base.old front.old) (delta_view base.new front.new)) }
    ensures memory { OnErr result (Stopped N.table.shape.banks
        (delta_view base.old front.old) (delta_view base.new front.new)) }
{
    hub.refresh(rt, front)?;
    let of_front = hub.note(front)?;
    hub.meet(base, of_front);
    let version = hub.refresh(rt, base)?;
    let of_base = hub.note(base)?;
    hub.meet(front, of_base);
    Ok(version)
}
