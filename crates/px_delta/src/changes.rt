//! What the live lists of two passes have apart.

ghost use Rattle.std.specs.Prelude.{◌≡◌, ◌≤◌, false, length, IfOk};
ghost use Rattle.px_workload.specs.Listed.{AreInOrder};
ghost use Rattle.px_hub.specs.Calls.{seen_of};
ghost use Rattle.px_delta.specs.Apart.{AreChanges};

use crate::changed::changed;
use px_hub::{HubName, Pass};
use px_workload::live_filters_are_in_order;
use px_xpath::Numbered;
use std::alloc::{AllocError, Global};

/// The pairs of id and filter that are live for the base alone, and those for the front alone.
#[derive(Drop)]
pub(crate) struct Changes {
    pub(crate) dropped: Vec<Numbered>,
    pub(crate) added: Vec<Numbered>,
}

/// Compares what is live for two passes. Its only failure is want of memory.
pub(crate) fn changes_between<N: HubName>(
    alloc: Global,
    base: &Pass<N>,
    front: &Pass<N>,
) -> Result<Changes, AllocError>
    requires base { base.now.is_open ≡ false }
    requires front { front.now.is_open ≡ false }
    ensures { IfOk result (AreChanges (seen_of base.now) (seen_of front.now)) }
{
    // The history is legal, so a program can be built of the filters.
    let _version = front.version();
    live_filters_are_in_order();
    let old = base.live().as_slice();
    let new = front.live().as_slice();
    Ok(Changes {
        dropped: changed(alloc, old, new)?,
        added: changed(alloc, new, old)?,
    })
}

/// How many pairs these are.
pub(crate) fn count_of(pairs: &[Numbered]) -> u32
    requires order { AreInOrder pairs.now }
    ensures count { result ≡ length pairs.now }
{
    pairs.len() as u32
}
