//! The ids of the front, by those of the base and of the added filters.

ghost use Rattle.std.specs.Prelude.{◌≡◌, IfOk};
ghost use Rattle.px_xpath.specs.Subscribed.{subscriptions};
ghost use Rattle.px_workload.specs.Listed.{AreInOrder};
ghost use Rattle.px_afa.specs.Sound.{AreRising};
ghost use Rattle.px_delta.specs.Lists.{merge, without_ids};

use crate::pairs::has_id;
use px_step::ascending;
use px_text::Ids;
use px_xpath::Numbered;
use std::alloc::{AllocError, Global};

/// The ids without those of the dropped pairs, and the added ones, rising. Its only failure is want
/// of memory.
pub(crate) fn merged(
    alloc: Global,
    ids: &[u32],
    dropped: &[Numbered],
    added: &[u32],
) -> Result<Ids, AllocError>
    requires dropped { AreInOrder dropped.now }
    ensures { IfOk result (λ all. AreRising added.now → all ≡
        merge (without_ids ids.now (subscriptions dropped.now)) added.now) }
{
    let mut all = kept(alloc, ids, dropped)?;
    all.extend_from_slice(added)?;
    Ok(Ids::of(ascending(all)))
}

// The ids without those of the dropped pairs.
fn kept(alloc: Global, ids: &[u32], dropped: &[Numbered]) -> Result<Vec<u32>, AllocError>
    requires dropped { AreInOrder dropped.now }
    ensures { IfOk result (λ kept. kept.items ≡
        without_ids ids.now (subscriptions dropped.now)) }
{
    let mut kept = Vec::new(alloc);
    for id in ids {
        if !has_id(dropped, *id) {
            kept.push(*id)?;
        }
    }
    Ok(kept)
}
