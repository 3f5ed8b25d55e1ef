//! Which tiers stay as they are when filters wait, and what the next one may remember.

ghost use Rattle.std.specs.Prelude.{◌≡◌, ◌<◌, ◌≤◌, ◌+◌, length};
ghost use Rattle.px_tiers.specs.Bytes.{halved};

use crate::home_table::HomeTable;
use crate::tier::Tier;

/// The most tiers that there are at once.
pub(crate) const MOST_TIERS: usize = 8;

// How many bytes all machines together may remember from one document to the next.
const MOST_BYTES: u64 = 134_217_728;

// A tier stays where it has so many times as many live filters as all that are younger.
const TIMES: usize = 8;

/// How many of the oldest tiers stay as they are, when so many filters wait: those before the first
/// that has too few live filters beside the younger ones, or more dead than living.
pub(crate) fn kept_tiers(tiers: &[Tier], homes: &HomeTable, waiting: usize) -> usize
    ensures within { result ≤ length tiers.now }
    ensures few { result < 8 }
{
    let many = tiers.len();
    let mut kept = many.min(MOST_TIERS - 1);
    let mut younger = waiting;
    for behind in 0..many {
        let at = many - 1 - behind;
        let living = homes.count(at + 1);
        let stays = has_weight(living, tiers[at].ids().len(), younger);
        kept = lowered(kept, at, stays);
        younger = younger.saturating_add(living);
    }
    kept
}

// How many stay at most, where this one does not.
fn lowered(kept: usize, at: usize, stays: bool) -> usize
    ensures { result ≤ kept }
{
    if stays { kept } else { kept.min(at) }
}

// Whether a tier stays that has so many living filters, of so many, beside the younger ones.
fn has_weight(living: usize, all: usize, younger: usize) -> bool {
    living >= younger.saturating_mul(TIMES) && all.saturating_sub(living) <= living
}

/// How many bytes the tier behind so many older ones may remember: half of what they leave.
pub(crate) fn share_of(older: usize) -> u64
    ensures share { result ≡ halved 134_217_728 (older + 1) }
{
    let mut share = MOST_BYTES / 2;
    for _ in 0..older {
        share /= 2;
    }
    share
}
