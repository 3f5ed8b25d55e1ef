//! Letters are gathered, and put to their mailboxes one after the other.
ghost use Rattle.std.specs.Prelude.{◌≡◌, ◌+◌, ◌++◌, ◌<◌, ◌^◌, ◌↔◌, true, [], Some, ℕ, length, slice_get, OnOk};
ghost use Rattle.px_post.specs.Mail.{Way};
ghost use Rattle.px_post.specs.Sending.{routed, with_route, to_go, AreReady, Moves, Went, PutAt, PutFirst};

use crate::mailbox::Slip;
use crate::waiting::Waiting;
use std::alloc::AllocError;
use std::collections::{BTreeMap, VecDeque};
use std::sync::Wait;

/// How many letters there may be for a mailbox, and how many documents, before the next is posted.
pub(crate) const LIMIT: u64 = 4_611_686_018_427_387_904;

/// Lists the letters for the ids of a document. Its only failure is want of memory.
pub(crate) fn gather(
    routes: &BTreeMap<u32, u32>,
    ids: &[u32],
    left: &mut VecDeque<Waiting>,
) -> Result<(), AllocError>
    requires none { left.old.items ≡ [] }
    ensures ok { OnOk result (left.new.items ≡ to_go (routed routes.now.entries) ids.now) }
{
    for id in ids {
        gather_one(mailbox_of(routes, *id), *id, left)?;
    }
    Ok(())
}

/// Where the letters of an id go.
pub(crate) fn mailbox_of(routes: &BTreeMap<u32, u32>, id: u32) -> Option<u32>
    ensures { result ≡ routed routes.now.entries id }
{
    routes.get(&id).copied()
}

// Lists the letter of an id that has a mailbox. Its only failure is want of memory.
fn gather_one(mailbox: Option<u32>, id: u32, left: &mut VecDeque<Waiting>) -> Result<(), AllocError>
    ensures ok { OnOk result (left.new.items ≡ left.old.items ++ with_route mailbox id []) }
{
    match mailbox {
        Some(mailbox) => {
            left.push_back(Waiting { mailbox, id })?;
            Ok(())
        }
        None => Ok(()),
    }
}

/// Puts the letters that are left, in order, as long as there is room. It answers the mailbox that
/// was full.
pub(crate) fn put_all<R: Wait>(
    rt: &R,
    feeder: u32,
    number: u64,
    slips: &mut Vec<Slip>,
    left: &mut VecDeque<Waiting>,
) -> Option<u32>
    requires ready { AreReady feeder slips.old.items left.old.items }
    ensures moves { Moves feeder number slips.old.items left.old.items slips.new.items
        left.new.items }
    ensures went { Went slips.new.items left.new.items result }
{
    for _ in 0..left.len() {
        let stopped = put_first(rt, feeder, number, slips, left);
        if stopped.is_some() {
            return stopped;
        }
    }
    None
}

// Puts the first letter that is left, if there is one. It answers the mailbox that was full.
fn put_first<R: Wait>(
    rt: &R,
    feeder: u32,
    number: u64,
    slips: &mut Vec<Slip>,
    left: &mut VecDeque<Waiting>,
) -> Option<u32>
    requires ready { AreReady feeder slips.old.items left.old.items }
    requires some { 0 < length left.old.items }
    ensures moves { Moves feeder number slips.old.items left.old.items slips.new.items
        left.new.items }
    ensures went { PutFirst slips.new.items left.old.items left.new.items result }
{
    let first = left[0];
    if put_at(rt, number, slips, first) {
        left.pop_front();
        return None;
    }
    Some(first.mailbox)
}

// Puts a letter at the way to its mailbox. It answers whether there was room.
fn put_at<R: Wait>(rt: &R, number: u64, slips: &mut Vec<Slip>, waiting: Waiting) -> bool
    requires room { (w : Way) × (slice_get slips.old.items waiting.mailbox ≡ Some w)
        × (length w.put + 1 < 2 ^ 64) }
    ensures put { (w : Way) → slice_get slips.old.items waiting.mailbox ≡ Some w →
        PutAt result slips.old.items slips.new.items number waiting w }
{
    let slip = &mut slips[waiting.mailbox as usize];
    slip.put_next(rt, number, waiting.id)
}

/// Whether each mailbox may have the letters of one document more.
pub(crate) fn have_room(slips: &[Slip]) -> bool
    ensures { (result ≡ true) ↔ ((b : ℕ) (w : Way) → slice_get slips.now b ≡ Some w →
        length w.put < 2 ^ 62) }
{
    for slip in slips {
        if slip.count() >= LIMIT {
            return false;
        }
    }
    true
}
