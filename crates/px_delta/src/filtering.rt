//! A document is filtered at the version of the front.

ghost use Rattle.std.specs.Prelude.{◌≡◌, ◌≤◌, ◌<◌, ◌+◌, ◌^◌, ◌==◌, false, IfOk, IfErr, IfSome, length, if◌then◌else◌};
ghost use Rattle.px_text.specs.Nodes.{Root};
ghost use Rattle.px_reader.specs.Documents.{content};
ghost use Rattle.px_reader.specs.Spelling.{events_of};
ghost use Rattle.px_reader.specs.Verdicts.{HasVerdict, IsTree};
ghost use Rattle.px_xpath.specs.Meaning.{holds};
ghost use Rattle.px_xpath.specs.Subscribed.{subscriptions};
ghost use Rattle.px_afa.specs.Sound.{AreLive};
ghost use Rattle.px_workload.specs.Listed.{AreInOrder};
ghost use Rattle.px_hub.specs.declared.reply.FilterCallFault.TheVariants.{Memory};
ghost use Rattle.px_hub.specs.Calls.{seen_of};
ghost use Rattle.px_delta.specs.Apart.{IsReply};
ghost use Rattle.px_delta.specs.Deltas.{delta_view, Answers, Replies};
ghost use Rattle.px_delta.specs.Lists.{matching, merge, without_ids};

use crate::changes::{Changes, changes_between, count_of};
use crate::laws::{same_filters_are_told, two_live_lists_make_one};
use crate::merging::merged;
use crate::private::ids_beside;
use crate::reply::DeltaReply;
use px_hub::{FilterCallFault, Hub, HubName, Pass, Reply};
use px_reader::{Doc, EventList, verdicts_are_one};
use px_text::{Bytes, Ids};
use std::alloc::{AllocError, Global};

/// Filters a document by the base, and with the filters of the front that the base lacks beside it.
pub(crate) fn filter<N: HubName>(
    alloc: Global,
    hub: &Hub<N>,
    base: &mut Pass<N>,
    front: &Pass<N>,
    document: &[u8],
) -> Result<DeltaReply, FilterCallFault>
    requires base { base.old.is_open ≡ false }
    requires front { front.now.is_open ≡ false }
    ensures { Answers N.table.shape (delta_view base.old front.now)
        (delta_view base.new front.now) document.now result }
{
    match read(alloc, document) {
        Some(doc) => filter_read(alloc, hub, base, front, &doc),
        None => refuse(hub, base, front, document),
    }
}

// Reads a document, if it spells a tree and there is memory.
fn read(alloc: Global, document: &[u8]) -> Option<Doc>
    ensures { IfSome result (λ doc. content doc ≡ document.now) }
{
    let bytes = Bytes::of(alloc, document).ok()?;
    Doc::of(alloc, bytes).ok()
}

// Refuses a document that was not read, as the base does.
fn refuse<N: HubName>(
    hub: &Hub<N>,
    base: &mut Pass<N>,
    front: &Pass<N>,
    document: &[u8],
) -> Result<DeltaReply, FilterCallFault>
    requires base { base.old.is_open ≡ false }
    ensures { Answers N.table.shape (delta_view base.old front.now)
        (delta_view base.new front.now) document.now result }
{
    match hub.filter(base, document) {
        Ok(_) => Err(FilterCallFault::Memory),
        Err(fault) => Err(fault),
    }
}

// Filters a document that was read.
fn filter_read<N: HubName>(
    alloc: Global,
    hub: &Hub<N>,
    base: &mut Pass<N>,
    front: &Pass<N>,
    doc: &Doc,
) -> Result<DeltaReply, FilterCallFault>
    requires base { base.old.is_open ≡ false }
    requires front { front.now.is_open ≡ false }
    ensures { Answers N.table.shape (delta_view base.old front.now)
        (delta_view base.new front.now) (content doc.now) result }
{
    verdicts_are_one();
    match hub.filter_read(base, doc) {
        Ok(reply) => reply_beside(alloc, base, front, reply, doc),
        Err(fault) => Err(fault),
    }
}

// What the front makes of the base's reply to a document.
fn reply_beside<N: HubName>(
    alloc: Global,
    base: &Pass<N>,
    front: &Pass<N>,
    reply: Reply,
    doc: &Doc,
) -> Result<DeltaReply, FilterCallFault>
    requires base { base.now.is_open ≡ false }
    requires front { front.now.is_open ≡ false }
    requires reply { (root : Root) → HasVerdict (content doc.now) (IsTree root) →
        IsReply (seen_of base.now) root reply }
    ensures reply { IfOk result (λ r. (root : Root) →
        HasVerdict (content doc.now) (IsTree root) →
        Replies (seen_of base.now) (seen_of front.now) root r) }
    ensures base { IfOk result (λ r. r.base ≡ reply) }
    ensures memory { IfErr result (λ fault. fault ≡ Memory) }
{
    verdicts_are_one();
    match beside(alloc, base, front, reply, doc.events()) {
        Ok(reply) => Ok(reply),
        Err(_) => Err(FilterCallFault::Memory),
    }
}

// The same of the events of a tree. Its only failure is want of memory.
fn beside<N: HubName>(
    alloc: Global,
    base: &Pass<N>,
    front: &Pass<N>,
    reply: Reply,
    events: &EventList,
) -> Result<DeltaReply, AllocError>
    requires base { base.now.is_open ≡ false }
    requires front { front.now.is_open ≡ false }
    requires few { length events.now ≤ 16_777_216 }
    requires reply { (root : Root) × (events.now ≡ events_of root) ×
        IsReply (seen_of base.now) root reply }
    ensures reply { IfOk result (λ r. (root : Root) → events.now ≡ events_of root →
        IsReply (seen_of base.now) root reply →
        Replies (seen_of base.now) (seen_of front.now) root r) }
    ensures base { IfOk result (λ r. r.base ≡ reply) }
{
    same_filters_are_told();
    two_live_lists_make_one();
    let changes = changes_between(alloc, base, front)?;
    let ids = ids_of_front(alloc, &changes, reply.ids.as_slice(), events)?;
    Ok(answer(front.version(), ids, reply, &changes))
}

// The ids of the front. Its only failure is want of memory.
fn ids_of_front(
    alloc: Global,
    changes: &Changes,
    of_base: &[u32],
    events: &EventList,
) -> Result<Ids, AllocError>
    requires dropped { AreInOrder changes.now.dropped.items }
    requires added { AreInOrder changes.now.added.items }
    requires live { AreLive (subscriptions changes.now.added.items) }
    requires tree { (root : Root) × (events.now ≡ events_of root) }
    ensures { IfOk result (λ ids. (root : Root) → events.now ≡ events_of root → ids ≡
        merge (without_ids of_base.now (subscriptions changes.now.dropped.items))
        (matching (λ filter. holds filter root) (subscriptions changes.now.added.items))) }
{
    let of_added = ids_beside(alloc, &changes.added, events)?;
    merged(alloc, of_base, &changes.dropped, of_added.as_slice())
}

// The reply of these parts.
fn answer(version: u32, ids: Ids, base: Reply, changes: &Changes) -> DeltaReply
    requires dropped { AreInOrder changes.now.dropped.items }
    requires added { AreInOrder changes.now.added.items }
    requires few { base.found + base.computed + base.own < 2 ^ 64 }
    ensures version { result.version ≡ version }
    ensures ids { result.ids ≡ ids }
    ensures base { result.base ≡ base }
    ensures dropped { result.dropped ≡ length changes.now.dropped.items }
    ensures added { result.added ≡ length changes.now.added.items }
    ensures steps { result.steps ≡
        if result.added == 0 then 0 else (base.found + base.computed + base.own) }
{
    let added = count_of(&changes.added);
    let steps = if added == 0 {
        0
    } else {
        base.found + base.computed + base.own
    };
    DeltaReply {
        version,
        ids,
        base,
        dropped: count_of(&changes.dropped),
        added,
        steps,
    }
}
