//! Documents that passes of a small hub filter event by event, and what the hub's other calls find
//! while such a document is open.
ghost use Rattle.std.specs.Prelude.{◌≡◌, ℕ, List, [], ◌∷◌, false, IfOk};
ghost use Rattle.px_reader.specs.declared.event.Event.TheVariants.{Start};
ghost use Rattle.px_hub.specs.Passes.{PassView};
ghost use Rattle.px_hub.specs.OpenCalls.{HasTaken};

use px_hub::{Call, Config, Hub, HubName, Parts, Pass, Reply, Why};
use px_reader::Happening;
use px_text::{Ids, Words};
use std::alloc::{AllocError, Global};
use std::marker::Brand;
use std::sync::Wait;
use std::test::Fail;

/// Two passes that share one bank.
const ONE_BANK: Config = Config {
    passes: 2,
    banks: 1,
    node_bits: 4,
    step_bits: 6,
};

// Adds a filter, on a pass with no call open, and takes the pass to the version that it makes.
fn reach<N: HubName>(
    rt: &impl Wait,
    hub: &Hub<N>,
    pass: &mut Pass<N>,
    filter: &[u8],
) -> Option<u32> {
    if pass.is_open() {
        return None;
    }
    hub.subscribe(rt, pass, filter).ok()?;
    refresh(rt, hub, pass)
}

// Refreshes a pass with no call open.
fn refresh<N: HubName>(rt: &impl Wait, hub: &Hub<N>, pass: &mut Pass<N>) -> Option<u32> {
    if pass.is_open() {
        return None;
    }
    hub.refresh(rt, pass).ok()
}

// Filters an empty element by a pass with no call open.
fn filter<N: HubName>(hub: &Hub<N>, pass: &mut Pass<N>, document: &[u8]) -> Option<Reply> {
    if pass.is_open() {
        return None;
    }
    hub.filter(pass, document).ok()
}

// Begins a document whose root has this name. Its only failure is want of memory.
fn hold<N: HubName>(hub: &Hub<N>, pass: &mut Pass<N>, name: &[u8]) -> Result<Call<N>, AllocError>
    requires closed { pass.old.is_open ≡ false }
    ensures { IfOk result (λ call.
        HasTaken N.table pass.old pass.new call (Start name.now ∷ [])) }
{
    let mut call = hub.begin(pass)?;
    match hub.advance(pass, &mut call, Happening::Start { name }) {
        Ok(()) => Ok(call),
        Err(status) => {
            hub.abandon(pass, call);
            Err(status)
        }
    }
}

// Ends a document whose root has begun and is empty.
fn end<N: HubName>(hub: &Hub<N>, pass: &mut Pass<N>, mut call: Call<N>) -> Option<Reply>
    requires begun { (opened : PassView) × (name : List ℕ) ×
        HasTaken N.table opened pass.old call (Start name ∷ []) }
{
    match hub.advance(pass, &mut call, Happening::End) {
        Ok(()) => hub.finish(pass, call).ok(),
        Err(_) => {
            hub.abandon(pass, call);
            None
        }
    }
}

// Gives up a document whose root has begun.
fn give_up<N: HubName>(hub: &Hub<N>, pass: &mut Pass<N>, call: Call<N>)
    requires begun { (opened : PassView) × (name : List ℕ) ×
        HasTaken N.table opened pass.old call (Start name ∷ []) }
{
    hub.abandon(pass, call);
}

// Adds a filter by another pass while a document is open, and filters by it; then ends the
// document.
fn filter_beside<N: HubName>(
    rt: &impl Wait,
    hub: &Hub<N>,
    pass: &mut Pass<N>,
    other: &mut Pass<N>,
    call: Call<N>,
) -> Option<(Reply, Reply)>
    requires begun { (opened : PassView) × (name : List ℕ) ×
        HasTaken N.table opened pass.old call (Start name ∷ []) }
{
    reach(rt, hub, other, b"/b")?;
    let beside = filter(hub, other, b"(b\n)b\n")?;
    let held = end(hub, pass, call)?;
    Some((beside, held))
}

fn held_bank_as<N: HubName>(rt: &impl Wait, parts: Parts) -> Option<(Reply, Reply, Reply)>
    requires table { N.table ≡ parts.shared }
    requires passes { N.passes ≡ parts.passes }
{
    let (hub, mut passes) = Hub::<N>::create(parts).ok()?;
    let mut other = passes.pop()?;
    let mut pass = passes.pop()?;
    reach(rt, &hub, &mut pass, b"/a")?;
    if pass.is_open() {
        return None;
    }
    let (beside, held) = match hold(&hub, &mut pass, b"a") {
        Ok(call) => filter_beside(rt, &hub, &mut pass, &mut other, call)?,
        Err(_) => return None,
    };
    refresh(rt, &hub, &mut other)?;
    let behind = filter(&hub, &mut other, b"(b\n)b\n")?;
    Some((beside, held, behind))
}

fn held_bank(rt: &impl Wait, alloc: Global) -> Option<(Reply, Reply, Reply)> {
    let parts = Parts::new(alloc, ONE_BANK).ok()?;
    held_bank_as::<Brand>(rt, parts)
}

// The first filter's id and what the reply says of its steps.
fn reply_of(alloc: Global, version: u32, pass: u32, why: Why) -> Result<Reply, AllocError> {
    Ok(Reply {
        version,
        pass,
        ids: Ids::of(vec![in alloc; version]?),
        found: 0,
        computed: 0,
        own: 8,
        why,
    })
}

// While a document is open the only bank is given to nobody else. Its word says that it stands at
// version 1, and that somebody is inside.
#[test]
fn an_open_document_holds_its_bank(rt: HostRuntime) -> Result<(), Fail> {
    let alloc = rt.alloc();
    let Some((beside, held, behind)) = held_bank(&rt, alloc) else {
        panic!(rt; "there is memory")
    };
    let words = Words::of(vec![in alloc; 1_048_577u64]?);
    assert_eq!(rt; beside, reply_of(alloc, 2, 1, Why::NoBank { words })?);
    assert_eq!(rt; held.version, 1);
    assert!(rt; held.ids.as_slice().iter().copied().eq(1..=1));
    assert_eq!(rt; held.why, Why::Settled);
    assert_eq!(rt; behind.version, 2);
    assert!(rt; behind.ids.as_slice().iter().copied().eq(2..=2));
    assert_eq!(rt; behind.why, Why::Settled);
    Ok(())
}

fn abandoned_as<N: HubName>(rt: &impl Wait, parts: Parts) -> Option<(Reply, Reply)>
    requires table { N.table ≡ parts.shared }
    requires passes { N.passes ≡ parts.passes }
{
    let (hub, mut passes) = Hub::<N>::create(parts).ok()?;
    let mut other = passes.pop()?;
    let mut pass = passes.pop()?;
    reach(rt, &hub, &mut pass, b"/a")?;
    if pass.is_open() {
        return None;
    }
    match hold(&hub, &mut pass, b"a") {
        Ok(call) => give_up(&hub, &mut pass, call),
        Err(_) => return None,
    }
    let again = filter(&hub, &mut pass, b"(a\n)a\n")?;
    reach(rt, &hub, &mut other, b"/b")?;
    let other = filter(&hub, &mut other, b"(b\n)b\n")?;
    Some((again, other))
}

fn abandoned(rt: &impl Wait, alloc: Global) -> Option<(Reply, Reply)> {
    let parts = Parts::new(alloc, ONE_BANK).ok()?;
    abandoned_as::<Brand>(rt, parts)
}

// A document that is given up leaves its pass ready for the next, and its bank for a later version.
#[test]
fn an_abandoned_document_holds_nothing(rt: HostRuntime) {
    let Some((again, other)) = abandoned(&rt, rt.alloc()) else {
        panic!(rt; "there is memory")
    };
    assert_eq!(rt; again.version, 1);
    assert!(rt; again.ids.as_slice().iter().copied().eq(1..=1));
    assert_eq!(rt; again.why, Why::Settled);
    assert_eq!(rt; other.version, 2);
    assert!(rt; other.ids.as_slice().iter().copied().eq(2..=2));
    assert_eq!(rt; other.why, Why::Settled);
}
