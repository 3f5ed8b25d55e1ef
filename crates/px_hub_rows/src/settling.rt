//! Documents that are filtered by passes of small hubs, with the exact counts.
ghost use Rattle.std.specs.Prelude.{◌≡◌};

use px_hub::{Config, Hub, HubName, Parts, Pass, Reply, Why};
use px_text::Ids;
use std::alloc::{AllocError, Global};
use std::marker::Brand;
use std::sync::Wait;
use std::test::Fail;

const SMALL: Config = Config {
    passes: 2,
    banks: 1,
    node_bits: 4,
    step_bits: 6,
};

// An element `a`, and an element `b`.
const A: &[u8] = b"(a\n)a\n";

const B: &[u8] = b"(b\n)b\n";

// An element `r` with the empty children `e1` to `e20`.
const TWENTY: &[u8] =
    b"(r\n(e1\n)e1\n(e2\n)e2\n(e3\n)e3\n(e4\n)e4\n(e5\n)e5\n(e6\n)e6\n(e7\n)e7\n(e8\n)e8\n(e9\n)e9\n(e10\n)e10\n(e11\n)e11\n(e12\n)e12\n(e13\n)e13\n(e14\n)e14\n(e15\n)e15\n(e16\n)e16\n(e17\n)e17\n(e18\n)e18\n(e19\n)e19\n(e20\n)e20\n)r\n";

// A child `e1` of a root `r`, and so on.
const ROOT_AND_CHILD: [&[u8]; 20] = [
    b"/r/e1", b"/r/e2", b"/r/e3", b"/r/e4", b"/r/e5", b"/r/e6", b"/r/e7", b"/r/e8", b"/r/e9",
    b"/r/e10", b"/r/e11", b"/r/e12", b"/r/e13", b"/r/e14", b"/r/e15", b"/r/e16", b"/r/e17",
    b"/r/e18", b"/r/e19", b"/r/e20",
];

// Adds a filter, on a pass with no call open.
fn add<N: HubName>(rt: &impl Wait, hub: &Hub<N>, pass: &mut Pass<N>, filter: &[u8]) -> Option<u32> {
    if pass.is_open() {
        return None;
    }
    hub.subscribe(rt, pass, filter).ok()
}

// Refreshes a pass with no call open.
fn refresh<N: HubName>(rt: &impl Wait, hub: &Hub<N>, pass: &mut Pass<N>) -> Option<u32> {
    if pass.is_open() {
        return None;
    }
    hub.refresh(rt, pass).ok()
}

// Lets a pass with no call open tell another of what it has seen.
fn tell<N: HubName>(hub: &Hub<N>, from: &mut Pass<N>, to: &mut Pass<N>) -> Option<()> {
    if from.is_open() {
        return None;
    }
    let note = hub.note(from).ok()?;
    if to.is_open() {
        return None;
    }
    hub.meet(to, note);
    Some(())
}

// Filters a document by a pass with no call open.
fn filter<N: HubName>(hub: &Hub<N>, pass: &mut Pass<N>, document: &[u8]) -> Option<Reply> {
    if pass.is_open() {
        return None;
    }
    hub.filter(pass, document).ok()
}

// The reply with the first id.
fn reply(
    alloc: Global,
    version: u32,
    pass: u32,
    id: u32,
    counts: (u64, u64, u64),
    why: Why,
) -> Result<Reply, AllocError> {
    Ok(Reply {
        version,
        pass,
        ids: Ids::of(vec![in alloc; id]?),
        found: counts.0,
        computed: counts.1,
        own: counts.2,
        why,
    })
}

fn settled_then_gone_as<N: HubName>(rt: &impl Wait, parts: Parts) -> Option<[Reply; 3]>
    requires table { N.table ≡ parts.shared }
    requires passes { N.passes ≡ parts.passes }
{
    let (hub, mut passes) = Hub::<N>::create(parts).ok()?;
    let mut other = passes.pop()?;
    let mut pass = passes.pop()?;
    add(rt, &hub, &mut pass, b"/a")?;
    refresh(rt, &hub, &mut pass)?;
    let first = filter(&hub, &mut pass, A)?;
    let second = filter(&hub, &mut pass, A)?;
    add(rt, &hub, &mut other, b"/b")?;
    refresh(rt, &hub, &mut other)?;
    let third = filter(&hub, &mut pass, A)?;
    Some([first, second, third])
}

fn settled_then_gone(rt: &impl Wait, alloc: Global) -> Option<[Reply; 3]> {
    let parts = Parts::new(alloc, SMALL).ok()?;
    settled_then_gone_as::<Brand>(rt, parts)
}

// The bank is filled by the first call and serves the second whole. Then it is given to another
// version.
#[test]
fn a_bank_serves_until_it_is_given_away(rt: HostRuntime) -> Result<(), Fail> {
    let alloc = rt.alloc();
    let first = reply(alloc, 1, 0, 1, (1, 7, 0), Why::Settled)?;
    let second = reply(alloc, 1, 0, 1, (8, 0, 0), Why::Settled)?;
    let third = reply(alloc, 1, 0, 1, (0, 0, 8), Why::Gone { word: 2_097_152 })?;
    assert_eq!(rt; settled_then_gone(&rt, alloc), Some([first, second, third]));
    Ok(())
}

fn unsettled_note_as<N: HubName>(rt: &impl Wait, parts: Parts) -> Option<(Reply, u32, Reply)>
    requires table { N.table ≡ parts.shared }
    requires passes { N.passes ≡ parts.passes }
{
    let (hub, mut passes) = Hub::<N>::create(parts).ok()?;
    let mut other = passes.pop()?;
    let mut pass = passes.pop()?;
    add(rt, &hub, &mut pass, b"/a")?;
    tell(&hub, &mut pass, &mut other)?;
    let first = filter(&hub, &mut other, A)?;
    let version = refresh(rt, &hub, &mut other)?;
    let second = filter(&hub, &mut other, A)?;
    Some((first, version, second))
}

fn unsettled_note(rt: &impl Wait, alloc: Global) -> Option<(Reply, u32, Reply)> {
    let parts = Parts::new(alloc, SMALL).ok()?;
    unsettled_note_as::<Brand>(rt, parts)
}

// A pass that met a note filters at the version that it has then reached, without its program.
#[test]
fn a_note_unsettles_a_pass(rt: HostRuntime) -> Result<(), Fail> {
    let alloc = rt.alloc();
    let first = reply(alloc, 1, 1, 1, (0, 0, 8), Why::Unsettled { have: 0 })?;
    let second = reply(alloc, 1, 1, 1, (1, 7, 0), Why::Settled)?;
    assert_eq!(rt; unsettled_note(&rt, alloc), Some((first, 1, second)));
    Ok(())
}

fn twenty_sets_as<N: HubName>(rt: &impl Wait, parts: Parts) -> Option<Reply>
    requires table { N.table ≡ parts.shared }
    requires passes { N.passes ≡ parts.passes }
{
    let (hub, mut passes) = Hub::<N>::create(parts).ok()?;
    let mut pass = passes.pop()?;
    for filter in ROOT_AND_CHILD {
        add(rt, &hub, &mut pass, filter)?;
    }
    refresh(rt, &hub, &mut pass)?;
    filter(&hub, &mut pass, TWENTY)
}

fn twenty_sets(rt: &impl Wait, alloc: Global) -> Option<Reply> {
    let config = Config {
        passes: 1,
        banks: 1,
        node_bits: 4,
        step_bits: 18,
    };
    let parts = Parts::new(alloc, config).ok()?;
    twenty_sets_as::<Brand>(rt, parts)
}

// Twenty sets of one state need twenty node places, and there are 15.
#[test]
fn a_bank_of_fifteen_places_is_filled_by_twenty_sets(rt: HostRuntime) {
    let Some(reply) = twenty_sets(&rt, rt.alloc()) else {
        panic!(rt; "there is memory")
    };
    assert_eq!(rt; reply.version, 20);
    assert!(rt; reply.ids.as_slice().iter().copied().eq(1..=20));
    assert!(rt; reply.own > 0);
    assert_eq!(rt;
        u128::from(reply.found) + u128::from(reply.computed) + u128::from(reply.own),
        168
    );
    // the word is that of a node
    assert!(rt; matches!(reply.why, Why::Full { word } if word >> 60 == 1));
}

fn two_banks_as<N: HubName>(rt: &impl Wait, parts: Parts) -> Option<([u32; 2], [Why; 2])>
    requires table { N.table ≡ parts.shared }
    requires passes { N.passes ≡ parts.passes }
{
    let (hub, mut passes) = Hub::<N>::create(parts).ok()?;
    let mut other = passes.pop()?;
    let mut pass = passes.pop()?;
    add(rt, &hub, &mut pass, b"/a")?;
    refresh(rt, &hub, &mut pass)?;
    add(rt, &hub, &mut other, b"/b")?;
    refresh(rt, &hub, &mut other)?;
    let first = filter(&hub, &mut pass, A)?;
    let second = filter(&hub, &mut other, A)?;
    Some(([first.version, second.version], [first.why, second.why]))
}

fn two_banks(rt: &impl Wait, alloc: Global) -> Option<([u32; 2], [Why; 2])> {
    let config = Config {
        passes: 3,
        banks: 2,
        node_bits: 4,
        step_bits: 6,
    };
    let parts = Parts::new(alloc, config).ok()?;
    two_banks_as::<Brand>(rt, parts)
}

// Each of two versions has a bank of its own.
#[test]
fn two_banks_serve_two_versions(rt: HostRuntime) {
    let served = Some(([1, 2], [Why::Settled, Why::Settled]));
    assert_eq!(rt; two_banks(&rt, rt.alloc()), served);
}
