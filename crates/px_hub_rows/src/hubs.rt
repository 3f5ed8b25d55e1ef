//! Hubs once through.
ghost use Rattle.std.specs.Prelude.{◌≡◌};
ghost use Rattle.px_hub.specs.AllOfThem.{HoldsEvery, AreClosed};

use px_hub::{
    Config, Hub, HubName, Parts, Pass, ReplaceFault, UnsubscribeFault, threads_may_share_a_hub,
};
use px_xpath::FilterFault;
use std::alloc::Global;
use std::marker::Brand;
use std::sync::Wait;
use std::thread::{Threads, join};

const SMALL: Config = Config {
    passes: 2,
    banks: 1,
    node_bits: 4,
    step_bits: 4,
};

// Adds a filter, on a pass with no call open.
fn add<N: HubName>(rt: &impl Wait, hub: &Hub<N>, pass: &mut Pass<N>, filter: &[u8]) -> Option<u32> {
    if pass.is_open() {
        return None;
    }
    hub.subscribe(rt, pass, filter).ok()
}

// Drops a filter, on a pass with no call open.
fn drop_filter<N: HubName>(
    rt: &impl Wait,
    hub: &Hub<N>,
    pass: &mut Pass<N>,
    id: u32,
) -> Option<Result<u32, UnsubscribeFault>> {
    if pass.is_open() {
        return None;
    }
    Some(hub.unsubscribe(rt, pass, id))
}

// Puts a filter in the place of another, on a pass with no call open.
fn put<N: HubName>(
    rt: &impl Wait,
    hub: &Hub<N>,
    pass: &mut Pass<N>,
    id: u32,
    filter: &[u8],
) -> Option<Result<u32, ReplaceFault>> {
    if pass.is_open() {
        return None;
    }
    Some(hub.replace(rt, pass, id, filter))
}

// Refreshes a pass with no call open, and says how many filters are live.
fn refresh<N: HubName>(rt: &impl Wait, hub: &Hub<N>, pass: &mut Pass<N>) -> Option<(u32, usize)> {
    if pass.is_open() {
        return None;
    }
    let version = hub.refresh(rt, pass).ok()?;
    Some((version, live_filters(pass)?))
}

// How many filters are live for a pass with no call open.
fn live_filters<N: HubName>(pass: &Pass<N>) -> Option<usize> {
    if pass.is_open() {
        return None;
    }
    Some(pass.live().as_slice().len())
}

// The id of the first filter that is live for a pass with no call open.
fn first_id<N: HubName>(pass: &Pass<N>) -> Option<u32> {
    if pass.is_open() {
        return None;
    }
    let first = pass.live().as_slice().first()?;
    Some(first.id)
}

// Lets a pass with no call open tell another of what it has seen.
fn tell<N: HubName>(hub: &Hub<N>, from: &mut Pass<N>, to: &mut Pass<N>) -> Option<()> {
    if from.is_open() {
        return None;
    }
    let note = hub.note(from).ok()?;
    if to.is_open() {
        return None;
    }
    hub.meet(to, note);
    Some(())
}

fn comes_and_goes_as<N: HubName>(rt: &impl Wait, parts: Parts) -> Option<([u32; 4], usize)>
    requires table { N.table ≡ parts.shared }
    requires passes { N.passes ≡ parts.passes }
{
    let (hub, mut passes) = Hub::<N>::create(parts).ok()?;
    let mut one = passes.pop()?;
    let mut two = passes.pop()?;
    let id = add(rt, &hub, &mut one, b"/a")?;
    let (version, before) = refresh(rt, &hub, &mut two)?;
    let dropped = drop_filter(rt, &hub, &mut one, id)?.ok()?;
    tell(&hub, &mut one, &mut two)?;
    Some(([id, version, dropped, two.version()], before))
}

fn comes_and_goes(rt: &impl Wait, alloc: Global) -> Option<([u32; 4], usize)> {
    let parts = Parts::new(alloc, SMALL).ok()?;
    comes_and_goes_as::<Brand>(rt, parts)
}

// A filter is added, the other pass refreshes, the filter is dropped, and a note tells of it.
#[test]
fn a_filter_comes_and_goes(rt: HostRuntime) {
    assert_eq!(rt; comes_and_goes(&rt, rt.alloc()), Some(([1, 1, 2, 2], 1)));
}

fn replaced_as<N: HubName>(rt: &impl Wait, parts: Parts) -> Option<[u32; 4]>
    requires table { N.table ≡ parts.shared }
    requires passes { N.passes ≡ parts.passes }
{
    let (hub, mut passes) = Hub::<N>::create(parts).ok()?;
    let mut pass = passes.pop()?;
    let id = add(rt, &hub, &mut pass, b"/a")?;
    let version = put(rt, &hub, &mut pass, 1, b"/b")?.ok()?;
    let Err(ReplaceFault::Unknown) = put(rt, &hub, &mut pass, 2, b"/a")? else {
        return None;
    };
    let Err(ReplaceFault::Filter(FilterFault::NotAFilter { at })) = put(
        rt, &hub, &mut pass, 9, b"[",
    )?
    else {
        return None;
    };
    let Err(UnsubscribeFault::Unknown) = drop_filter(rt, &hub, &mut pass, 2)? else {
        return None;
    };
    Some([id, version, at, first_id(&pass)?])
}

fn replaced(rt: &impl Wait, alloc: Global) -> Option<[u32; 4]> {
    let parts = Parts::new(alloc, SMALL).ok()?;
    replaced_as::<Brand>(rt, parts)
}

// Another filter takes the place of the first under its id. No filter is live under the version of
// that change.
#[test]
fn an_id_outlasts_its_filter(rt: HostRuntime) {
    assert_eq!(rt; replaced(&rt, rt.alloc()), Some([1, 2, 0, 1]));
}

fn refresh_together<N: HubName>(
    rt: &impl Wait,
    hub: &Hub<N>,
    mut passes: Vec<Pass<N>>,
) -> Option<(u32, u32, u32)>
    requires every { HoldsEvery N.passes passes.items }
    requires closed { AreClosed passes.items }
{
    let version = hub.refresh_all(rt, passes.as_mut_slice()).ok()?;
    let mut one = passes.pop()?;
    add(rt, hub, &mut one, b"/a")?;
    Some((version, one.number(), one.version()))
}

fn refreshed_as<N: HubName>(rt: &impl Wait, parts: Parts) -> Option<(u32, u32, u32)>
    requires table { N.table ≡ parts.shared }
    requires passes { N.passes ≡ parts.passes }
{
    match Hub::<N>::create(parts) {
        Ok((hub, passes)) => refresh_together(rt, &hub, passes),
        Err(_) => None,
    }
}

fn refreshed(rt: &impl Wait, alloc: Global) -> Option<(u32, u32, u32)> {
    let parts = Parts::new(alloc, SMALL).ok()?;
    refreshed_as::<Brand>(rt, parts)
}

#[test]
fn all_passes_are_refreshed(rt: HostRuntime) {
    assert_eq!(rt; refreshed(&rt, rt.alloc()), Some((0, 1, 1)));
}

// The ids of two filters that two threads add, each with a pass of its own.
fn add_both<N: HubName + Send + Sync, R: Threads + Wait + Sync>(
    rt: &R,
    hub: &Hub<N>,
    one: &mut Pass<N>,
    two: &mut Pass<N>,
) -> Option<[u32; 2]> {
    threads_may_share_a_hub::<N>();
    let (first, second) = join(rt, || add(rt, hub, one, b"/a"), || add(rt, hub, two, b"/b"));
    Some([first?, second?])
}

fn added_as<N: HubName + Send + Sync, R: Threads + Wait + Sync>(
    rt: &R,
    parts: Parts,
) -> Option<([u32; 2], [(u32, usize); 2])>
    requires table { N.table ≡ parts.shared }
    requires passes { N.passes ≡ parts.passes }
{
    let (hub, mut passes) = Hub::<N>::create(parts).ok()?;
    let mut one = passes.pop()?;
    let mut two = passes.pop()?;
    let [first, second] = add_both(rt, &hub, &mut one, &mut two)?;
    let seen = [refresh(rt, &hub, &mut one)?, refresh(rt, &hub, &mut two)?];
    Some(([first.min(second), first.max(second)], seen))
}

fn added<R: Threads + Wait + Sync>(rt: &R, alloc: Global) -> Option<([u32; 2], [(u32, usize); 2])> {
    let parts = Parts::new(alloc, SMALL).ok()?;
    added_as::<Brand, R>(rt, parts)
}

// Two threads add a filter each. The ids are 1 and 2, whoever was first, and after a refresh both
// passes are at version 2 and have both filters.
#[test]
fn two_threads_add_a_filter_each(rt: HostRuntime) {
    assert_eq!(rt; added(&rt, rt.alloc()), Some(([1, 2], [(2, 2), (2, 2)])));
}
