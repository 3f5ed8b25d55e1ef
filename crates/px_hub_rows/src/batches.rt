//! Batches over hubs, with workers that wait for one another.
ghost use Rattle.std.specs.Prelude.{◌≡◌, ◌≤◌, true};
ghost use Rattle.px_hub.specs.AllOfThem.{AreClosed};

use px_hub::{Config, Hub, HubName, Parts, Pass, Reply};
use px_io::Gate;
use px_pool::batch;
use px_reader::Doc;
use px_text::Bytes;
use std::alloc::Global;
use std::marker::Brand;
use std::sync::Wait;
use std::sync::atomic::{AtomicBool, Ordering};
use std::thread::Threads;

// How often a gate looks whether it may go on.
const TURNS: u32 = 1_000_000_000;

/// A gate at which the first document waits until the last one is done.
#[derive(Drop)]
struct FirstWaits {
    last: u64,
    done: AtomicBool,
    /// whether the first has seen the last done
    seen: AtomicBool,
}

impl Gate for FirstWaits {
    fn at(&self, call: u64) {
        if call != 1 {
            return;
        }
        for _ in 0..TURNS {
            if self.done.load(Ordering::SeqCst) {
                self.seen.store(true, Ordering::SeqCst);
                return;
            }
        }
    }

    fn done(&self, call: u64) {
        if call == self.last {
            self.done.store(true, Ordering::SeqCst);
        }
    }
}

// Refreshes a pass with no call open.
fn refresh<N: HubName>(rt: &impl Wait, hub: &Hub<N>, pass: &mut Pass<N>) -> Option<u32> {
    if pass.is_open() {
        return None;
    }
    hub.refresh(rt, pass).ok()
}

// Adds a filter, on a pass with no call open.
fn add<N: HubName>(rt: &impl Wait, hub: &Hub<N>, pass: &mut Pass<N>, filter: &[u8]) -> Option<u32> {
    if pass.is_open() {
        return None;
    }
    hub.subscribe(rt, pass, filter).ok()
}

// Whether no call is open on any of the passes.
fn are_closed<N: HubName>(passes: &[Pass<N>]) -> bool
    ensures { result ≡ true → AreClosed passes.now }
{
    for at in 0..passes.len() {
        if passes[at].is_open() {
            return false;
        }
    }
    true
}

// So many documents of one element `a`.
fn documents(alloc: Global, count: usize) -> Option<Vec<Doc>> {
    let mut docs = Vec::new(alloc);
    for _ in 0..count {
        let bytes = Bytes::of(alloc, b"(a\n)a\n").ok()?;
        docs.push(Doc::of(alloc, bytes).ok()?).ok()?;
    }
    Some(docs)
}

// Whether it is the reply at version 1 with the one id.
fn is_right(reply: &Reply) -> bool {
    reply.version == 1 && reply.ids.as_slice().iter().copied().eq([1])
}

// A batch of as many documents as there are passes, the first of which waits for the last. It tells
// whether the first has seen the last done, and whether all replies are right.
fn side_by_side_as<N: HubName + Send + Sync>(
    rt: &(impl Threads + Wait + Sync),
    alloc: Global,
    parts: Parts,
    count: usize,
) -> Option<(bool, bool)>
    requires table { N.table ≡ parts.shared }
    requires passes { N.passes ≡ parts.passes }
{
    let (hub, mut passes) = Hub::<N>::create(parts).ok()?;
    add(rt, &hub, passes.first_mut()?, b"/a")?;
    for pass in &mut passes {
        refresh(rt, &hub, pass)?;
    }
    if passes.is_empty() || !are_closed(&passes) {
        return None;
    }
    let docs = documents(alloc, count)?;
    let gate = FirstWaits {
        last: count as u64,
        done: AtomicBool::new(false),
        seen: AtomicBool::new(false),
    };
    let replies = batch(rt, alloc, &hub, &mut passes, &docs, &gate).ok()?;
    let right = replies.len() == count && replies.iter().all(is_right);
    Some((gate.seen.load(Ordering::SeqCst), right))
}

fn side_by_side(
    rt: &(impl Threads + Wait + Sync),
    alloc: Global,
    passes: u32,
) -> Option<(bool, bool)>
    requires { passes ≤ 65 }
{
    let config = Config {
        passes,
        banks: 1,
        node_bits: 6,
        step_bits: 8,
    };
    let parts = Parts::new(alloc, config).ok()?;
    side_by_side_as::<Brand>(rt, alloc, parts, passes as usize)
}

#[test]
fn two_workers_run_side_by_side(rt: HostRuntime) {
    assert_eq!(rt; side_by_side(&rt, rt.alloc(), 2), Some((true, true)));
}

#[test]
fn sixty_four_workers_run_side_by_side(rt: HostRuntime) {
    assert_eq!(rt; side_by_side(&rt, rt.alloc(), 64), Some((true, true)));
}
