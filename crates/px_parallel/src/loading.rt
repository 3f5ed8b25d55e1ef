//! The command `load`: the sums over what a generated feed is answered.
ghost use Rattle.std.specs.Prelude.{◌≡◌, ◌≤◌, ◌||◌, length, IfOk, IsTrue};
ghost use Rattle.px_io.specs.Faults.{Rose};
ghost use Rattle.px_io.specs.Flows.{AddsTo};
ghost use Rattle.px_feed.specs.Generator.{feed};
ghost use Rattle.px_hub.specs.AllOfThem.{HoldsEvery};
ghost use Rattle.px_hub.specs.Names.{IsValid};
ghost use Rattle.px_lines.specs.Fronts.{AddsFront};
ghost use Rattle.px_lines.specs.Served.{is_finished, is_cut_short};
ghost use Rattle.px_parallel.specs.Leading.{AreUnused};
ghost use Rattle.px_parallel.specs.Sums.{AreSumsOf, Loaded, LoadFront, text_of_load};

use crate::forgetting::Forgetting;
use crate::running::{Running, answer_feed};
use crate::sums::{LoadLine, Sums};
use crate::workers::Workers;
use px_feed::{Status, generate};
use px_hub::{Config, Hub, HubName, Parts, Pass};
use px_io::{Gate, MemSource, Sink};
use px_lines::write_answer;
use px_text::Bytes;
use std::alloc::{AllocError, Global};
use std::marker::Brand;
use std::sync::Wait;
use std::thread::Threads;

/// A generated feed: its seed, and how many filters and documents it has.
#[derive(Clone, Copy, Debug, Drop, PartialEq, Eq)]
pub struct Generated {
    pub seed: u32,
    pub filters: u32,
    pub documents: u32,
}

/// Answers a generated feed by a hub that is made for it, as [`crate::feed`] does, and writes one
/// line of sums over what it has answered.
pub fn load<K: Sink, G: Gate, R: Threads + Wait + Sync>(
    rt: &R,
    alloc: Global,
    config: Config,
    load: Generated,
    sink: &mut K,
    gate: &G,
) -> Status
    requires valid { IsValid config }
    requires several { 2 ≤ config.passes }
    ensures ends { IsTrue (is_finished result || is_cut_short result) }
    ensures output { IsTrue (is_finished result) →
        Loaded load.seed load.filters load.documents (K.held sink.old) (K.held sink.new) result }
    ensures front { IsTrue (is_cut_short result) →
        LoadFront load.seed load.filters load.documents (K.held sink.old) (K.held sink.new) }
    ensures write_fault { result ≡ Status.WriteFault →
        Rose (K.faults sink.old) (K.faults sink.new) }
    ensures sink_counts { K.faults sink.old ≤ K.faults sink.new }
{
    match sums_of(rt, alloc, config, load, gate) {
        Ok(sums) => write_sums(alloc, LoadLine { load, sums }, sink),
        Err(_) => Status::Memory,
    }
}

// The sums over what a generated feed is answered.
fn sums_of<G: Gate, R: Threads + Wait + Sync>(
    rt: &R,
    alloc: Global,
    config: Config,
    load: Generated,
    gate: &G,
) -> Result<Sums, AllocError>
    requires valid { IsValid config }
    requires several { 2 ≤ config.passes }
    ensures { IfOk result (λ sums.
        AreSumsOf (feed load.seed load.filters load.documents) sums) }
{
    let feed = generate(alloc, load.seed, load.filters, load.documents)?;
    let parts = Parts::new(alloc, config)?;
    sums_over::<Brand, G, R>(rt, alloc, parts, feed, gate)
}

// The sums over what a feed is answered by a hub of these parts, which now has a name.
fn sums_over<N: HubName + Send + Sync, G: Gate, R: Threads + Wait + Sync>(
    rt: &R,
    alloc: Global,
    parts: Parts,
    feed: Bytes,
    gate: &G,
) -> Result<Sums, AllocError>
    requires table { N.table ≡ parts.shared }
    requires passes { N.passes ≡ parts.passes }
    requires several { 2 ≤ parts.passes }
    ensures { IfOk result (AreSumsOf feed) }
{
    let (hub, mut passes) = Hub::<N>::create(parts)?;
    tallied(rt, alloc, &hub, &mut passes, feed, gate)
}

// The sums behind a feed that is answered by these passes.
fn tallied<N: HubName + Send + Sync, G: Gate, R: Threads + Wait + Sync>(
    rt: &R,
    alloc: Global,
    hub: &Hub<N>,
    passes: &mut [Pass<N>],
    feed: Bytes,
    gate: &G,
) -> Result<Sums, AllocError>
    requires every { HoldsEvery N.passes passes.old }
    requires several { 2 ≤ length passes.old }
    requires unused { AreUnused passes.old }
    ensures { IfOk result (AreSumsOf feed) }
{
    let run = Running {
        rt,
        workers: Workers { alloc, hub, gate },
    };
    let mut sums = Sums::new();
    let mut source = MemSource::new(feed);
    match answer_feed(&run, alloc, passes, &mut sums, &mut source, &mut Forgetting) {
        Status::Done | Status::Refused => Ok(sums),
        _ => Err(AllocError),
    }
}

// Writes the line of the sums.
fn write_sums<K: Sink>(alloc: Global, line: LoadLine, sink: &mut K) -> Status
    ensures ends { IsTrue (is_finished result || is_cut_short result) }
    ensures output { IsTrue (is_finished result) →
        AddsTo (K.held sink.old) (text_of_load line) (K.held sink.new) ×
        (result ≡ Status.Done) }
    ensures front { IsTrue (is_cut_short result) →
        AddsFront (K.held sink.old) (text_of_load line) (K.held sink.new) }
    ensures write_fault { result ≡ Status.WriteFault →
        Rose (K.faults sink.old) (K.faults sink.new) }
    ensures sink_counts { K.faults sink.old ≤ K.faults sink.new }
{
    match text_of(alloc, line) {
        Ok(text) => write_answer(text.as_slice(), Status::Done, sink),
        Err(_) => Status::Memory,
    }
}

// The line of the sums, with its line feed.
fn text_of(alloc: Global, line: LoadLine) -> Result<Bytes, AllocError>
    ensures { IfOk result (λ text. text ≡ text_of_load line) }
{
    let text = format!(in alloc; "{line}\n")?;
    Ok(Bytes::from_vec(text.into_bytes()))
}
