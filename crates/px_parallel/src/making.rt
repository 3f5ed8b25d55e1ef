//! The command `feed`: a hub of its own for one feed.
ghost use Rattle.std.specs.Prelude.{◌≡◌, ◌≤◌, IsTrue};
ghost use Rattle.px_io.specs.Faults.{Rose};
ghost use Rattle.px_hub.specs.Names.{IsValid};
ghost use Rattle.px_lines.specs.Served.{Served, ServedFront, ServedWhole, is_finished, is_cut_short};

use crate::feeding::feed_on;
use px_feed::Status;
use px_hub::{Config, Hub, HubName, Parts};
use px_io::{Gate, Sink, Source};
use std::alloc::Global;
use std::marker::Brand;
use std::sync::Wait;
use std::thread::Threads;

/// Answers a feed by a hub that is made for it: one pass for the changes, and one for each worker.
/// It answers as [`feed_on`] does.
pub fn feed<S, K, G, R>(
    rt: &R,
    alloc: Global,
    config: Config,
    source: &mut S,
    sink: &mut K,
    gate: &G,
) -> Status
where
    S: Source,
    K: Sink,
    G: Gate,
    R: Threads + Wait + Sync,
    requires valid { IsValid config }
    requires several { 2 ≤ config.passes }
    ensures not_usage { result ≡ Status.Usage → ⊥ }
    ensures output { IsTrue (is_finished result) →
        Served (S.left source.old) (S.left source.new) (K.held sink.old) (K.held sink.new) result }
    ensures front { IsTrue (is_cut_short result) →
        ServedFront (S.left source.old) (K.held sink.old) (K.held sink.new) }
    ensures whole_items { result ≡ Status.ReadFault →
        ServedWhole (S.left source.old) (S.left source.new) (K.held sink.old) (K.held sink.new) }
    ensures read_fault { result ≡ Status.ReadFault →
        Rose (S.faults source.old) (S.faults source.new) }
    ensures write_fault { result ≡ Status.WriteFault →
        Rose (K.faults sink.old) (K.faults sink.new) }
    ensures source_counts { S.faults source.old ≤ S.faults source.new }
    ensures sink_counts { K.faults sink.old ≤ K.faults sink.new }
{
    match Parts::new(alloc, config) {
        Ok(parts) => feed_named::<Brand, S, K, G, R>(rt, alloc, parts, source, sink, gate),
        Err(_) => Status::Memory,
    }
}

// The same by a hub of these parts, which now has a name.
fn feed_named<N, S, K, G, R>(
    rt: &R,
    alloc: Global,
    parts: Parts,
    source: &mut S,
    sink: &mut K,
    gate: &G,
) -> Status
where
    N: HubName + Send + Sync,
    S: Source,
    K: Sink,
    G: Gate,
    R: Threads + Wait + Sync,
    requires table { N.table ≡ parts.shared }
    requires passes { N.passes ≡ parts.passes }
    requires several { 2 ≤ parts.passes }
    ensures not_usage { result ≡ Status.Usage → ⊥ }
    ensures output { IsTrue (is_finished result) →
        Served (S.left source.old) (S.left source.new) (K.held sink.old) (K.held sink.new) result }
    ensures front { IsTrue (is_cut_short result) →
        ServedFront (S.left source.old) (K.held sink.old) (K.held sink.new) }
    ensures whole_items { result ≡ Status.ReadFault →
        ServedWhole (S.left source.old) (S.left source.new) (K.held sink.old) (K.held sink.new) }
    ensures read_fault { result ≡ Status.ReadFault →
        Rose (S.faults source.old) (S.faults source.new) }
    ensures write_fault { result ≡ Status.WriteFault →
        Rose (K.faults sink.old) (K.faults sink.new) }
    ensures source_counts { S.faults source.old ≤ S.faults source.new }
    ensures sink_counts { K.faults sink.old ≤ K.faults sink.new }
{
    match Hub::<N>::create(parts) {
        Ok((hub, mut passes)) => feed_on(rt, alloc, &hub, &mut passes, source, sink, gate),
        Err(_) => Status::Memory,
    }
}
