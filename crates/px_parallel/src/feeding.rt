//! The run over a hub.
ghost use Rattle.std.specs.Prelude.{◌≡◌, ◌≤◌, length, IsTrue};
ghost use Rattle.px_io.specs.Faults.{Rose};
ghost use Rattle.px_hub.specs.AllOfThem.{HoldsEvery};
ghost use Rattle.px_lines.specs.Served.{Served, ServedFront, ServedWhole, is_finished, is_cut_short};
ghost use Rattle.px_parallel.specs.Leading.{AreUnused};

use crate::listener::Nobody;
use crate::running::{Running, answer_feed};
use crate::workers::Workers;
use px_feed::Status;
use px_hub::{Hub, HubName, Pass};
use px_io::{Gate, Sink, Source};
use std::alloc::Global;
use std::sync::Wait;
use std::thread::Threads;

/// Answers the items of the feed in order, each by one line, to the end of the feed or its first
/// fault. The first pass makes the changes, and the others filter the documents. They are all
/// passes of the hub, at least two, and have seen nothing yet. At `WriteFault` and `Memory` a front
/// of the output was written; at `ReadFault` the lines of the items that are whole in the bytes
/// read.
pub fn feed_on<N, S, K, G, R>(
    rt: &R,
    alloc: Global,
    hub: &Hub<N>,
    passes: &mut [Pass<N>],
    source: &mut S,
    sink: &mut K,
    gate: &G,
) -> Status
where
    N: HubName + Send + Sync,
    S: Source,
    K: Sink,
    G: Gate,
    R: Threads + Wait + Sync,
    requires every { HoldsEvery N.passes passes.old }
    requires several { 2 ≤ length passes.old }
    requires unused { AreUnused passes.old }
    ensures not_usage { result ≡ Status.Usage → ⊥ }
    ensures output { IsTrue (is_finished result) →
        Served (S.left source.old) (S.left source.new) (K.held sink.old) (K.held sink.new) result }
    ensures front { IsTrue (is_cut_short result) →
        ServedFront (S.left source.old) (K.held sink.old) (K.held sink.new) }
    ensures whole_items { result ≡ Status.ReadFault →
        ServedWhole (S.left source.old) (S.left source.new) (K.held sink.old) (K.held sink.new) }
    ensures read_fault { result ≡ Status.ReadFault →
        Rose (S.faults source.old) (S.faults source.new) }
    ensures write_fault { result ≡ Status.WriteFault →
        Rose (K.faults sink.old) (K.faults sink.new) }
    ensures source_counts { S.faults source.old ≤ S.faults source.new }
    ensures sink_counts { K.faults sink.old ≤ K.faults sink.new }
{
    let run = Running {
        rt,
        workers: Workers { alloc, hub, gate },
    };
    answer_feed(&run, alloc, passes, &mut Nobody, source, sink)
}
