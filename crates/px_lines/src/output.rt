//! Writing the answer.

ghost use Rattle.std.specs.Prelude.{◌≡◌, ◌≤◌, ◌||◌, IsTrue};
ghost use Rattle.px_io.specs.Faults.{Rose};
ghost use Rattle.px_io.specs.Flows.{AddsTo};
ghost use Rattle.px_lines.specs.Served.{is_finished, is_cut_short};
ghost use Rattle.px_lines.specs.Fronts.{AddsFront};

use px_feed::Status;
use px_io::{Sink, WriteAnswer};

/// Writes the whole answer of a run, which then ends with the status. At `WriteFault` and at
/// `Memory` a front part of it was written.
pub fn write_answer<K: Sink>(text: &[u8], status: Status, sink: &mut K) -> Status
    requires { IsTrue (is_finished status) }
    ensures ends { IsTrue (is_finished result || is_cut_short result) }
    ensures whole { IsTrue (is_finished result) →
        AddsTo (K.held sink.old) text.now (K.held sink.new) × (result ≡ status) }
    ensures front { IsTrue (is_cut_short result) →
        AddsFront (K.held sink.old) text.now (K.held sink.new) }
    ensures write_fault { result ≡ Status.WriteFault →
        Rose (K.faults sink.old) (K.faults sink.new) }
    ensures sink_counts { K.faults sink.old ≤ K.faults sink.new }
{
    match write_whole(text, sink) {
        Written::Whole => status,
        Written::Failed => Status::WriteFault,
        Written::Memory => Status::Memory,
    }
}

/// How the writing of a piece ended.
#[derive(Clone, Copy, Debug, Drop, PartialEq, Eq)]
pub enum Written {
    Whole,
    Failed,
    Memory,
}

/// Writes the whole piece, in as many writes as the sink wants. After `Failed` and `Memory` a
/// front part of it was written.
pub fn write_whole<K: Sink>(piece: &[u8], sink: &mut K) -> Written
    ensures whole { result ≡ Written.Whole → AddsTo (K.held sink.old) piece.now (K.held sink.new) }
    ensures front { AddsFront (K.held sink.old) piece.now (K.held sink.new) }
    ensures never_falls { K.faults sink.old ≤ K.faults sink.new }
    ensures failed { result ≡ Written.Failed → Rose (K.faults sink.old) (K.faults sink.new) }
{
    let mut at = 0;
    while at < piece.len() {
        match sink.write(&piece[at..]) {
            WriteAnswer::Took(count) => at += count,
            WriteAnswer::Failed => return Written::Failed,
            WriteAnswer::Memory => return Written::Memory,
        }
    }
    Written::Whole
}
