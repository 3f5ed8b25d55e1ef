//! Several lines said one behind the other.
ghost use Rattle.std.specs.Prelude.{◌≡◌, ◌≤◌, Err};
ghost use Rattle.px_io.specs.Faults.{Rose};
ghost use Rattle.px_lines.specs.Waiting.{SaysOn};

use px_feed::{OutLine, Status};
use px_io::Sink;
use px_lines::Outgoing;
use std::alloc::Global;

/// Says the lines in order. An error is the status with which the run ends.
pub(crate) fn say_all<K: Sink>(
    alloc: Global,
    outgoing: &mut Outgoing,
    lines: &[OutLine],
    sink: &mut K,
) -> Result<(), Status>
    ensures says { SaysOn result outgoing.old outgoing.new (K.held sink.old) (K.held sink.new)
        lines.now }
    ensures write_fault { result ≡ Err Status.WriteFault →
        Rose (K.faults sink.old) (K.faults sink.new) }
    ensures never_falls { K.faults sink.old ≤ K.faults sink.new }
{
    for line in lines {
        match outgoing.say(alloc, line, sink) {
            Ok(()) => {}
            Err(status) => return Err(status),
        }
    }
    Ok(())
}
