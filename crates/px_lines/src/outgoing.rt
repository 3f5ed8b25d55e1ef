//! Lines on their way to the sink.

ghost use Rattle.std.specs.Prelude.{◌≡◌, ◌≤◌, ◌∷◌, ◌++◌, [], List, ℕ, Option, Err, if◌then◌else◌};
ghost use Rattle.px_io.specs.Faults.{Rose};
ghost use Rattle.px_feed.specs.declared.line.OutLine as out;
ghost use Rattle.px_feed.specs.declared.line.OutLine.TheVariants as variants;
ghost use Rattle.px_feed.specs.Lines.{is_refusal as refuses};
ghost use Rattle.px_lines.specs.Waiting.{HasSaid, SaysOn, WritesRest, Closes, Breaks};

use crate::output::{Written, write_whole};
use px_feed::{FeedFault, OutLine, Status, line_of};
use px_io::Sink;
use std::alloc::Global;

/// How many bytes may wait before they are written.
const MOST_PENDING: usize = 65_536;

/// The lines that were said and wait to be written, and whether one of all lines was a refusal.
#[derive(Drop)]
pub struct Outgoing {
    pending: Vec<u8>,
    refused: bool,
}

impl Outgoing {
    /// Before the first line. It takes no memory.
    pub fn new(alloc: Global) -> Outgoing
        ensures { (held : Option (List ℕ)) → HasSaid result held held [] }
    {
        Outgoing {
            pending: Vec::new(alloc),
            refused: false,
        }
    }

    /// Takes a line in, and writes what waits once that is much. An error is the status with which
    /// the run ends.
    pub fn say<K: Sink>(
        &mut self,
        alloc: Global,
        line: &OutLine,
        sink: &mut K,
    ) -> Result<(), Status>
        ensures says { SaysOn result self.old self.new (K.held sink.old) (K.held sink.new)
            (line.now ∷ []) }
        ensures write_fault { result ≡ Err Status.WriteFault →
            Rose (K.faults sink.old) (K.faults sink.new) }
        ensures never_falls { K.faults sink.old ≤ K.faults sink.new }
    {
        self.take(alloc, line)?;
        if self.pending.len() < MOST_PENDING {
            return Ok(());
        }
        self.write(sink)
    }

    /// Writes all that waits.
    pub fn write<K: Sink>(&mut self, sink: &mut K) -> Result<(), Status>
        ensures rest { WritesRest result self.old self.new (K.held sink.old) (K.held sink.new) }
        ensures write_fault { result ≡ Err Status.WriteFault →
            Rose (K.faults sink.old) (K.faults sink.new) }
        ensures never_falls { K.faults sink.old ≤ K.faults sink.new }
    {
        match write_whole(self.pending.as_slice(), sink) {
            Written::Whole => {
                self.pending.clear();
                Ok(())
            }
            Written::Failed => Err(Status::WriteFault),
            Written::Memory => Err(Status::Memory),
        }
    }

    /// Writes all that waits at the end of a run, and answers its status: `Refused` where one of
    /// its lines was a refusal.
    pub fn finish<K: Sink>(&mut self, sink: &mut K) -> Status
        ensures closes { (held : Option (List ℕ)) (lines : List out.OutLine) →
            HasSaid self.old held (K.held sink.old) lines →
            Closes result held (K.held sink.new) lines }
        ensures write_fault { result ≡ Status.WriteFault →
            Rose (K.faults sink.old) (K.faults sink.new) }
        ensures never_falls { K.faults sink.old ≤ K.faults sink.new }
    {
        match self.write(sink) {
            Ok(()) => ending(self.refused),
            Err(status) => status,
        }
    }

    /// Says the line of a fault, which is the last, and ends the run.
    pub fn refuse<K: Sink>(&mut self, alloc: Global, fault: FeedFault, sink: &mut K) -> Status
        ensures closes { (held : Option (List ℕ)) (lines : List out.OutLine) →
            HasSaid self.old held (K.held sink.old) lines →
            Closes result held (K.held sink.new) (lines ++ variants.Faulty fault ∷ []) }
        ensures write_fault { result ≡ Status.WriteFault →
            Rose (K.faults sink.old) (K.faults sink.new) }
        ensures never_falls { K.faults sink.old ≤ K.faults sink.new }
    {
        match self.say(alloc, &OutLine::Faulty(fault), sink) {
            Ok(()) => self.finish(sink),
            Err(status) => status,
        }
    }

    /// Writes all that waits in a run whose source met a fault, and answers its status.
    pub fn break_off<K: Sink>(&mut self, sink: &mut K) -> Status
        ensures breaks { (held : Option (List ℕ)) (lines : List out.OutLine) →
            HasSaid self.old held (K.held sink.old) lines →
            Breaks result held (K.held sink.new) lines }
        ensures write_fault { result ≡ Status.WriteFault →
            Rose (K.faults sink.old) (K.faults sink.new) }
        ensures never_falls { K.faults sink.old ≤ K.faults sink.new }
    {
        match self.write(sink) {
            Ok(()) => Status::ReadFault,
            Err(status) => status,
        }
    }

    // Takes a line in.
    fn take(&mut self, alloc: Global, line: &OutLine) -> Result<(), Status>
        ensures says { (now : Option (List ℕ)) →
            SaysOn result self.old self.new now now (line.now ∷ []) }
        ensures memory { result ≡ Err Status.WriteFault → ⊥ }
    {
        let Ok(text) = line_of(alloc, line) else {
            return Err(Status::Memory);
        };
        if self.pending.extend_from_slice(text.as_slice()).is_err() {
            return Err(Status::Memory);
        }
        self.refused |= is_refusal(line);
        Ok(())
    }
}

// How a run ends that has written all its lines.
fn ending(refused: bool) -> Status
    ensures { result ≡ (if refused then Status.Refused else Status.Done) }
{
    if refused {
        Status::Refused
    } else {
        Status::Done
    }
}

// Whether a line is a refusal.
fn is_refusal(line: &OutLine) -> bool
    ensures { result ≡ refuses line.now }
{
    match line {
        OutLine::Added { .. }
        | OutLine::Dropped { .. }
        | OutLine::Replaced { .. }
        | OutLine::Matched { .. }
        | OutLine::Yes
        | OutLine::No => false,
        _ => true,
    }
}
