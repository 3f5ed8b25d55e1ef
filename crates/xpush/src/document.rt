//! The machine over one document, to the end of input.

ghost use Rattle.std.specs.Prelude.{◌≡◌, ◌<◌, ◌≤◌, ◌+◌, ◌++◌, IfOk, Ok, Err, Option, List, ℕ, true, false, length};
ghost use Rattle.std.specs.Arc.{arc_value};
ghost use Rattle.px_io.specs.Faults.{Rose};
ghost use Rattle.px_io.specs.Flows.{IsSpent};
ghost use Rattle.px_reader.specs.declared.event.Event.{Event as Happened};
ghost use Rattle.px_reader.specs.declared.fault.DocFault.{DocFault};
ghost use Rattle.px_reader.specs.Reading.{HasRead};
ghost use Rattle.px_afa.specs.Building.{Automata};
ghost use Rattle.px_machine.specs.Machines.{HasRun};
ghost use Rattle.px_document.specs.Documents.{GivesFine};
ghost use Rattle.xpush.specs.Documents.{Reads, IsAtEnd, GivesIds, GivesFault};

use crate::running::{ids_behind, take_all};
use crate::stop::Stop;
use px_afa::Program;
use px_io::{ReadAnswer, Source};
use px_machine::Machine;
use px_reader::{Event, Reader};
use px_text::Ids;
use std::alloc::{AllocError, Global};
use std::sync::Arc;

/// How many bytes are read at once.
const BUFFER: usize = 65_536;

/// Every read gives a byte at least, and a document has at most 16,777,216, so this many reads
/// find its end or its fault.
const MOST_READS: u32 = 16_777_217;

/// The ids of the program's filters that the document left in the source matches. The source is
/// read to its end, or to where the document's fault shows. The events of each piece are given to
/// the machine as they come. Where the source meets a fault, no line that was read whole is at
/// fault.
pub fn ids_in<S: Source>(alloc: Global, source: &mut S, program: Arc<Program>) -> Result<Ids, Stop>
    ensures ids { IfOk result (λ ids. GivesIds (arc_value program) (S.left source.old)
        (S.left source.new) ids) }
    ensures fault { (fault : DocFault) → result ≡ Err (Stop.Doc fault) →
        GivesFault (S.left source.old) (S.left source.new) fault }
    ensures failed { result ≡ Err Stop.Source → Rose (S.faults source.old) (S.faults source.new) }
    ensures not_at_fault { result ≡ Err Stop.Source →
        GivesFine (S.left source.old) (S.left source.new) }
    ensures never_falls { S.faults source.old ≤ S.faults source.new }
{
    let mut reader = Reader::new(alloc)?;
    let mut machine = Machine::new(alloc, program)?;
    let mut events = Vec::new(alloc);
    let mut storage = zeros(alloc, BUFFER)?;
    let buffer = storage.as_mut_slice();
    for _ in 0..MOST_READS {
        match read_piece(source, buffer, &mut reader, &mut events) {
            Ok(false) => take_all(&mut machine, events.as_slice())?,
            Ok(true) => return finish(reader, events, &mut machine),
            Err(stop) => return Err(stop),
        }
    }
    unreachable!()
}

fn zeros(alloc: Global, count: usize) -> Result<Vec<u8>, AllocError>
    ensures { IfOk result (λ zeros. length zeros.items ≡ count) }
{
    vec![in alloc; 0; count]
}

// Reads the next piece into the buffer and judges it: the events that it brings, and whether the
// source is at its end.
fn read_piece<S: Source>(
    source: &mut S,
    buffer: &mut [u8],
    reader: &mut Reader,
    events: &mut Vec<Event>,
) -> Result<bool, Stop>
    requires { 0 < length buffer.old }
    ensures more { (least : ℕ) (left : Option (List ℕ)) (given : List Happened) →
        Reads least left (S.left source.old) reader.old given →
        result ≡ Ok false → Reads (least + 1) left (S.left source.new) reader.new (given ++
        events.new.items) × (length (given ++ events.new.items) ≤ 16_777_216) }
    ensures end { result ≡ Ok true → IsAtEnd (S.left source.old) (S.left source.new) reader.old
        reader.new }
    ensures fault { (least : ℕ) (left : Option (List ℕ)) (given : List Happened) →
        Reads least left (S.left source.old) reader.old given →
        (fault : DocFault) → result ≡ Err (Stop.Doc fault) →
        GivesFault left (S.left source.new) fault }
    ensures failed { result ≡ Err Stop.Source → Rose (S.faults source.old) (S.faults source.new) }
    ensures not_at_fault { (least : ℕ) (left : Option (List ℕ)) (given : List Happened) →
        Reads least left (S.left source.old) reader.old given →
        result ≡ Err Stop.Source → GivesFine left (S.left source.new) }
    ensures never_falls { S.faults source.old ≤ S.faults source.new }
{
    events.clear();
    match source.read(buffer) {
        ReadAnswer::Got(count) => match reader.feed(&buffer[..count], events) {
            Ok(()) => Ok(false),
            Err(fault) => Err(Stop::from(fault)),
        },
        ReadAnswer::End => Ok(true),
        ReadAnswer::Failed => Err(Stop::Source),
    }
}

// Ends the document: the ids, or its fault.
fn finish(mut reader: Reader, mut events: Vec<Event>, machine: &mut Machine) -> Result<Ids, Stop>
    requires run { (program : Automata) × (bytes : List ℕ) × (given : List Happened) ×
        HasRead reader bytes given × HasRun machine.old program given }
    ensures ids { (program : Automata) (least : ℕ) (left now : Option (List ℕ))
        (given : List Happened) → Reads least left now reader given → IsSpent now →
        HasRun machine.old program given → IfOk result (λ ids. GivesIds program left now ids) }
    ensures fault { (least : ℕ) (left now : Option (List ℕ)) (given : List Happened) →
        Reads least left now reader given → IsSpent now →
        (fault : DocFault) → result ≡ Err (Stop.Doc fault) → GivesFault left now fault }
    ensures not_read { result ≡ Err Stop.Source → ⊥ }
{
    events.clear();
    match reader.end(&mut events) {
        Ok(()) => match ids_behind(machine, events.as_slice()) {
            Ok(ids) => Ok(ids),
            Err(_) => Err(Stop::Memory),
        },
        Err(fault) => Err(Stop::from(fault)),
    }
}
