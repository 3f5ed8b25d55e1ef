//! A document that comes line by line, and is kept with its events.

ghost use Rattle.std.specs.Prelude.{◌≡◌, ◌<◌, ◌≤◌, ◌++◌, [], ◌∷◌, true, false, length, IsTrue, IsUtf8, IfErr, OnOk, OnErr};
ghost use Rattle.px_text.specs.Nodes.{Root};
ghost use Rattle.px_reader.specs.Documents.{content};
ghost use Rattle.px_reader.specs.Lines.{is_ended, is_whole, has_no_feed, lines_of};
ghost use Rattle.px_reader.specs.Records.{Records, Refuses, RefusesEnd};
ghost use Rattle.px_reader.specs.Scanned.{IsWithin, line_to};
ghost use Rattle.px_reader.specs.Scanning.{brought_in, JudgesLine};
ghost use Rattle.px_reader.specs.Verdicts.{HasVerdict, IsTree, AreTreeEvents};

use crate::doc::Doc;
use crate::event_list::EventList;
use crate::fault::{DocKind, LineFault};
use crate::scanner::{Own, Scanner, Told};
use px_text::Bytes;
use std::alloc::{AllocError, Global};
use std::marker::Model;
use std::mem;

/// The most bytes of a document.
const MAX_DOCUMENT: usize = 16_777_216;

/// The lines of a document so far, each of which is judged, and the events that they bring.
/// Contracts see the bytes of the lines.
#[derive(Drop)]
pub struct Recorder {
    alloc: Global,
    scanner: Scanner,
    bytes: Vec<u8>,
    events: EventList,
}

impl Model for Recorder {
    ghost use Rattle.std.specs.Prelude.{List, ℕ};
    ghost use Rattle.px_reader.specs.Recorded.{HasRecorded};

    ghost Value = { List ℕ };

    ghost view = { λ recorder. recorder.bytes.items };

    ghost invariant = { λ recorder. HasRecorded recorder.scanner recorder.bytes.items
        recorder.events };
}

impl Recorder {
    ghost use Rattle.std.specs.Prelude.{◌==◌, IsFalse, IfOk};
    ghost use Rattle.px_reader.specs.Recorded.{recorded, AreFine};
    ghost use Rattle.px_reader.specs.Spelling.{Spells};

    /// No lines. It takes no memory.
    pub fn new(alloc: Global) -> Recorder
        ensures { recorded result ≡ [] }
    {
        Recorder {
            alloc,
            scanner: Scanner::new(alloc),
            bytes: Vec::new(alloc),
            events: EventList::new(alloc),
        }
    }

    /// Whether there are no lines.
    pub fn is_empty(&self) -> bool
        ensures { result ≡ (length (recorded self.now) == 0) }
    {
        self.bytes.is_empty()
    }

    /// How many bytes the lines have.
    pub fn size(&self) -> usize
        ensures { result ≡ length (recorded self.now) }
    {
        self.bytes.len()
    }

    /// Adds a line with its line feed, which may be known to be UTF-8. At an error there are no
    /// lines any more.
    pub fn add(&mut self, line: &[u8], is_text: bool) -> Result<(), LineFault>
        requires ended { is_ended line.now ≡ true }
        requires text { IsTrue is_text → IsUtf8 line.now }
        ensures ok { OnOk result (recorded self.new ≡ recorded self.old ++ line.now) }
        ensures fine { OnOk result (AreFine (recorded self.new)) }
        ensures none { OnErr result (recorded self.new ≡ []) }
        ensures fault { IfErr result (λ fault. Refuses (recorded self.old) line.now fault) }
    {
        match take_line(
            &mut self.scanner,
            &mut self.bytes,
            &mut self.events,
            line,
            is_text,
        ) {
            Ok(()) => Ok(()),
            Err(fault) => {
                forget(&mut self.scanner, &mut self.bytes, &mut self.events);
                Err(fault)
            }
        }
    }

    /// Whether the lines are a document: whether its root is closed.
    pub fn is_closed(&self) -> bool
        ensures closed { IsTrue result → (root : Root) ×
            HasVerdict (recorded self.now) (IsTree root) }
        ensures still_open { IsFalse result → (root : Root) →
            Spells (lines_of (recorded self.now)) root → ⊥ }
    {
        self.scanner.is_behind_root()
    }

    /// The document that the lines are. Then there are none again.
    pub fn take(&mut self) -> Doc
        requires closed { (root : Root) × HasVerdict (recorded self.old) (IsTree root) }
        ensures doc { content result ≡ recorded self.old }
        ensures none { recorded self.new ≡ [] }
    {
        let doc = doc_of(self.alloc, &mut self.bytes, &mut self.events);
        self.scanner.clear();
        doc
    }

    /// The document that the lines are with a last one, which no line feed ends; with none where
    /// that is empty. Then there are no lines again, at an error too.
    pub fn end_with(&mut self, line: &[u8]) -> Result<Doc, LineFault>
        requires no_feed { has_no_feed line.now ≡ true }
        ensures doc { IfOk result (λ doc. content doc ≡ recorded self.old ++ line.now) }
        ensures tree { OnOk result ((root : Root) ×
            HasVerdict (recorded self.old ++ line.now) (IsTree root)) }
        ensures none { recorded self.new ≡ [] }
        ensures fault { IfErr result (λ fault. RefusesEnd (recorded self.old) line.now fault) }
    {
        match close(&mut self.scanner, &mut self.bytes, &mut self.events, line) {
            Ok(()) => {
                let doc = doc_of(self.alloc, &mut self.bytes, &mut self.events);
                self.scanner.clear();
                Ok(doc)
            }
            Err(fault) => {
                forget(&mut self.scanner, &mut self.bytes, &mut self.events);
                Err(fault)
            }
        }
    }
}

// No lines any more.
fn forget(scanner: &mut Scanner, bytes: &mut Vec<u8>, events: &mut EventList)
    ensures records { Records scanner.new bytes.new.items events.new }
    ensures none { bytes.new.items ≡ [] }
{
    scanner.clear();
    bytes.clear();
    events.clear();
}

// The document that these bytes are, with the events of its tree. They are moved out.
fn doc_of(alloc: Global, bytes: &mut Vec<u8>, events: &mut EventList) -> Doc
    requires closed { (root : Root) × HasVerdict bytes.old.items (IsTree root) }
    requires events { AreTreeEvents bytes.old.items events.old }
    requires few { length events.old ≤ 16_777_216 }
    ensures doc { content result ≡ bytes.old.items }
    ensures none { bytes.new.items ≡ [] }
    ensures no_events { events.new ≡ [] }
{
    let held = mem::replace(bytes, Vec::new(alloc));
    let told = mem::replace(events, EventList::new(alloc));
    Doc::told(Bytes::from_vec(held), told)
}

// Takes what no line feed ends, if there is something, and finds the root closed.
fn close(
    scanner: &mut Scanner,
    bytes: &mut Vec<u8>,
    events: &mut EventList,
    line: &[u8],
) -> Result<(), LineFault>
    requires records { Records scanner.old bytes.old.items events.old }
    requires whole { is_whole bytes.old.items ≡ true }
    requires no_feed { has_no_feed line.now ≡ true }
    ensures same { OnOk result (bytes.new.items ≡ bytes.old.items ++ line.now) }
    ensures records { OnOk result (Records scanner.new bytes.new.items events.new) }
    ensures closed { OnOk result ((root : Root) × HasVerdict bytes.new.items (IsTree root)) }
    ensures fault { IfErr result (λ fault. RefusesEnd bytes.old.items line.now fault) }
{
    take_last(scanner, bytes, events, line)?;
    if !scanner.is_behind_root() {
        return Err(LineFault::Kind(DocKind::Truncated));
    }
    Ok(())
}

// Takes what no line feed ends, if there is something.
fn take_last(
    scanner: &mut Scanner,
    bytes: &mut Vec<u8>,
    events: &mut EventList,
    line: &[u8],
) -> Result<(), LineFault>
    requires records { Records scanner.old bytes.old.items events.old }
    requires whole { is_whole bytes.old.items ≡ true }
    requires no_feed { has_no_feed line.now ≡ true }
    ensures same { OnOk result (bytes.new.items ≡ bytes.old.items ++ line.now) }
    ensures records { OnOk result (Records scanner.new bytes.new.items events.new) }
    ensures fault { IfErr result (λ fault. RefusesEnd bytes.old.items line.now fault) }
{
    if line.is_empty() {
        return Ok(());
    }
    take_line(scanner, bytes, events, line, false)
}

// Takes a line behind the others, which may be known to be an ended line of UTF-8.
fn take_line(
    scanner: &mut Scanner,
    bytes: &mut Vec<u8>,
    events: &mut EventList,
    line: &[u8],
    is_text: bool,
) -> Result<(), LineFault>
    requires records { Records scanner.old bytes.old.items events.old }
    requires line { lines_of (bytes.old.items ++ line.now) ≡ lines_of bytes.old.items ++
        line.now ∷ [] }
    requires some { 0 < length line.now }
    requires text { IsTrue is_text → (is_ended line.now ≡ true) × IsUtf8 line.now }
    ensures same { OnOk result (bytes.new.items ≡ bytes.old.items ++ line.now) }
    ensures records { OnOk result (Records scanner.new bytes.new.items events.new) }
    ensures fault { IfErr result (λ fault. Refuses bytes.old.items line.now fault) }
{
    let at = bytes.len();
    if line.len() > MAX_DOCUMENT - at {
        return Err(LineFault::Kind(DocKind::TooBig));
    }
    bytes.extend_from_slice(line)?;
    let told = judge(scanner, bytes, at, is_text)?;
    record(events, scanner, bytes, told)?;
    Ok(())
}

/// Judges the line that begins at a place and is the last of the piece.
pub fn judge(
    scanner: &mut Scanner,
    piece: &[u8],
    at: usize,
    is_text: bool,
) -> Result<Told, LineFault>
    requires run { IsWithin piece.now scanner.old.run }
    requires value { IsWithin piece.now scanner.old.value }
    requires first { at < length piece.now }
    requires text { IsTrue is_text → (is_ended (line_to piece.now at (length piece.now)) ≡ true) ×
        IsUtf8 (line_to piece.now at (length piece.now)) }
    ensures judged { JudgesLine piece.now scanner.old (line_to piece.now at (length piece.now))
        result scanner.new }
    ensures run { IsWithin piece.now scanner.new.run }
    ensures value { IsWithin piece.now scanner.new.value }
{
    if !is_text {
        return scanner.judge(piece, at, piece.len());
    }
    match scanner.quick(piece, at)? {
        Some(taken) => Ok(taken.told()),
        None => scanner.judge(piece, at, piece.len()),
    }
}

// Puts the events that a line brought behind the others: two at most.
fn record(
    events: &mut EventList,
    scanner: &Scanner,
    piece: &[u8],
    told: Told,
) -> Result<(), AllocError>
    requires run { IsWithin piece.now scanner.now.run }
    requires value { IsWithin piece.now scanner.now.value }
    ensures { OnOk result (events.new ≡ events.old ++ brought_in piece.now told scanner.now) }
{
    let mut owed = told;
    record_one(events, scanner, piece, &mut owed)?;
    record_one(events, scanner, piece, &mut owed)
}

// Puts the first of the events that are owed behind the others.
fn record_one(
    events: &mut EventList,
    scanner: &Scanner,
    piece: &[u8],
    owed: &mut Told,
) -> Result<(), AllocError>
    requires run { IsWithin piece.now scanner.now.run }
    requires value { IsWithin piece.now scanner.now.value }
    ensures given { OnOk result (events.new ++ brought_in piece.now owed.new scanner.now ≡
        events.old ++ brought_in piece.now owed.old scanner.now) }
    ensures text { owed.new.text ≡ false }
    ensures own { owed.old.text ≡ false → owed.new.own ≡ Own.Nothing }
{
    match scanner.happening(piece, owed.give()) {
        Some(next) => events.push(next),
        None => Ok(()),
    }
}
