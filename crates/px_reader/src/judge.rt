//! The lines of a document that comes in pieces: each is judged when its end is there.

ghost use Rattle.std.specs.Prelude.{◌≡◌, ◌++◌, ◌-◌, true, length, take, OnOk};
ghost use Rattle.px_reader.specs.declared.scanner.Place.TheVariants as Place;

use crate::event::Event;
use crate::extent::Extent;
use crate::fault::{DocFault, DocKind, LineFault, ReaderFault};
use crate::owned::judge_line;
use crate::scanner::{Place, Scanner};
use memchr::memchr;
use std::alloc::{AllocError, Global};

/// How much is kept of a line that has begun: all of it, or enough to show that it is too long.
const MAX_KEPT: usize = 1_048_579;

/// Judges the lines of documents, one document after the other, each in pieces.
#[derive(Drop)]
pub struct Judge {
    alloc: Global,
    scanner: Scanner,
    /// the line that the pieces so far have begun and not ended
    kept: Vec<u8>,
    extent: Extent,
    fault: Option<ReaderFault>,
    ghost run: { scanner.run ≡ Place.Apart },
    ghost value: { scanner.value ≡ Place.Apart },
}

impl Judge {
    ghost use Rattle.std.specs.Prelude.{◌≡◌, ◌++◌, ◌+◌, [], List, ℕ, take, IsTrue, IsFalse, IfOk, OnOk, OnErr, IfErr};
    ghost use Rattle.px_reader.specs.declared.event.Event as events;
    ghost use Rattle.px_reader.specs.declared.fault.ReaderFault as faults;
    ghost use Rattle.px_reader.specs.Lines.{is_ended, has_no_feed};
    ghost use Rattle.px_reader.specs.Reading.{HasRead, HasFailed, ReadsPart, GivesMore, FailsBy, EndsWhole, FailsAtEnd, ReadsLines, IsClosed, IsStillOpen};
    ghost use Rattle.px_reader.specs.Bringing.{Appends, StopsBy, StopsAtEnd, StaysSmall, StandsAt};
    ghost use Rattle.px_reader.specs.Progressing.{progress, state_apart};
    ghost use Rattle.px_reader.specs.States.{Judging};

    /// Before the first document. Its only failure is want of memory.
    pub fn new(alloc: Global) -> Result<Judge, AllocError>
        ensures { IfOk result (λ judge. HasRead (progress judge) [] []) }
    {
        Ok(Judge {
            alloc,
            scanner: Scanner::new(alloc),
            kept: Vec::new(alloc),
            extent: Extent::start(),
            fault: None,
        })
    }

    /// Takes the next bytes of the document, and appends the events that are known. A line is
    /// judged when its line feed comes. Once a fault has come, each call answers it.
    pub fn feed(&mut self, piece: &[u8], out: &mut Vec<Event>) -> Result<(), ReaderFault>
        ensures reads { OnOk result (ReadsPart (progress self.old) (progress self.new) piece.now
            out.old.items out.new.items) }
        ensures small { OnOk result (StaysSmall (progress self.old) piece.now) }
        ensures gives { GivesMore (progress self.old) out.old.items out.new.items }
        ensures appends { Appends out.old.items out.new.items }
        ensures fault { IfErr result (λ fault. FailsBy (progress self.old) piece.now fault) }
        ensures stops { IfErr result (λ fault. StopsBy (progress self.old) piece.now fault
            out.old.items out.new.items) }
        ensures failed { IfErr result (λ fault. HasFailed (progress self.new) fault) }
        ensures stays { (fault : faults.ReaderFault) → HasFailed (progress self.old) fault →
            (result ≡ Err fault) × (out.new.items ≡ out.old.items) }
    {
        if let Some(fault) = self.fault {
            return Err(fault);
        }
        let answer = self.take_piece(piece, out);
        if let Err(fault) = answer {
            self.fault = Some(fault);
        }
        answer
    }

    /// Ends the document: judges a last line without line feed and appends the events that are
    /// known by it. It answers `Truncated` where no root was closed. At Ok the next document may
    /// come; once a fault has come, each call answers it.
    pub fn end(&mut self, out: &mut Vec<Event>) -> Result<(), ReaderFault>
        ensures tree { OnOk result (EndsWhole (progress self.old) out.old.items out.new.items) }
        ensures ready { OnOk result (HasRead (progress self.new) [] []) }
        ensures gives { GivesMore (progress self.old) out.old.items out.new.items }
        ensures appends { Appends out.old.items out.new.items }
        ensures fault { IfErr result (λ fault. FailsAtEnd (progress self.old) fault) }
        ensures stops { IfErr result (λ fault. StopsAtEnd (progress self.old) fault out.old.items
            out.new.items) }
        ensures failed { IfErr result (λ fault. HasFailed (progress self.new) fault) }
        ensures stays { (fault : faults.ReaderFault) → HasFailed (progress self.old) fault →
            (result ≡ Err fault) × (out.new.items ≡ out.old.items) }
    {
        if let Some(fault) = self.fault {
            return Err(fault);
        }
        let answer = self.finish(out);
        match answer {
            Ok(()) => self.clear(),
            Err(fault) => self.fault = Some(fault),
        }
        answer
    }

    /// Whether the root of the document is closed, where the pieces so far end with a line.
    pub fn is_behind_root(&self) -> bool
        ensures closed { IsTrue result → IsClosed (progress self.now) }
        ensures open { IsFalse result → IsStillOpen (progress self.now) }
    {
        self.scanner.is_behind_root()
    }

    // Takes the lines that end in the piece, and keeps what is behind them.
    fn take_piece(&mut self, piece: &[u8], out: &mut Vec<Event>) -> Result<(), ReaderFault>
        ensures same { self.new.fault ≡ self.old.fault }
        ensures reads { OnOk result (ReadsPart (progress self.old) (progress self.new) piece.now
            out.old.items out.new.items) }
        ensures small { OnOk result (StaysSmall (progress self.old) piece.now) }
        ensures gives { GivesMore (progress self.old) out.old.items out.new.items }
        ensures appends { Appends out.old.items out.new.items }
        ensures fault { IfErr result (λ fault. FailsBy (progress self.old) piece.now fault) }
        ensures stops { IfErr result (λ fault. StopsBy (progress self.old) piece.now fault
            out.old.items out.new.items) }
    {
        let mut rest = piece;
        while let Some(feed) = memchr(b'\n', rest) {
            self.end_line(&rest[..feed + 1], out)?;
            rest = &rest[feed + 1..];
        }
        self.begin_line(rest)
    }

    // Takes the part of the piece that ends a line.
    fn end_line(&mut self, part: &[u8], out: &mut Vec<Event>) -> Result<(), ReaderFault>
        requires { IsTrue (is_ended part.now) }
        ensures same { self.new.fault ≡ self.old.fault }
        ensures reads { OnOk result (ReadsPart (progress self.old) (progress self.new) part.now
            out.old.items out.new.items) }
        ensures fault { IfErr result (λ fault. FailsBy (progress self.old) part.now fault) }
        ensures line { IfErr result (λ fault. StandsAt (self.old.extent.lines + 1) fault) }
        ensures appends { Appends out.old.items out.new.items }
        ensures kept { OnErr result (out.new.items ≡ out.old.items) }
    {
        let Some(extent) = self.extent.with_line(part.len()) else {
            return Err(self.extent.fault(LineFault::Kind(DocKind::TooBig)));
        };
        if let Err(fault) = self.take_line(part, out) {
            return Err(self.extent.fault(fault));
        }
        self.extent = extent;
        Ok(())
    }

    // Judges the line that ends with the part, where it lies unless earlier pieces began it.
    fn take_line(&mut self, part: &[u8], out: &mut Vec<Event>) -> Result<(), LineFault>
        requires { is_ended part.now ≡ true }
        ensures fault { self.new.fault ≡ self.old.fault }
        ensures extent { self.new.extent ≡ self.old.extent }
        ensures kept { OnOk result (self.new.kept.items ≡ []) }
        ensures appends { Appends out.old.items out.new.items }
        ensures given { OnErr result (out.new.items ≡ out.old.items) }
        ensures judged { (begun : List ℕ) → self.old.kept.items ≡ take 1_048_579 begun →
            Judging (state_apart self.old.scanner) (begun ++
            part.now) result (state_apart self.new.scanner)
            out.old.items out.new.items }
    {
        if self.kept.is_empty() {
            return judge_line(&mut self.scanner, self.alloc, part, true, out);
        }
        keep(&mut self.kept, part)?;
        let judged = judge_line(
            &mut self.scanner,
            self.alloc,
            self.kept.as_slice(),
            false,
            out,
        );
        self.kept.clear();
        judged
    }

    // Keeps the part of the piece that begins a line, or goes on with it.
    fn begin_line(&mut self, part: &[u8]) -> Result<(), ReaderFault>
        requires { IsTrue (has_no_feed part.now) }
        ensures same { self.new.fault ≡ self.old.fault }
        ensures reads { OnOk result ((bytes : List ℕ) (given : List events.Event) →
            HasRead (progress self.old) bytes given →
            HasRead (progress self.new) (bytes ++ part.now) given) }
        ensures fault { IfErr result (λ fault. FailsBy (progress self.old) part.now fault) }
        ensures line { IfErr result (λ fault. StandsAt (self.old.extent.lines + 1) fault) }
    {
        let Some(extent) = self.extent.with_bytes(part.len()) else {
            return Err(self.extent.fault(LineFault::Kind(DocKind::TooBig)));
        };
        keep(&mut self.kept, part)?;
        self.extent = extent;
        Ok(())
    }

    // Judges what no line feed ends, and whether the root is closed.
    fn finish(&mut self, out: &mut Vec<Event>) -> Result<(), ReaderFault>
        ensures tree { OnOk result (EndsWhole (progress self.old) out.old.items out.new.items) }
        ensures gives { GivesMore (progress self.old) out.old.items out.new.items }
        ensures appends { Appends out.old.items out.new.items }
        ensures fault { IfErr result (λ fault. FailsAtEnd (progress self.old) fault) }
        ensures stops { IfErr result (λ fault. StopsAtEnd (progress self.old) fault out.old.items
            out.new.items) }
    {
        let line = self.take_last(out)?;
        if !self.scanner.is_behind_root() {
            return Err(ReaderFault::Doc(DocFault {
                line,
                kind: DocKind::Truncated,
            }));
        }
        Ok(())
    }

    // Judges what no line feed ends, and counts all lines.
    fn take_last(&mut self, out: &mut Vec<Event>) -> Result<u64, ReaderFault>
        ensures reads { IfOk result (λ lines.
            ReadsLines (progress self.old) (state_apart self.new.scanner) lines out.old.items
            out.new.items) }
        ensures fault { IfErr result (λ fault. FailsAtEnd (progress self.old) fault) }
        ensures stops { IfErr result (λ fault. StopsAtEnd (progress self.old) fault out.old.items
            out.new.items) }
        ensures appends { Appends out.old.items out.new.items }
        ensures kept { OnErr result (out.new.items ≡ out.old.items) }
    {
        if self.kept.is_empty() {
            return Ok(self.extent.lines());
        }
        if let Err(fault) = judge_line(
            &mut self.scanner,
            self.alloc,
            self.kept.as_slice(),
            false,
            out,
        ) {
            return Err(self.extent.fault(fault));
        }
        Ok(self.extent.lines() + 1)
    }

    // Makes the reader ready for the next document.
    fn clear(&mut self)
        ensures { HasRead (progress self.new) [] [] }
    {
        self.scanner.clear();
        self.kept.clear();
        self.extent = Extent::start();
        self.fault = None;
    }
}

// Appends the part of a line to what is kept of it.
fn keep(kept: &mut Vec<u8>, part: &[u8]) -> Result<(), AllocError>
    ensures { OnOk result (kept.new.items ≡
        kept.old.items ++ take (1_048_579 - length kept.old.items) part.now) }
{
    let room = MAX_KEPT.saturating_sub(kept.len());
    let end = room.min(part.len());
    kept.extend_from_slice(&part[..end])
}
