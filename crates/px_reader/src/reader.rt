//! A document as it comes in pieces: what is known of it, and what each piece adds.

use crate::event::Event;
use crate::fault::ReaderFault;
use crate::judge::Judge;
use std::alloc::{AllocError, Global};
use std::marker::Model;

/// Reads documents, one after the other, each in pieces. Contracts see how far it has come.
#[derive(Drop)]
pub struct Reader {
    judge: Judge,
}

impl Model for Reader {
    ghost use Rattle.px_reader.specs.Progress.{Progress};
    ghost use Rattle.px_reader.specs.Progressing.{progress};

    ghost Value = { Progress };

    ghost view = { λ reader. progress reader.judge };
}

impl Reader {
    ghost use Rattle.std.specs.Prelude.{◌≡◌, [], IsTrue, IsFalse, Err, IfOk, OnOk, IfErr};
    ghost use Rattle.px_reader.specs.declared.fault.ReaderFault as faults;
    ghost use Rattle.px_reader.specs.Reading.{HasRead, HasFailed, ReadsPart, GivesMore, FailsBy, EndsWhole, FailsAtEnd, IsClosed, IsStillOpen};
    ghost use Rattle.px_reader.specs.Bringing.{Appends, StopsBy, StopsAtEnd, StaysSmall};

    /// A reader before its first document. Its only failure is want of memory.
    pub fn new(alloc: Global) -> Result<Reader, AllocError>
        ensures { IfOk result (λ reader. HasRead reader [] []) }
    {
        Ok(Reader {
            judge: Judge::new(alloc)?,
        })
    }

    /// Takes the next bytes of the document, and appends the events that are known. A line is
    /// judged when its line feed comes. At a fault the events of all lines before it stand behind
    /// the others, and where memory is refused some of them. Once a fault has come, each call
    /// answers it, and appends nothing.
    pub fn feed(&mut self, piece: &[u8], out: &mut Vec<Event>) -> Result<(), ReaderFault>
        ensures reads { OnOk result (ReadsPart self.old self.new piece.now out.old.items
            out.new.items) }
        ensures small { OnOk result (StaysSmall self.old piece.now) }
        ensures gives { GivesMore self.old out.old.items out.new.items }
        ensures appends { Appends out.old.items out.new.items }
        ensures fault { IfErr result (λ fault. FailsBy self.old piece.now fault) }
        ensures stops { IfErr result (λ fault. StopsBy self.old piece.now fault out.old.items
            out.new.items) }
        ensures failed { IfErr result (λ fault. HasFailed self.new fault) }
        ensures stays { (fault : faults.ReaderFault) → HasFailed self.old fault →
            (result ≡ Err fault) × (out.new.items ≡ out.old.items) }
    {
        self.judge.feed(piece, out)
    }

    /// Ends the document: judges a last line without line feed and appends the events that are
    /// known by it. It answers `Truncated` where no root was closed, behind the events of all
    /// lines. At Ok the next document may come; once a fault has come, each call answers it, and
    /// appends nothing.
    pub fn end(&mut self, out: &mut Vec<Event>) -> Result<(), ReaderFault>
        ensures tree { OnOk result (EndsWhole self.old out.old.items out.new.items) }
        ensures ready { OnOk result (HasRead self.new [] []) }
        ensures gives { GivesMore self.old out.old.items out.new.items }
        ensures appends { Appends out.old.items out.new.items }
        ensures fault { IfErr result (λ fault. FailsAtEnd self.old fault) }
        ensures stops { IfErr result (λ fault. StopsAtEnd self.old fault out.old.items
            out.new.items) }
        ensures failed { IfErr result (λ fault. HasFailed self.new fault) }
        ensures stays { (fault : faults.ReaderFault) → HasFailed self.old fault →
            (result ≡ Err fault) × (out.new.items ≡ out.old.items) }
    {
        self.judge.end(out)
    }

    /// Whether the root of the document is closed, where the pieces so far end with a line.
    pub fn is_behind_root(&self) -> bool
        ensures closed { IsTrue result → IsClosed self.now }
        ensures open { IsFalse result → IsStillOpen self.now }
    {
        self.judge.is_behind_root()
    }
}
