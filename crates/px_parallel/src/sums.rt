//! The sums over the lines of a feed.
ghost use Rattle.std.specs.Prelude.{◌≡◌, ◌+◌, ◌∷◌, ◌++◌, [], List, OnOk, length, sum as total};
ghost use Rattle.px_feed.specs.declared.line.OutLine.{OutLine as Line};
ghost use Rattle.px_parallel.specs.Sums.{AreSums};

use crate::listener::Listener;
use crate::loading::Generated;
use px_feed::OutLine;
use std::alloc::AllocError;
use std::fmt;

/// How many ids were listed for documents, and what they are together.
#[derive(Clone, Copy, Debug, Drop, PartialEq, Eq)]
pub struct Sums {
    pub matches: u64,
    pub sum: u64,
}

impl Sums {
    /// Before the first line.
    pub(crate) fn new() -> Sums
        ensures { AreSums [] result }
    {
        Sums { matches: 0, sum: 0 }
    }

    // Takes a line in. A sum that no `u64` holds is refused as want of memory.
    #[tactic(auto, using(crate::proofs::Summing::sums_behind))]
    fn take(&mut self, line: &OutLine) -> Result<(), AllocError>
        ensures { OnOk result ((before : List Line) → AreSums before self.old →
            AreSums (before ++ line.now ∷ []) self.new) }
    {
        match line {
            OutLine::Matched { ids, .. } => self.add_all(ids.as_slice()),
            _ => Ok(()),
        }
    }

    // Takes the ids of a line in.
    fn add_all(&mut self, ids: &[u32]) -> Result<(), AllocError>
        ensures matches { OnOk result (self.new.matches ≡ self.old.matches + length ids.now) }
        ensures sum { OnOk result (self.new.sum ≡ self.old.sum + total ids.now) }
    {
        for id in ids {
            self.add(*id)?;
        }
        Ok(())
    }

    // Takes an id in.
    fn add(&mut self, id: u32) -> Result<(), AllocError>
        ensures matches { OnOk result (self.new.matches ≡ self.old.matches + 1) }
        ensures sum { OnOk result (self.new.sum ≡ self.old.sum + id) }
    {
        let matches = self.matches.checked_add(1).ok_or(AllocError)?;
        let sum = self.sum.checked_add(u64::from(id)).ok_or(AllocError)?;
        *self = Sums { matches, sum };
        Ok(())
    }
}

impl Listener for Sums {
    ghost heard = { λ sums lines. AreSums lines sums };

    fn hear(&mut self, lines: &[OutLine]) -> Result<(), AllocError> {
        for line in lines {
            self.take(line)?;
        }
        Ok(())
    }
}

/// The line of a generated feed and of its sums. Its `Display` is the line without its line feed.
#[derive(Clone, Copy, Debug, Drop)]
pub(crate) struct LoadLine {
    pub(crate) load: Generated,
    pub(crate) sums: Sums,
}

impl fmt::Display for LoadLine {
    ghost use Rattle.std.specs.Prelude.{Some};
    ghost use Rattle.px_parallel.specs.Sums.{load_words};

    ghost output = { λ line. Some (load_words line.load.filters line.load.documents
        line.sums.matches line.sums.sum) };

    fn fmt<W: fmt::Write>(&self, f: &mut fmt::Formatter<W>) -> fmt::Result {
        write!(
            f,
            "filters {} documents {} matches {} sum {}",
            self.load.filters, self.load.documents, self.sums.matches, self.sums.sum
        )
    }
}
