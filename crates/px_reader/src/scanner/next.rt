//! The next line of a document: the quick way, or the long one.

ghost use Rattle.std.specs.Prelude.{◌<◌, length};
ghost use Rattle.px_reader.specs.Buffers.{piece};
ghost use Rattle.px_reader.specs.Scanned.{IsWithin};

use super::{JudgedLine, Scanner};
use crate::fault::LineFault;
use crate::lines::Lines;
use std::alloc::AllocError;

impl Scanner {
    ghost use Rattle.px_reader.specs.Scanning.{JudgesNext};

    /// Judges the first line that is not taken, where one is there. At a fault it brings nothing,
    /// and the scanner is of no more use until it is cleared.
    pub fn judge_next(&mut self, lines: &Lines) -> JudgedLine
        requires line { lines.now.at < length (piece lines.now) }
        requires run { IsWithin (piece lines.now) self.old.run }
        requires value { IsWithin (piece lines.now) self.old.value }
        ensures judged { JudgesNext lines.now self.old result self.new }
        ensures run { IsWithin (piece lines.now) self.new.run }
        ensures value { IsWithin (piece lines.now) self.new.value }
    {
        if !lines.is_text() {
            return self.judge_long(lines);
        }
        match self.quick(lines.piece(), lines.at()) {
            Ok(Some(taken)) => JudgedLine {
                end: taken.end(),
                brings: Ok(taken.told()),
            },
            Ok(None) => self.judge_long(lines),
            Err(AllocError) => JudgedLine {
                end: lines.end(),
                brings: Err(LineFault::LineMemory),
            },
        }
    }

    // Judges the first line the long way.
    fn judge_long(&mut self, lines: &Lines) -> JudgedLine
        requires line { lines.now.at < length (piece lines.now) }
        requires run { IsWithin (piece lines.now) self.old.run }
        requires value { IsWithin (piece lines.now) self.old.value }
        ensures judged { JudgesNext lines.now self.old result self.new }
        ensures run { IsWithin (piece lines.now) self.new.run }
        ensures value { IsWithin (piece lines.now) self.new.value }
    {
        let end = lines.end();
        JudgedLine {
            end,
            brings: self.judge(lines.piece(), lines.at(), end),
        }
    }
}
