//! The long way: any line is judged, and its first fault is found.

ghost use Rattle.std.specs.Prelude.{◌≡◌, ◌≤◌, [], List, ℕ, true, false, length, vec_len, OnOk, OnErr};
ghost use Rattle.px_text.specs.Escapes.{unescaped};
ghost use Rattle.px_reader.specs.Lines.{Opens, Closes, Gives, Says, Passed, named, given_by, line_of, all_white};
ghost use Rattle.px_reader.specs.declared.phase.Phase.TheVariants as Phase;
ghost use Rattle.px_reader.specs.declared.scanner.Place.TheVariants as Place;
ghost use Rattle.px_reader.specs.Stacks.{is_none};
ghost use Rattle.px_reader.specs.States.{open_text, is_giving};

use super::{MAX_ATTRIBUTES, MAX_DEPTH, MAX_LINE, Own, Place, Scanner, Told};
use crate::cuts::{split_at_space, without_end};
use crate::fault::{DocKind, LineFault};
use crate::phase::Phase;
use px_text::{is_letter, is_pyx_name, is_white, unescape};
use std::alloc::AllocError;

impl Scanner {
    ghost use Rattle.px_reader.specs.Scanned.{IsWithin, run_of, line_to};
    ghost use Rattle.px_reader.specs.Scanning.{state_in, JudgesLine, TakesLine, BeginsRun};

    /// Judges the line between two places of the piece, with its end where it has one, and takes
    /// it. At a fault the line brings nothing, and the scanner is of no more use until it is
    /// cleared.
    pub fn judge(&mut self, piece: &[u8], at: usize, end: usize) -> Result<Told, LineFault>
        requires run { IsWithin piece.now self.old.run }
        requires value { IsWithin piece.now self.old.value }
        requires line { (at ≤ end) × (end ≤ length piece.now) }
        ensures judged { JudgesLine piece.now self.old (line_to piece.now at end) result self.new }
        ensures run { IsWithin piece.now self.new.run }
        ensures value { IsWithin piece.now self.new.value }
    {
        let line = &piece[at..end];
        let content = without_end(line);
        if content.len() > MAX_LINE {
            return Err(LineFault::Kind(DocKind::LineLong));
        }
        if str::from_utf8(line).is_err() {
            return Err(LineFault::Kind(DocKind::NotUtf8));
        }
        self.take(piece, content)
    }

    // Takes a line without its end.
    fn take(&mut self, piece: &[u8], line: &[u8]) -> Result<Told, LineFault>
        requires run { IsWithin piece.now self.old.run }
        requires value { IsWithin piece.now self.old.value }
        ensures taken { TakesLine piece.now self.old (line_of line.now) result self.new }
        ensures run { IsWithin piece.now self.new.run }
        ensures value { IsWithin piece.now self.new.value }
    {
        let Some((first, rest)) = line.split_first() else {
            return Ok(Told::nothing());
        };
        match *first {
            b'(' => self.open(piece, rest),
            b')' => self.close(piece, rest),
            b'A' => self.give(piece, rest),
            b'-' => self.say_escaped(piece, rest),
            b'?' => self.pass(piece),
            other => {
                if is_letter(other) {
                    self.pass(piece)
                } else {
                    Err(LineFault::Kind(DocKind::NotHere))
                }
            }
        }
    }

    // The first line of an element.
    fn open(&mut self, piece: &[u8], name: &[u8]) -> Result<Told, LineFault>
        requires run { IsWithin piece.now self.old.run }
        ensures taken { TakesLine piece.now self.old (named Opens name.now) result self.new }
        ensures run { self.new.run ≡ self.old.run }
        ensures value { self.new.value ≡ self.old.value }
    {
        if !is_pyx_name(name) {
            return Err(LineFault::Kind(DocKind::NotHere));
        }
        if self.is_behind_root() {
            return Err(LineFault::Kind(DocKind::NotHere));
        }
        if self.names.len() >= MAX_DEPTH {
            return Err(LineFault::Kind(DocKind::TooDeep));
        }
        self.names.push(name)?;
        let text = self.end_run();
        self.attributes.clear();
        self.phase = Phase::Giving;
        Ok(Told {
            text,
            own: Own::Start,
        })
    }

    // The last line of an element.
    fn close(&mut self, piece: &[u8], name: &[u8]) -> Result<Told, LineFault>
        requires run { IsWithin piece.now self.old.run }
        ensures taken { TakesLine piece.now self.old (named Closes name.now) result self.new }
        ensures run { self.new.run ≡ self.old.run }
        ensures value { self.new.value ≡ self.old.value }
    {
        if !is_pyx_name(name) {
            return Err(LineFault::Kind(DocKind::NotHere));
        }
        if self.names.is_empty() {
            return Err(LineFault::Kind(DocKind::NotHere));
        }
        if self.names.last() != name {
            return Err(LineFault::Kind(DocKind::NotHere));
        }
        self.names.pop();
        let text = self.end_run();
        Ok(Told {
            text,
            own: Own::End,
        })
    }

    // An attribute of the innermost element.
    fn give(&mut self, piece: &[u8], line: &[u8]) -> Result<Told, LineFault>
        ensures taken { TakesLine piece.now self.old (given_by line.now) result self.new }
        ensures run { self.new.run ≡ self.old.run }
        ensures value { IsWithin piece.now self.old.value → IsWithin piece.now self.new.value }
    {
        let (name, value) = split_at_space(line);
        if !is_pyx_name(name) {
            return Err(LineFault::Kind(DocKind::NotHere));
        }
        self.give_named(piece, name, value)
    }

    // An attribute by its name and by its value with the escapes.
    fn give_named(&mut self, piece: &[u8], name: &[u8], value: &[u8]) -> Result<Told, LineFault>
        ensures taken { TakesLine piece.now self.old (Gives name.now (unescaped value.now)) result
            self.new }
        ensures run { self.new.run ≡ self.old.run }
        ensures value { IsWithin piece.now self.old.value → IsWithin piece.now self.new.value }
    {
        if !self.is_giving() {
            return Err(LineFault::Kind(DocKind::NotHere));
        }
        if self.attributes.contains(name) {
            return Err(LineFault::Kind(DocKind::NotHere));
        }
        if self.attributes.len() >= MAX_ATTRIBUTES {
            return Err(LineFault::Kind(DocKind::TooManyAttributes));
        }
        self.value = Place::Apart;
        self.unescaped.clear();
        unescape(value, &mut self.unescaped)?;
        self.attributes.push(name)?;
        Ok(Told {
            text: false,
            own: Own::Attribute,
        })
    }

    // A line of text.
    fn say_escaped(&mut self, piece: &[u8], line: &[u8]) -> Result<Told, LineFault>
        requires run { IsWithin piece.now self.old.run }
        ensures taken { TakesLine piece.now self.old (Says (unescaped line.now)) result self.new }
        ensures run { IsWithin piece.now self.new.run }
        ensures value { IsWithin piece.now self.old.value → IsWithin piece.now self.new.value }
    {
        if self.names.is_empty() {
            return self.say_outside(piece, line);
        }
        self.begin_run(piece)?;
        unescape(line, &mut self.text)?;
        Ok(Told::nothing())
    }

    // A line of text outside the root, where only white space may stand.
    fn say_outside(&mut self, piece: &[u8], line: &[u8]) -> Result<Told, LineFault>
        requires outside { is_none self.old.names ≡ true }
        ensures taken { TakesLine piece.now self.old (Says (unescaped line.now)) result self.new }
        ensures run { self.new.run ≡ self.old.run }
        ensures value { self.new.value ≡ Place.Apart }
    {
        self.value = Place::Apart;
        self.unescaped.clear();
        unescape(line, &mut self.unescaped)?;
        if !is_all_white(&self.unescaped) {
            return Err(LineFault::Kind(DocKind::NotHere));
        }
        Ok(Told::nothing())
    }

    // A line that is passed by.
    fn pass(&mut self, piece: &[u8]) -> Result<Told, LineFault>
        requires run { IsWithin piece.now self.old.run }
        ensures taken { TakesLine piece.now self.old Passed result self.new }
        ensures run { self.new.run ≡ self.old.run }
        ensures value { self.new.value ≡ self.old.value }
    {
        if self.names.is_empty() {
            return Ok(Told::nothing());
        }
        let text = self.end_run();
        Ok(Told {
            text,
            own: Own::Nothing,
        })
    }

    // Whether attributes of the innermost element may come.
    fn is_giving(&self) -> bool
        ensures { (piece : List ℕ) → result ≡ is_giving (state_in piece self.now) }
    {
        self.phase == Phase::Giving && !self.names.is_empty()
    }

    // Begins a run of texts, or goes on with the one that is open, apart from the piece.
    fn begin_run(&mut self, piece: &[u8]) -> Result<(), AllocError>
        requires run { IsWithin piece.now self.old.run }
        ensures ok { OnOk result (BeginsRun piece.now self.old self.new) }
        ensures run { IsWithin piece.now self.new.run }
        ensures value { self.new.value ≡ self.old.value }
    {
        if self.phase == Phase::Body && self.is_run {
            return self.hold_run(piece);
        }
        self.phase = Phase::Body;
        self.is_run = true;
        self.run = Place::Apart;
        self.text.clear();
        Ok(())
    }
}

fn is_all_white(text: &[u8]) -> bool
    ensures { result ≡ all_white text.now }
{
    text.iter().all(|byte| is_white(*byte))
}
