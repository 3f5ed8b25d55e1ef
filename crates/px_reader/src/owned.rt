//! Lines of which nothing is held: each is judged where it lies, and its events have bytes of their
//! own.

ghost use Rattle.std.specs.Prelude.{◌≡◌, ◌++◌, [], ◌∷◌, true, false, Ok, IsTrue, IsUtf8, IfErr, OnOk};
ghost use Rattle.px_reader.specs.declared.scanner.Own.TheVariants as Own;
ghost use Rattle.px_reader.specs.declared.scanner.Place.TheVariants as Place;
ghost use Rattle.px_reader.specs.Bringing.{Appends};
ghost use Rattle.px_reader.specs.Happenings.{event_of};
ghost use Rattle.px_reader.specs.Lines as lines;
ghost use Rattle.px_reader.specs.Progressing.{state_apart};
ghost use Rattle.px_reader.specs.Scanned.{IsWithin};
ghost use Rattle.px_reader.specs.Scanning.{brought_in, JudgesLine};
ghost use Rattle.px_reader.specs.States.{Judging, Bars};

use crate::event::Event;
use crate::fault::LineFault;
use crate::happening::Happening;
use crate::recorder::judge;
use crate::scanner::{Own, Place, Scanner, Told};
use std::alloc::{AllocError, Global};

/// Judges a line with its end, where it has one, and appends what it brings. At a fault nothing is
/// given, and the scanner stands before a document again.
pub fn judge_line(
    scanner: &mut Scanner,
    alloc: Global,
    line: &[u8],
    is_ended: bool,
    out: &mut Vec<Event>,
) -> Result<(), LineFault>
    requires run { scanner.old.run ≡ Place.Apart }
    requires value { scanner.old.value ≡ Place.Apart }
    requires ended { IsTrue is_ended → lines.is_ended line.now ≡ true }
    ensures judged { Judging (state_apart scanner.old) line.now result (state_apart scanner.new)
        out.old.items out.new.items }
    ensures run { scanner.new.run ≡ Place.Apart }
    ensures value { scanner.new.value ≡ Place.Apart }
{
    let before = out.len();
    match take_line(scanner, alloc, line, is_ended, out) {
        Ok(()) => Ok(()),
        Err(fault) => {
            out.truncate(before);
            scanner.clear();
            Err(fault)
        }
    }
}

// Judges a line, and appends what it brings, or some of it where memory is refused.
fn take_line(
    scanner: &mut Scanner,
    alloc: Global,
    line: &[u8],
    is_ended: bool,
    out: &mut Vec<Event>,
) -> Result<(), LineFault>
    requires run { scanner.old.run ≡ Place.Apart }
    requires value { scanner.old.value ≡ Place.Apart }
    requires ended { IsTrue is_ended → lines.is_ended line.now ≡ true }
    ensures judged { OnOk result (Judging (state_apart scanner.old) line.now (Ok tt)
        (state_apart scanner.new) out.old.items out.new.items) }
    ensures fault { IfErr result (λ fault. Bars (state_apart scanner.old) line.now fault) }
    ensures appends { Appends out.old.items out.new.items }
    ensures run { OnOk result (scanner.new.run ≡ Place.Apart) }
    ensures value { OnOk result (scanner.new.value ≡ Place.Apart) }
{
    let told = judge_whole(scanner, line, is_ended)?;
    give(scanner, alloc, line, told, out)?;
    scanner.hold(line)?;
    Ok(())
}

// Judges a line that is all of the piece.
fn judge_whole(scanner: &mut Scanner, line: &[u8], is_ended: bool) -> Result<Told, LineFault>
    requires run { scanner.old.run ≡ Place.Apart }
    requires value { scanner.old.value ≡ Place.Apart }
    requires ended { IsTrue is_ended → lines.is_ended line.now ≡ true }
    ensures judged { JudgesLine line.now scanner.old line.now result scanner.new }
    ensures run { IsWithin line.now scanner.new.run }
    ensures value { IsWithin line.now scanner.new.value }
{
    if !is_ended {
        return scanner.judge(line, 0, line.len());
    }
    judge(scanner, line, 0, is_text(line))
}

fn is_text(line: &[u8]) -> bool
    ensures { IsTrue result → IsUtf8 line.now }
{
    str::from_utf8(line).is_ok()
}

// Appends the events that a line brought: two at most.
fn give(
    scanner: &Scanner,
    alloc: Global,
    piece: &[u8],
    told: Told,
    out: &mut Vec<Event>,
) -> Result<(), AllocError>
    requires run { IsWithin piece.now scanner.now.run }
    requires value { IsWithin piece.now scanner.now.value }
    ensures given { OnOk result (out.new.items ≡ out.old.items ++
        brought_in piece.now told scanner.now) }
    ensures appends { Appends out.old.items out.new.items }
{
    let mut owed = told;
    give_one(scanner, alloc, piece, &mut owed, out)?;
    give_one(scanner, alloc, piece, &mut owed, out)
}

// Appends the first of the events that are owed.
fn give_one(
    scanner: &Scanner,
    alloc: Global,
    piece: &[u8],
    owed: &mut Told,
    out: &mut Vec<Event>,
) -> Result<(), AllocError>
    requires run { IsWithin piece.now scanner.now.run }
    requires value { IsWithin piece.now scanner.now.value }
    ensures given { OnOk result (out.new.items ++ brought_in piece.now owed.new scanner.now ≡
        out.old.items ++ brought_in piece.now owed.old scanner.now) }
    ensures appends { Appends out.old.items out.new.items }
    ensures text { owed.new.text ≡ false }
    ensures own { owed.old.text ≡ false → owed.new.own ≡ Own.Nothing }
{
    match scanner.happening(piece, owed.give()) {
        Some(next) => append(alloc, next, out),
        None => Ok(()),
    }
}

// Appends an event with bytes of its own.
fn append(alloc: Global, next: Happening<'_>, out: &mut Vec<Event>) -> Result<(), AllocError>
    ensures ok { OnOk result (out.new.items ≡ out.old.items ++ event_of next.entry ∷ []) }
    ensures appends { Appends out.old.items out.new.items }
{
    let event = next.own(alloc)?;
    out.push(event)?;
    Ok(())
}
