//! Lines that come in pieces.

ghost use Rattle.std.specs.Prelude.{◌≡◌, ◌≤◌, ◌+◌, ◌++◌, ◌-◌, length, min, take, true, OnOk, OnErr};
ghost use Rattle.px_reader.specs.Lines.{has_no_feed};
ghost use Rattle.px_feed.specs.Items.{most_bytes};

use crate::cutter::Cutter;
use crate::fault::Failure;
use crate::item::Item;
use memchr::memchr;
use std::alloc::{AllocError, Global};

/// The most bytes, with its end, of a line that is not too long. Of a longer one no more are kept.
const MAX_KEPT: usize = 1_048_578;

/// Joins the parts of lines that pieces bring, and cuts the lines into items.
#[derive(Drop)]
pub struct Joiner {
    cutter: Cutter,
    /// the first bytes of the line that the pieces have begun and not ended
    kept: Vec<u8>,
    /// how many bytes that line has so far
    begun: u64,
    ghost unended: { has_no_feed kept.items ≡ true },
    ghost held: { length kept.items ≡ min begun 1_048_578 },
    ghost within: { cutter.extent.bytes + begun ≤ most_bytes },
}

/// What a piece brings.
#[derive(Drop)]
pub enum Brought {
    /// An item, with which so many bytes of the piece were used.
    Item { used: usize, item: Item },
    /// No item; the whole piece was used.
    Nothing,
    Failed(Failure),
}

impl Joiner {
    ghost use Rattle.std.specs.Prelude.{◌≡◌, ◌≤◌, ◌<◌, ◌+◌, ◌++◌, [], List, ℕ, length, IfOk, OnOk, IsTrue};
    ghost use Rattle.px_reader.specs.Lines.{is_ended, has_no_feed};
    ghost use Rattle.px_feed.specs.Items as items;
    ghost use Rattle.px_feed.specs.Joining.{HasJoined, JoinsLine, JoinsPart, JoinsPiece, UsesAtMost, EndsJoined, total};

    /// Before the first piece. It takes no memory.
    pub fn new(alloc: Global) -> Joiner
        ensures { HasJoined result [] [] }
    {
        Joiner {
            cutter: Cutter::new(alloc),
            kept: Vec::new(alloc),
            begun: 0,
        }
    }

    /// Takes a piece up to the first item that a line of it gives or ends, or all of it.
    pub fn take(&mut self, piece: &[u8]) -> Brought
        ensures counted { result ≡ Brought.Nothing →
            total self.new ≡ total self.old + length piece.now }
        ensures within { UsesAtMost result (length piece.now) }
        ensures brings { JoinsPiece self.old piece.now result self.new }
    {
        let mut rest = piece;
        while let Some(feed) = memchr(b'\n', rest) {
            let (line, behind) = rest.split_at(feed + 1);
            rest = behind;
            match self.end_line(line) {
                Ok(None) => {}
                Ok(Some(item)) => {
                    let used = piece.len() - rest.len();
                    return Brought::Item { used, item };
                }
                Err(failure) => return Brought::Failed(failure),
            }
        }
        match self.begin_line(rest) {
            Ok(()) => Brought::Nothing,
            Err(failure) => Brought::Failed(failure),
        }
    }

    // Takes the part of a piece that ends a line: the item that the line gives or ends, if there
    // is one.
    fn end_line(&mut self, part: &[u8]) -> Result<Option<Item>, Failure>
        requires { IsTrue (is_ended part.now) }
        ensures counted { OnOk result (total self.new ≡ total self.old + length part.now) }
        ensures joins { JoinsLine self.old part.now result self.new }
    {
        let count = part.len() as u64;
        if count > self.cutter.room() - self.begun {
            return Err(self.cutter.too_much());
        }
        if self.begun == 0 {
            return self.cutter.take_line(part);
        }
        let length = self.begun + count;
        if length > MAX_KEPT as u64 {
            return Err(self.cutter.too_long(length));
        }
        self.kept.extend_from_slice(part)?;
        let answer = self.cutter.take_line(self.kept.as_slice());
        self.kept.clear();
        self.begun = 0;
        answer
    }

    // Takes the part of a piece that begins a line, or goes on with it.
    fn begin_line(&mut self, part: &[u8]) -> Result<(), Failure>
        requires { IsTrue (has_no_feed part.now) }
        ensures counted { OnOk result (total self.new ≡ total self.old + length part.now) }
        ensures joins { JoinsPart self.old part.now result self.new }
    {
        let count = part.len() as u64;
        if count > self.cutter.room() - self.begun {
            return Err(self.cutter.too_much());
        }
        keep(&mut self.kept, part)?;
        self.begun += count;
        Ok(())
    }

    /// Ends: the item that the last line gives or ends, if there is one.
    pub fn finish(&mut self) -> Result<Option<Item>, Failure>
        ensures { EndsJoined self.old result }
    {
        if self.begun > MAX_KEPT as u64 {
            return Err(self.cutter.too_long(self.begun));
        }
        let answer = self.cutter.finish(self.kept.as_slice());
        self.kept.clear();
        self.begun = 0;
        answer
    }
}

// Appends the part of a line to what is kept of it.
fn keep(kept: &mut Vec<u8>, part: &[u8]) -> Result<(), AllocError>
    ensures kept { OnOk result (kept.new.items ≡ kept.old.items ++
        take (1_048_578 - length kept.old.items) part.now) }
    ensures same { OnErr result (kept.new.items ≡ kept.old.items) }
{
    let room = MAX_KEPT.saturating_sub(kept.len());
    let end = room.min(part.len());
    kept.extend_from_slice(&part[..end])
}
