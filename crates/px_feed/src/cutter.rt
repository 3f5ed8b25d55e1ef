//! Which items lines give, line by line.

ghost use Rattle.std.specs.Prelude.{IsTrue, IsUtf8};

use crate::extent::Extent;
use crate::fault::Failure;
use crate::item::Item;
use crate::line::FeedKind;
use crate::outside::{Effect, judge};
use px_reader::{DocKind, Recorder};
use std::alloc::Global;

/// The most bytes of a document.
const MAX_DOCUMENT: u64 = 16_777_216;

/// What is kept between two lines of a feed.
#[derive(Drop)]
pub struct Cutter {
    alloc: Global,
    /// the lines of the document that has begun; none outside documents
    document: Recorder,
    extent: Extent,
}

impl Cutter {
    ghost use Rattle.std.specs.Prelude.{◌≡◌, ◌<◌, ◌≤◌, ◌+◌, ◌∷◌, [], ◌++◌, List, ℕ, Ok, length, true, OnOk, IsTrue, IsFalse};
    ghost use Rattle.px_reader.specs.Lines.{is_ended, has_no_feed, lines_of, without_end};
    ghost use Rattle.px_reader.specs.Recorded.{recorded};
    ghost use Rattle.px_feed.specs.Items as items;
    ghost use Rattle.px_feed.specs.Cutting.{HasCut, CutBy, CutsLine, CutsOn, CutsEffect, EndsBy, EndsOn, EndsEffect, Fails};

    /// Before the first line. It takes no memory.
    pub fn new(alloc: Global) -> Cutter
        ensures { HasCut result [] [] }
    {
        Cutter {
            alloc,
            document: Recorder::new(alloc),
            extent: Extent::start(),
        }
    }

    /// How many more bytes a feed may have.
    pub fn room(&self) -> u64
        ensures { result + self.now.extent.bytes ≡ items.most_bytes }
    {
        self.extent.room()
    }

    /// Takes a line with its line feed: the item that it gives or ends, if there is one.
    pub fn take_line(&mut self, line: &[u8]) -> Result<Option<Item>, Failure>
        requires { IsTrue (is_ended line.now) }
        ensures counted { OnOk result (self.new.extent.bytes ≡
            self.old.extent.bytes + length line.now) }
        ensures cuts { (lines : List (List ℕ)) (given : List items.Item) →
            HasCut self.old lines given →
            CutBy result self.new (lines ++ line.now ∷ []) given }
    {
        let Some(extent) = self.extent.with_line(line.len()) else {
            return Err(self.too_much());
        };
        let answer = self.judge_line(line);
        self.extent = extent;
        answer
    }

    /// Takes what stands behind the last line feed, and ends: the item that it gives or ends, if
    /// there is one.
    pub fn finish(&mut self, line: &[u8]) -> Result<Option<Item>, Failure>
        requires { IsTrue (has_no_feed line.now) }
        ensures { (lines : List (List ℕ)) (given : List items.Item) → HasCut self.old lines given →
            items.bytes_in lines + length line.now ≤ items.most_bytes →
            EndsBy result (lines ++ lines_of line.now) given }
    {
        if !self.document.is_empty() {
            return self.end_document(line);
        }
        if line.is_empty() {
            return Ok(None);
        }
        match judge(self.alloc, line) {
            Ok(effect) => self.follow_last(effect, line),
            Err(fault) => Err(Failure::of_line(self.extent.next_line(), fault)),
        }
    }

    /// The fault of a line with which the feed has too many bytes.
    pub fn too_much(&self) -> Failure
        ensures { (lines : List (List ℕ)) (given : List items.Item) (line : List ℕ) →
            HasCut self.now lines given →
            items.most_bytes < items.bytes_in lines + length line →
            Fails (lines ++ line ∷ []) given result }
    {
        Failure::at(self.extent.next_line(), FeedKind::FeedLong)
    }

    /// The fault of a line of so many bytes, which is too long.
    pub fn too_long(&self, count: u64) -> Failure
        requires { 1_048_578 < count }
        ensures { (lines : List (List ℕ)) (given : List items.Item) (line : List ℕ) →
            HasCut self.now lines given →
            length line ≡ count → items.bytes_in lines + count ≤ items.most_bytes →
            Fails (lines ++ line ∷ []) given result }
    {
        let number = self.extent.next_line();
        if self.leaves_room(count) {
            return Failure::at(number, FeedKind::Doc(DocKind::LineLong));
        }
        Failure::at(number, FeedKind::Doc(DocKind::TooBig))
    }

    // Whether no document has begun, or one that is not too big with so many bytes more.
    fn leaves_room(&self, count: u64) -> bool
        requires { 0 < count }
        ensures outside { length (recorded self.now.document) ≡ 0 → IsTrue result }
        ensures inside { 0 < length (recorded self.now.document) → IsTrue result →
            length (recorded self.now.document) + count ≤ 16_777_216 }
        ensures beyond { IsFalse result → 16_777_216 < length (recorded self.now.document) + count }
    {
        if self.document.is_empty() {
            return true;
        }
        count <= MAX_DOCUMENT.saturating_sub(self.document.size() as u64)
    }

    // Takes a line that does not make too many bytes.
    fn judge_line(&mut self, line: &[u8]) -> Result<Option<Item>, Failure>
        requires { IsTrue (is_ended line.now) }
        ensures same { self.new.extent ≡ self.old.extent }
        ensures cuts { CutsLine self.old line.now result self.new }
    {
        if !self.document.is_empty() {
            return self.go_on(line);
        }
        match judge(self.alloc, line) {
            Ok(effect) => self.follow(effect, line),
            Err(fault) => Err(Failure::of_line(self.extent.next_line(), fault)),
        }
    }

    // Does what a line outside documents does.
    fn follow(&mut self, effect: Effect, line: &[u8]) -> Result<Option<Item>, Failure>
        requires { IsTrue (is_ended line.now) }
        ensures same { self.new.extent ≡ self.old.extent }
        ensures cuts { CutsEffect self.old effect line.now result self.new }
    {
        match effect {
            Effect::Nothing => Ok(None),
            Effect::Gives(item) => Ok(Some(item)),
            Effect::Begins => self.go_on(line),
        }
    }

    // Goes on with a document by a line.
    fn go_on(&mut self, line: &[u8]) -> Result<Option<Item>, Failure>
        requires { IsTrue (is_ended line.now) }
        ensures same { self.new.extent ≡ self.old.extent }
        ensures cuts { CutsOn self.old line.now result self.new }
    {
        let number = self.extent.next_line();
        if let Err(fault) = self.document.add(line, is_text(line)) {
            return Err(Failure::of_line(number, fault));
        }
        if !self.document.is_closed() {
            return Ok(None);
        }
        let doc = self.document.take();
        Ok(Some(Item::Document { doc }))
    }

    // Does what the last line does, which stands outside documents.
    fn follow_last(&mut self, effect: Effect, line: &[u8]) -> Result<Option<Item>, Failure>
        requires no_feed { has_no_feed line.now ≡ true }
        ensures { EndsEffect self.old effect line.now result }
    {
        match effect {
            Effect::Nothing => Ok(None),
            Effect::Gives(item) => Ok(Some(item)),
            Effect::Begins => self.end_document(line),
        }
    }

    // Ends a document by its last line, if there is one that no line feed ends.
    fn end_document(&mut self, line: &[u8]) -> Result<Option<Item>, Failure>
        requires no_feed { has_no_feed line.now ≡ true }
        ensures { EndsOn self.old line.now result }
    {
        let number = self.extent.lines_with(line);
        match self.document.end_with(line) {
            Ok(doc) => Ok(Some(Item::Document { doc })),
            Err(fault) => Err(Failure::of_line(number, fault)),
        }
    }
}

// Whether a line is UTF-8.
fn is_text(line: &[u8]) -> bool
    ensures { IsTrue result → IsUtf8 line.now }
{
    str::from_utf8(line).is_ok()
}
