//! What is kept between two lines of a document, and what each line does to it. No event is made:
//! what a line brings is read off the piece that it lies in, and off the names.

ghost use Rattle.std.specs.Prelude.{◌≡◌, ◌<◌, ◌≤◌, ◌+◌, ◌-◌, [], ◌∷◌, List, ℕ, Bool, true, false, not, length, take, drop, IfOk, OnOk, OnErr, IfSome, IsTrue, IsFalse, IsUtf8, get_or, slice_index};
ghost use Rattle.std.specs.List.{list_all};
ghost use Rattle.px_text.specs.Names as names;
ghost use Rattle.px_text.specs.Names.{is_pyx_name};
ghost use Rattle.px_reader.specs.Lines.{is_ended};
ghost use Rattle.px_reader.specs.Plain.{IsPlain};
ghost use Rattle.px_reader.specs.declared.scanner.Place.TheVariants as Place;
ghost use Rattle.px_reader.specs.Stacks.{first_of, is_none};
ghost use Rattle.px_reader.specs.Spelling.{is_among};
ghost use Rattle.px_reader.specs.declared.phase.Phase.TheVariants as Phase;
ghost use Rattle.px_reader.specs.States.{is_after};

mod long;
mod next;

use crate::fault::LineFault;
use crate::happening::Happening;
use crate::name_stack::NameStack;
use crate::phase::Phase;
use memchr::memchr2;
use px_text::{begins_part, continues_part};
use std::alloc::{AllocError, Global};

const MAX_DEPTH: usize = 512;

const MAX_LINE: usize = 1_048_576;

const MAX_ATTRIBUTES: usize = 256;

/// Where bytes lie: in the piece, or apart from it, in a buffer of their own.
#[derive(Clone, Copy)]
pub enum Place {
    Apart,
    Here { start: usize, end: usize },
}

/// What a line brings itself.
#[derive(Clone, Copy, PartialEq, Eq)]
pub enum Own {
    Nothing,
    Start,
    Attribute,
    End,
}

/// What a line brings: the text of the run that it ends, if there is one, and what it is itself.
#[derive(Clone, Copy)]
pub struct Told {
    text: bool,
    own: Own,
}

/// A line that was taken, and where it ends.
#[derive(Clone, Copy)]
pub struct QuickLine {
    end: usize,
    told: Told,
}

/// What was seen: an event, whose bytes are to be asked for, or none.
#[derive(Clone, Copy, PartialEq, Eq)]
pub enum Seen {
    Nothing,
    Text,
    Start,
    Attribute,
    End,
}

/// A line that was judged: where it ends, and what it brings.
#[derive(Clone, Copy)]
pub struct JudgedLine {
    pub end: usize,
    pub brings: Result<Told, LineFault>,
}

impl Told {
    ghost use Rattle.std.specs.Prelude.{◌++◌};
    ghost use Rattle.px_reader.specs.Scanning.{told_events, seen_events};

    pub fn nothing() -> Told
        ensures { (result.text ≡ false) × (result.own ≡ Own.Nothing) }
    {
        Told {
            text: false,
            own: Own::Nothing,
        }
    }

    /// Gives the first of the events.
    pub fn give(&mut self) -> Seen
        ensures rest { (text name attribute value : List ℕ) →
            told_events self.old text name attribute value ≡
            seen_events result text name attribute value ++
            told_events self.new text name attribute value }
        ensures nothing { result ≡ Seen.Nothing → (self.new.text ≡ false) ×
            (self.new.own ≡ Own.Nothing) }
        ensures text { self.new.text ≡ false }
        ensures own { self.old.text ≡ false → self.new.own ≡ Own.Nothing }
    {
        if self.text {
            self.text = false;
            return Seen::Text;
        }
        let own = self.own;
        self.own = Own::Nothing;
        match own {
            Own::Nothing => Seen::Nothing,
            Own::Start => Seen::Start,
            Own::Attribute => Seen::Attribute,
            Own::End => Seen::End,
        }
    }
}

impl QuickLine {
    pub fn end(&self) -> usize
        ensures { result ≡ self.now.end }
    {
        self.end
    }

    pub fn told(&self) -> Told
        ensures { result ≡ self.now.told }
    {
        self.told
    }
}

#[derive(Drop)]
pub struct Scanner {
    phase: Phase,
    names: NameStack,
    attributes: NameStack,
    /// whether a run of texts is open
    is_run: bool,
    /// where the text of the run lies, of the one that is open or was ended last
    run: Place,
    text: Vec<u8>,
    /// where the value of the last attribute lies
    value: Place,
    unescaped: Vec<u8>,
    ghost named: { list_all is_pyx_name names ≡ true },
}

impl Scanner {
    ghost use Rattle.px_reader.specs.Scanned.{bytes_at, IsWithin, run_of, no_bytes, line_to};
    ghost use Rattle.px_reader.specs.Machine.{Before};
    ghost use Rattle.px_reader.specs.Scanning.{state_in, shown_in, shown_by, QuickTakes, EndsRun, Says, Holds};

    /// Before a document. It takes no memory.
    pub fn new(alloc: Global) -> Scanner
        ensures state { (piece : List ℕ) → state_in piece result ≡ Before }
        ensures places { (result.run ≡ Place.Apart) × (result.value ≡ Place.Apart) }
    {
        Scanner {
            phase: Phase::Start,
            names: NameStack::new(alloc),
            attributes: NameStack::new(alloc),
            is_run: false,
            run: Place::Apart,
            text: Vec::new(alloc),
            value: Place::Apart,
            unescaped: Vec::new(alloc),
        }
    }

    /// Stands before a document again.
    pub fn clear(&mut self)
        ensures state { (piece : List ℕ) → state_in piece self.new ≡ Before }
        ensures places { (self.new.run ≡ Place.Apart) × (self.new.value ≡ Place.Apart) }
    {
        self.phase = Phase::Start;
        self.names.clear();
        self.attributes.clear();
        self.is_run = false;
        self.run = Place::Apart;
        self.value = Place::Apart;
    }

    /// What was seen last, borrowed from the piece and from what is kept; nothing where nothing was
    /// seen.
    pub fn happening<'a>(&'a self, piece: &'a [u8], seen: Seen) -> Option<Happening<'a>>
        requires run { IsWithin piece.now self.now.run }
        requires value { IsWithin piece.now self.now.value }
        ensures { shown_by result ≡ shown_in piece.now seen self.now }
    {
        match seen {
            Seen::Nothing => None,
            Seen::Text => Some(Happening::Text {
                text: self.text(piece),
            }),
            Seen::Start => Some(Happening::Start { name: self.name() }),
            Seen::Attribute => Some(Happening::Attr {
                name: self.attribute(),
                value: self.value(piece),
            }),
            Seen::End => Some(Happening::End),
        }
    }

    /// The quick way for a line `(name` with its line feed, which begins at a place of the piece.
    /// Nothing where the line is of another form or at fault: then nothing has changed.
    pub fn quick_open(&mut self, piece: &[u8], at: usize) -> Result<Option<QuickLine>, AllocError>
        requires within { IsWithin piece.now self.old.run }
        requires first { (at < length piece.now) × (slice_index piece.now at ≡ 40) }
        ensures ok { IfOk result (λ taken. QuickTakes piece.now at self.old taken self.new) }
        ensures places { (self.new.run ≡ self.old.run) × (self.new.value ≡ self.old.value) }
    {
        let rest = behind(piece, at);
        let length = name_length(rest);
        if length >= MAX_LINE || !begins_with_name(rest, length) || !has_feed(rest, length) {
            return Ok(None);
        }
        if self.is_behind_root() || self.names.len() >= MAX_DEPTH {
            return Ok(None);
        }
        self.names.push(&rest[..length])?;
        let text = self.end_run();
        self.attributes.clear();
        self.phase = Phase::Giving;
        Ok(Some(QuickLine {
            end: at + length + 2,
            told: Told {
                text,
                own: Own::Start,
            },
        }))
    }

    /// The quick way for a line `)name` that closes the innermost element.
    pub fn quick_close(&mut self, piece: &[u8], at: usize) -> Option<QuickLine>
        requires within { IsWithin piece.now self.old.run }
        requires first { (at < length piece.now) × (slice_index piece.now at ≡ 41) }
        ensures taken { QuickTakes piece.now at self.old result self.new }
        ensures places { (self.new.run ≡ self.old.run) × (self.new.value ≡ self.old.value) }
    {
        let rest = behind(piece, at);
        if self.names.is_empty() {
            return None;
        }
        let name = self.names.last();
        let length = name.len();
        if length >= MAX_LINE || !begins_with(rest, name) || !has_feed(rest, length) {
            return None;
        }
        self.names.pop();
        let text = self.end_run();
        Some(QuickLine {
            end: at + length + 2,
            told: Told {
                text,
                own: Own::End,
            },
        })
    }

    /// The quick way for a line `Aname value`, without an escape.
    pub fn quick_attribute(
        &mut self,
        piece: &[u8],
        at: usize,
    ) -> Result<Option<QuickLine>, AllocError>
        requires within { IsWithin piece.now self.old.run }
        requires first { (at < length piece.now) × (slice_index piece.now at ≡ 65) }
        ensures ok { IfOk result (λ taken. QuickTakes piece.now at self.old taken self.new) }
        ensures run { self.new.run ≡ self.old.run }
        ensures value { IsWithin piece.now self.old.value → IsWithin piece.now self.new.value }
    {
        let rest = behind(piece, at);
        let length = name_length(rest);
        if !begins_with_name(rest, length) || !has_space(rest, length) {
            return Ok(None);
        }
        let Some(count) = plain_length(behind(rest, length)) else {
            return Ok(None);
        };
        if length >= MAX_LINE || count >= MAX_LINE - length - 1 {
            return Ok(None);
        }
        if !self.may_give(&rest[..length]) {
            return Ok(None);
        }
        self.attributes.push(&rest[..length])?;
        let start = at + length + 2;
        self.value = Place::Here {
            start,
            end: start + count,
        };
        Ok(Some(QuickLine {
            end: at + length + count + 3,
            told: Told {
                text: false,
                own: Own::Attribute,
            },
        }))
    }

    // Whether an attribute of this name may come.
    fn may_give(&self, name: &[u8]) -> bool
        ensures { IsTrue result → (self.now.phase ≡ Phase.Giving) ×
            (is_none self.now.names ≡ false) × (is_among name.now self.now.attributes ≡ false)
            × (length self.now.attributes < 256) }
    {
        self.phase == Phase::Giving
            && !self.names.is_empty()
            && !self.attributes.contains(name)
            && self.attributes.len() < MAX_ATTRIBUTES
    }

    /// The quick way for a line `-text` in an element, without an escape.
    pub fn quick_text(&mut self, piece: &[u8], at: usize) -> Result<Option<QuickLine>, AllocError>
        requires within { IsWithin piece.now self.old.run }
        requires first { (at < length piece.now) × (slice_index piece.now at ≡ 45) }
        ensures ok { IfOk result (λ taken. QuickTakes piece.now at self.old taken self.new) }
        ensures run { IsWithin piece.now self.new.run }
        ensures value { self.new.value ≡ self.old.value }
    {
        if self.names.is_empty() {
            return Ok(None);
        }
        let rest = behind(piece, at);
        let Some(length) = plain_length(rest) else {
            return Ok(None);
        };
        if length >= MAX_LINE {
            return Ok(None);
        }
        self.say(piece, at + 1, at + 1 + length)?;
        Ok(Some(QuickLine {
            end: at + length + 2,
            told: Told {
                text: false,
                own: Own::Nothing,
            },
        }))
    }

    // Goes on with the run by bytes of the piece, or begins one that lies there.
    fn say(&mut self, piece: &[u8], start: usize, end: usize) -> Result<(), AllocError>
        requires within { IsWithin piece.now self.old.run }
        requires range { (start ≤ end) × (end ≤ length piece.now) }
        ensures ok { OnOk result (Says piece.now self.old (line_to piece.now start end) self.new) }
        ensures run { IsWithin piece.now self.new.run }
        ensures value { self.new.value ≡ self.old.value }
    {
        if self.phase == Phase::Body && self.is_run {
            self.hold_run(piece)?;
            return self.text.extend_from_slice(&piece[start..end]);
        }
        self.phase = Phase::Body;
        self.is_run = true;
        self.run = Place::Here { start, end };
        Ok(())
    }

    /// Copies the run out of the piece, so that the piece may go. The value of the last attribute
    /// is given up.
    pub fn hold(&mut self, piece: &[u8]) -> Result<(), AllocError>
        requires within { IsWithin piece.now self.old.run }
        ensures ok { OnOk result (Holds piece.now self.old self.new) }
        ensures err { OnErr result (self.new.run ≡ self.old.run) }
        ensures value { self.new.value ≡ Place.Apart }
    {
        self.value = Place::Apart;
        self.hold_run(piece)
    }

    fn hold_run(&mut self, piece: &[u8]) -> Result<(), AllocError>
        requires within { IsWithin piece.now self.old.run }
        ensures ok { OnOk result (Holds piece.now self.old self.new) }
        ensures err { OnErr result (self.new.run ≡ self.old.run) }
        ensures value { self.new.value ≡ self.old.value }
    {
        let Place::Here { start, end } = self.run else {
            return Ok(());
        };
        self.text.clear();
        self.text.extend_from_slice(&piece[start..end])?;
        self.run = Place::Apart;
        Ok(())
    }

    /// The quick way for a line that begins at a place of the piece.
    pub fn quick(&mut self, piece: &[u8], at: usize) -> Result<Option<QuickLine>, AllocError>
        requires within { IsWithin piece.now self.old.run }
        requires value { IsWithin piece.now self.old.value }
        requires first { at < length piece.now }
        ensures ok { IfOk result (λ taken. QuickTakes piece.now at self.old taken self.new) }
        ensures run { IsWithin piece.now self.new.run }
        ensures value { IsWithin piece.now self.new.value }
    {
        match piece[at] {
            b'(' => self.quick_open(piece, at),
            b')' => Ok(self.quick_close(piece, at)),
            b'A' => self.quick_attribute(piece, at),
            b'-' => self.quick_text(piece, at),
            _ => Ok(None),
        }
    }

    /// The name of the attribute that was given last.
    pub fn attribute(&self) -> &[u8]
        ensures { result.now ≡ first_of self.now.attributes }
    {
        self.attributes.last()
    }

    /// The value of the attribute that was given last.
    pub fn value<'a>(&'a self, piece: &'a [u8]) -> &'a [u8]
        requires { IsWithin piece.now self.now.value }
        ensures { result.now ≡ bytes_at piece.now self.now.unescaped.items self.now.value }
    {
        match self.value {
            Place::Apart => self.unescaped.as_slice(),
            Place::Here { start, end } => &piece[start..end],
        }
    }

    /// The name of the element that was opened last.
    pub fn name(&self) -> &[u8]
        ensures { result.now ≡ first_of self.now.names }
    {
        self.names.last()
    }

    /// The text of the run that was ended last.
    pub fn text<'a>(&'a self, piece: &'a [u8]) -> &'a [u8]
        requires { IsWithin piece.now self.now.run }
        ensures { result.now ≡ bytes_at piece.now self.now.text.items self.now.run }
    {
        match self.run {
            Place::Apart => self.text.as_slice(),
            Place::Here { start, end } => &piece[start..end],
        }
    }

    /// Whether the root is closed.
    pub fn is_behind_root(&self) -> bool
        ensures { (piece : List ℕ) → result ≡ is_after (state_in piece self.now) }
    {
        self.phase != Phase::Start && self.names.is_empty()
    }

    // Ends the run of texts that is open: whether it says anything.
    fn end_run(&mut self) -> bool
        ensures names { self.new.names ≡ self.old.names }
        ensures ends { EndsRun self.old result self.new }
    {
        let says = self.phase == Phase::Body && self.is_run && !self.is_run_empty();
        self.is_run = false;
        self.phase = Phase::Body;
        says
    }

    fn is_run_empty(&self) -> bool
        ensures { (piece : List ℕ) → IsWithin piece self.now.run →
            result ≡ no_bytes (bytes_at piece self.now.text.items self.now.run) }
    {
        match self.run {
            Place::Apart => self.text.is_empty(),
            Place::Here { start, end } => start == end,
        }
    }
}

// How many bytes stand before the first line feed, if no backslash is among them and they do not
// end with a carriage return.
fn plain_length(bytes: &[u8]) -> Option<usize>
    ensures { IfSome result (λ count. IsPlain bytes.now count) }
{
    let count = memchr2(b'\n', b'\\', bytes)?;
    if !has_feed(bytes, count) || has_return_before(bytes, count) {
        return None;
    }
    Some(count)
}

// Whether a carriage return stands before a place.
fn has_return_before(bytes: &[u8], at: usize) -> bool
    requires { at ≤ length bytes.now }
    ensures { IsFalse result → 0 < at → get_or bytes.now (at - 1) 0 ≡ 13 → ⊥ }
{
    at > 0 && bytes[at - 1] == b'\r'
}

// What stands behind a byte.
fn behind(piece: &[u8], at: usize) -> &[u8]
    requires { at < length piece.now }
    ensures { result.now ≡ drop (at + 1) piece.now }
{
    &piece[at + 1..]
}

// Whether a line feed stands there.
fn has_feed(bytes: &[u8], at: usize) -> bool
    ensures { IsTrue result → (at < length bytes.now) × (get_or bytes.now at 0 ≡ 10) }
{
    at < bytes.len() && bytes[at] == b'\n'
}

// Whether a space stands there.
fn has_space(bytes: &[u8], at: usize) -> bool
    ensures { IsTrue result → (at < length bytes.now) × (get_or bytes.now at 0 ≡ 32) }
{
    at < bytes.len() && bytes[at] == b' '
}

// Whether the bytes begin with a name.
fn begins_with(bytes: &[u8], name: &[u8]) -> bool
    ensures { IsTrue result → (length name.now ≤ length bytes.now) ×
        (take (length name.now) bytes.now ≡ name.now) }
{
    name.len() <= bytes.len() && &bytes[..name.len()] == name
}

// Whether the first bytes, so many of them, begin a name.
fn begins_with_name(bytes: &[u8], count: usize) -> bool
    ensures { IsTrue result → (0 < count) × (0 < length bytes.now) ×
        (names.begins_name (get_or bytes.now 0 0) ≡ true) }
{
    count > 0 && bytes.len() > 0 && begins_name(bytes[0])
}

// How many bytes at the front go on a name.
fn name_length(bytes: &[u8]) -> usize
    ensures within { result ≤ length bytes.now }
    ensures name { list_all names.continues_name (take result bytes.now) ≡ true }
{
    let mut length = 0;
    while length < bytes.len() {
        if !continues_name(bytes[length]) {
            return length;
        }
        length += 1;
    }
    length
}

fn begins_name(byte: u8) -> bool
    ensures { result ≡ names.begins_name byte }
{
    begins_part(byte) || byte == b':'
}

fn continues_name(byte: u8) -> bool
    ensures { result ≡ names.continues_name byte }
{
    continues_part(byte) || byte == b':'
}
