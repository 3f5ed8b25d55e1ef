//! Whole lines, out of pieces.

ghost use Rattle.px_reader.specs.declared.lines.PushFault.TheVariants.{Memory};
ghost use Rattle.std.specs.Prelude.{◌≡◌, ◌++◌, ◌≤◌, ◌<◌, ◌+◌, ◌-◌, ◌^◌, [], true, false, length, take, drop, IfOk, OnOk, OnErr, IsTrue, IsFalse, IsUtf8};
ghost use Rattle.px_reader.specs.Lines.{is_whole, has_no_feed, is_ended};

use memchr::{memchr, memrchr};
use std::alloc::{AllocError, Global};

/// How much is kept of a line that has begun: all of it, or enough to show that it is too long.
const MAX_KEPT: usize = 1_048_579;

/// Why a piece is not added.
#[derive(Clone, Copy, Debug, PartialEq, Eq)]
pub enum PushFault {
    Memory,
    /// It ends a line of so many bytes that not all of them were kept, and which is too long by
    /// that.
    LineLong(u64),
}

impl From<AllocError> for PushFault {
    ghost from_gives = { λ _ fault. fault ≡ Memory };

    fn from(_refused: AllocError) -> PushFault {
        PushFault::Memory
    }
}

/// The bytes of the pieces that are not taken yet: whole lines, and a line that has begun.
#[derive(Drop)]
pub struct Lines {
    bytes: Vec<u8>,
    /// where the first line begins that is not taken
    at: usize,
    /// where the whole lines end
    whole: usize,
    /// how many bytes of the line that has begun are not kept
    lost: u64,
    /// whether the whole lines are known to be UTF-8
    is_text: bool,
    ghost ordered: { at ≤ whole },
    ghost within: { whole ≤ length bytes.items },
    ghost counted: { length bytes.items - whole + lost < 2 ^ 64 },
    ghost ended: { is_whole (take (whole - at) (drop at bytes.items)) ≡ true },
    ghost begun: { has_no_feed (drop whole bytes.items) ≡ true },
    ghost text: { is_text ≡ true → ∥ IsUtf8 (take (whole - at) (drop at bytes.items)) ∥₁ },
}

impl Lines {
    ghost use Rattle.std.specs.Prelude.{List, ℕ, IfErr};
    ghost use Rattle.px_reader.specs.Buffers.{ready, begun_size, piece, IsUnread, TakesFirst, Adds, LosesLine};
    ghost use Rattle.px_reader.specs.Scanned.{line_to};

    /// No bytes. It takes no memory.
    pub fn new(alloc: Global) -> Lines
        ensures unread { IsUnread result [] }
        ensures none { ready result ≡ [] }
    {
        Lines {
            bytes: Vec::new(alloc),
            at: 0,
            whole: 0,
            lost: 0,
            is_text: true,
        }
    }

    /// Forgets all bytes.
    pub fn clear(&mut self)
        ensures unread { IsUnread self.new [] }
        ensures none { ready self.new ≡ [] }
    {
        self.bytes.clear();
        self.at = 0;
        self.whole = 0;
        self.lost = 0;
        self.is_text = true;
    }

    /// Whether a whole line is there.
    pub fn has_line(&self) -> bool
        ensures more { IsTrue result → self.now.at < length (piece self.now) }
        ensures none { IsFalse result → ready self.now ≡ [] }
    {
        self.at < self.whole
    }

    /// All whole lines, among them those that are taken.
    pub fn piece(&self) -> &[u8]
        ensures { result.now ≡ piece self.now }
    {
        &self.bytes[..self.whole]
    }

    /// Where the first line begins that is not taken.
    pub fn at(&self) -> usize
        ensures { result ≡ self.now.at }
    {
        self.at
    }

    /// Where the first line ends that is not taken, behind its line feed.
    pub fn end(&self) -> usize
        requires { self.now.at < length (piece self.now) }
        ensures within { (self.now.at < result) × (result ≤ length (piece self.now)) }
        ensures line { is_ended (line_to (piece self.now) self.now.at result) ≡ true }
    {
        self.at + line_length(&self.bytes[self.at..self.whole])
    }

    /// Whether the whole lines are known to be text.
    pub fn is_text(&self) -> bool
        ensures { IsTrue result → (end : ℕ) → self.now.at < end → end ≤ length (piece self.now) →
            is_ended (line_to (piece self.now) self.now.at end) ≡ true →
            IsUtf8 (line_to (piece self.now) self.now.at end) }
    {
        self.is_text
    }

    /// Takes the first line, which ends there.
    pub fn take(&mut self, end: usize)
        requires within { (self.old.at < end) × (end ≤ length (piece self.old)) }
        requires line { is_ended (line_to (piece self.old) self.old.at end) ≡ true }
        ensures piece { piece self.new ≡ piece self.old }
        ensures at { self.new.at ≡ end }
        ensures unread { TakesFirst self.old (line_to (piece self.old) self.old.at end) self.new }
    {
        self.at = end;
    }

    /// What is kept of the line that has begun: all of it, or enough to show that it is too long.
    pub fn begun(&self) -> &[u8]
        ensures { (unread : List ℕ) → ready self.now ≡ [] → IsUnread self.now unread →
            result.now ≡ take 1_048_579 unread }
    {
        &self.bytes[self.whole..]
    }

    /// How many bytes the line has that has begun.
    pub fn begun_size(&self) -> u64
        ensures size { result ≡ begun_size self.now }
        ensures all { (unread : List ℕ) → ready self.now ≡ [] → IsUnread self.now unread →
            result ≡ length unread }
    {
        (self.bytes.len() - self.whole) as u64 + self.lost
    }

    /// Adds a piece, where no whole line is left. Where bytes lay before is then no longer so.
    /// Where memory is refused, what is unread is not known.
    pub fn push(&mut self, piece: &[u8]) -> Result<(), PushFault>
        requires none { ready self.old ≡ [] }
        requires room { begun_size self.old + length piece.now < 2 ^ 64 }
        ensures ok { OnOk result (Adds self.old piece.now self.new) }
        ensures err { IfErr result (λ fault. LosesLine self.old piece.now fault) }
    {
        self.settle();
        let Some(feed) = memrchr(b'\n', piece) else {
            self.keep(piece)?;
            return Ok(());
        };
        if self.lost > 0 {
            return Err(PushFault::LineLong(self.begun_size() + line_length(piece) as u64));
        }
        let (lines, begun) = piece.split_at(feed + 1);
        self.bytes.extend_from_slice(lines)?;
        self.whole = self.bytes.len();
        self.is_text = are_text(self.bytes.as_slice());
        self.keep(begun)?;
        Ok(())
    }

    // Forgets the lines that are taken, where all are: the line that has begun stands at the front.
    fn settle(&mut self)
        requires { ready self.old ≡ [] }
        ensures front { (self.new.at ≡ 0) × (self.new.whole ≡ 0) }
        ensures size { begun_size self.new ≡ begun_size self.old }
        ensures unread { (unread : List ℕ) → IsUnread self.old unread → IsUnread self.new unread }
    {
        cut_front(&mut self.bytes, self.whole);
        self.at = 0;
        self.whole = 0;
        self.is_text = true;
    }

    // Keeps a part of the line that has begun.
    fn keep(&mut self, part: &[u8]) -> Result<(), AllocError>
        requires feed { has_no_feed part.now ≡ true }
        requires room { begun_size self.old + length part.now < 2 ^ 64 }
        ensures same { (self.new.at ≡ self.old.at) × (self.new.whole ≡ self.old.whole) ×
            (self.new.is_text ≡ self.old.is_text) }
        ensures kept { OnOk result (self.new.bytes.items ≡ self.old.bytes.items ++
            take (1_048_579 - (length self.old.bytes.items - self.old.whole)) part.now) }
        ensures lost { OnOk result (self.new.lost ≡
            self.old.lost + (length part.now -
            (1_048_579 - (length self.old.bytes.items - self.old.whole)))) }
    {
        let room = MAX_KEPT.saturating_sub(self.bytes.len() - self.whole);
        let end = room.min(part.len());
        self.bytes.extend_from_slice(&part[..end])?;
        self.lost += (part.len() - end) as u64;
        Ok(())
    }
}

// How many bytes the first line has, with its line feed.
fn line_length(bytes: &[u8]) -> usize
    requires { has_no_feed bytes.now ≡ false }
    ensures within { (0 < result) × (result ≤ length bytes.now) }
    ensures line { is_ended (take result bytes.now) ≡ true }
{
    match memchr(b'\n', bytes) {
        Some(feed) => feed + 1,
        None => unreachable!(),
    }
}

// Takes the first bytes away, so many of them.
fn cut_front(bytes: &mut Vec<u8>, count: usize)
    requires { count ≤ length bytes.old.items }
    ensures { bytes.new.items ≡ drop count bytes.old.items }
{
    let end = bytes.len();
    bytes.as_mut_slice().copy_within(count..end, 0);
    bytes.truncate(end - count);
}

fn are_text(bytes: &[u8]) -> bool
    ensures text { IsTrue result → IsUtf8 bytes.now }
    ensures none { IsFalse result → IsUtf8 bytes.now → ⊥ }
{
    str::from_utf8(bytes).is_ok()
}
