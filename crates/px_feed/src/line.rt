//! The lines that are written, and their texts.

ghost use Rattle.std.specs.Prelude.{◌≡◌, IfOk};
ghost use Rattle.px_feed.specs.Lines.{line_text};

use px_reader::DocKind;
use px_text::{Bytes, Ids};
use px_xpath::FilterFault;
use std::alloc::{AllocError, Global};
use std::fmt;

/// What can be wrong with a line of a feed.
#[derive(Clone, Copy, Debug, Drop, PartialEq, Eq)]
pub enum FeedKind {
    /// What can be wrong with a line of a document.
    Doc(DocKind),
    /// Byte 1,099,511,627,777 of the feed stands in it.
    FeedLong,
}

/// The first fault of a feed or of a document, and the line, from 1, in which it stands.
#[derive(Clone, Copy, Debug, Drop, PartialEq, Eq)]
pub struct FeedFault {
    pub line: u64,
    pub kind: FeedKind,
}

/// A line that is written: the answer to one item of a feed, or to the document of a match.
///
/// Its `Display` is the line without its line feed.
#[derive(Drop)]
pub enum OutLine {
    /// The filter was added, and lives under this id.
    Added { id: u32 },
    /// The filter of this id was dropped, which made this version.
    Dropped { id: u32, version: u32 },
    /// The filter of this id was replaced, which made this version.
    Replaced { id: u32, version: u32 },
    /// The document matches the filters with these ids, of those live at this version.
    Matched { version: u32, ids: Ids },
    /// The text is no filter.
    NoFilter(FilterFault),
    /// The filter is too large beside the live ones, which have this size.
    AddTooLarge { live: u32 },
    /// The history has no version left for an add.
    AddNoVersions,
    /// The drop names no live filter.
    DropUnknown,
    /// The history has no version left for a drop.
    DropNoVersions,
    /// The replacement names no live filter.
    ReplaceUnknown,
    /// The new filter is too large beside the other live ones, which have this size.
    ReplaceTooLarge { live: u32 },
    /// The history has no version left for a replacement.
    ReplaceNoVersions,
    /// A line of the feed or of the document is at fault.
    Faulty(FeedFault),
    /// The document matches.
    Yes,
    /// The document does not match.
    No,
}

impl fmt::Display for FeedKind {
    ghost use Rattle.std.specs.Prelude.{Some};
    ghost use Rattle.px_feed.specs.Lines.{feed_kind};

    ghost output = { λ kind. Some (feed_kind kind) };

    fn fmt<W: fmt::Write>(&self, f: &mut fmt::Formatter<W>) -> fmt::Result {
        match *self {
            FeedKind::Doc(DocKind::NotHere) => write!(f, "not-here"),
            FeedKind::Doc(DocKind::NotUtf8) => write!(f, "not-utf8"),
            FeedKind::Doc(DocKind::LineLong) => write!(f, "line-long"),
            FeedKind::Doc(DocKind::TooDeep) => write!(f, "too-deep"),
            FeedKind::Doc(DocKind::TooManyAttributes) => write!(f, "too-many-attributes"),
            FeedKind::Doc(DocKind::TooBig) => write!(f, "too-big"),
            FeedKind::Doc(DocKind::Truncated) => write!(f, "truncated"),
            FeedKind::FeedLong => write!(f, "feed-long"),
        }
    }
}

/// A filter's fault as its line names it.
#[derive(Drop)]
struct FaultWords(FilterFault);

impl fmt::Display for FaultWords {
    ghost use Rattle.std.specs.Prelude.{Some};
    ghost use Rattle.px_feed.specs.Lines.{filter_fault};

    ghost output = { λ words. Some (filter_fault words.0) };

    fn fmt<W: fmt::Write>(&self, f: &mut fmt::Formatter<W>) -> fmt::Result {
        match self.0 {
            FilterFault::NotAFilter { at } => write!(f, "not-a-filter {at}"),
            FilterFault::TooLong => write!(f, "too-long"),
            FilterFault::TooNested { at } => write!(f, "too-nested {at}"),
            FilterFault::NumberLong { at } => write!(f, "number-long {at}"),
        }
    }
}

/// The ids of a document's line, each with a space before it.
#[derive(Drop)]
struct IdWords<'a>(&'a Ids);

impl fmt::Display for IdWords<'_> {
    ghost use Rattle.std.specs.Prelude.{Some};
    ghost use Rattle.px_feed.specs.Lines.{id_words};

    ghost output = { λ words. Some (id_words words.0.now) };

    fn fmt<W: fmt::Write>(&self, f: &mut fmt::Formatter<W>) -> fmt::Result {
        for id in self.0.as_slice() {
            write!(f, " {id}")?;
        }
        Ok(())
    }
}

impl fmt::Display for OutLine {
    ghost use Rattle.std.specs.Prelude.{Some};
    ghost use Rattle.px_feed.specs.Lines.{words};

    ghost output = { λ line. Some (words line) };

    fn fmt<W: fmt::Write>(&self, f: &mut fmt::Formatter<W>) -> fmt::Result {
        match self {
            OutLine::Added { id } => write!(f, "+{id}"),
            OutLine::Dropped { id, version } => write!(f, "~{id} {version}"),
            OutLine::Replaced { id, version } => write!(f, "^{id} {version}"),
            OutLine::Matched { version, ids } => write!(f, "{version}:{}", IdWords(ids)),
            OutLine::NoFilter(fault) => write!(f, "! filter {}", FaultWords(*fault)),
            OutLine::AddTooLarge { live } => write!(f, "! add too-large {live}"),
            OutLine::AddNoVersions => write!(f, "! add no-versions"),
            OutLine::DropUnknown => write!(f, "! drop unknown"),
            OutLine::DropNoVersions => write!(f, "! drop no-versions"),
            OutLine::ReplaceUnknown => write!(f, "! replace unknown"),
            OutLine::ReplaceTooLarge { live } => write!(f, "! replace too-large {live}"),
            OutLine::ReplaceNoVersions => write!(f, "! replace no-versions"),
            OutLine::Faulty(fault) => write!(f, "! line {} {}", fault.line, fault.kind),
            OutLine::Yes => write!(f, "yes"),
            OutLine::No => write!(f, "no"),
        }
    }
}

/// The text of a line, with its line feed. It fails only for want of memory.
pub fn line_of(alloc: Global, line: &OutLine) -> Result<Bytes, AllocError>
    ensures text { IfOk result (λ bytes. bytes ≡ line_text line.now) }
{
    let text = format!(in alloc; "{line}\n")?;
    Ok(Bytes::from_vec(text.into_bytes()))
}
