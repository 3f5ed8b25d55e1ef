//! What lines do outside documents.

ghost use Rattle.std.specs.Prelude.{◌≡◌, ◌∷◌, IfOk, IfErr, OnOk};
ghost use Rattle.px_reader.specs.Lines.{all_white, line_of};
ghost use Rattle.px_reader.specs.Lines.{without_end as content_of};
ghost use Rattle.px_text.specs.Escapes.{unescaped};
ghost use Rattle.px_feed.specs.Items.{Adding, Removing, Replacing, Brings, outside, of_kind};
ghost use Rattle.px_feed.specs.Effects.{Does, DoesFit, passed_by};

use crate::item::Item;
use px_reader::{DocKind, LineFault, split_at_space, without_end};
use px_text::{Bytes, is_letter, is_pyx_name, is_white, unescape};
use std::alloc::{AllocError, Global};

/// The most bytes of a line without its end.
const MAX_LINE: usize = 1_048_576;

/// What a line outside documents does.
#[derive(Drop)]
pub enum Effect {
    Nothing,
    Gives(Item),
    /// It is the first line of a document.
    Begins,
}

/// Judges a line with its end, where it has one.
pub fn judge(alloc: Global, line: &[u8]) -> Result<Effect, LineFault>
    ensures { DoesFit result line.now }
{
    let content = without_end(line);
    if content.len() > MAX_LINE {
        return Err(LineFault::Kind(DocKind::LineLong));
    }
    if str::from_utf8(line).is_err() {
        return Err(LineFault::Kind(DocKind::NotUtf8));
    }
    effect_of(alloc, content)
}

// What a line without its end does.
fn effect_of(alloc: Global, content: &[u8]) -> Result<Effect, LineFault>
    ensures { Does result (outside content.now) }
{
    let Some((first, rest)) = content.split_first() else {
        return Ok(Effect::Nothing);
    };
    match *first {
        b'+' => add(alloc, rest),
        b'~' => remove(alloc, rest),
        b'^' => replace(alloc, rest),
        b'(' => open(rest),
        b'-' => say(alloc, rest),
        b'?' => Ok(Effect::Nothing),
        b'A' => Err(LineFault::Kind(DocKind::NotHere)),
        other => pass(other),
    }
}

// A filter to add.
fn add(alloc: Global, text: &[u8]) -> Result<Effect, LineFault>
    ensures { Does result (Brings (Adding text.now)) }
{
    let text = Bytes::of(alloc, text)?;
    Ok(Effect::Gives(Item::Add { text }))
}

// An id to drop.
fn remove(alloc: Global, text: &[u8]) -> Result<Effect, LineFault>
    ensures { Does result (Brings (Removing text.now)) }
{
    let text = Bytes::of(alloc, text)?;
    Ok(Effect::Gives(Item::Remove { text }))
}

// An id and the filter that takes its place.
fn replace(alloc: Global, text: &[u8]) -> Result<Effect, LineFault>
    ensures { Does result (outside (94 ∷ text.now)) }
{
    let (id, text) = split_at_space(text);
    let id = Bytes::of(alloc, id)?;
    let text = Bytes::of(alloc, text)?;
    Ok(Effect::Gives(Item::Replace { id, text }))
}

// The first line of a document, if it has a name.
fn open(name: &[u8]) -> Result<Effect, LineFault>
    ensures { Does result (outside (40 ∷ name.now)) }
{
    if is_pyx_name(name) {
        return Ok(Effect::Begins);
    }
    Err(LineFault::Kind(DocKind::NotHere))
}

// A line of text, where only white space may stand.
fn say(alloc: Global, text: &[u8]) -> Result<Effect, LineFault>
    ensures { Does result (outside (45 ∷ text.now)) }
{
    if is_blank(alloc, text)? {
        return Ok(Effect::Nothing);
    }
    Err(LineFault::Kind(DocKind::NotHere))
}

// A line that begins with no byte that has a meaning of its own: one that begins with a letter
// is passed by.
fn pass(first: u8) -> Result<Effect, LineFault>
    ensures { Does result (passed_by first) }
{
    if is_letter(first) {
        return Ok(Effect::Nothing);
    }
    Err(LineFault::Kind(DocKind::NotHere))
}

// Whether a text, with its escapes read, is white space or empty.
fn is_blank(alloc: Global, text: &[u8]) -> Result<bool, AllocError>
    ensures { IfOk result (λ blank. blank ≡ all_white (unescaped text.now)) }
{
    let mut read = Vec::new(alloc);
    unescape(text, &mut read)?;
    Ok(read.iter().all(|byte| is_white(*byte)))
}
