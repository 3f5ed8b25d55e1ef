//! The lines for the documents of a batch.
ghost use Rattle.std.specs.Prelude.{◌≡◌, map, IfOk};
ghost use Rattle.px_feed.specs.declared.line.OutLine.TheVariants.{Matched};
ghost use Rattle.px_parallel.specs.Answering.{line_for};

use px_feed::OutLine;
use px_hub::Reply;
use std::alloc::{AllocError, Global};

/// The lines for these replies, in order. Its only failure is want of memory.
pub(crate) fn lines_of(alloc: Global, replies: Vec<Reply>) -> Result<Vec<OutLine>, AllocError>
    ensures { IfOk result (λ lines. lines.items ≡ map line_for replies.items) }
{
    let mut lines = Vec::with_capacity(alloc, replies.len())?;
    for reply in replies {
        lines.push_reserved(line_of(reply));
    }
    Ok(lines)
}

fn line_of(reply: Reply) -> OutLine
    ensures { result ≡ line_for reply }
{
    let Reply { version, ids, .. } = reply;
    OutLine::Matched { version, ids }
}
