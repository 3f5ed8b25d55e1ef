//! How fast a document is read: its events alone, with no machine behind them.

ghost use Rattle.std.specs.Prelude.{◌≡◌, ◌<◌, length, IfOk};

use crate::trouble::Trouble;
use px_io::{ReadAnswer, Source};
use px_reader::{Event, Reader};
use std::alloc::{AllocError, Global};

/// How many bytes are read at once.
const PIECE: usize = 65_536;

/// Every read gives a byte at least, and a document has at most 16,777,216, so this many reads
/// find its end or its fault.
const MOST_READS: u32 = 16_777_217;

/// How many events the document in a source has. They are counted piece by piece, and not kept.
pub fn count_events<S: Source>(alloc: Global, source: &mut S) -> Result<u64, Trouble> {
    let mut reader = Reader::new(alloc)?;
    let mut events = Vec::new(alloc);
    let mut storage = zeros(alloc, PIECE)?;
    let buffer = storage.as_mut_slice();
    let mut count = 0u64;
    for _ in 0..MOST_READS {
        events.clear();
        let goes_on = read_piece(source, buffer, &mut reader, &mut events)?;
        count = count.saturating_add(events.len() as u64);
        if !goes_on {
            return Ok(count);
        }
    }
    Err(Trouble::Feed)
}

// So many zeros.
fn zeros(alloc: Global, count: usize) -> Result<Vec<u8>, AllocError>
    ensures { IfOk result (λ zeros. length zeros.items ≡ count) }
{
    vec![in alloc; 0; count]
}

// Reads the next piece, and appends the events that are known by it: whether more may come.
fn read_piece<S: Source>(
    source: &mut S,
    buffer: &mut [u8],
    reader: &mut Reader,
    events: &mut Vec<Event>,
) -> Result<bool, Trouble>
    requires { 0 < length buffer.old }
{
    match source.read(buffer) {
        ReadAnswer::Got(count) => {
            reader.feed(&buffer[..count], events)?;
            Ok(true)
        }
        ReadAnswer::End => {
            reader.end(events)?;
            Ok(false)
        }
        ReadAnswer::Failed => Err(Trouble::Read),
    }
}
