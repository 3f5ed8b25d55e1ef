//! The command `make`: a feed of any size.

ghost use Rattle.std.specs.Prelude.{◌≡◌, ◌≤◌, ◌||◌, List, ℕ, Option, IsTrue};
ghost use Rattle.px_io.specs.Faults.{Rose};
ghost use Rattle.xpush.specs.Runs.{Made, WritesFront};
ghost use Rattle.px_lines.specs.Served.{is_finished, is_cut_short};
ghost use Rattle.xpush.specs.Forms.{Makes};

use px_feed::{Status, generate};
use px_io::Sink;
use px_lines::write_answer;
use std::alloc::Global;

/// Writes the feed of the seed, with so many filters and documents.
pub fn make_feed<K: Sink>(
    alloc: Global,
    seed: u32,
    filters: u32,
    documents: u32,
    sink: &mut K,
) -> Status
    ensures ends { IsTrue (is_finished result || is_cut_short result) }
    ensures output { IsTrue (is_finished result) → (left : Option (List ℕ)) →
        Made seed filters documents left left (K.held sink.old) (K.held sink.new) result }
    ensures front { IsTrue (is_cut_short result) → (left : Option (List ℕ)) →
        WritesFront (Makes seed filters documents) left (K.held sink.old) (K.held sink.new) }
    ensures write_fault { result ≡ Status.WriteFault →
        Rose (K.faults sink.old) (K.faults sink.new) }
    ensures sink_counts { K.faults sink.old ≤ K.faults sink.new }
{
    match generate(alloc, seed, filters, documents) {
        Ok(feed) => write_answer(feed.as_slice(), Status::Done, sink),
        Err(_) => Status::Memory,
    }
}
