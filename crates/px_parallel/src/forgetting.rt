//! A sink for what nobody reads.
use px_io::{Sink, WriteAnswer};

/// Takes all that is written, and keeps none of it.
#[derive(Drop)]
pub(crate) struct Forgetting;

impl Sink for Forgetting {
    ghost use Rattle.std.specs.Prelude.{None};

    ghost held = { λ _. None };

    ghost faults = { λ _. 0 };

    fn write(&mut self, piece: &[u8]) -> WriteAnswer {
        WriteAnswer::Took(piece.len())
    }
}
