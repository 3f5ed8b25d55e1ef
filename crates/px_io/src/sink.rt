//! What bytes are written to.

ghost use Rattle.std.specs.Prelude.{◌≡◌, ◌≤◌, ℕ, List, Option};
ghost use Rattle.px_io.specs.Faults.{Rose};
ghost use Rattle.px_io.specs.Flows.{TakesFront};

/// The answer of a write.
#[derive(Clone, Copy, Debug, Drop, PartialEq, Eq)]
pub enum WriteAnswer {
    /// So many bytes of the piece's front were taken, at least one where there is one.
    Took(usize),
    /// A fault of the sink; what it holds stays.
    Failed,
    /// The sink found no memory; what it holds stays.
    Memory,
}

/// What bytes are written to.
pub trait Sink {
    /// The bytes that the sink holds, where they are told.
    ghost held: { Self → Option (List ℕ) };

    /// How many faults the sink has met.
    ghost faults: { Self → ℕ };

    /// Takes a front part of the piece behind what it holds.
    fn write(&mut self, piece: &[u8]) -> WriteAnswer
        ensures takes { TakesFront result piece.now (held self.old) (held self.new) }
        ensures never_falls { faults self.old ≤ faults self.new }
        ensures failed { result ≡ WriteAnswer.Failed → Rose (faults self.old) (faults self.new) }
        ensures memory { result ≡ WriteAnswer.Memory → faults self.new ≡ faults self.old };
}
