//! What bytes are read from.

ghost use Rattle.std.specs.Prelude.{◌≡◌, ◌<◌, ◌≤◌, ℕ, List, length, Option};
ghost use Rattle.px_io.specs.Faults.{Rose};
ghost use Rattle.px_io.specs.Flows.{GivesNext};

/// The answer of a read.
#[derive(Clone, Copy, Debug, Drop, PartialEq, Eq)]
pub enum ReadAnswer {
    /// So many bytes were written to the front of the buffer. There is at least one.
    Got(usize),
    /// Nothing is left.
    End,
    /// A fault of the source; what is left stays.
    Failed,
}

/// What bytes are read from.
pub trait Source {
    /// The bytes that are left, where they are told.
    ghost left: { Self → Option (List ℕ) };

    /// How many faults the source has met.
    ghost faults: { Self → ℕ };

    /// Reads the next bytes that are left into the front of the buffer, which is not empty.
    ///
    /// After `Failed` what is left is as before. Every answer may be followed by a further read.
    fn read(&mut self, into: &mut [u8]) -> ReadAnswer
        requires { 0 < length into.old }
        ensures next { GivesNext result into.new (left self.old) (left self.new) }
        ensures never_falls { faults self.old ≤ faults self.new }
        ensures failed { result ≡ ReadAnswer.Failed → Rose (faults self.old) (faults self.new) };
}
