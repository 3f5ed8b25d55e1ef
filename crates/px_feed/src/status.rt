//! How a run of the program ends.

ghost use Rattle.std.specs.Prelude.{◌≡◌};
ghost use Rattle.px_feed.specs.Statuses.{number_of};

/// How a run of the program ends.
#[derive(Clone, Copy, Debug, Drop, PartialEq, Eq)]
pub enum Status {
    /// The input was read to its end, and nothing was refused.
    Done,
    /// Something was refused, or a document did not match.
    Refused,
    /// The words are in no form; nothing was read or written.
    Usage,
    /// The source met a fault.
    ReadFault,
    /// The sink met a fault; what was written is the front of the output.
    WriteFault,
    /// Memory was refused; what was written is the front of the output.
    Memory,
}

impl Status {
    /// The exit status of the program.
    pub fn number(self) -> u8
        ensures number { result ≡ number_of self }
    {
        match self {
            Status::Done => 0,
            Status::Refused => 1,
            Status::Usage => 2,
            Status::ReadFault => 3,
            Status::WriteFault => 4,
            Status::Memory => 5,
        }
    }
}
