//! What a seat knows. It is plain data that contracts speak of, and no code makes a value of it.
use std::collections::LinkedList;

/// What a seat is.
pub enum Kind {
    Desk,
    Pass(u64),
    DeskNote,
    PassNote(u64),
    Spent,
}

/// What a seat knows of the history.
pub struct Past<E> {
    pub kind: Kind,
    /// Of a pass: the entries that it has asked for.
    pub mine: LinkedList<E>,
    /// The entry that the desk may accept.
    pub permit: Option<E>,
    pub seen: LinkedList<E>,
    /// Histories that were joined into `seen`, or compared with it.
    pub olds: LinkedList<LinkedList<E>>,
    /// How many times it loaded the version word, and what it found the last time.
    pub loads: u64,
    pub last: u64,
    /// Of the desk: how many passes it made.
    pub made: u64,
    /// Of the desk: the pass whose note was joined last, with that note's loads and last.
    pub asker: u64,
    pub asker_loads: u64,
    pub asker_last: u64,
}

/// Where a pass is: in no bank, inside a bank at a version, or counted in a bank that it has to
/// leave.
pub enum Place {
    Outside,
    Inside(u64, u64),
    Stray(u64),
}

/// A bank as the desk knows it. `building` is 1 from its claim until it is published.
pub struct Stand {
    pub version: u64,
    pub building: u64,
    pub zeroed: u64,
}

/// A claim of a bank that found calls inside, made for a pass that had loaded so many times.
pub struct Busy {
    pub bank: u64,
    pub new: u64,
    pub word: u64,
    pub pass: u64,
    pub loads: u64,
}

/// What a seat knows of the banks.
pub struct Stay {
    /// Whether it is a pass.
    pub walks: bool,
    pub place: Place,
    /// How many times it was counted in, and the word that it found the last time.
    pub enters: u64,
    pub found: u64,
    /// The banks and versions at which it has been inside, or was told that the bank stood.
    pub stays: LinkedList<(u64, u64)>,
    pub busy: LinkedList<Busy>,
    /// Whether it is the desk, which has the state of each bank.
    pub keeps: bool,
    pub stands: LinkedList<Stand>,
}

/// A word that was found or written at a place of a bank at one version.
pub struct Found {
    pub bank: u64,
    pub version: u64,
    pub place: u64,
    pub word: u64,
}

/// A place that was found empty by the touch of this number.
pub struct Gap {
    pub bank: u64,
    pub version: u64,
    pub place: u64,
    pub touches: u64,
}

/// What a seat knows of the places of banks.
pub struct Touch {
    pub kept: LinkedList<Found>,
    /// How many times it looked or wrote.
    pub touches: u64,
    pub gaps: LinkedList<Gap>,
    pub wrote: LinkedList<Found>,
}

/// What a seat knows.
pub struct View<E> {
    pub past: Past<E>,
    pub stay: Stay,
    pub touch: Touch,
}
