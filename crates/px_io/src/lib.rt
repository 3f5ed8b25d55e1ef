//! Where bytes come in and go out, and the fakes that stand there in tests.
//!
//! A program reads from a [`Source`] and writes to a [`Sink`]; contracts see the bytes that are
//! left in the one and held by the other, where they are told, and how many faults each has met.
//! [`MemSource`] and [`MemSink`] tell their bytes and never meet a fault. [`FailSource`] and
//! [`FailSink`] tell theirs too, and fail at the calls that a test names. [`StdSource`] and
//! [`StdSink`] adapt the readers and writers of the system, and tell only their faults. A [`Gate`]
//! is where a worker says which document it begins and which it has done.
#![tactic(auto)]

mod failing;
mod gate;
mod memory;
mod sink;
mod source;
mod standard;

pub use failing::{FailSink, FailSource};
pub use gate::{Gate, OpenGate};
pub use memory::{MemSink, MemSource};
pub use sink::{Sink, WriteAnswer};
pub use source::{ReadAnswer, Source};
pub use standard::{StdSink, StdSource};
