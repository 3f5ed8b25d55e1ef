//! Where a worker says which document it begins and which it has done.

/// A worker calls `at` before the document with that number, and `done` once its reply is there.
/// A test that wants an order of its own waits in one of them.
pub trait Gate: Sync {
    fn at(&self, call: u64);

    fn done(&self, call: u64);
}

/// A gate that stands open.
#[derive(Clone, Copy, Debug, Drop)]
pub struct OpenGate;

impl Gate for OpenGate {
    fn at(&self, _call: u64) {}

    fn done(&self, _call: u64) {}
}
