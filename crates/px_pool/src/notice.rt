//! Where workers say which document they begin, and which they have done.
use px_io::Gate;

/// As a gate, but not bound to be shared, so that a method of another trait can call it.
pub(crate) trait Notice {
    fn begins(&self, call: u64);

    fn done(&self, call: u64);
}

/// What a gate is told.
#[derive(Drop)]
pub(crate) struct GateNotice<'a, G> {
    pub(crate) gate: &'a G,
}

impl<G: Gate> Notice for GateNotice<'_, G> {
    fn begins(&self, call: u64) {
        self.gate.at(call);
    }

    fn done(&self, call: u64) {
        self.gate.done(call);
    }
}
