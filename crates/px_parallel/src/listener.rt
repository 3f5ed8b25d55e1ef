//! Who hears the lines that a feed is answered.
use px_feed::OutLine;
use std::alloc::AllocError;

/// Who hears the lines that a feed is answered, in order.
pub(crate) trait Listener {
    ghost use Rattle.std.specs.Prelude.{List, OnOk, ◌++◌};
    ghost use Rattle.px_feed.specs.declared.line.OutLine.{OutLine as Line};

    // It has heard these lines.
    ghost heard: { Self → List Line → Type 0 };

    // Hears further lines. Its only failure is want of memory.
    fn hear(&mut self, lines: &[OutLine]) -> Result<(), AllocError>
        ensures { OnOk result ((before : List Line) → heard self.old before →
            heard self.new (before ++ lines.now)) };
}

/// Nobody, who hears nothing.
#[derive(Drop)]
pub(crate) struct Nobody;

impl Listener for Nobody {
    ghost heard = { λ _ _. Unit {0} };

    fn hear(&mut self, _lines: &[OutLine]) -> Result<(), AllocError> {
        Ok(())
    }
}
