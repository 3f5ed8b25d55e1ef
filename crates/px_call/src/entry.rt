//! Where a call began.
ghost use Rattle.px_rule.specs.Table.{Seated};

use std::marker::Brand;

/// The seat of a call when it had entered its bank. It has no method that runs: a call picks the
/// seat for std's `Brand`.
pub trait Entry<E> {
    ghost began: { Seated E };
}

impl<E> Entry<E> for Brand {
    ghost use Rattle.px_call.specs.Holding.{no_seat};

    ghost began = { no_seat };
}
