//! Open elements.

use crate::held::Held;

/// An open element, or the document root: its label, the states that are needed of it, those that
/// it has gathered, and where in the buffer of texts its own begins.
#[derive(Drop)]
pub struct Frame {
    pub label: u32,
    pub needed: Held,
    pub gathered: Held,
    pub begins: usize,
}
