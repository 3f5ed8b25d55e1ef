//! The attribute of an element.

use crate::bytes::Bytes;

/// An attribute of an element, its value with the escapes read.
#[derive(Drop)]
pub struct Attribute {
    pub name: Bytes,
    pub value: Bytes,
}
