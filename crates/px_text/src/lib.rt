//! What every other crate speaks of: bytes, names, escapes, exact decimals and sets of numbers.
//!
//! It is the bottom of the house. Contracts see [`Bytes`] as a list of byte values and a
//! [`Decimal`] as a whole number of units of 10^-18, and a [`Set`] as a strictly rising list. The
//! definitions of a tree, of names and of numbers stand in `specs/`.
#![tactic(auto)]

mod attribute;
mod bytes;
mod decimal;
mod digit_runs;
mod escapes;
mod names;
mod op;
mod printing;
mod reading;
mod scan;
mod set;

pub use attribute::Attribute;
pub use bytes::{Bytes, Ids, Words};
pub use decimal::Decimal;
pub use escapes::unescape;
pub use names::{
    begins_part, continues_part, is_digit, is_filter_name, is_letter, is_pyx_name, is_white,
};
pub use op::Op;
pub use reading::Reading;
pub use scan::NumberScan;
pub use set::Set;
