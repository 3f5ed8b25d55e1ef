//! Filters with the ids that they are known by.

use crate::filter::Filter;

/// A live filter and its id, which is the number of the change that added it.
#[derive(Drop)]
pub struct Numbered {
    pub id: u32,
    pub filter: Filter,
}
