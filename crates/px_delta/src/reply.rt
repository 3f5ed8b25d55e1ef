//! What a document gets by two passes.

use px_hub::Reply;
use px_text::Ids;

/// The filters of the front that hold of a document, and what the base answered.
#[derive(Debug, PartialEq, Eq, Drop)]
pub struct DeltaReply {
    /// How many changes the front had seen.
    pub version: u32,
    /// The ids of the filters that are live for the front and hold of the document, rising.
    pub ids: Ids,
    /// The reply of the base, ids of dropped pairs included.
    pub base: Reply,
    /// How many pairs of id and filter are live for the base and not for the front.
    pub dropped: u32,
    /// How many are live for the front and not for the base.
    pub added: u32,
    /// The steps of the document: 8 for each element and 6 for each attribute and text. Where no
    /// pair was added nothing runs beside the base, and they are 0.
    pub steps: u64,
}
