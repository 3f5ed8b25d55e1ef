//! Laws of the definitions: every feed has one list of items and one stop, and so one output, as a
//! match and a filter that is shown have.

ghost use Rattle.std.specs.Prelude.{◌≡◌, ℕ, List};
ghost use Rattle.px_feed.specs.declared.status.Status.{Status};
ghost use Rattle.px_feed.specs.Items.{Item, Stop, HasItems};
ghost use Rattle.px_feed.specs.Matches.{OutMatch, OutShow};
ghost use Rattle.px_feed.specs.Outputs.{Out};

/// The bytes of every feed have items, and stop somehow.
pub fn every_feed_has_items()
    ensures { (bytes : List ℕ) → (items : List Item) × (stop : Stop) × HasItems bytes items stop }
{}

/// The bytes of a feed have no two lists of items and no two stops. So an `End` or a `Fault` of
/// [`crate::Items::next`] is exact: the items that were taken before it are all that the feed has,
/// and the feed stops in no other way.
pub fn a_feed_has_one_list_of_items()
    ensures items { (bytes : List ℕ) (items others : List Item) (stop end : Stop) →
        HasItems bytes items stop → HasItems bytes others end → items ≡ others }
    ensures stop { (bytes : List ℕ) (items others : List Item) (stop end : Stop) →
        HasItems bytes items stop → HasItems bytes others end → stop ≡ end }
{}

/// Something is written for every feed, and its run has a status.
pub fn every_feed_has_an_output()
    ensures { (bytes : List ℕ) → (text : List ℕ) × (status : Status) × Out bytes text status }
{}

/// Nothing else is written for the same input, and its run has no other status: the output is a
/// function of the bytes of a feed, of a filter's text and a document's bytes, and of the text of a
/// filter that is shown.
pub fn an_output_is_one()
    ensures feed { (bytes text other : List ℕ) (status end : Status) → Out bytes text status →
        Out bytes other end → (text ≡ other) × (status ≡ end) }
    ensures matched { (filter bytes text other : List ℕ) (status end : Status) →
        OutMatch filter bytes text status → OutMatch filter bytes other end → (text ≡ other) ×
        (status ≡ end) }
    ensures shown { (filter text other : List ℕ) (status end : Status) →
        OutShow filter text status → OutShow filter other end → (text ≡ other) × (status ≡ end) }
{}
