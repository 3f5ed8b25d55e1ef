//! Laws of filters and of two live lists.

ghost use Rattle.std.specs.Prelude.{◌≡◌, Bool, List, map};
ghost use Rattle.px_text.specs.Sets.{Rising};
ghost use Rattle.px_xpath.specs.Filters.{Way};
ghost use Rattle.px_xpath.specs.Histories.{Subscription};
ghost use Rattle.px_delta.specs.Lists.{TellsSame, without, matching, without_ids, merge};
ghost use Rattle.px_delta.specs.Sameness.{same_way};

use px_xpath::equal_is_same;

/// The test by which filters are compared holds of two filters exactly where they are the same.
pub fn same_filters_are_told()
    ensures { TellsSame same_way }
{
    equal_is_same();
}

/// What matches in the second list are the ids that match in the first, without those of its pairs
/// that the second lacks, and the ids that match among the pairs that only the second has. It asks
/// that ids rise in each list, and nothing of how one came from the other.
pub fn two_live_lists_make_one()
    ensures { (same : Way → Way → Bool) (test : Way → Bool) (base front : List Subscription) →
        TellsSame same → Rising (map (λ s. s.id) base) → Rising (map (λ s. s.id) front) →
        matching test front ≡
        merge (without_ids (matching test base) (without same base front))
        (matching test (without same front base)) }
{}
