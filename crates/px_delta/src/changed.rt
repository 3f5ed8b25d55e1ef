//! Which pairs of id and filter one live list has and another lacks.

ghost use Rattle.std.specs.Prelude.{◌≡◌, ◌≤◌, length, IfOk};
ghost use Rattle.px_xpath.specs.Subscribed.{subscriptions};
ghost use Rattle.px_workload.specs.Listed.{AreInOrder};
ghost use Rattle.px_delta.specs.Lists.{without};
ghost use Rattle.px_delta.specs.Sameness.{same_way};

use crate::pairs::has_pair;
use px_xpath::Numbered;
use std::alloc::{AllocError, Global};

/// How many pairs of the first list are not in the second. It takes no memory.
pub(crate) fn count_changed(first: &[Numbered], second: &[Numbered]) -> u32
    requires first { AreInOrder first.now }
    requires second { AreInOrder second.now }
    ensures count { result ≡
        length (without same_way (subscriptions first.now) (subscriptions second.now)) }
    ensures few { result ≤ 1_048_576 }
{
    let mut count = 0;
    for numbered in first {
        if !has_pair(second, numbered) {
            count += 1;
        }
    }
    count
}

/// The pairs of the first list that are not in the second. Its only failure is want of memory.
pub(crate) fn changed(
    alloc: Global,
    first: &[Numbered],
    second: &[Numbered],
) -> Result<Vec<Numbered>, AllocError>
    requires first { AreInOrder first.now }
    requires second { AreInOrder second.now }
    ensures order { IfOk result (λ pairs. AreInOrder pairs.items) }
    ensures pairs { IfOk result (λ pairs. subscriptions pairs.items ≡
        without same_way (subscriptions first.now) (subscriptions second.now)) }
{
    let mut pairs = Vec::new(alloc);
    for numbered in first {
        if !has_pair(second, numbered) {
            pairs.push(numbered.share()?)?;
        }
    }
    Ok(pairs)
}
