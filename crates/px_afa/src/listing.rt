//! The states and first states of live filters.

ghost use Rattle.std.specs.Prelude.{◌≡◌, ◌≤◌, ◌+◌, IfOk, OnOk, length};
ghost use Rattle.px_xpath.specs.Histories as histories;
ghost use Rattle.px_xpath.specs.Subscribed.{subscriptions};
ghost use Rattle.px_xpath.specs.Whole as whole;
ghost use Rattle.px_afa.specs.Building.{automata, filters_made, newest};
ghost use Rattle.px_afa.specs.Firsts.{first_made};

use crate::builder::Builder;
use crate::filters::{only, way};
use crate::state::{First, State};
use px_xpath::Numbered;
use std::alloc::{AllocError, Global};

/// The states of live filters in order of their numbers, and the first state of each filter.
pub fn listed(alloc: Global, live: &[Numbered]) -> Result<(Vec<State>, Vec<First>), AllocError>
    requires few { histories.live_size (subscriptions live.now) ≤ 500_000 }
    ensures made { IfOk result (λ made. record
        { states = newest made.0.items; firsts = made.1.items } ≡
        automata (subscriptions live.now)) }
{
    let mut builder = Builder::new(alloc);
    let firsts = firsts(alloc, &mut builder, live)?;
    Ok((builder.into_states(), firsts))
}

fn firsts(alloc: Global, builder: &mut Builder, live: &[Numbered]) -> Result<Vec<First>, AllocError>
    requires few { length builder.old + histories.live_size (subscriptions live.now) ≤ 500_000 }
    ensures made { IfOk result (λ firsts. record { states = builder.new; firsts = firsts.items } ≡
        filters_made (subscriptions live.now) builder.old) }
{
    let mut firsts = Vec::with_capacity(alloc, live.len())?;
    for numbered in live {
        firsts.push(first(alloc, builder, numbered)?)?;
    }
    Ok(firsts)
}

// The first state of a filter.
#[tactic(auto, using(px_xpath::proofs::FilterViews::views))]
fn first(alloc: Global, builder: &mut Builder, numbered: &Numbered) -> Result<First, AllocError>
    requires few { length builder.old + histories.size (whole.filter numbered.now.filter) ≤
        500_000 }
    ensures made { IfOk result (λ first. record { states = builder.new; number = first.state } ≡
        first_made (whole.filter numbered.now.filter) builder.old) }
    ensures id { IfOk result (λ first. first.id ≡ numbered.now.id) }
    ensures few { OnOk result (length builder.new ≤
        length builder.old + histories.size (whole.filter numbered.now.filter)) }
{
    let part = way(alloc, builder, numbered.filter.path.steps.as_slice(), None)?;
    Ok(First {
        id: numbered.id,
        state: only(part),
    })
}
