//! Numbers drawn by one thread and by several.
ghost use Rattle.std.specs.Prelude.{◌≡◌, ◌<◌, true, MatchOption};
ghost use Rattle.px_crew.specs.Drawn.{MayDraw};

use crate::draws::{Drawer, Draws};
use crate::rule::Quota;
use crate::workers::{Crew, run_crew};
use std::alloc::{AllocError, Global};
use std::test::Fail;
use std::thread::Threads;

// The next number, where it is below the limit.
fn next(draws: &Draws, drawer: &mut Drawer, limit: u64) -> Option<u64>
    requires limit { draws.now.quota.limit ≡ limit }
    requires table { drawer.old.table ≡ draws.now.table }
    requires draws { (0 < drawer.old.hand.parts) × (drawer.old.hand.ends ≡ 0) }
    ensures table { drawer.new.table ≡ drawer.old.table }
    ensures parts { drawer.new.hand.parts ≡ drawer.old.hand.parts }
    ensures ends { MatchOption result (drawer.new.hand.ends ≡ 1) (λ _. drawer.new.hand.ends ≡ 0) }
{
    let number = draws.draw(drawer);
    if number < limit { Some(number) } else { None }
}

#[test]
fn two_drawers(rt: HostRuntime) -> Result<(), Fail> {
    let quota = Quota { limit: 2, parts: 2 };
    let (draws, mut whole) = Draws::create(rt.alloc(), quota)?;
    let mut other = draws.share(&mut whole);
    assert_eq!(rt; draws.draw(&mut other), 0);
    assert_eq!(rt; draws.draw(&mut whole), 1);
    draws.join(&mut whole, other);
    assert_eq!(rt; draws.learn(&mut whole), 2);
    Ok(())
}

#[test]
fn no_number_below_the_limit(rt: HostRuntime) -> Result<(), Fail> {
    let quota = Quota { limit: 0, parts: 1 };
    let (draws, mut whole) = Draws::create(rt.alloc(), quota)?;
    assert_eq!(rt; draws.draw(&mut whole), 0);
    assert_eq!(rt; draws.learn(&mut whole), 1);
    Ok(())
}

/// What a worker takes along, and the numbers that it drew.
#[derive(Drop)]
struct Basket {
    drawer: Drawer,
    numbers: Vec<u64>,
}

/// What the workers share.
#[derive(Drop)]
struct Round<'a> {
    draws: &'a Draws,
    limit: u64,
    ghost limit_is: { draws.now.quota.limit ≡ limit },
}

impl Round<'_> {
    // Draws a number into the basket. It tells whether there was one below the limit, and room.
    fn fill(&self, basket: &mut Basket) -> bool
        requires drawer { MayDraw self.now.draws.now basket.old.drawer }
        ensures drawer { result ≡ true → MayDraw self.now.draws.now basket.new.drawer }
    {
        match next(self.draws, &mut basket.drawer, self.limit) {
            Some(number) => basket.numbers.push(number).is_ok(),
            None => false,
        }
    }
}

impl Crew<u64, Basket> for Round<'_> {
    ghost use Rattle.px_crew.specs.Drawn.{MayDraw};

    ghost ready = { λ round basket. MayDraw round.draws.now basket.drawer };

    ghost worked = { λ round v a w b. Unit {0} };

    fn work(&self, state: &mut u64, beside: &mut Basket) {
        for _ in 0..=self.limit {
            if !self.fill(beside) {
                return;
            }
            *state = state.wrapping_add(1);
        }
    }
}

// How often each number below the limit was drawn by three workers, and how many each drew.
fn shares(
    rt: &(impl Threads + Sync),
    alloc: Global,
    limit: u64,
) -> Result<(Vec<u64>, [u64; 3]), AllocError>
    requires { limit < 1_000_000 }
{
    let (draws, mut whole) = Draws::create(alloc, Quota { limit, parts: 4 })?;
    let mut states = [0; 3];
    let mut baskets = [
        new_basket(alloc, draws.share(&mut whole)),
        new_basket(alloc, draws.share(&mut whole)),
        new_basket(alloc, draws.share(&mut whole)),
    ];
    let round = Round {
        draws: &draws,
        limit,
    };
    run_crew(rt, &round, &mut states, &mut baskets);
    let mut times = vec![in alloc; 0u64; limit as usize]?;
    for basket in &baskets {
        for number in &basket.numbers {
            if let Some(count) = times.get_mut(*number as usize) {
                *count = count.wrapping_add(1);
            }
        }
    }
    Ok((times, states))
}

fn new_basket(alloc: Global, drawer: Drawer) -> Basket
    ensures { result.drawer ≡ drawer }
{
    Basket {
        drawer,
        numbers: Vec::new(alloc),
    }
}

#[test]
fn three_workers_draw_each_number_once(rt: HostRuntime) -> Result<(), Fail> {
    let (times, states) = shares(&rt, rt.alloc(), 1_000)?;
    assert_eq!(rt; times.len(), 1_000);
    assert!(rt; times.iter().all(|count| *count == 1));
    assert_eq!(rt;
        states
            .iter()
            .fold(0, |sum: u64, count| sum.wrapping_add(*count)),
        1_000
    );
    Ok(())
}
