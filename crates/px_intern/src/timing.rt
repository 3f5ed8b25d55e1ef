//! How long a found step takes, beside a plain loop over as many words. It prints, and says nothing
//! of the time.
ghost use Rattle.std.specs.Prelude.{◌≡◌, ◌<◌, ◌≤◌, true};
ghost use Rattle.px_rule.specs.Table.{is_inside};

use crate::answers::Find;
use crate::steps::{find, put};
use crate::tests::{Empties, come_in};
use px_rule::{Seat, Shape, Shared};
use px_text::Op;
use std::alloc::{AllocError, Global};
use std::process::Abort;
use std::test::Fail;
use std::time::{Clock, Instant};

const STEPS: u32 = 65_536;

const ROUNDS: u32 = 200_000;

const HALF_FULL: Shape = Shape {
    banks: 1,
    node_bits: 4,
    step_bits: 17,
};

// Puts the step of each class.
fn put_steps(shared: &Shared<Empties>, seat: &mut Seat<Empties>)
    requires table { seat.old.table ≡ shared.now }
    requires inside { is_inside seat.old.view.stay.place ≡ true }
    ensures table { seat.new.table ≡ shared.now }
    ensures inside { is_inside seat.new.view.stay.place ≡ true }
{
    for class in 0..STEPS {
        put(shared, seat, Op::TextClass, 0, class, 0);
    }
}

// Classes below a number, in an order that no cache foresees.
fn scattered(alloc: Global, hot: u32) -> Result<Vec<u32>, AllocError>
    requires hot { (0 < hot) × (hot ≤ 65536) }
{
    let mut classes = Vec::new(alloc);
    for turn in 0..ROUNDS {
        classes.push((turn.wrapping_mul(2_654_435_761) >> 8) % hot)?;
    }
    Ok(classes)
}

// Looks for the step of each class, and answers how many were found.
fn find_steps(shared: &Shared<Empties>, seat: &mut Seat<Empties>, classes: &[u32]) -> u32
    requires table { seat.old.table ≡ shared.now }
    requires inside { is_inside seat.old.view.stay.place ≡ true }
    ensures table { seat.new.table ≡ shared.now }
    ensures inside { is_inside seat.new.view.stay.place ≡ true }
{
    let mut found = 0u32;
    for class in classes {
        if let Find::Found(_) = find(shared, seat, Op::TextClass, 0, *class & 0xf_ffff) {
            found = found.wrapping_add(1);
        }
    }
    found
}

// Reads the word of each class.
fn read_words(words: &[u64], classes: &[u32]) -> u64 {
    let mut sum = 0u64;
    for class in classes {
        if let Some(word) = words.get(*class as usize) {
            sum = sum.wrapping_add(*word);
        }
    }
    sum
}

// Times both loops over so many classes, and prints a line.
fn time<R: Abort + Clock + Print>(
    rt: &R,
    alloc: Global,
    shared: &Shared<Empties>,
    seat: &mut Seat<Empties>,
    hot: u32,
) -> Result<(), Fail>
    requires table { seat.old.table ≡ shared.now }
    requires inside { is_inside seat.old.view.stay.place ≡ true }
    requires hot { (0 < hot) × (hot ≤ 65536) }
    ensures table { seat.new.table ≡ shared.now }
    ensures inside { is_inside seat.new.view.stay.place ≡ true }
{
    let classes = scattered(alloc, hot)?;
    let words = vec![in alloc; 1u64; hot as usize]?;
    let start = Instant::now(rt)?;
    let found = find_steps(shared, seat, &classes);
    let finding = start.elapsed(rt)?.as_nanos();
    let start = Instant::now(rt)?;
    let sum = read_words(&words, &classes);
    let reading = start.elapsed(rt)?.as_nanos();
    assert_eq!(rt; found, ROUNDS);
    assert_eq!(rt; sum, u64::from(ROUNDS));
    println!(rt; "found_step hot={hot} rounds={ROUNDS} finding_ns={finding} reading_ns={reading}")?;
    Ok(())
}

#[test]
fn time_of_a_found_step(rt: HostRuntime) -> Result<(), Fail> {
    let (shared, mut desk) = Shared::<Empties>::create(rt.alloc(), HALF_FULL)?;
    let mut seat = come_in(&rt, &shared, &mut desk);
    put_steps(&shared, &mut seat);
    time(&rt, rt.alloc(), &shared, &mut seat, 64)?;
    time(&rt, rt.alloc(), &shared, &mut seat, 4_096)?;
    time(&rt, rt.alloc(), &shared, &mut seat, 65_536)?;
    Ok(())
}
