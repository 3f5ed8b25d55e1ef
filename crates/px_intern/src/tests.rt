//! Sets and steps under a law of which every answer is the empty set.
ghost use Rattle.std.specs.Prelude.{◌≡◌, ◌+◌, ◌<◌, [], true};
ghost use Rattle.px_rule.specs.declared.view.Kind.TheVariants.{Desk};
ghost use Rattle.px_rule.specs.Table.{is_inside};

use crate::answers::{Find, Intern, Put};
use crate::sets::{intern, set_of};
use crate::steps::{find, put};
use px_banks::{Enter, enter};
use px_rule::{Law, Seat, Shape, Shared};
use px_text::{Op, Set};
use std::alloc::{AllocError, Global};
use std::process::Abort;
use std::test::Fail;
use std::thread;

/// Histories of the numbers of passes. The right answer of each step is the empty set.
pub(crate) struct Empties;

impl Law for Empties {
    type Entry = u64;

    ghost use Rattle.std.specs.Prelude.{◌≡◌, ℕ, List, [], length, ◌<◌};
    ghost use Rattle.std.proofs.Common.{arith, sym, ◌∙◌};

    ghost who = { λ pass. pass };

    ghost legal = { λ log. length log < 1048576 };

    ghost right = { λ _ _ _ _ answer. answer ≡ [] };

    ghost legal_empty = { Prim.omega arith };

    ghost legal_short = { λ log short. short };

    ghost one_answer = { λ log op a b x y is_x is_y. is_x ∙ sym is_y };
}

const SMALL: Shape = Shape {
    banks: 1,
    node_bits: 4,
    step_bits: 4,
};

const WIDE: Shape = Shape {
    banks: 1,
    node_bits: 14,
    step_bits: 4,
};

/// A new pass that is inside the bank.
pub(crate) fn come_in(
    rt: &impl Abort,
    shared: &Shared<Empties>,
    desk: &mut Seat<Empties>,
) -> Seat<Empties>
    requires table { desk.old.table ≡ shared.now }
    requires banks { 0 < shared.now.shape.banks }
    requires desk { (desk.old.view.past.kind ≡ Desk) × (desk.old.view.past.seen ≡ []) ×
        (desk.old.view.past.made < 65) }
    ensures desk { (desk.new.table ≡ shared.now) × (desk.new.view.past.kind ≡ Desk) ×
        (desk.new.view.past.seen ≡ []) × (desk.new.view.past.made ≡ desk.old.view.past.made + 1) }
    ensures pass { (result.table ≡ shared.now) × (is_inside result.view.stay.place ≡ true) }
{
    let mut pass = shared.pass(desk);
    let Enter::Entered = enter(shared, &mut pass, 0, 0) else {
        panic!(rt; "the bank stands at 0")
    };
    pass
}

#[test]
fn a_set_and_a_step_are_found_again(rt: HostRuntime) -> Result<(), Fail> {
    let (shared, mut desk) = Shared::<Empties>::create(rt.alloc(), SMALL)?;
    let mut seat = come_in(&rt, &shared, &mut desk);
    let both = Set::of(rt.alloc(), &[3, 5])?;
    let five = Set::of(rt.alloc(), &[5])?;
    let none = Set::empty(rt.alloc());
    assert_eq!(rt; intern(&shared, &mut seat, &both), Intern::Number(12));
    assert_eq!(rt; intern(&shared, &mut seat, &five), Intern::Number(6));
    assert_eq!(rt; intern(&shared, &mut seat, &five), Intern::Number(6));
    assert_eq!(rt; intern(&shared, &mut seat, &none), Intern::Number(0));
    let Intern::Number(number) = intern(&shared, &mut seat, &both) else {
        panic!(rt; "the set has a number")
    };
    assert_eq!(rt; number, 12);
    assert_eq!(rt; set_of(rt.alloc(), &shared, &mut seat, number)?, both);
    assert_eq!(rt; find(&shared, &mut seat, Op::Pop, number, 3), Find::Absent);
    assert_eq!(rt; put(&shared, &mut seat, Op::Pop, number, 3, 0), Put::Put);
    assert_eq!(rt;
        find(&shared, &mut seat, Op::Pop, number, 3),
        Find::Found(0)
    );
    Ok(())
}

#[test]
fn two_seats_have_one_number(rt: HostRuntime) -> Result<(), Fail> {
    let (shared, mut desk) = Shared::<Empties>::create(rt.alloc(), SMALL)?;
    let mut one = come_in(&rt, &shared, &mut desk);
    let mut two = come_in(&rt, &shared, &mut desk);
    let five = Set::of(rt.alloc(), &[5])?;
    let both = Set::of(rt.alloc(), &[3, 5])?;
    assert_eq!(rt; intern(&shared, &mut one, &five), Intern::Number(6));
    assert_eq!(rt; intern(&shared, &mut two, &both), Intern::Number(12));
    Ok(())
}

// Interns the sets of one state from 0 to 14.
fn fill(
    rt: &impl Abort,
    alloc: Global,
    shared: &Shared<Empties>,
    seat: &mut Seat<Empties>,
) -> Result<(), AllocError>
    requires table { seat.old.table ≡ shared.now }
    requires inside { is_inside seat.old.view.stay.place ≡ true }
    ensures table { seat.new.table ≡ shared.now }
    ensures inside { is_inside seat.new.view.stay.place ≡ true }
{
    for state in 0..15 {
        let set = Set::of(alloc, &[state])?;
        let number = if state < 12 { state + 4 } else { state - 11 };
        assert_eq!(rt; intern(shared, seat, &set), Intern::Number(number));
    }
    Ok(())
}

#[test]
fn fifteen_places_hold_fifteen_sets(rt: HostRuntime) -> Result<(), Fail> {
    let (shared, mut desk) = Shared::<Empties>::create(rt.alloc(), SMALL)?;
    let mut seat = come_in(&rt, &shared, &mut desk);
    fill(&rt, rt.alloc(), &shared, &mut seat)?;
    let fifteen = Set::of(rt.alloc(), &[15])?;
    let word = 0x1000_0f00_0000_0000;
    assert_eq!(rt; intern(&shared, &mut seat, &fifteen), Intern::Full { word });
    let seven = Set::of(rt.alloc(), &[7])?;
    assert_eq!(rt; intern(&shared, &mut seat, &seven), Intern::Number(11));
    Ok(())
}

/// One that interns the thousand sets of three digits, in an order of its own.
#[derive(Drop)]
struct Worker<'s> {
    shared: &'s Shared<Empties>,
    seat: Seat<Empties>,
    first: u32,
    stride: u32,
    ghost table: { seat.table ≡ shared.now },
    ghost inside: { is_inside seat.view.stay.place ≡ true },
    ghost order: { (first < 1000) × (stride < 1000) },
}

// The number of one of the thousand sets, and 0 where no place is free for it.
fn number_of(
    alloc: Global,
    shared: &Shared<Empties>,
    seat: &mut Seat<Empties>,
    index: u32,
) -> Result<u32, AllocError>
    requires table { seat.old.table ≡ shared.now }
    requires inside { is_inside seat.old.view.stay.place ≡ true }
    requires index { index < 1000 }
    ensures table { seat.new.table ≡ shared.now }
    ensures inside { is_inside seat.new.view.stay.place ≡ true }
{
    let set = Set::of(alloc, &[index / 100, 10 + index / 10 % 10, 20 + index % 10])?;
    match intern(shared, seat, &set) {
        Intern::Number(number) => Ok(number),
        Intern::Full { .. } => Ok(0),
    }
}

// The numbers of the thousand sets, in the order of the sets.
fn numbers(alloc: Global, worker: Worker) -> Result<Vec<u32>, AllocError> {
    let Worker {
        shared,
        mut seat,
        first,
        stride,
        ..
    } = worker;
    let mut numbers = vec![in alloc; 0; 1000]?;
    for turn in 0..1000 {
        let index = (first + turn * stride) % 1000;
        numbers[index as usize] = number_of(alloc, shared, &mut seat, index)?;
    }
    Ok(numbers)
}

// A new pass inside the bank, with its order.
fn worker_inside<'s>(
    rt: &impl Abort,
    shared: &'s Shared<Empties>,
    desk: &mut Seat<Empties>,
    first: u32,
    stride: u32,
) -> Worker<'s>
    requires table { desk.old.table ≡ shared.now }
    requires banks { 0 < shared.now.shape.banks }
    requires desk { (desk.old.view.past.kind ≡ Desk) × (desk.old.view.past.seen ≡ []) ×
        (desk.old.view.past.made < 65) }
    requires order { (first < 1000) × (stride < 1000) }
    ensures desk { (desk.new.table ≡ shared.now) × (desk.new.view.past.kind ≡ Desk) ×
        (desk.new.view.past.seen ≡ []) × (desk.new.view.past.made ≡ desk.old.view.past.made + 1) }
{
    Worker {
        shared,
        seat: come_in(rt, shared, desk),
        first,
        stride,
    }
}

#[test]
fn four_threads_give_a_thousand_sets_one_number_each(rt: HostRuntime) -> Result<(), Fail> {
    let (shared, mut desk) = Shared::<Empties>::create(rt.alloc(), WIDE)?;
    let mut workers = Vec::new(rt.alloc());
    workers.push(worker_inside(&rt, &shared, &mut desk, 0, 1))?;
    workers.push(worker_inside(&rt, &shared, &mut desk, 999, 999))?;
    workers.push(worker_inside(&rt, &shared, &mut desk, 500, 7))?;
    workers.push(worker_inside(&rt, &shared, &mut desk, 250, 333))?;
    let alloc = rt.alloc();
    let lists = thread::map_vec(&rt, workers, &|worker| numbers(alloc, worker))?;
    let [Ok(one), Ok(two), Ok(three), Ok(four)] = lists.as_slice() else {
        panic!(rt; "memory was refused")
    };
    assert!(rt; !one.contains(&0), "a set had no place");
    assert_eq!(rt; two, one);
    assert_eq!(rt; three, one);
    assert_eq!(rt; four, one);
    Ok(())
}
