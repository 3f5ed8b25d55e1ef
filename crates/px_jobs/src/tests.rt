//! Jobs in a line: a full line, what is left at the end, and takers in threads of their own.
ghost use Rattle.std.specs.Prelude.{◌≡◌, ◌<◌, ◌+◌, [], Some, None, IfOk, OnOk};
ghost use Rattle.px_jobs.specs.Jobs.{AllUnder, AreNew};

use crate::job::Job;
use crate::jobs_line::Jobs;
use crate::seats::{Giver, Taker};
use px_crew::{Crew, run_crew};
use std::alloc::{AllocError, Global};
use std::sync::Wait;
use std::sync::atomic::{AtomicBool, Ordering};
use std::test::Fail;
use std::thread;
use std::thread::Threads;

// Gives a job without a load. It tells whether there was room.
fn give<R: Wait>(rt: &R, jobs: &Jobs<()>, giver: &mut Giver<()>, number: u64) -> bool
    requires line { giver.old.line ≡ jobs.now }
    requires above { AllUnder number giver.old.given }
    ensures line { giver.new.line ≡ jobs.now }
    ensures parts { giver.new.parts ≡ giver.old.parts }
    ensures above { AllUnder (number + 1) giver.new.given }
{
    jobs.give(rt, giver, Job { number, load: () }).is_ok()
}

// Gives jobs with the numbers from 1 on. It tells how many found room.
fn give_all<R: Wait>(rt: &R, jobs: &Jobs<()>, giver: &mut Giver<()>, count: u64) -> u64
    requires count { count < 2_000_000 }
    requires line { giver.old.line ≡ jobs.now }
    requires none { giver.old.given ≡ [] }
    ensures line { giver.new.line ≡ jobs.now }
    ensures parts { giver.new.parts ≡ giver.old.parts }
{
    let mut given = 0u64;
    for before in 0..count {
        if give(rt, jobs, giver, before + 1) {
            given = given.wrapping_add(1);
        }
    }
    given
}

// The number of the job that is taken, or 0.
fn take<R: Wait>(rt: &R, jobs: &Jobs<()>, taker: &mut Taker<()>) -> u64
    requires line { taker.old.line ≡ jobs.now }
    ensures line { taker.new.line ≡ jobs.now }
{
    jobs.take(rt, taker).map_or(0, |job| job.number)
}

// Whether the jobs that are taken have the numbers from 1 on.
fn take_in_order<R: Wait>(rt: &R, jobs: &Jobs<()>, taker: &mut Taker<()>, count: u64) -> bool
    requires count { count < 2_000_000 }
    requires line { taker.old.line ≡ jobs.now }
    ensures line { taker.new.line ≡ jobs.now }
{
    let mut right = true;
    for before in 0..count {
        if take(rt, jobs, taker) != before + 1 {
            right = false;
        }
    }
    right
}

// A line and its one taker.
fn line_of_one(alloc: Global) -> Result<(Jobs<()>, Giver<()>, Taker<()>), AllocError>
    ensures giver { IfOk result (λ made. (made.1.line ≡ made.0) × (made.1.given ≡ [])) }
    ensures parts { IfOk result (λ made. made.1.parts ≡ 65) }
    ensures taker { IfOk result (λ made. made.2.line ≡ made.0) }
{
    let (jobs, giver, mut takers) = Jobs::<()>::create(alloc, 1)?;
    match takers.pop() {
        Some(taker) => Ok((jobs, giver, taker)),
        None => Err(AllocError),
    }
}

#[test]
fn full_jobs(rt: HostRuntime) -> Result<(), Fail> {
    let (jobs, mut giver, mut taker) = line_of_one(rt.alloc())?;
    assert_eq!(rt; give_all(&rt, &jobs, &mut giver, 1_025), 1_024);
    assert!(rt; take_in_order(&rt, &jobs, &mut taker, 1_024));
    assert_eq!(rt; take(&rt, &jobs, &mut taker), 0);
    Ok(())
}

#[test]
fn what_is_left_is_taken_at_the_end(rt: HostRuntime) -> Result<(), Fail> {
    let (jobs, mut giver, mut taker) = line_of_one(rt.alloc())?;
    assert_eq!(rt; give_all(&rt, &jobs, &mut giver, 3), 3);
    assert_eq!(rt; take(&rt, &jobs, &mut taker), 1);
    let mut rest = jobs.end(giver);
    jobs.join(&mut rest, taker);
    let second = jobs.take_rest(&rt, &mut rest);
    assert!(rt; second.is_some_and(|job| job.number == 2));
    let third = jobs.take_rest(&rt, &mut rest);
    assert!(rt; third.is_some_and(|job| job.number == 3));
    assert!(rt; jobs.take_rest(&rt, &mut rest).is_none());
    Ok(())
}

// How often a taker tries.
const TURNS: u32 = 1_000_000_000;

// What a thread has: the giver or a taker, and the numbers of the jobs that it did.
#[derive(Drop)]
struct Part {
    giver: Option<Giver<()>>,
    taker: Option<Taker<()>>,
    numbers: Vec<u64>,
}

fn giving(alloc: Global, giver: Giver<()>) -> Part
    ensures { (result.giver ≡ Some giver) × (result.taker ≡ None) }
{
    Part {
        giver: Some(giver),
        taker: None,
        numbers: Vec::new(alloc),
    }
}

fn taking(alloc: Global, taker: Taker<()>) -> Part
    ensures { (result.giver ≡ None) × (result.taker ≡ Some taker) }
{
    Part {
        giver: None,
        taker: Some(taker),
        numbers: Vec::new(alloc),
    }
}

// What all threads share.
#[derive(Drop)]
struct Round<'a, R> {
    rt: &'a R,
    jobs: &'a Jobs<()>,
    closed: &'a AtomicBool,
}

impl<R: Wait> Round<'_, R> {
    // Takes jobs until none is found after the line was closed.
    fn take_all(&self, taker: &mut Taker<()>, numbers: &mut Vec<u64>)
        requires line { taker.old.line ≡ self.now.jobs.now }
    {
        for _ in 0..TURNS {
            let closed = self.closed.load(Ordering::SeqCst);
            let number = take(self.rt, self.jobs, taker);
            if number > 0 && numbers.push(number).is_err() || number == 0 && closed {
                return;
            }
            if number == 0 {
                thread::yield_now();
            }
        }
    }
}

impl<R: Wait> Crew<u64, Part> for Round<'_, R> {
    ghost use Rattle.std.specs.Prelude.{◌≡◌, [], IfSome};

    ghost ready = { λ round part.
        IfSome part.giver (λ giver. (giver.line ≡ round.jobs.now) × (giver.given ≡ []))
        × IfSome part.taker (λ taker. taker.line ≡ round.jobs.now) };

    ghost worked = { λ _ v a w b. Unit {0} };

    fn work(&self, state: &mut u64, beside: &mut Part) {
        if let Some(giver) = &mut beside.giver {
            *state = give_all(self.rt, self.jobs, giver, 5_000);
            self.closed.store(true, Ordering::SeqCst);
        } else if let Some(taker) = &mut beside.taker {
            self.take_all(taker, &mut beside.numbers);
        }
    }
}

// One of the takers.
fn pick(jobs: &Jobs<()>, takers: &mut Vec<Taker<()>>) -> Result<Taker<()>, AllocError>
    requires new { AreNew jobs.now takers.old.items }
    ensures new { OnOk result (AreNew jobs.now takers.new.items) }
    ensures taker { IfOk result (λ taker. taker.line ≡ jobs.now) }
{
    match takers.pop() {
        Some(taker) => Ok(taker),
        None => Err(AllocError),
    }
}

// How many of 5,000 jobs found room, and the numbers of those that three threads took.
fn share_out<R: Threads + Wait + Sync>(
    rt: &R,
    alloc: Global,
) -> Result<(u64, Vec<u64>), AllocError> {
    let (jobs, giver, mut takers) = Jobs::<()>::create(alloc, 2)?;
    let first = pick(&jobs, &mut takers)?;
    let second = pick(&jobs, &mut takers)?;
    let closed = AtomicBool::new(false);
    let round = Round {
        rt,
        jobs: &jobs,
        closed: &closed,
    };
    let mut parts = [
        taking(alloc, first),
        taking(alloc, second),
        giving(alloc, giver),
    ];
    let mut states = [0; 3];
    run_crew(rt, &round, &mut states, &mut parts);
    let mut numbers = Vec::new(alloc);
    for part in &parts {
        for number in &part.numbers {
            numbers.push(*number)?;
        }
    }
    numbers.sort()?;
    Ok((states[2], numbers))
}

#[test]
fn takers_in_threads_take_each_job_once(rt: HostRuntime) -> Result<(), Fail> {
    let (given, mut numbers) = share_out(&rt, rt.alloc())?;
    assert!(rt; numbers.len() as u64 == given);
    numbers.dedup();
    assert!(rt; numbers.len() as u64 == given);
    Ok(())
}
