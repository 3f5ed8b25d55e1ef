//! The line of jobs.
ghost use Rattle.std.specs.Prelude.{◌≡◌, ◌<◌, ◌≤◌, ◌-◌, ◌+◌, ◌++◌, ◌∷◌, [], length, IfOk, MatchResult, MatchOption};
ghost use Rattle.px_jobs.specs.Jobs.{AllUnder, WasFull, AllTaken, AreNew};

use crate::job::Job;
use crate::seats::{Giver, Rest, Taker};
use px_line::Line;
use std::alloc::{AllocError, Global};
use std::marker::Model;
use std::sync::Wait;

/// How many jobs may wait.
const PLACES: u32 = 1_024;

/// A line of jobs. Contracts see which line it is.
#[derive(Drop)]
pub struct Jobs<L> {
    line: Line<Job<L>>,
}

impl<L> Model for Jobs<L> {
    ghost use Rattle.std.specs.Prelude.{◌≡◌};
    ghost use Rattle.atomic_table.specs.Seated.{TableId};

    ghost Value = { TableId };

    ghost view = { λ jobs. jobs.line.table };

    ghost invariant = { λ jobs. jobs.line.capacity ≡ 1_024 };
}

impl<L> Jobs<L> {
    /// A line without a job, its giver and so many takers. Its only failure is want of memory.
    pub fn create(
        alloc: Global,
        takers: u32,
    ) -> Result<(Jobs<L>, Giver<L>, Vec<Taker<L>>), AllocError>
        requires takers { (1 ≤ takers) × (takers ≤ 65) }
        ensures giver { IfOk result (λ made. made.1 ≡
            record { line = made.0; parts = 66 - takers; given = [] }) }
        ensures count { IfOk result (λ made. length made.2.items ≡ takers) }
        ensures takers { IfOk result (λ made. AreNew made.0 made.2.items) }
    {
        let mut all = Vec::with_capacity(alloc, takers as usize)?;
        let (jobs, mut giver) = Jobs::open(alloc)?;
        for _ in 0..takers {
            all.push_reserved(jobs.taker(&mut giver));
        }
        Ok((jobs, giver, all))
    }

    // A line and its giver.
    fn open(alloc: Global) -> Result<(Jobs<L>, Giver<L>), AllocError>
        ensures giver { IfOk result (λ made. made.1 ≡
            record { line = made.0; parts = 66; given = [] }) }
    {
        let (line, mut rest) = Line::<Job<L>>::create(alloc, PLACES)?;
        let gives = line.giver(&mut rest);
        Ok((Jobs { line }, Giver { gives, rest }))
    }

    // A taker more.
    fn taker(&self, giver: &mut Giver<L>) -> Taker<L>
        requires line { giver.old.line ≡ self.now }
        requires parts { 1 < giver.old.parts }
        ensures giver { giver.new ≡
            record { line = self.now; parts = giver.old.parts - 1; given = giver.old.given } }
        ensures taker { result ≡ record { line = self.now; taken = [] } }
    {
        Taker {
            seat: self.line.taker(&mut giver.rest),
        }
    }

    /// Puts a job at the back. It comes back only where 1,024 jobs waited at some moment of this
    /// call, and then it is not among those given.
    pub fn give<R: Wait>(&self, rt: &R, giver: &mut Giver<L>, job: Job<L>) -> Result<(), Job<L>>
        requires line { giver.old.line ≡ self.now }
        requires above { AllUnder job.number giver.old.given }
        ensures line { giver.new.line ≡ giver.old.line }
        ensures parts { giver.new.parts ≡ giver.old.parts }
        ensures given { MatchResult result
            (λ _. giver.new.given ≡ giver.old.given ++ job ∷ [])
            (λ back. (back ≡ job) × (giver.new.given ≡ giver.old.given)
            × WasFull giver.old.given) }
    {
        self.line.give(rt, &mut giver.gives, job)
    }

    /// Takes the job at the front. There is none only where none waited at some moment of this
    /// call.
    pub fn take<R: Wait>(&self, rt: &R, taker: &mut Taker<L>) -> Option<Job<L>>
        requires line { taker.old.line ≡ self.now }
        ensures line { taker.new.line ≡ taker.old.line }
        ensures taken { MatchOption result
            (taker.new.taken ≡ taker.old.taken)
            (λ job. taker.new.taken ≡ taker.old.taken ++ job ∷ []) }
    {
        self.line.take(rt, &mut taker.seat)
    }

    /// Ends the giver. No taker is taken in yet.
    pub fn end(&self, giver: Giver<L>) -> Rest<L>
        requires line { giver.line ≡ self.now }
        ensures { result ≡ record {
          line = self.now;
          parts = giver.parts;
          given = giver.given;
          taken = [];
        } }
    {
        let Giver { gives, rest } = giver;
        let mut seat = rest;
        self.line.end(&mut seat, gives);
        Rest { seat }
    }

    /// Takes in a taker, and all that it took.
    pub fn join(&self, rest: &mut Rest<L>, taker: Taker<L>)
        requires line { rest.old.line ≡ self.now }
        requires taker { taker.line ≡ self.now }
        ensures { rest.new ≡ record {
          line = self.now;
          parts = rest.old.parts + 1;
          given = rest.old.given;
          taken = rest.old.taken ++ taker.taken;
        } }
    {
        let Taker { seat } = taker;
        self.line.join(&mut rest.seat, seat);
    }

    /// Takes what is left, once all takers are taken in. Where nothing is left, each job that was
    /// given was taken once.
    pub fn take_rest<R: Wait>(&self, rt: &R, rest: &mut Rest<L>) -> Option<Job<L>>
        requires line { rest.old.line ≡ self.now }
        requires whole { rest.old.parts ≡ 66 }
        ensures line { rest.new.line ≡ rest.old.line }
        ensures parts { rest.new.parts ≡ rest.old.parts }
        ensures given { rest.new.given ≡ rest.old.given }
        ensures taken { MatchOption result
            ((rest.new.taken ≡ rest.old.taken) × AllTaken rest.old.given rest.old.taken)
            (λ job. rest.new.taken ≡ rest.old.taken ++ job ∷ []) }
    {
        self.line.take(rt, &mut rest.seat)
    }
}
