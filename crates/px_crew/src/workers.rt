//! Workers, each with a state of its own, side by side.
ghost use Rattle.std.specs.Prelude.{◌≡◌, ◌<◌, length};
ghost use Rattle.std.specs.Thread.{IsSync, IsSend};
ghost use Rattle.px_crew.specs.Crews.{AllReady, AllWorked};

use std::thread::{Threads, join_mut};

/// A job that each worker does with its own state and with what lies beside that.
pub trait Crew<P, W> {
    /// With this beside it a worker can begin.
    ghost ready: { Self → W → Type 0 };

    /// What a worker makes of its state and of what lies beside it.
    ghost worked: { Self → P → W → P → W → Type 0 };

    /// Does one worker's part of the job, from its beginning to its end.
    fn work(&self, state: &mut P, beside: &mut W)
        requires { ready self.now beside.old }
        ensures { worked self.now state.old beside.old state.new beside.new };
}

/// Lets a worker do the job with each state and what lies beside it, side by side: all but one in
/// new threads. Where a thread cannot be started, the caller does that worker's part itself. It
/// returns once every worker has ended, and each state then stands in its old place.
#[cycle(workers)]
pub fn run_crew<P: Send, W: Send, C: Crew<P, W> + Sync, R: Threads + Sync>(
    rt: &R,
    crew: &C,
    states: &mut [P],
    beside: &mut [W],
)
    requires pairs { length states.old ≡ length beside.old }
    requires ready { AllReady (C.ready crew.now) beside.old }
    ensures worked { AllWorked (C.worked crew.now) states.old beside.old states.new beside.new }
{
    if states.is_empty() {
        return;
    }
    if states.len() == 1 {
        crew.work(&mut states[0], &mut beside[0]);
        return;
    }
    let middle = states.len() / 2;
    let (front, back) = states.split_at_mut(middle);
    let (first, last) = beside.split_at_mut(middle);
    run_halves(rt, crew, front, first, back, last);
}

#[cycle(workers)]
fn run_halves<P: Send, W: Send, C: Crew<P, W> + Sync, R: Threads + Sync>(
    rt: &R,
    crew: &C,
    front: &mut [P],
    first: &mut [W],
    back: &mut [P],
    last: &mut [W],
)
    requires some { (0 < length front.old) × (0 < length back.old) }
    requires pairs { (length front.old ≡ length first.old) × (length back.old ≡ length last.old) }
    requires ready { AllReady (C.ready crew.now) first.old × AllReady (C.ready crew.now) last.old }
    ensures front { AllWorked (C.worked crew.now) front.old first.old front.new first.new }
    ensures back { AllWorked (C.worked crew.now) back.old last.old back.new last.new }
{
    let mut one = ||
        requires cross { IsSync R.row × IsSync C.row × IsSend P.row × IsSend W.row }
        requires pairs { length front.now ≡ length first.now }
        requires ready { AllReady (C.ready crew.now) first.now }
        ensures { AllWorked (C.worked crew.entry.now)
            front.entry.now first.entry.now front.exit.now first.exit.now }
    { run_crew(rt, crew, front, first) };
    let mut two = ||
        requires cross { IsSync R.row × IsSync C.row × IsSend P.row × IsSend W.row }
        requires pairs { length back.now ≡ length last.now }
        requires ready { AllReady (C.ready crew.now) last.now }
        ensures { AllWorked (C.worked crew.entry.now)
            back.entry.now last.entry.now back.exit.now last.exit.now }
    { run_crew(rt, crew, back, last) };
    join_mut(rt, &mut one, &mut two);
}
