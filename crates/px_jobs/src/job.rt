//! A job in the line.
use px_line::Item;

/// A job: its number, and what it carries.
#[derive(Drop)]
pub struct Job<L> {
    pub number: u64,
    pub load: L,
}

impl<L> Item for Job<L> {
    ghost use Rattle.px_jobs.specs.Jobs.{AllUnder};

    ghost giver = { λ _. 0 };

    ghost next = { λ given job. AllUnder job.number given };
}
