//! A law of a line at its end.
ghost use Rattle.std.specs.Prelude.{◌≡◌, List};
ghost use Rattle.px_line.specs.Lines.{Among};
ghost use Rattle.px_jobs.specs.declared.job.Job.{Job as JobOf};
ghost use Rattle.px_jobs.specs.Jobs.{AllTaken, of_number};

/// Where all that was given was taken, each job that was given was taken, and no other of its
/// number.
pub fn each_job_once<L>()
    ensures { (given taken : List (JobOf L)) (x : JobOf L) → AllTaken given taken → Among x given →
        Among x taken × (of_number x.number taken ≡ 1) }
{}
