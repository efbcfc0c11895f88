//! The law that generated jobs end.
ghost use Rattle.std.specs.Prelude.{ℕ};
ghost use Rattle.std.specs.List.{AllByRecursion as Each};
ghost use Rattle.gen_jobs.specs.Jobs.{job_with};
ghost use Rattle.gen_bounds.specs.Ends.{EndsInTime};

/// For every number, each task of the generated job is a valid C program on its core, whose bound there is less than the
/// cycles of the job. A law: it does nothing.
#[tactic(auto, using(crate::proofs::Ending::tasks_end))]
pub fn generated_jobs_end()
    ensures { (n : ℕ) → Each (EndsInTime (job_with n)) (job_with n).tasks }
{}
