//! The law of generated jobs.
ghost use Rattle.std.specs.Prelude.{◌≡◌, ℕ, Ok};
ghost use Rattle.std.specs.List.{AllByRecursion as Each};
ghost use Rattle.gen_jobs.specs.Jobs.{job_with};
ghost use Rattle.gen_jobs.specs.Programs.{IsProgramTask};
ghost use Rattle.job_gen.specs.Generator.{generated};
ghost use Rattle.tc_job.specs.Job.{job_of};

/// For every number, the text that it decides is a job, the one that the definition gives, and each of its tasks is
/// a valid C program on its core. A law: it does nothing.
#[tactic(auto, using(crate::proofs::Jobs::job_is))]
pub fn generated_jobs_are_jobs()
    ensures job { (n : ℕ) → job_of (generated n) ≡ Ok (job_with n) }
    ensures tasks { (n : ℕ) → Each (IsProgramTask (job_with n).cores) (job_with n).tasks }
{}
