//! Answers.
ghost use Rattle.std.specs.Prelude as prelude;
ghost use Rattle.std.specs.Prelude.{◌≡◌, ◌<◌, Option, Ok, IfOk};
ghost use Rattle.job_tasks.specs.Tasks.{Coded, coded_from};
ghost use Rattle.tc_job.specs.Job.{job_of};
ghost use Rattle.tccode.specs.Answer as specs;
ghost use Rattle.tccode.specs.Codes.{TellsCodes, TellsJob};

use crate::texts::job_text;
use job_tasks::{Answer, Halt, RangedJob, coded_tasks, no_job, refusal_answer, whole};
use std::alloc::{AllocError, Global};
use tc_io::NO_COMMAND;
use tc_job::read_job;
use tc_toml::JobError;
use tc_word::{List, OutOfMemory};

/// The line that tells how the program is called.
pub const USAGE: &[u8] = b"usage: tccode\n";

/// The answer to the bytes of a text.
pub fn text_answer(alloc: Global, bytes: &[u8]) -> Result<Answer, OutOfMemory>
    ensures answer { IfOk result (λ answer. answer ≡ specs.job_answer (job_of bytes.now)) }
    ensures below { IfOk result (λ answer. answer.status < 5) }
    ensures reported { IfOk result (λ _. TellsJob bytes.now) }
{
    match read_job(alloc, bytes) {
        Ok(job) => code_answer(alloc, &RangedJob::of(job)),
        Err(JobError::Fault { kind, task, key }) => no_job(alloc, kind, task, key.as_str()),
        Err(JobError::Memory) => Err(AllocError),
    }
}

// the answer to a job
fn code_answer(alloc: Global, job: &RangedJob) -> Result<Answer, OutOfMemory>
    ensures answer { IfOk result (λ answer. answer ≡ specs.coded_answer job.now (coded_from job.now 0 job.now.cores)) }
    ensures below { IfOk result (λ answer. answer.status < 5) }
    ensures reported { IfOk result (λ _. (coded : prelude.List (Option Coded))
        → coded_from job.now 0 job.now.cores ≡ Ok coded → TellsCodes job.now coded) }
{
    match coded_tasks(alloc, job) {
        Ok(coded) => Ok(whole(job_text(alloc, job, &coded)?)),
        Err(Halt::Refused(refused)) => refusal_answer(alloc, refused),
        Err(Halt::Memory) => Err(AllocError),
    }
}

/// The answer to words: none is known.
pub fn usage_answer(alloc: Global) -> Result<Answer, OutOfMemory>
    ensures { IfOk result (λ answer. answer ≡ specs.usage) }
{
    Ok(Answer {
        status: NO_COMMAND,
        text: List::of(Vec::from_slice(alloc, USAGE)?),
    })
}
