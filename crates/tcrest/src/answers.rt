ghost use Rattle.std.specs.Prelude as prelude;
ghost use Rattle.std.specs.Prelude.{◌≡◌, ◌<◌, All, [], Option, Ok, true, IfOk, length};
ghost use Rattle.argo_grid.specs.Report as grid;
ghost use Rattle.job_gen.specs.Generator.{generated};
ghost use Rattle.tc_job.specs.Job.{job_of};
ghost use Rattle.job_tasks.specs.Answer as answers;
ghost use Rattle.tcrest.specs.Answer as specs;
ghost use Rattle.tcrest.specs.Command as words;
ghost use Rattle.tcrest.specs.declared.command.JobCommand.TheVariants as variants;
ghost use Rattle.job_tasks.specs.Tasks.{Coded, coded_from};
ghost use Rattle.job_tasks.specs.Making.{AreMade};
ghost use Rattle.tcrest.specs.Telling.{TellsJob, TellsOf, TellsTasks, TellsTasksOf};
ghost use Rattle.job_tasks.specs.Coding.{all_shown, IsAmong};

use crate::bounds::{Bounds, bounds_text};
use crate::command::{Command, JobCommand};
use crate::listing::listings;
use crate::meanings::meanings;
use crate::pipe::{PipeFault, fault_answer, is_lone, pipe_with};
use argo_grid::{GridReport, grid_report};
use global_step::machine_keeps_ranges;
use job_gen::generate;
use job_rows::{loaded_of, report_text_of, rows_of, status_of};
use job_tasks::{Answer, CodedTask, Halt, RangedJob, coded_tasks, no_job, refusal_answer, whole};
use std::alloc::{AllocError, Global};
use std::sync::Wait;
use std::thread::Threads;
use tc_io::{Gate, NO_COMMAND};
use tc_job::{Job, read_job};
use tc_report::Row;
use tc_run::{loaded_with_words, run_machine};
use tc_toml::JobError;
use tc_word::{List, OutOfMemory};

/// The line that tells the commands.
pub const USAGE: &[u8] = b"usage: tcrest run|bound|asm|mean|gen N|bench N|pipe|grid|persist\n";

/// The answer that a command that reads owes a text that is not too long.
#[tactic(auto, using(job_tasks::proofs::Outcomes::below_if, crate::proofs::Outcomes::grid_below))]
pub fn text_answer<R: Threads + Wait + Sync, G: Gate + Sync>(
    alloc: Global,
    rt: &R,
    command: Command,
    bytes: &[u8],
    gate: &G,
) -> Result<Answer, OutOfMemory>
    requires reads { words.ReadsNothing command → ⊥ }
    ensures answer { IfOk result (λ answer. answer ≡ specs.text_answer command bytes.now) }
    ensures below { IfOk result (λ answer. answer.status < 5) }
    ensures reported { IfOk result (λ _. TellsTasksOf command bytes.now) }
{
    match command {
        Command::OfJob(command) => job_answer(alloc, rt, command, bytes, gate),
        Command::Grid => grid_answer(alloc, bytes),
        Command::Gen { .. } => unreachable!(),
        Command::Bench { .. } => unreachable!(),
        Command::Usage => unreachable!(),
    }
}

/// The answer that a command that reads nothing owes.
pub fn unread_answer<R: Threads + Wait + Sync, G: Gate + Sync>(
    alloc: Global,
    rt: &R,
    command: Command,
    gate: &G,
) -> Result<Answer, OutOfMemory>
    requires { words.ReadsNothing command }
    ensures answer { IfOk result (λ answer. answer ≡ specs.unread_answer command) }
    ensures below { IfOk result (λ answer. answer.status < 5) }
    ensures reported { IfOk result (λ _. TellsTasksOf command []) }
{
    match command {
        Command::Gen { number } => gen_answer(alloc, number),
        Command::Bench { number } => bench_answer(alloc, rt, number, gate),
        Command::Usage => usage_answer(alloc),
        Command::OfJob(_) => unreachable!(),
        Command::Grid => unreachable!(),
    }
}

// the text of a generated job
fn gen_answer(alloc: Global, number: u32) -> Result<Answer, OutOfMemory>
    ensures { IfOk result (λ answer. answer ≡ answers.whole (generated number)) }
{
    Ok(whole(generate(alloc, u64::from(number))?))
}

// what `run` writes for it
#[tactic(auto, using(job_tasks::proofs::Outcomes::below_if))]
fn bench_answer<R: Threads + Wait + Sync, G: Gate + Sync>(
    alloc: Global,
    rt: &R,
    number: u32,
    gate: &G,
) -> Result<Answer, OutOfMemory>
    ensures answer { IfOk result (λ answer. answer ≡ specs.job_answer variants.Run (job_of (generated number))) }
    ensures below { IfOk result (λ answer. answer.status < 5) }
    ensures reported { IfOk result (λ _. TellsJob variants.Run (generated number)) }
{
    let text = generate(alloc, u64::from(number))?;
    job_answer(alloc, rt, JobCommand::Run, text.as_slice(), gate)
}

// the usage line
fn usage_answer(alloc: Global) -> Result<Answer, OutOfMemory>
    ensures { IfOk result (λ answer. answer ≡ specs.usage) }
{
    Ok(Answer {
        status: NO_COMMAND,
        text: List::of(Vec::from_slice(alloc, USAGE)?),
    })
}

// the answer to the bytes of a schedule of the network
fn grid_answer(alloc: Global, bytes: &[u8]) -> Result<Answer, OutOfMemory>
    ensures { IfOk result (λ answer. answer ≡ specs.of_grid (grid.report_of bytes.now)) }
{
    let GridReport { status, text } = grid_report(alloc, bytes)?;
    Ok(Answer { status, text })
}

// the answer to the bytes of a job
#[tactic(auto, using(job_tasks::proofs::Outcomes::below_if))]
fn job_answer<R: Threads + Wait + Sync, G: Gate + Sync>(
    alloc: Global,
    rt: &R,
    command: JobCommand,
    bytes: &[u8],
    gate: &G,
) -> Result<Answer, OutOfMemory>
    ensures answer { IfOk result (λ answer. answer ≡ specs.job_answer command (job_of bytes.now)) }
    ensures below { IfOk result (λ answer. answer.status < 5) }
    ensures reported { IfOk result (λ _. TellsJob command bytes.now) }
{
    match read_job(alloc, bytes) {
        Ok(job) => answer_by(alloc, rt, command, &RangedJob::of(job), gate),
        Err(JobError::Fault { kind, task, key }) => no_job(alloc, kind, task, key.as_str()),
        Err(JobError::Memory) => Err(AllocError),
    }
}

// the answer to a job
#[tactic(auto, using(job_tasks::proofs::Outcomes::below_if, crate::proofs::Outcomes::answer_by_below))]
fn answer_by<R: Threads + Wait + Sync, G: Gate + Sync>(
    alloc: Global,
    rt: &R,
    command: JobCommand,
    job: &RangedJob,
    gate: &G,
) -> Result<Answer, OutOfMemory>
    ensures answer { IfOk result (λ answer. answer ≡ specs.answer_by command job.now) }
    ensures below { IfOk result (λ answer. answer.status < 5) }
    ensures reported { IfOk result (λ _. (coded : prelude.List (Option Coded))
        → coded_from job.now 0 job.now.cores ≡ Ok coded → TellsOf command job.now coded) }
{
    if !is_taken(command, job.job()) {
        return fault_answer(alloc, PipeFault::OneCore);
    }
    match coded_tasks(alloc, job) {
        Ok(coded) => answer_with(alloc, rt, command, job, coded, gate),
        Err(Halt::Refused(refused)) => refusal_answer(alloc, refused),
        Err(Halt::Memory) => Err(AllocError),
    }
}

// `pipe` takes a job of one core with a task alone
fn is_taken(command: JobCommand, job: &Job) -> bool
    ensures { result ≡ specs.is_taken command job.now }
{
    match command {
        JobCommand::Pipe => is_lone(job),
        _ => true,
    }
}

// the answer to a job whose tasks are made to these
fn answer_with<R: Threads + Wait + Sync, G: Gate + Sync>(
    alloc: Global,
    rt: &R,
    command: JobCommand,
    job: &RangedJob,
    coded: Vec<Option<CodedTask<'_>>>,
    gate: &G,
) -> Result<Answer, OutOfMemory>
    requires count { length coded.items ≡ job.now.cores }
    requires among { All (IsAmong job.now.cores) coded.items }
    requires made { AreMade job.now (all_shown coded.items) }
    requires taken { specs.is_taken command job.now ≡ true }
    ensures answer { IfOk result (λ answer. answer ≡ specs.answer_with command job.now (all_shown coded.entry.items)) }
    ensures reported { IfOk result (λ _. TellsOf command job.now (all_shown coded.entry.items)) }
{
    job.keeps_ranges();
    match command {
        JobCommand::Run => report_of(alloc, rt, job, coded, gate),
        JobCommand::Bound => Ok(whole(bounds_text(alloc, Bounds::Plain, job, &coded)?)),
        JobCommand::Asm => Ok(whole(listings(alloc, &coded)?)),
        JobCommand::Mean => Ok(whole(meanings(alloc, job.job().cycles, &coded)?)),
        JobCommand::Pipe => pipe_with(alloc, job, coded),
        JobCommand::Persist => Ok(whole(bounds_text(alloc, Bounds::Persistent, job, &coded)?)),
    }
}

// the report of the machine of a job
fn report_of<R: Threads + Wait + Sync, G: Gate + Sync>(
    alloc: Global,
    rt: &R,
    job: &RangedJob,
    coded: Vec<Option<CodedTask<'_>>>,
    gate: &G,
) -> Result<Answer, OutOfMemory>
    requires count { length coded.items ≡ job.now.cores }
    requires among { All (IsAmong job.now.cores) coded.items }
    requires made { AreMade job.now (all_shown coded.items) }
    ensures answer { IfOk result (λ answer. answer ≡ specs.report_of job.now (all_shown coded.entry.items)) }
    ensures reported { IfOk result (λ _. TellsTasks job.now (all_shown coded.entry.items)) }
{
    job.keeps_ranges();
    machine_keeps_ranges();
    let (loaded, tasks) = loaded_of(alloc, job, coded)?;
    loaded_with_words(&loaded);
    let end = run_machine(alloc, rt, &loaded, gate)?;
    let rows = rows_of(alloc, end.cores.as_slice(), &tasks)?;
    reported(alloc, job, rows)
}

// the report of rows, under their status
fn reported(alloc: Global, job: &RangedJob, rows: Vec<Row>) -> Result<Answer, OutOfMemory>
    ensures { IfOk result (λ answer. answer ≡ specs.reported job.now rows.items) }
{
    let status = status_of(rows.as_slice());
    let text = List::of(report_text_of(alloc, job, rows)?);
    Ok(Answer { status, text })
}
