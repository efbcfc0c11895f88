ghost use Rattle.std.specs.Prelude.{◌≡◌, ◌≤◌, ◌++◌, ◌<◌, [], ◌∷◌, All, IfOk, OnOk, length, min};
ghost use Rattle.patmos_model.specs.Apart.{site_of};
ghost use Rattle.patmos_model.specs.Begin.{begun};
ghost use Rattle.patmos_model.specs.State.{Core};
ghost use Rattle.pipe_five.specs.Pipe.{StandsFor, IsThrough, limit_of};
ghost use Rattle.pipe_five.specs.Steps.{done_below};
ghost use Rattle.tcrest.specs.Answer as answers;
ghost use Rattle.tc_report.specs.Report.{state_line};
ghost use Rattle.job_tasks.specs.Coding.{runs, shown, all_shown, IsAmong};
ghost use Rattle.tcrest.specs.PipeTold.{pipe_told, told_row};
ghost use Rattle.tcrest.specs.Pipe as specs;
ghost use Rattle.job_rows.specs.Rows as rows_specs;

use c_mentions::CoreTask;
use job_rows::{bare_row, is_flagged, runs_alone, status_of};
use job_tasks::{Answer, CodedTask, Program, RangedJob};
use patmos_code::Image;
use patmos_core::CoreState;
use pipe_five::{Beat, PipeCore};
use slot_arbiter::{MOST_CYCLES, Place};
use std::alloc::Global;
use std::slice;
use tc_io::FAULTY_TEXT;
use tc_job::Job;
use tc_report::{Row, put_platform_line, put_state_line, put_step_line};
use tc_word::{List, OutOfMemory};

/// Why `pipe` refuses a job that other commands take.
#[derive(Clone, Copy, Debug, PartialEq, Eq)]
pub enum PipeFault {
    /// The job has another number of cores than one, or no task.
    OneCore,
}

impl PipeFault {
    /// The fault's number, after those of any job.
    pub fn number(self) -> u32
        ensures { result ≡ specs.fault_number self }
    {
        match self {
            PipeFault::OneCore => 9,
        }
    }

    /// The fault's name.
    pub fn name(self) -> &'static [u8]
        ensures { result.now ≡ specs.fault_name self }
    {
        match self {
            PipeFault::OneCore => b"OneCore",
        }
    }
}

/// Whether the job has one core, and a task.
pub fn is_lone(job: &Job) -> bool
    ensures { result ≡ specs.is_lone job.now }
{
    job.cores == 1 && !job.tasks.as_slice().is_empty()
}

/// The answer to a job that `pipe` refuses.
pub fn fault_answer(alloc: Global, fault: PipeFault) -> Result<Answer, OutOfMemory>
    ensures { IfOk result (λ answer. answer ≡ answers.no_pipe fault) }
{
    let mut text = Vec::new(alloc);
    text.extend_from_slice(b"job: ")?;
    text.extend_from_slice(fault.name())?;
    text.extend_from_slice(b"\n")?;
    let text = List::of(text);
    Ok(Answer {
        status: FAULTY_TEXT,
        text,
    })
}

/// The answer about the five stages of the only core of a job, whose task is made, if it has one.
pub fn pipe_with(
    alloc: Global,
    job: &RangedJob,
    coded: Vec<Option<CodedTask<'_>>>,
) -> Result<Answer, OutOfMemory>
    requires lone { job.now.cores ≡ 1 }
    requires count { length coded.items ≡ 1 }
    requires among { All (IsAmong job.now.cores) coded.items }
    ensures { IfOk result (λ answer. answer ≡ answers.pipe_with job.now (all_shown coded.entry.items)) }
{
    let mut coded = coded;
    core_answer(alloc, job, coded.pop().flatten())
}

// the answer to a job whose only core has this task, if it has one
fn core_answer(
    alloc: Global,
    job: &RangedJob,
    coded: Option<CodedTask<'_>>,
) -> Result<Answer, OutOfMemory>
    requires lone { job.now.cores ≡ 1 }
    requires among { IsAmong job.now.cores coded }
    ensures { IfOk result (λ answer. answer ≡ answers.pipe_with job.now (shown coded.entry ∷ [])) }
{
    let Some(CodedTask { task, made }) = coded else {
        return fault_answer(alloc, PipeFault::OneCore);
    };
    let place = job.place_of(0, task.start);
    let runs = CoreTask::of(made.program);
    stages_answer(alloc, job, place, &made.image, task.input.as_slice(), &runs)
}

// the answer about a task that begins so, and what its core runs
fn stages_answer(
    alloc: Global,
    job: &RangedJob,
    place: Place,
    image: &Image,
    input: &[u32],
    task: &CoreTask<Program>,
) -> Result<Answer, OutOfMemory>
    requires alone { place.cores ≡ 1 }
    ensures { IfOk result (λ answer. answer
        ≡ pipe_told job.now (runs task.now) (begun (site_of place image.now) input.now)) }
{
    let read = job.job();
    let mut core = PipeCore::new(alloc, place, image, input)?;
    let mut text = Vec::new(alloc);
    put_platform_line(&mut text, read.cores, read.slot, job.period())?;
    put_steps(&mut text, &mut core, read.cycles, read.trace)?;
    let row = end_row(alloc, task, core.state())?;
    ended(alloc, text, row)
}

// the steps below a limit, of which the first so many are reported
fn put_steps(
    text: &mut Vec<u8>,
    core: &mut PipeCore,
    limit: u64,
    trace: u32,
) -> Result<(), OutOfMemory>
    requires most { limit ≤ MOST_CYCLES }
    requires first { limit_of core.old ≤ limit }
    ensures reported { OnOk result ((x : Core) → StandsFor core.old x 0
        → text.new.items ≡ text.old.items ++ specs.steps_text x limit (min trace (length (done_below x limit)))) }
    ensures stands { OnOk result ((x : Core) → StandsFor core.old x 0
        → StandsFor core.new x (length (done_below x limit))) }
    ensures through { OnOk result ((x : Core) → StandsFor core.old x 0 → IsThrough core.new) }
    ensures limit { OnOk result (limit_of core.new ≡ limit) }
{
    for count in 0..limit + 1 {
        match core.advance(limit) {
            Beat::Step { cycle, stages } => {
                if count < u64::from(trace) {
                    put_step_line(text, cycle, &stages)?;
                }
            }
            Beat::Stopped => return Ok(()),
        }
    }
    Ok(())
}

// the row of the core, of which the line of its state alone is reported
fn end_row(alloc: Global, task: &CoreTask<Program>, state: CoreState) -> Result<Row, OutOfMemory>
    ensures { IfOk result (λ row. row ≡ told_row (runs task.now) state) }
{
    let row = bare_row(alloc, state);
    match task {
        CoreTask::Idle => Ok(row),
        CoreTask::Assembly => Ok(row),
        CoreTask::C(program) => Ok(Row {
            bound: Some(program.bound),
            alone: runs_alone(0, slice::from_ref(task)),
            overrun: is_flagged(state),
            ..row
        }),
    }
}

// the answer after the steps
fn ended(alloc: Global, text: Vec<u8>, row: Row) -> Result<Answer, OutOfMemory>
    ensures { IfOk result (λ answer. answer ≡ record {
      status = rows_specs.status_of (row ∷ []);
      text = text.items ++ state_line 0 row;
    }) }
{
    let mut text = text;
    put_state_line(&mut text, 0, &row)?;
    let rows = vec![in alloc; row]?;
    let status = status_of(rows.as_slice());
    let text = List::of(text);
    Ok(Answer { status, text })
}
