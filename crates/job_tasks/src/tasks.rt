//! The tasks of a job, and what each is made to.
ghost use Rattle.std.specs.Prelude.{◌≡◌, All, None, IfOk, IfSome, length, option_map};
ghost use Rattle.tc_job.specs.Ranges.{IsTaskAmong};
ghost use Rattle.job_tasks.specs.Tasks as specs;
ghost use Rattle.job_tasks.specs.Coding.{made_of, shown, all_shown, HasShape, HasShapeOn, IsAmong};
ghost use Rattle.job_tasks.specs.Gives.{Gives};
ghost use Rattle.job_tasks.specs.Making.{IsCompiled, IsMadeOn, AreMade};

use crate::program::Program;
use crate::ranged::RangedJob;
use crate::refusal::{CoreRefusal, Halt, Refusal};
use c_compile::compile;
use patmos_asm::{AsmError, Code, assemble, image_of};
use patmos_code::Image;
use patmos_model::{image_fits, words_fit};
use std::alloc::Global;
use tc_job::{Job, Lang, Task};

/// What a task is made to: an image, and the program of a C task.
#[derive(Drop)]
pub struct MadeTask {
    pub image: Image,
    pub program: Option<Program>,
}

/// A task and what it is made to.
#[derive(Drop)]
pub struct CodedTask<'a> {
    pub task: &'a Task,
    pub made: MadeTask,
}

/// The tasks of a job, each made, by the numbers of their cores: one pass over the cores, which the first refused task
/// ends.
pub fn coded_tasks(
    alloc: Global,
    job: &RangedJob,
) -> Result<Vec<Option<CodedTask<'_>>>, Halt<CoreRefusal>>
    ensures coded { Gives (λ coded. all_shown coded.items) result (specs.coded_from job.now 0 job.now.cores) }
    ensures count { IfOk result (λ coded. length coded.items ≡ job.now.cores) }
    ensures among { IfOk result (λ coded. All (IsAmong job.now.cores) coded.items) }
    ensures made { IfOk result (λ coded. AreMade job.now (all_shown coded.items)) }
    ensures shapes { IfOk result (λ coded. All HasShapeOn coded.items) }
{
    let read = job.job();
    let mut coded = Vec::new(alloc);
    for core in 0..read.cores {
        let one = match coded_on(alloc, job, core, task_on(read, core)) {
            Ok(one) => one,
            Err(halt) => return Err(halt),
        };
        if coded.push(one).is_err() {
            return Err(Halt::Memory);
        }
    }
    Ok(coded)
}

/// The task of a core, if it has one.
fn task_on(job: &Job, core: u32) -> Option<&Task>
    ensures { option_map (λ t. t.now) result ≡ specs.task_on job.now.tasks core }
{
    let tasks = job.tasks.as_slice();
    tasks.iter().find(|task| task.core == core)
}

// a core's task, made, if it has one
fn coded_on<'a>(
    alloc: Global,
    job: &RangedJob,
    core: u32,
    task: Option<&'a Task>,
) -> Result<Option<CodedTask<'a>>, Halt<CoreRefusal>>
    requires among { IfSome (option_map (λ t. t.now) task) (IsTaskAmong job.now.cores) }
    requires core { IfSome (option_map (λ t. t.now) task) (λ t. t.core ≡ core) }
    ensures coded { Gives shown result (specs.coded_on job.now core (option_map (λ t. t.now) task.entry)) }
    ensures same { IfOk result (λ c. option_map (λ t. t.task.now) c ≡ option_map (λ t. t.now) task.entry) }
    ensures made { IfOk result (λ c. IsMadeOn job.now core (shown c)) }
    ensures shape { IfOk result HasShapeOn }
{
    let Some(task) = task else {
        return Ok(None);
    };
    words_fit(task.input.as_slice());
    match made_by(alloc, job, task) {
        Ok(made) => {
            image_fits(&made.image);
            Ok(Some(CodedTask { task, made }))
        }
        Err(Halt::Refused(refusal)) => Err(Halt::Refused(CoreRefusal { core, refusal })),
        Err(Halt::Memory) => Err(Halt::Memory),
    }
}

// what a task is made to
fn made_by(alloc: Global, job: &RangedJob, task: &Task) -> Result<MadeTask, Halt<Refusal>>
    requires among { IsTaskAmong job.now.cores task.now }
    ensures made { Gives made_of result (specs.made_by job.now task.now) }
    ensures compiled { IfOk result (λ m. IfSome (made_of m).program (IsCompiled job.now task.now.core m.image)) }
    ensures shape { IfOk result HasShape }
{
    match task.lang {
        Lang::Asm => assembled(alloc, task.source.as_str()),
        Lang::C => compiled(alloc, job, task),
    }
}

// an assembly task. A text of 2^32 bytes does not come from a job, whose text has at most `MOST_BYTES` of them; it is
// answered as want of memory
fn assembled(alloc: Global, source: &str) -> Result<MadeTask, Halt<Refusal>>
    ensures made { Gives made_of result (specs.assembled source.now) }
    ensures none { IfOk result (λ m. (made_of m).program ≡ None) }
    ensures shape { IfOk result HasShape }
{
    if source.len() > u32::MAX as usize {
        return Err(Halt::Memory);
    }
    match assemble(alloc, source) {
        Ok(code) => Ok(of_code(code)),
        Err(AsmError::Fault(fault)) => Err(Halt::Refused(Refusal::Faulty(fault))),
        Err(AsmError::Memory) => Err(Halt::Memory),
    }
}

// the image of an assembly task's code
fn of_code(code: Code) -> MadeTask
    ensures made { made_of result ≡ specs.of_code code }
    ensures shape { HasShape result }
{
    MadeTask {
        image: image_of(code),
        program: None,
    }
}

// a C task
fn compiled(alloc: Global, job: &RangedJob, task: &Task) -> Result<MadeTask, Halt<Refusal>>
    requires among { IsTaskAmong job.now.cores task.now }
    ensures made { Gives made_of result (specs.compiled job.now task.now.core task.now.source) }
    ensures compiled { IfOk result (λ m. IfSome (made_of m).program (IsCompiled job.now task.now.core m.image)) }
    ensures shape { IfOk result HasShape }
{
    let place = job.place_of(task.core, task.start);
    let compiled = compile(alloc, task.source.as_str(), &place)?;
    Ok(MadeTask {
        image: compiled.image,
        program: Some(Program {
            checked: compiled.program,
            mentions: compiled.mentions,
            bound: compiled.bound,
            persist: compiled.persist,
            shape: compiled.shape,
        }),
    })
}
