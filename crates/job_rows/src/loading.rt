ghost use Rattle.std.specs.Prelude.{◌≡◌, List, Option, All, ◌<◌, length, map, IfOk};
ghost use Rattle.patmos_model.specs.Begin.{begun};
ghost use Rattle.tc_job.specs.Ranges.{IsTaskAmong};
ghost use Rattle.global_step.specs.Machine.{first_core};
ghost use Rattle.global_step.specs.Loaded.{AreOnePlatform};
ghost use Rattle.job_tasks.specs.Sites.{site_on};
ghost use Rattle.job_rows.specs.Machine as specs;
ghost use Rattle.job_tasks.specs.Coding.{runs, shown, all_shown, IsAmong};
ghost use Rattle.job_rows.specs.Loading.{IsLoadedFor, IsPlaced};
ghost use Rattle.job_tasks.specs.Tasks.{runs_on};

use c_mentions::CoreTask;
use global_step::{Loaded, LoadedCore};
use job_tasks::{CodedTask, Program, RangedJob};
use patmos_code::Image;
use std::alloc::Global;
use tc_job::Task;
use tc_word::{List, OutOfMemory};

/// The machine of a job whose tasks are made to these, one of which may stand for each core, and what each core runs.
pub fn loaded_of(
    alloc: Global,
    job: &RangedJob,
    coded: Vec<Option<CodedTask<'_>>>,
) -> Result<(Loaded, Vec<CoreTask<Program>>), OutOfMemory>
    requires count { length coded.items ≡ job.now.cores }
    requires among { All (IsAmong job.now.cores) coded.items }
    ensures tasks { IfOk result (λ r. length r.1.items ≡ job.now.cores) }
    ensures loaded { IfOk result (λ r. IsLoadedFor job.now
        (specs.cores_from job.now 0 (all_shown coded.entry.items)) r.0) }
    ensures runs { IfOk result (λ r. map runs r.1.items ≡ map runs_on (all_shown coded.entry.items)) }
{
    let (cores, tasks) = cores_of(alloc, job, coded)?;
    let job = job.job();
    match Loaded::new(List::of(cores), job.cycles, job.trace, job.workers) {
        Some(loaded) => Ok((loaded, tasks)),
        None => unreachable!(),
    }
}

// its cores, and what each runs
fn cores_of(
    alloc: Global,
    job: &RangedJob,
    coded: Vec<Option<CodedTask<'_>>>,
) -> Result<(Vec<LoadedCore>, Vec<CoreTask<Program>>), OutOfMemory>
    requires count { length coded.items ≡ job.now.cores }
    requires among { All (IsAmong job.now.cores) coded.items }
    ensures cores { IfOk result (λ r. map first_core r.0.items
        ≡ specs.cores_from job.now 0 (all_shown coded.entry.items)) }
    ensures count { IfOk result (λ r. length r.0.items ≡ job.now.cores) }
    ensures tasks { IfOk result (λ r. length r.1.items ≡ job.now.cores) }
    ensures platform { IfOk result (λ r. AreOnePlatform r.0.items) }
    ensures runs { IfOk result (λ r. map runs r.1.items ≡ map runs_on (all_shown coded.entry.items)) }
{
    job.keeps_ranges();
    let mut cores = Vec::new(alloc);
    let mut tasks = Vec::new(alloc);
    for one in coded {
        let core = cores.len() as u32;
        let (loaded, task) = core_with(alloc, job, core, one)?;
        cores.push(loaded)?;
        tasks.push(task)?;
    }
    Ok((cores, tasks))
}

// a core with its task, if it has one, and what it runs
fn core_with(
    alloc: Global,
    job: &RangedJob,
    core: u32,
    coded: Option<CodedTask<'_>>,
) -> Result<(LoadedCore, CoreTask<Program>), OutOfMemory>
    requires number { core < job.now.cores }
    requires among { IsAmong job.now.cores coded }
    ensures core { IfOk result (λ r. first_core r.0 ≡ specs.core_with job.now core (shown coded.entry)) }
    ensures placed { IfOk result (λ r. IsPlaced job.now core r.0) }
    ensures runs { IfOk result (λ r. runs r.1 ≡ runs_on (shown coded.entry)) }
{
    let Some(CodedTask { task, made }) = coded else {
        return Ok((idle_on(alloc, job, core), CoreTask::Idle));
    };
    let loaded = begun_on(alloc, job, core, task, made.image)?;
    Ok((loaded, CoreTask::of(made.program)))
}

// a core without a task
fn idle_on(alloc: Global, job: &RangedJob, core: u32) -> LoadedCore
    requires among { core < job.now.cores }
    ensures core { first_core result ≡ specs.idle_on job.now core }
    ensures placed { IsPlaced job.now core result }
{
    LoadedCore {
        place: job.place_of(core, 0),
        image: None,
        input: List::of(Vec::new(alloc)),
    }
}

// a core with a task of this image
fn begun_on(
    alloc: Global,
    job: &RangedJob,
    core: u32,
    task: &Task,
    image: Image,
) -> Result<LoadedCore, OutOfMemory>
    requires number { core < job.now.cores }
    requires task { IsTaskAmong job.now.cores task.now }
    ensures core { IfOk result (λ l. first_core l
        ≡ begun (site_on job.now core task.now.start image) task.now.input) }
    ensures placed { IfOk result (IsPlaced job.now core) }
{
    let input = List::of(Vec::from_slice(alloc, task.input.as_slice())?);
    Ok(LoadedCore {
        place: job.place_of(core, task.start),
        image: Some(image),
        input,
    })
}
