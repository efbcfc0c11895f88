ghost use Rattle.std.specs.Prelude.{◌≡◌, IfOk};
ghost use Rattle.toml.specs.View.{table_view};
ghost use Rattle.tc_toml.specs.Fault.{Gives};
ghost use Rattle.tc_job.specs.Job as specs;
ghost use Rattle.tc_job.specs.Ranges.{KeepsRanges};

use crate::keys::{Level, know_keys};
use crate::platform::platform_in;
use crate::task::{Task, tasks_of};
use slot_arbiter::{MOST_CYCLES, MOST_TRACE};
use std::alloc::Global;
use tc_toml::{JobError, Section, tables_of, tree_of};
use tc_word::List;
use toml::Table;

/// A job: the platform, the limit, and the tasks.
#[derive(Debug, Drop)]
pub struct Job {
    /// 1, or 2 where the job states its slot table.
    pub version: u32,
    /// How many cores the platform has, 1 to 8 in version 1 and 1 to 16 in version 2.
    pub cores: u32,
    /// The length of a slot in cycles, 6 to 64.
    pub slot: u32,
    /// The owners of the slots of one period: in version 1 the cores in turn.
    pub table: List<u32>,
    /// The cycle limit, 1 to [`MOST_CYCLES`].
    pub cycles: u64,
    /// How many transactions of each core are listed at most, 0 to [`MOST_TRACE`]; 0 where the job states none.
    pub trace: u32,
    /// How many workers run the cores, 1 to `cores`; `cores` where the job states none.
    pub workers: u32,
    /// The tasks, each on a core of its own, in the order of the text.
    pub tasks: List<Task>,
}

/// The job that the bytes stand for, or the first of their faults.
#[tactic(auto, unfolding(crate::specs::Job::job_of))]
pub fn read_job(alloc: Global, bytes: &[u8]) -> Result<Job, JobError>
    ensures job { Gives (λ job. job) result (specs.job_of bytes.now) }
    ensures ranges { IfOk result KeepsRanges }
{
    let table = tree_of(alloc, bytes)?;
    job_in(alloc, &table)
}

/// The job of a tree.
#[tactic(auto, unfolding(crate::specs::Job::job_in))]
fn job_in(alloc: Global, table: &Table) -> Result<Job, JobError>
    ensures job { Gives (λ job. job) result (specs.job_in (table_view table.now)) }
    ensures ranges { IfOk result KeepsRanges }
{
    let top = Section {
        alloc,
        table,
        task: None,
    };
    know_keys(&top, Level::of_job(top.value("version")))?;
    let platform = platform_in(&top)?;
    let cores = platform.cores;
    let cycles = top.number("cycles", 1, MOST_CYCLES as u32)?;
    let trace = top.number_or("trace", 0, 0, MOST_TRACE)?;
    let workers = top.number_or("workers", cores, 1, cores)?;
    let tables = top.reported("task", tables_of(alloc, top.value("task")))?;
    let tasks = tasks_of(alloc, tables.as_slice(), cores)?;
    Ok(Job {
        version: platform.version,
        cores,
        slot: platform.slot,
        table: platform.table,
        cycles: u64::from(cycles),
        trace,
        workers,
        tasks,
    })
}
