ghost use Rattle.std.specs.Prelude.{◌≡◌, ◌≤◌, ◌++◌, IfOk, OnOk};
ghost use Rattle.argo_grid.specs.Report as specs;
ghost use Rattle.tc_toml.specs.Fault.{fault_text};
ghost use Rattle.argo_grid.specs.Check.{checked};
ghost use Rattle.slot_arbiter.specs.declared.table.TheConstants.{MOST_CORES};

use crate::check::check_grid;
use crate::fault::GridFault;
use crate::grid::Grid;
use crate::job::GridJob;
use crate::read::read_grid;
use crate::transfer::latency;
use local_store::COMM_WORDS;
use std::alloc::{AllocError, Global};
use tc_io::{DONE, FAULTY_TEXT, put, put_with};
use tc_toml::{JobError, JobFault, put_fault};
use tc_word::{List, OutOfMemory};

/// A status and the text that is written with it.
#[derive(Debug, Drop)]
pub struct GridReport {
    /// 0 where the schedule is right, and 2 where the text is no schedule or the schedule has a fault.
    pub status: u8,
    pub text: List<u8>,
}

/// What is written for the bytes of a schedule.
pub fn grid_report(alloc: Global, bytes: &[u8]) -> Result<GridReport, OutOfMemory>
    ensures { IfOk result (λ report. report ≡ specs.report_of bytes.now) }
{
    match read_grid(alloc, bytes) {
        Ok(job) => schedule_report(alloc, &job),
        Err(JobError::Fault { kind, task, key }) => no_schedule(alloc, kind, task, key.as_str()),
        Err(JobError::Memory) => Err(AllocError),
    }
}

/// The report on bytes that are no schedule.
fn no_schedule(
    alloc: Global,
    kind: JobFault,
    task: Option<u32>,
    key: &str,
) -> Result<GridReport, OutOfMemory>
    ensures { IfOk result (λ report. report ≡ specs.faulty (fault_text kind task key.now)) }
{
    let mut text = Vec::new(alloc);
    put_fault(&mut text, kind, task, key)?;
    put(&mut text, "\n")?;
    Ok(GridReport {
        status: FAULTY_TEXT,
        text: List::of(text),
    })
}

/// The report on a schedule.
fn schedule_report(alloc: Global, job: &GridJob) -> Result<GridReport, OutOfMemory>
    ensures { IfOk result (λ report. report ≡ specs.by_check job.now (checked job.now)) }
{
    let mut text = Vec::new(alloc);
    let status = match check_grid(job) {
        Ok(()) => {
            put_right(&mut text, job)?;
            DONE
        }
        Err(fault) => {
            put_grid_fault(&mut text, fault)?;
            put(&mut text, "\n")?;
            FAULTY_TEXT
        }
    };
    Ok(GridReport {
        status,
        text: List::of(text),
    })
}

/// Appends the line in which a fault of a schedule is reported, without its end.
fn put_grid_fault(text: &mut Vec<u8>, fault: GridFault) -> Result<(), OutOfMemory>
    ensures { OnOk result (text.new.items ≡ text.old.items ++ specs.grid_fault_text fault) }
{
    match fault {
        GridFault::Range { entry } => put_with(text, "grid: Range ", u64::from(entry)),
        GridFault::Late { entry, needs } => {
            let (entry, needs) = (u64::from(entry), u64::from(needs));
            put_two(text, "grid: Late ", entry, " needs ", needs)
        }
        GridFault::Shared { entry, other } => {
            let (entry, other) = (u64::from(entry), u64::from(other));
            put_two(text, "grid: Shared ", entry, " ", other)
        }
    }
}

/// Appends all that is reported of a schedule that is right.
#[tactic(auto, unfolding(crate::specs::Report::right_text))]
fn put_right(text: &mut Vec<u8>, job: &GridJob) -> Result<(), OutOfMemory>
    ensures { OnOk result (text.new.items ≡ text.old.items ++ specs.right_text job.now) }
{
    let routers = job.grid.columns * job.grid.rows;
    put_grid_line(text, job.grid, job.length)?;
    put(text, "ok\n")?;
    put_latency(text, routers, 1)?;
    put_latency(text, routers, COMM_WORDS)
}

/// Appends the line of the grid.
#[tactic(auto, unfolding(crate::specs::Report::grid_line))]
fn put_grid_line(text: &mut Vec<u8>, grid: Grid, period: u32) -> Result<(), OutOfMemory>
    ensures { OnOk result (text.new.items ≡ text.old.items ++ specs.grid_line grid period) }
{
    put_size(text, grid)?;
    put_with(text, " length ", u64::from(period))?;
    put(text, "\n")
}

/// Appends the size of the grid.
fn put_size(text: &mut Vec<u8>, grid: Grid) -> Result<(), OutOfMemory>
    ensures { OnOk result (text.new.items ≡ text.old.items ++ specs.size_text grid) }
{
    let (columns, rows) = (u64::from(grid.columns), u64::from(grid.rows));
    put_two(text, "grid columns ", columns, " rows ", rows)
}

/// Appends the line of a bound.
#[tactic(auto, unfolding(crate::specs::Report::latency_line))]
fn put_latency(text: &mut Vec<u8>, cores: u32, count: u32) -> Result<(), OutOfMemory>
    requires several { 2 ≤ cores }
    requires most { cores ≤ MOST_CORES }
    requires some { 1 ≤ count }
    requires fits { count ≤ COMM_WORDS }
    ensures { OnOk result (text.new.items ≡ text.old.items ++ specs.latency_line cores count) }
{
    let bound = latency(cores, count);
    put_two(text, "latency ", u64::from(count), " words ", bound)?;
    put(text, "\n")
}

/// Appends words and a number after them, twice.
fn put_two(
    text: &mut Vec<u8>,
    words: &str,
    first: u64,
    others: &str,
    second: u64,
) -> Result<(), OutOfMemory>
    ensures { OnOk result (text.new.items ≡ text.old.items ++ specs.two_numbers words.now first others.now second) }
{
    put_with(text, words, first)?;
    put_with(text, others, second)
}
