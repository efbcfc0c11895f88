ghost use Rattle.std.specs.Prelude.{◌≡◌, ℕ, ◌<◌, ◌≤◌, length, map, IfOk, Some};
ghost use Rattle.std.specs.List.{list_any};
ghost use Rattle.tc_report.specs.Report.{report_text};
ghost use Rattle.global_step.specs.Loaded.{Machine};
ghost use Rattle.global_step.specs.Machine as machine;
ghost use Rattle.global_step.specs.Machine.{at_limit};
ghost use Rattle.c_mentions.specs.Alone as alone;
ghost use Rattle.c_tree.specs.Plain.{plain};
ghost use Rattle.tc_run.specs.Final.{IsFinalCore, AreFinal};
ghost use Rattle.job_tasks.specs.Coding.{runs};
ghost use Rattle.job_rows.specs.Rows.{output_slot};
ghost use Rattle.job_rows.specs.Rows as specs;
ghost use Rattle.slot_arbiter.specs.declared.table.TheConstants.{MOST_CORES};

use crate::output::{Output, output_in};
use c_mentions::{CoreTask, is_alone};
use job_tasks::{Program, RangedJob};
use patmos_core::{Core, CoreState};
use std::alloc::Global;
use tc_io::{DONE, TASK_EARLY};
use tc_report::{Row, RowState, Rows, report};
use tc_run::{accesses_of, dropped_of, outcome_of};
use tc_word::{List, OutOfMemory};

/// The rows of the cores of a machine at its limit, which run these tasks.
pub fn rows_of(
    alloc: Global,
    cores: &[Core],
    tasks: &[CoreTask<Program>],
) -> Result<Vec<Row>, OutOfMemory>
    requires few { length cores.now ≤ MOST_CORES }
    requires count { length tasks.now ≡ length cores.now }
    ensures { IfOk result (λ rows. (m : Machine) → AreFinal m cores.now
        → rows.items ≡ specs.rows_of m.limit m.trace (map runs tasks.now) (at_limit m)) }
{
    let mut rows = Vec::new(alloc);
    for number in 0..cores.len() {
        rows.push(row_of(alloc, tasks, number, &tasks[number], &cores[number])?)?;
    }
    Ok(rows)
}

// the row of one of them, among what all run
fn row_of(
    alloc: Global,
    all: &[CoreTask<Program>],
    number: usize,
    task: &CoreTask<Program>,
    core: &Core,
) -> Result<Row, OutOfMemory>
    requires few { number < MOST_CORES }
    ensures { IfOk result (λ row. (m : Machine) (k : ℕ) → IsFinalCore m k core.now
        → row ≡ specs.row_of m.limit m.trace (map specs.running (map runs all.now)) number (runs task.now)
        ((at_limit m).cores k)) }
{
    let row = plain_row(alloc, core)?;
    match task {
        CoreTask::Idle => Ok(row),
        CoreTask::Assembly => Ok(row),
        CoreTask::C(program) => with_program(alloc, row, runs_alone(number, all), program, core),
    }
}

/// Whether the task of a core is a C program that is alone with its data among what all cores run.
pub fn runs_alone(number: usize, all: &[CoreTask<Program>]) -> bool
    requires few { number < MOST_CORES }
    ensures { result ≡ alone.is_alone number (map specs.running (map runs all.now)) }
{
    is_alone(number, all)
}

// the row of a core without a program
fn plain_row(alloc: Global, core: &Core) -> Result<Row, OutOfMemory>
    ensures { IfOk result (λ row. (m : Machine) (k : ℕ) → IsFinalCore m k core.now
        → row ≡ specs.plain_row m.limit m.trace ((at_limit m).cores k)) }
{
    let accesses = Vec::from_slice(alloc, accesses_of(core))?;
    Ok(Row {
        dropped: dropped_of(core),
        accesses: List::of(accesses),
        ..bare_row(alloc, outcome_of(core))
    })
}

/// A row that tells how a core without a program ended, and nothing else.
pub fn bare_row(alloc: Global, outcome: CoreState) -> Row
    ensures { result ≡ specs.bare_row outcome }
{
    Row {
        state: row_state(outcome),
        bound: None,
        alone: false,
        overrun: false,
        outs: List::of(Vec::new(alloc)),
        outs_unsigned: false,
        dropped: 0,
        accesses: List::of(Vec::new(alloc)),
    }
}

// the row with what is reported of a program besides
fn with_program(
    alloc: Global,
    row: Row,
    alone: bool,
    program: &Program,
    core: &Core,
) -> Result<Row, OutOfMemory>
    ensures { IfOk result (λ told. (m : Machine) (k : ℕ) → IsFinalCore m k core.now
        → told ≡ record row {
          bound = Some program.now.bound;
          alone = alone;
          overrun = specs.is_flagged (machine.outcome_of m k);
          outs = specs.words_out (specs.own_world ((at_limit m).cores k).plain)
              (output_slot (plain program.now.checked.unit));
          outs_unsigned = specs.is_unsigned_out (output_slot (plain program.now.checked.unit));
        }) }
{
    let Output { words, unsigned } = output_in(alloc, &program.checked, core)?;
    Ok(Row {
        bound: Some(program.bound),
        alone,
        overrun: is_flagged(outcome_of(core)),
        outs: words,
        outs_unsigned: unsigned,
        ..row
    })
}

/// Whether a done task's flag is set.
pub fn is_flagged(outcome: CoreState) -> bool
    ensures { result ≡ specs.is_flagged outcome }
{
    match outcome {
        CoreState::Done { flag, .. } => flag != 0,
        _ => false,
    }
}

/// What became of a task.
pub fn row_state(outcome: CoreState) -> RowState
    ensures { result ≡ specs.row_state outcome }
{
    match outcome {
        CoreState::Idle => RowState::Idle,
        CoreState::Running => RowState::Limit,
        CoreState::Done { value, cycles, .. } => RowState::Done { value, cycles },
        CoreState::Trapped { trap, at } => RowState::Trap {
            trap: trap.number(),
            at,
        },
    }
}

/// The status that says whether a task was stopped, or has not ended by the limit.
pub fn status_of(rows: &[Row]) -> u8
    ensures { result ≡ specs.status_of rows.now }
{
    if has_early(rows) { TASK_EARLY } else { DONE }
}

fn has_early(rows: &[Row]) -> bool
    ensures { result ≡ list_any (λ r. specs.is_early r.state) rows.now }
{
    rows.iter().any(|row| is_early(row.state))
}

fn is_early(state: RowState) -> bool
    ensures { result ≡ specs.is_early state }
{
    matches!(state, RowState::Limit | RowState::Trap { .. })
}

/// The text of the report of the rows of all cores.
pub fn report_text_of(
    alloc: Global,
    job: &RangedJob,
    rows: Vec<Row>,
) -> Result<Vec<u8>, OutOfMemory>
    ensures { IfOk result (λ text. text.items ≡ report_text (specs.report_rows job.now rows.items)) }
{
    let read = job.job();
    let rows = Rows {
        cores: read.cores,
        slot: read.slot,
        period: job.period(),
        rows: List::of(rows),
    };
    report(alloc, &rows)
}
