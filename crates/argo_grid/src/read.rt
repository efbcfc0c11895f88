ghost use Rattle.std.specs.Prelude.{◌≡◌, ◌*◌, ◌≤◌, IfOk};
ghost use Rattle.toml.specs.View.{table_view};
ghost use Rattle.tc_toml.specs.Fault.{Gives};
ghost use Rattle.argo_grid.specs.Read as specs;
ghost use Rattle.slot_arbiter.specs.declared.table.TheConstants.{MOST_CORES};

use crate::entries::entries_of;
use crate::grid::Grid;
use crate::job::{GridJob, MOST_PERIOD};
use slot_arbiter::MOST_CORES;
use std::alloc::Global;
use tc_toml::{JobError, JobFault, Section, tree_of};
use toml::Table;

/// The schedule that the bytes stand for, or the first of their faults.
#[tactic(auto, unfolding(crate::specs::Read::schedule_of))]
pub fn read_grid(alloc: Global, bytes: &[u8]) -> Result<GridJob, JobError>
    ensures { Gives (λ job. job) result (specs.schedule_of bytes.now) }
{
    let table = tree_of(alloc, bytes)?;
    grid_in(alloc, &table)
}

/// The schedule of a tree.
#[tactic(auto, unfolding(crate::specs::Read::schedule_in))]
fn grid_in(alloc: Global, table: &Table) -> Result<GridJob, JobError>
    ensures { Gives (λ job. job) result (specs.schedule_in (table_view table.now)) }
{
    let top = Section {
        alloc,
        table,
        task: None,
    };
    knows_keys(&top)?;
    let columns = top.number("columns", 1, MOST_CORES)?;
    let rows = rows_in(&top, columns)?;
    let length = top.number("length", 1, MOST_PERIOD)?;
    let entries = top.reported("entries", entries_of(alloc, top.value("entries")))?;
    Ok(GridJob {
        grid: Grid { columns, rows },
        length,
        entries,
    })
}

/// Refuses the least key that a schedule does not have: the first, since keys rise.
fn knows_keys(top: &Section<'_>) -> Result<(), JobError>
    requires { top.now.task ≡ None }
    ensures { Gives (λ _. tt) result (specs.known_keys (table_view top.now.table.now)) }
{
    'keys: for (key, _value) in top.table.iter() {
        if !is_key(key.as_str()) {
            return Err(top.fault(JobFault::Key, key.as_str()));
        }
    }
    Ok(())
}

fn is_key(key: &str) -> bool
    ensures { result ≡ specs.is_key key.now }
{
    key == "columns" || key == "rows" || key == "length" || key == "entries"
}

/// The rows, which make a grid of 2 to 16 routers.
#[tactic(auto, unfolding(crate::specs::Read::rows_in))]
fn rows_in(top: &Section<'_>, columns: u32) -> Result<u32, JobError>
    requires task { top.now.task ≡ None }
    requires most { columns ≤ MOST_CORES }
    ensures rows { Gives (λ rows. rows) result (specs.rows_in columns (table_view top.now.table.now)) }
    ensures some { IfOk result (λ rows. 1 ≤ rows) }
    ensures least { IfOk result (λ rows. 2 ≤ columns * rows) }
    ensures most { IfOk result (λ rows. columns * rows ≤ MOST_CORES) }
{
    let rows = top.number("rows", 1, MOST_CORES)?;
    let routers = columns * rows;
    if 2 <= routers && routers <= MOST_CORES {
        Ok(rows)
    } else {
        Err(top.fault(JobFault::Range, "rows"))
    }
}
