ghost use Rattle.std.specs.Prelude.{◌≡◌, ◌++◌, IfOk, OnOk};
ghost use Rattle.tc_report.specs.Report as specs;

use crate::core_lines::{add_state_line, put_accesses, put_dropped, put_out_lines};
use crate::rows::{Row, Rows};
use std::alloc::Global;
use tc_io::{put, put_with};
use tc_word::OutOfMemory;

/// The report of a machine's end, one row for each core.
#[tactic(auto, unfolding(crate::specs::Report::report_text))]
pub fn report(alloc: Global, rows: &Rows) -> Result<Vec<u8>, OutOfMemory>
    ensures { IfOk result (λ text. text.items ≡ specs.report_text rows.now) }
{
    let mut text = Vec::new(alloc);
    add_platform_line(&mut text, rows.cores, rows.slot, rows.period)?;
    put_cores(&mut text, rows.rows.as_slice())?;
    Ok(text)
}

/// Appends the line of the platform: how many cores it has, and the lengths of a slot and of the period in cycles.
#[tactic(auto, unfolding(crate::specs::Report::platform_line))]
pub fn add_platform_line(
    text: &mut Vec<u8>,
    cores: u32,
    slot: u32,
    period: u32,
) -> Result<(), OutOfMemory>
    ensures { OnOk result (text.new.items ≡ text.old.items ++ specs.platform_line cores slot period) }
{
    put_with(text, "platform cores ", u64::from(cores))?;
    put_with(text, " slot ", u64::from(slot))?;
    put_with(text, " period ", u64::from(period))?;
    put(text, "\n")
}

/// Appends all that is reported of the cores.
#[tactic(auto, using(crate::proofs::Appends::more_cores, crate::proofs::Appends::all_cores))]
fn put_cores(text: &mut Vec<u8>, rows: &[Row]) -> Result<(), OutOfMemory>
    ensures { OnOk result (text.new.items ≡ text.old.items ++ specs.cores_from 0 rows.now) }
{
    for (core, row) in rows.iter().enumerate() {
        put_core(text, core as u64, row)?;
    }
    Ok(())
}

/// Appends all that is reported of a core.
#[tactic(auto, unfolding(crate::specs::Report::core_lines))]
fn put_core(text: &mut Vec<u8>, core: u64, row: &Row) -> Result<(), OutOfMemory>
    ensures { OnOk result (text.new.items ≡ text.old.items ++ specs.core_lines core row.now) }
{
    add_state_line(text, core, row)?;
    put_out_lines(text, core, row)?;
    put_dropped(text, core, row.dropped)?;
    put_accesses(text, core, row.accesses.as_slice())
}
