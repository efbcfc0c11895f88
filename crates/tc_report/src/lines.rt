//! The lines that other texts than a report have too, appended whole or not at all.
ghost use Rattle.std.specs.Prelude.{◌≡◌, ◌++◌, OnErr, OnOk};
ghost use Rattle.tc_report.specs.Line as specs;
ghost use Rattle.tc_report.specs.Report.{platform_line, state_line};

use crate::core_lines::{add_mean_line, add_outs, add_state_line, add_step_line};
use crate::rows::Row;
use crate::text::add_core_name;
use crate::whole::add_platform_line;
use tc_word::OutOfMemory;

/// So many bytes hold the longest line of a step: a cycle of 20 digits and five places of 10.
const STEP_ROOM: usize = 96;

/// Appends the name of a core, `core` and its number.
pub fn put_core_name(text: &mut Vec<u8>, core: u64) -> Result<(), OutOfMemory>
    ensures appended { OnOk result (text.new.items ≡ text.old.items ++ specs.core_name core) }
    ensures unchanged { OnErr result (text.new.items ≡ text.old.items) }
{
    let mut name = Vec::new(*text.allocator());
    add_core_name(&mut name, core)?;
    text.extend_from_slice(name.as_slice())
}

/// Appends the line of the platform: how many cores it has, and the lengths of a slot and of the period in cycles.
pub fn put_platform_line(
    text: &mut Vec<u8>,
    cores: u32,
    slot: u32,
    period: u32,
) -> Result<(), OutOfMemory>
    ensures appended { OnOk result (text.new.items ≡ text.old.items ++ platform_line cores slot period) }
    ensures unchanged { OnErr result (text.new.items ≡ text.old.items) }
{
    let mut line = Vec::new(*text.allocator());
    add_platform_line(&mut line, cores, slot, period)?;
    text.extend_from_slice(line.as_slice())
}

/// Appends the line that tells what became of a core's task.
pub fn put_state_line(text: &mut Vec<u8>, core: u64, row: &Row) -> Result<(), OutOfMemory>
    ensures appended { OnOk result (text.new.items ≡ text.old.items ++ state_line core row.now) }
    ensures unchanged { OnErr result (text.new.items ≡ text.old.items) }
{
    let mut line = Vec::new(*text.allocator());
    add_state_line(&mut line, core, row)?;
    text.extend_from_slice(line.as_slice())
}

/// Appends the line of a step of the five stages: the cycle of its bundle, and the places that fetch, decode, execute,
/// memory and write-back hold.
pub fn put_step_line(
    text: &mut Vec<u8>,
    cycle: u64,
    stages: &[Option<u32>; 5],
) -> Result<(), OutOfMemory>
    ensures appended { OnOk result (text.new.items ≡ text.old.items ++ specs.step_line cycle stages.now) }
    ensures unchanged { OnErr result (text.new.items ≡ text.old.items) }
{
    let mut line = Vec::with_capacity(*text.allocator(), STEP_ROOM)?;
    add_step_line(&mut line, cycle, stages)?;
    text.extend_from_slice(line.as_slice())
}

/// Appends the line that tells what a C task means: the value of its `main`, which is reported as
/// signed, and whether a loop of it ran past its count.
pub fn put_mean_line(
    text: &mut Vec<u8>,
    core: u64,
    value: u32,
    overrun: bool,
) -> Result<(), OutOfMemory>
    ensures appended { OnOk result (text.new.items ≡ text.old.items ++ specs.mean_line core value overrun) }
    ensures unchanged { OnErr result (text.new.items ≡ text.old.items) }
{
    let mut line = Vec::new(*text.allocator());
    add_mean_line(&mut line, core, value, overrun)?;
    text.extend_from_slice(line.as_slice())
}

/// Appends a line for each word of `out`, with its index from 0.
pub fn put_outs(
    text: &mut Vec<u8>,
    core: u64,
    unsigned: bool,
    words: &[u32],
) -> Result<(), OutOfMemory>
    ensures appended { OnOk result (text.new.items ≡ text.old.items ++ specs.outs_from core unsigned 0 words.now) }
    ensures unchanged { OnErr result (text.new.items ≡ text.old.items) }
{
    let mut lines = Vec::new(*text.allocator());
    add_outs(&mut lines, core, unsigned, words)?;
    text.extend_from_slice(lines.as_slice())
}
