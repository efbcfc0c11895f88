ghost use Rattle.std.specs.Prelude.{◌≡◌, ◌++◌, IfOk, OnOk, map};
ghost use Rattle.c_run.specs.Reported.{slot_words};
ghost use Rattle.c_tree.specs.Plain.{plain};
ghost use Rattle.c_world.specs.World.{World};
ghost use Rattle.job_tasks.specs.Coding.{bounded, shown, all_shown};
ghost use Rattle.job_rows.specs.Rows.{output_slot};
ghost use Rattle.tcrest.specs.Meanings as specs;

use c_run::{Outcome, mean, output_of};
use c_tree::Checked;
use job_tasks::{CodedTask, Program};
use std::alloc::Global;
use tc_report::{put_core_name, put_mean_line, put_outs};
use tc_word::OutOfMemory;

/// What the programs of C tasks mean, in the order of their cores, where a task that may take
/// longer than the limit is not carried out.
pub fn meanings(
    alloc: Global,
    limit: u64,
    coded: &[Option<CodedTask<'_>>],
) -> Result<Vec<u8>, OutOfMemory>
    ensures { IfOk result (λ text. text.items ≡ specs.meanings limit (all_shown coded.now)) }
{
    let mut text = Vec::new(alloc);
    for (core, one) in coded.iter().enumerate() {
        put_lines_on(&mut text, limit, core as u64, one)?;
    }
    Ok(text)
}

// what is reported of a core's task: nothing of an assembly task
fn put_lines_on(
    text: &mut Vec<u8>,
    limit: u64,
    core: u64,
    coded: &Option<CodedTask<'_>>,
) -> Result<(), OutOfMemory>
    ensures { OnOk result (text.new.items ≡ text.old.items ++ specs.lines_on limit core (shown coded.now)) }
{
    let Some(coded) = coded else {
        return Ok(());
    };
    match &coded.made.program {
        Some(program) => put_timely(text, limit, core, program, coded.task.input.as_slice()),
        None => Ok(()),
    }
}

// what a program means on its input, unless it may take longer than the limit
fn put_timely(
    text: &mut Vec<u8>,
    limit: u64,
    core: u64,
    program: &Program,
    input: &[u32],
) -> Result<(), OutOfMemory>
    ensures { OnOk result (text.new.items
        ≡ text.old.items ++ specs.timely_lines limit core input.now (bounded program.now)) }
{
    if limit < program.bound {
        put_core_name(text, core)?;
        return text.extend_from_slice(b" long\n");
    }
    put_program(text, core, &program.checked, input)
}

// what a program means on its input
fn put_program(
    text: &mut Vec<u8>,
    core: u64,
    program: &Checked,
    input: &[u32],
) -> Result<(), OutOfMemory>
    ensures { OnOk result (text.new.items
        ≡ text.old.items ++ specs.program_lines core input.now (plain program.now.unit)) }
{
    let outcome = mean(*text.allocator(), program, input)?;
    put_mean_line(text, core, outcome.value, outcome.overrun)?;
    put_output(text, core, program, &outcome)
}

// the words of the array `out` at the end, where there is one
fn put_output(
    text: &mut Vec<u8>,
    core: u64,
    program: &Checked,
    outcome: &Outcome,
) -> Result<(), OutOfMemory>
    ensures { OnOk result ((w : World) → outcome.now.stores ≡ map (slot_words w) program.now.layout
        → text.new.items ≡ text.old.items ++ specs.outs_of core w (output_slot (plain program.now.unit))) }
{
    let Some(number) = output_of(program) else {
        return Ok(());
    };
    let slots = program.layout.as_slice();
    let stores = outcome.stores.as_slice();
    if number >= slots.len() || number >= stores.len() {
        return Ok(());
    }
    put_outs(
        text,
        core,
        slots[number].unsigned,
        stores[number].as_slice(),
    )
}
