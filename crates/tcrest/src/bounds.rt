ghost use Rattle.std.specs.Prelude.{◌≡◌, ◌++◌, IfOk, OnOk};
ghost use Rattle.tcrest.specs.Bounds as specs;
ghost use Rattle.job_tasks.specs.Coding.{bounded, shown, all_shown};
ghost use Rattle.job_tasks.specs.Tasks.{told_from};

use job_tasks::{CodedTask, Program, RangedJob};
use std::alloc::Global;
use tc_io::put_number;
use tc_report::{put_core_name, put_platform_line};
use tc_word::OutOfMemory;

/// Which bounds are reported of a C task.
#[derive(Clone, Copy, Debug, PartialEq, Eq)]
pub enum Bounds {
    /// How many cycles it takes at most.
    Plain,
    /// And how many at most by what stays in the method cache.
    Persistent,
}

/// The platform, and how many cycles each C task takes at most, in the order of their cores.
pub fn bounds_text(
    alloc: Global,
    bounds: Bounds,
    job: &RangedJob,
    coded: &[Option<CodedTask<'_>>],
) -> Result<Vec<u8>, OutOfMemory>
    ensures { IfOk result (λ text. text.items ≡ specs.bounds_text bounds job.now (all_shown coded.now)) }
{
    let mut text = Vec::new(alloc);
    let read = job.job();
    put_platform_line(&mut text, read.cores, read.slot, job.period())?;
    put_bounds(&mut text, bounds, coded)?;
    Ok(text)
}

// the bounds of the tasks of cores
fn put_bounds(
    text: &mut Vec<u8>,
    bounds: Bounds,
    coded: &[Option<CodedTask<'_>>],
) -> Result<(), OutOfMemory>
    ensures { OnOk result (text.new.items
        ≡ text.old.items ++ told_from (specs.bound_line_on bounds) 0 (all_shown coded.now)) }
{
    for (core, one) in coded.iter().enumerate() {
        put_bounds_of(text, bounds, core as u64, one)?;
    }
    Ok(())
}

// the bounds of a core's task; an assembly task has none
fn put_bounds_of(
    text: &mut Vec<u8>,
    bounds: Bounds,
    core: u64,
    coded: &Option<CodedTask<'_>>,
) -> Result<(), OutOfMemory>
    ensures { OnOk result (text.new.items ≡ text.old.items ++ specs.bound_line_on bounds core (shown coded.now)) }
{
    let Some(coded) = coded else {
        return Ok(());
    };
    match &coded.made.program {
        Some(program) => put_line(text, bounds, core, program),
        None => Ok(()),
    }
}

fn put_line(
    text: &mut Vec<u8>,
    bounds: Bounds,
    core: u64,
    program: &Program,
) -> Result<(), OutOfMemory>
    ensures { OnOk result (text.new.items ≡ text.old.items ++ specs.bound_line bounds core (bounded program.now)) }
{
    put_core_name(text, core)?;
    text.extend_from_slice(b" bound ")?;
    put_number(text, program.bound)?;
    put_persist(text, bounds, program.persist)?;
    text.extend_from_slice(b"\n")
}

// the persistent bound, where it is reported
fn put_persist(text: &mut Vec<u8>, bounds: Bounds, persist: u64) -> Result<(), OutOfMemory>
    ensures { OnOk result (text.new.items ≡ text.old.items ++ specs.persist_text bounds persist) }
{
    match bounds {
        Bounds::Plain => Ok(()),
        Bounds::Persistent => {
            text.extend_from_slice(b" persist ")?;
            put_number(text, persist)
        }
    }
}
