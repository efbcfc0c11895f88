//! The texts of the code of C tasks.
ghost use Rattle.std.specs.Prelude.{◌≡◌, ◌<◌, ◌∷◌, ◌++◌, [], All, IfOk, OnOk, length, string_bytes};
ghost use Rattle.c_meaning.specs.Resolve.{names_in};
ghost use Rattle.c_tree.specs.Plain.{plain, plain_item};
ghost use Rattle.job_tasks.specs.Coding.{bounded, shown, all_shown, HasShapeOn, IsShaped};
ghost use Rattle.job_tasks.specs.Making.{IsCompiled, IsMadeOn, AreMade};
ghost use Rattle.tccode.specs.Codes as specs;

use c_tree::{Item, Unit};
use code_text::{Numbers, names_for, tallies_add_up, task_text};
use job_tasks::{CodedTask, Program, RangedJob};
use patmos_code::Image;
use std::alloc::Global;
use tc_word::{OutOfMemory, Text};

// adds the name of a function
fn push_name(alloc: Global, names: &mut Vec<Text>, item: &Item) -> Result<(), OutOfMemory>
    ensures { OnOk result (names.new.items ≡ names.old.items ++ names_in (plain_item item.now ∷ [])) }
{
    match item {
        Item::Function { function } => {
            names.push(Text::of(String::from_str(alloc, function.name.as_str())?))?;
            Ok(())
        }
        Item::Global { .. } => Ok(()),
    }
}

// the names of a program's functions, in its order
fn names_of(alloc: Global, unit: &Unit) -> Result<Vec<Text>, OutOfMemory>
    ensures { IfOk result (λ names. names.items ≡ names_in (plain unit.now)) }
{
    let mut names = Vec::new(alloc);
    for item in unit.items.as_slice() {
        push_name(alloc, &mut names, item)?;
    }
    Ok(names)
}

// the code of a program on a core
fn program_text(
    alloc: Global,
    job: &RangedJob,
    core: u32,
    image: &Image,
    program: &Program,
) -> Result<String, OutOfMemory>
    requires core { core < job.now.cores }
    requires shaped { IsShaped image.now program.now }
    requires compiled { IsCompiled job.now core image.now (bounded program.now) }
    ensures text { IfOk result (λ text. string_bytes text ≡ specs.program_text job.now core (bounded program.now)) }
    ensures tells { IfOk result (λ _. specs.TellsCode job.now core (bounded program.now)) }
{
    let place = job.place_of(core, 0);
    tallies_add_up(&place);
    let names = names_of(alloc, &program.checked.unit)?;
    let names = names_for(alloc, names, program.shape.functions.as_slice().len())?;
    let numbers = Numbers {
        core,
        bound: program.bound,
        persist: program.persist,
    };
    task_text(
        alloc,
        names.as_slice(),
        numbers,
        &place,
        &program.shape,
        image,
    )
}

// adds the code of a core's task, if it has one in C
fn put_core(
    text: &mut Vec<u8>,
    alloc: Global,
    job: &RangedJob,
    core: u32,
    coded: &Option<CodedTask<'_>>,
) -> Result<(), OutOfMemory>
    requires core { core < job.now.cores }
    requires shape { HasShapeOn coded.now }
    requires made { IsMadeOn job.now core (shown coded.now) }
    ensures text { OnOk result (text.new.items ≡ text.old.items ++ specs.core_text job.now core (shown coded.now)) }
    ensures tells { OnOk result (specs.TellsOn job.now core (shown coded.now)) }
{
    let Some(coded) = coded else {
        return Ok(());
    };
    let Some(program) = &coded.made.program else {
        return Ok(());
    };
    let code = program_text(alloc, job, core, &coded.made.image, program)?;
    text.extend_from_slice(code.as_bytes())
}

/// The code of the C tasks of cores, in the order of the cores.
pub fn job_text(
    alloc: Global,
    job: &RangedJob,
    coded: &[Option<CodedTask<'_>>],
) -> Result<Vec<u8>, OutOfMemory>
    requires count { length coded.now ≡ job.now.cores }
    requires shapes { All HasShapeOn coded.now }
    requires made { AreMade job.now (all_shown coded.now) }
    ensures text { IfOk result (λ text. text.items ≡ specs.job_text job.now (all_shown coded.now)) }
    ensures tells { IfOk result (λ _. specs.TellsCodes job.now (all_shown coded.now)) }
{
    job.keeps_ranges();
    let mut text = Vec::new(alloc);
    for (core, one) in coded.iter().enumerate() {
        put_core(&mut text, alloc, job, core as u32, one)?;
    }
    Ok(text)
}
