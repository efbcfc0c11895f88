ghost use Rattle.std.specs.Prelude.{◌≡◌, ◌≢◌, ℕ, ◌<◌, ◌≤◌, [], ◌∷◌, ◌++◌, IfOk, OnOk, nat_eq, All, AllPairs, length, map, option_map};
ghost use Rattle.std.specs.List.{IsDistinct};
ghost use Rattle.toml.specs.View.{table_view, view};
ghost use Rattle.tc_toml.specs.Fault.{Gives, at_key};
ghost use Rattle.tc_job.specs.Ranges.{IsTaskAmong};
ghost use Rattle.tc_job.specs.Task as specs;
ghost use Rattle.tc_toml.specs.Values.{Reads};
ghost use Rattle.slot_arbiter.specs.declared.table.TheConstants.{MOST_CORES};

use crate::input::input_of;
use crate::keys::{Level, know_keys};
use indexmap::IndexSet;
use slot_arbiter::LATEST_START;
use std::alloc::Global;
use tc_toml::{JobError, JobFault, Refusal, Section, text_of};
use tc_word::{List, Text};
use toml::{Table, Value};

/// The language of a task's source.
#[derive(Clone, Copy, Debug, PartialEq, Eq)]
pub enum Lang {
    /// Assembly.
    Asm,
    /// The subset of C.
    C,
}

/// A task: what one core runs.
#[derive(Debug, Drop)]
pub struct Task {
    /// The number of its core.
    pub core: u32,
    pub lang: Lang,
    pub source: Text,
    /// At most [`local_store::INPUT_WORDS`], none where the job states none.
    pub input: List<u32>,
    /// The cycle at which it starts, at most [`LATEST_START`] and 0 where the job states none.
    pub start: u64,
}

/// The tasks of the tables, in their order, on a platform of that many cores.
#[tactic(auto, using(crate::proofs::Tasks::more_tasks, crate::proofs::Tasks::no_task, crate::proofs::Tasks::all_tasks, crate::proofs::Tasks::cores_push, crate::proofs::Tasks::among_push, crate::proofs::Tasks::few_tasks, crate::proofs::Tasks::apart_tasks))]
pub fn tasks_of(alloc: Global, tables: &[&Table], cores: u32) -> Result<List<Task>, JobError>
    requires some { 1 ≤ cores }
    requires most { cores ≤ MOST_CORES }
    ensures tasks { Gives (λ tasks. tasks) result (specs.tasks_from cores [] (map (λ t. table_view t.now) tables.now)) }
    ensures among { IfOk result (All (IsTaskAmong cores)) }
    ensures apart { IfOk result (AllPairs (λ s t. s.core ≢ t.core)) }
{
    let mut taken = IndexSet::new(alloc);
    let mut tasks = Vec::new(alloc);
    for table in tables {
        let section = Section {
            alloc,
            table: *table,
            task: Some(tasks.len() as u32),
        };
        tasks.push(task_in(&section, cores, &mut taken)?)?;
    }
    Ok(List::of(tasks))
}

/// The task of a table.
#[tactic(auto, unfolding(crate::specs::Task::task_in))]
fn task_in(section: &Section<'_>, cores: u32, taken: &mut IndexSet<u32>) -> Result<Task, JobError>
    requires { 1 ≤ cores }
    ensures task { Gives (λ task. task) result
        (specs.task_in cores taken.old.keys section.now.task (table_view section.now.table.now)) }
    ensures taken { IfOk result (λ task. taken.new.keys ≡ taken.old.keys ++ task.core ∷ []) }
    ensures apart { OnOk result (IsDistinct nat_eq taken.new.keys) }
    ensures among { IfOk result (IsTaskAmong cores) }
{
    let core = new_core(section, cores, taken)?;
    let lang = section.reported("lang", lang_of(section.value("lang")))?;
    let source = section.text("source")?;
    let input = section.reported("input", input_of(section.alloc, section.value("input")))?;
    let start = section.number_or("start", 0, 0, LATEST_START as u32)?;
    Ok(Task {
        core,
        lang,
        source: Text::of(String::from_str(section.alloc, source)?),
        input,
        start: u64::from(start),
    })
}

/// The core of a task, which is none of those that are taken, and is taken from now on.
#[tactic(auto, unfolding(crate::specs::Task::core_in))]
fn new_core(section: &Section<'_>, cores: u32, taken: &mut IndexSet<u32>) -> Result<u32, JobError>
    requires { 1 ≤ cores }
    ensures core { Gives (λ core. core) result
        (specs.core_in cores taken.old.keys section.now.task (table_view section.now.table.now)) }
    ensures taken { IfOk result (λ core. taken.new.keys ≡ taken.old.keys ++ core ∷ []) }
    ensures apart { OnOk result (IsDistinct nat_eq taken.new.keys) }
    ensures among { IfOk result (λ core. core < cores) }
{
    know_keys(section, Level::OfTask)?;
    let core = section.number("core", 0, cores - 1)?;
    if taken.insert(core)? {
        Ok(core)
    } else {
        Err(section.fault(JobFault::CoreTwice, "core"))
    }
}

/// The language that a value names, which must be there.
fn lang_of(value: Option<&Value>) -> Result<Lang, Refusal>
    ensures { Reads (λ lang. lang) result (specs.lang_of (option_map (λ v. view v.now) value.entry)) }
{
    match text_of(value)? {
        "asm" => Ok(Lang::Asm),
        "c" => Ok(Lang::C),
        _ => Err(Refusal::Fault(JobFault::Range)),
    }
}
