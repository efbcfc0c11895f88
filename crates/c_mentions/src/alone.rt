//! Which C tasks are alone with the data that they use.
ghost use Rattle.std.specs.Prelude.{◌≡◌, ◌<◌, map};
ghost use Rattle.c_mentions.specs.Alone as alone_specs;
ghost use Rattle.c_mentions.specs.Alone.{any_other};
ghost use Rattle.c_mentions.specs.Tasks.{running};
ghost use Rattle.slot_arbiter.specs.declared.table.TheConstants.{MOST_CORES};

use crate::tasks::{CoreTask, Mentioning};

// whether a task may write into the communication memory of another core
fn reaches<P: Mentioning>(task: &CoreTask<P>, core: usize) -> bool
    requires { core < MOST_CORES }
    ensures { result ≡ alone_specs.reaches core (running P.items task.now) }
{
    match task {
        CoreTask::Idle => false,
        CoreTask::Assembly => true,
        CoreTask::C(program) => program.mentions().sends_to(core),
    }
}

// whether it may write into the words that all cores share
fn writes_shared<P: Mentioning>(task: &CoreTask<P>) -> bool
    ensures { result ≡ alone_specs.writes_shared (running P.items task.now) }
{
    match task {
        CoreTask::Idle => false,
        CoreTask::Assembly => true,
        CoreTask::C(program) => program.mentions().assigns_shared,
    }
}

// whether a task of another core reaches this one
fn is_reached<P: Mentioning>(core: usize, tasks: &[CoreTask<P>]) -> bool
    requires { core < MOST_CORES }
    ensures { result ≡ any_other core (alone_specs.reaches core) 0 (map (running P.items) tasks.now) }
{
    for (at, task) in tasks.iter().enumerate() {
        if at != core && reaches(task, core) {
            return true;
        }
    }
    false
}

// whether a task of another core writes into the words that all cores share
fn is_shared_written<P: Mentioning>(core: usize, tasks: &[CoreTask<P>]) -> bool
    ensures { result ≡ any_other core alone_specs.writes_shared 0 (map (running P.items) tasks.now) }
{
    for (at, task) in tasks.iter().enumerate() {
        if at != core && writes_shared(task) {
            return true;
        }
    }
    false
}

/// Whether the task of a core, 0 to 15, is a C program that is alone with the data that it uses: no other task can
/// change what it mentions of `comm` and `shared`. The tasks of a job stand by their cores.
pub fn is_alone<P: Mentioning>(core: usize, tasks: &[CoreTask<P>]) -> bool
    requires { core < MOST_CORES }
    ensures { result ≡ alone_specs.is_alone core (map (running P.items) tasks.now) }
{
    let Some(task) = tasks.get(core) else {
        return false;
    };
    match task {
        CoreTask::Idle => false,
        CoreTask::Assembly => false,
        CoreTask::C(program) => {
            let mentions = program.mentions();
            !(mentions.comm && is_reached(core, tasks))
                && !(mentions.shared && is_shared_written(core, tasks))
        }
    }
}
