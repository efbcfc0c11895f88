ghost use Rattle.std.specs.Prelude.{◌≡◌, ◌+◌, ◌<◌, ◌≤◌, [], length, vec_len, Some, slice_get, IfOk};
ghost use Rattle.std.specs.List.{All};
ghost use Rattle.clock_board.specs.Record.{empty};
ghost use Rattle.clock_board.specs.View.{own, maker as new_maker, IsGiven};
ghost use Rattle.clock_board.specs.Board.{IsPassOf};
ghost use Rattle.core_worker.specs.Worker.{face};
ghost use Rattle.global_step.specs.Machine.{all_operations};
ghost use Rattle.global_step.specs.Range.{IsOfWords};
ghost use Rattle.tc_run.specs.Carried.{workers_in};
ghost use Rattle.tc_run.specs.Groups.{AreGrouped, tasks_of, group_of};
ghost use Rattle.tc_run.specs.Worked.{number, number_of, IsFirst, IsWorkerOf, IsAtWork, IsBoardOf, HaveAll};

use crate::begin::{core_of, count_of};
use crate::in_words::loaded_with_words;
use clock_board::{Board, Pass};
use core_worker::Worker;
use global_step::{Loaded, LoadedCore};
use local_store::{COMM_WORDS, SHARED_WORDS};
use patmos_core::Core;
use std::alloc::Global;
use std::sync::Wait;
use tc_word::OutOfMemory;

/// A board for a machine, on which nothing was made, and the maker's pass.
pub(crate) fn board_of(
    alloc: Global,
    machine: &Loaded,
) -> Result<(Board<Loaded>, Pass<Loaded>), OutOfMemory>
    ensures words { IsOfWords machine.now }
    ensures board { IfOk result (λ b. IsBoardOf machine.now b.0) }
    ensures of { IfOk result (λ b. IsPassOf b.0 b.1) }
    ensures maker { IfOk result (λ b.
        b.1.view ≡ new_maker (length machine.now.cores) (all_operations machine.now)) }
{
    loaded_with_words(machine);
    let cores = count_of(machine) as u32;
    Board::new(alloc, machine, cores, SHARED_WORDS + COMM_WORDS * cores)
}

/// Makes the worker of each core, in groups: the k-th core with a task, counted from 0 by rising number,
/// belongs to the group of number k mod w, where w is among how many workers the cores are divided; the last
/// group has the cores without a task.
pub(crate) fn groups_of<R: Wait>(
    rt: &R,
    alloc: Global,
    machine: &Loaded,
    board: &Board<Loaded>,
    maker: &mut Pass<Loaded>,
) -> Result<Vec<Vec<Worker<Loaded>>>, OutOfMemory>
    requires board { IsBoardOf machine.now board.now }
    requires of { IsPassOf board.now maker.old }
    requires maker { maker.old.view ≡ new_maker (length machine.now.cores) (all_operations machine.now) }
    ensures same { maker.new ≡ maker.old }
    ensures count { IfOk result (λ groups. vec_len groups ≡ machine.now.workers + 1) }
    ensures of { IfOk result (λ groups. All (IsAtWork machine.now board.now) (workers_in groups.items)) }
    ensures all { IfOk result (λ groups. HaveAll machine.now (workers_in groups.items)) }
    ensures total { IfOk result (λ groups. length (workers_in groups.items) ≡ length machine.now.cores) }
    ensures grouped { IfOk result (λ groups. AreGrouped machine.now (length machine.now.cores) groups.items) }
{
    let count = machine.workers();
    let mut groups = no_workers(alloc, count)?;
    let mut tasks = 0;
    for loaded in machine.cores() {
        let worker = seated(rt, alloc, machine, board, maker, loaded)?;
        let group = group_of(loaded, tasks, count);
        groups[group].push(worker)?;
        tasks += tasks_of(loaded);
    }
    Ok(groups)
}

// how many tasks a core has
fn tasks_of(loaded: &LoadedCore) -> usize
    ensures is { result ≡ tasks_of loaded.now }
    ensures one { result ≤ 1 }
{
    match loaded.image {
        Some(_) => 1,
        None => 0,
    }
}

// the number of the group of a core before which there are so many with a task
fn group_of(loaded: &LoadedCore, tasks: usize, count: u32) -> usize
    requires some { 0 < count }
    ensures is { result ≡ group_of loaded.now tasks count }
    ensures within { result ≤ count }
{
    match loaded.image {
        Some(_) => tasks % count as usize,
        None => count as usize,
    }
}

// a group more than so many, without workers
fn no_workers(alloc: Global, count: u32) -> Result<Vec<Vec<Worker<Loaded>>>, OutOfMemory>
    ensures count { IfOk result (λ groups. vec_len groups ≡ count + 1) }
    ensures none { IfOk result (λ groups. workers_in groups.items ≡ []) }
{
    let mut groups = Vec::new(alloc);
    for _k in 0..count as usize + 1 {
        groups.push(Vec::new(alloc))?;
    }
    Ok(groups)
}

// the worker of a core that was loaded, with its pass
fn seated<R: Wait>(
    rt: &R,
    alloc: Global,
    machine: &Loaded,
    board: &Board<Loaded>,
    maker: &mut Pass<Loaded>,
    loaded: &LoadedCore,
) -> Result<Worker<Loaded>, OutOfMemory>
    requires there { slice_get machine.now.cores loaded.now.place.core ≡ Some loaded.now }
    requires among { loaded.now.place.core < length machine.now.cores }
    requires board { IsBoardOf machine.now board.now }
    requires of { IsPassOf board.now maker.old }
    requires maker { maker.old.view ≡ new_maker (length machine.now.cores) (all_operations machine.now) }
    ensures same { maker.new ≡ maker.old }
    ensures number { IfOk result (λ w. number_of w ≡ loaded.now.place.core) }
    ensures of { IfOk result (λ w. IsAtWork machine.now board.now w) }
{
    let core = core_of(alloc, loaded, machine.trace())?;
    let pass = board.give(rt, maker, loaded.place.core);
    Ok(worker_of(core, pass, machine))
}

// the worker of a core of the machine, before the first cycle, and of that core's new pass
fn worker_of(core: Core, pass: Pass<Loaded>, machine: &Loaded) -> Worker<Loaded>
    requires first { IsFirst machine.now core }
    requires given { IsGiven pass.view }
    requires fresh { own pass.view ≡ empty (number core) }
    requires cores { pass.view.cores ≡ length machine.now.cores }
    requires course { pass.view.course ≡ all_operations machine.now }
    ensures of { IsWorkerOf machine.now result }
    ensures is { result ≡ face core pass machine.now.limit }
{
    Worker::new(core, pass, machine.limit())
}
