ghost use Rattle.std.specs.Prelude.{ℕ, ◌≡◌, ◌≤◌, length, slice_index, IfOk};
ghost use Rattle.argo_ni.specs.Packet.{comm_word};
ghost use Rattle.clock_board.specs.Board.{BoardFace};
ghost use Rattle.global_step.specs.Machine.{at_limit};
ghost use Rattle.tc_run.specs.Begun.{AreBegun};
ghost use Rattle.tc_run.specs.Carried.{Carries, workers_in};
ghost use Rattle.tc_run.specs.Final.{AreFinal};

use crate::begin::{core_of, count_of};
use crate::ending::{Final, end_of};
use crate::making::{board_of, groups_of};
use crate::threads::{Common, gather, run_through};
use core_worker::{Waiting, Worker};
use global_step::{Loaded, plain_run};
use local_store::{COMM_WORDS, SHARED_WORDS};
use patmos_core::Core;
use std::alloc::Global;
use std::sync::Wait;
use tc_io::Gate;
use tc_word::{List, OutOfMemory};

/// Runs a machine up to its limit in the calling thread and without a board: always the event of the least stamp.
#[tactic(auto, using(crate::proofs::Plain::all_seated, crate::proofs::Plain::all_free))]
pub fn run_plain(alloc: Global, machine: &Loaded) -> Result<Final, OutOfMemory>
    ensures cores { IfOk result (λ end. AreFinal machine.now end.cores) }
    ensures words { IfOk result (λ end. (w : ℕ) → slice_index end.words w ≡ (at_limit machine.now).words w) }
    ensures board { IfOk result (λ end. length end.words ≡ comm_word (length machine.now.cores) 0) }
{
    let mut cores = cores_of(alloc, machine)?;
    let count = count_of(machine) as u32;
    let mut words = vec![in alloc; 0; (SHARED_WORDS + COMM_WORDS * count) as usize]?;
    plain_run(cores.as_mut_slice(), words.as_mut_slice(), machine.limit());
    Ok(Final {
        cores: List::of(cores),
        words: List::of(words),
    })
}

/// Runs a machine up to its limit in the calling thread, its workers by turns.
pub fn run_by_turns<R: Wait, G: Gate>(
    alloc: Global,
    rt: &R,
    machine: &Loaded,
    gate: &G,
) -> Result<Final, OutOfMemory>
    ensures cores { IfOk result (λ end. AreFinal machine.now end.cores) }
    ensures words { IfOk result (λ end. (w : ℕ) → slice_index end.words w ≡ (at_limit machine.now).words w) }
    ensures board { IfOk result (λ end. length end.words ≡ comm_word (length machine.now.cores) 0) }
{
    let (board, mut maker) = board_of(alloc, machine)?;
    let groups = groups_of(rt, alloc, machine, &board, &mut maker)?;
    let mut workers = all_of(alloc, groups, count_of(machine))?;
    let cores = Vec::with_capacity(alloc, count_of(machine))?;
    let common = Common {
        rt,
        board: &board,
        waiting: &Waiting::new(false),
        gate,
    };
    run_through(common, &mut workers);
    Ok(end_of(machine, board, maker, workers, cores))
}

// the cores of a machine before the first cycle
fn cores_of(alloc: Global, machine: &Loaded) -> Result<Vec<Core>, OutOfMemory>
    ensures { IfOk result (λ cores. AreBegun machine.now cores.items) }
{
    let mut cores = Vec::new(alloc);
    for loaded in machine.cores() {
        cores.push(core_of(alloc, loaded, machine.trace())?)?;
    }
    Ok(cores)
}

// the workers of all groups, of which there are so many at most
fn all_of(
    alloc: Global,
    mut groups: Vec<Vec<Worker<Loaded>>>,
    workers: usize,
) -> Result<Vec<Worker<Loaded>>, OutOfMemory>
    requires room { length (workers_in groups.items) ≤ workers }
    ensures carries { IfOk result (λ all. (board : BoardFace) → Carries board (workers_in groups.items) all.items) }
{
    let mut all = Vec::with_capacity(alloc, workers)?;
    while let Some(group) = groups.pop() {
        gather(&mut all, group);
    }
    Ok(all)
}
