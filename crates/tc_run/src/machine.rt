ghost use Rattle.std.specs.Prelude.{ℕ, ◌≡◌, length, vec_len, slice_index, IfOk};
ghost use Rattle.argo_ni.specs.Packet.{comm_word};
ghost use Rattle.global_step.specs.Machine.{at_limit};
ghost use Rattle.tc_run.specs.Final.{AreFinal};

use crate::begin::count_of;
use crate::crew::{Crew, run_groups};
use crate::ending::{Final, end_of};
use crate::making::{board_of, groups_of};
use crate::threads::Common;
use core_worker::Waiting;
use global_step::Loaded;
use std::alloc::Global;
use std::sync::Wait;
use std::sync::atomic::AtomicBool;
use std::thread::{Threads, available_parallelism};
use tc_io::Gate;
use tc_word::OutOfMemory;

/// Runs a machine up to its limit, its cores in as many workers as the machine says, each in a thread of its
/// own where one can be started. Memory is taken before the first step alone. The gate is told each event once.
pub fn run_machine<R: Threads + Wait + Sync, G: Gate + Sync>(
    alloc: Global,
    rt: &R,
    machine: &Loaded,
    gate: &G,
) -> Result<Final, OutOfMemory>
    ensures cores { IfOk result (λ end. AreFinal machine.now end.cores) }
    ensures words { IfOk result (λ end. (w : ℕ) → slice_index end.words w ≡ (at_limit machine.now).words w) }
    ensures board { IfOk result (λ end. length end.words ≡ comm_word (length machine.now.cores) 0) }
{
    let waiting = Waiting::new(has_processors(rt, machine));
    run_waiting(alloc, rt, machine, &waiting, gate)
}

/// [`run_machine`] over what its workers share to wait for one another.
pub fn run_waiting<R: Threads + Wait + Sync, G: Gate + Sync>(
    alloc: Global,
    rt: &R,
    machine: &Loaded,
    waiting: &Waiting,
    gate: &G,
) -> Result<Final, OutOfMemory>
    ensures cores { IfOk result (λ end. AreFinal machine.now end.cores) }
    ensures words { IfOk result (λ end. (w : ℕ) → slice_index end.words w ≡ (at_limit machine.now).words w) }
    ensures board { IfOk result (λ end. length end.words ≡ comm_word (length machine.now.cores) 0) }
{
    let (board, mut maker) = board_of(alloc, machine)?;
    let mut groups = groups_of(rt, alloc, machine, &board, &mut maker)?;
    let crew = Crew::with_last(alloc, &mut groups, count_of(machine))?;
    let refused = flags_of(alloc, groups.len())?;
    let cores = Vec::with_capacity(alloc, count_of(machine))?;
    let common = Common {
        rt,
        board: &board,
        waiting,
        gate,
    };
    let workers = run_groups(common, groups, crew, refused.as_slice());
    Ok(end_of(machine, board, maker, workers, cores))
}

// whether each worker of a machine can have a processor of its own
fn has_processors<R: Threads>(rt: &R, machine: &Loaded) -> bool {
    match available_parallelism(rt) {
        Ok(count) => machine.workers() as usize <= count.get(),
        Err(_) => false,
    }
}

// so many flags, each down
fn flags_of(alloc: Global, count: usize) -> Result<Vec<AtomicBool>, OutOfMemory>
    ensures { IfOk result (λ flags. vec_len flags ≡ count) }
{
    let mut flags = Vec::with_capacity(alloc, count)?;
    for _k in 0..count {
        flags.push_reserved(AtomicBool::new(false));
    }
    Ok(flags)
}
