ghost use Rattle.std.specs.Prelude.{◌≡◌, ℕ, ◌+◌, ◌≤◌, ◌++◌, vec_len, vec_capacity, IfOk, IfErr};
ghost use Rattle.std.specs.List.{All};
ghost use Rattle.core_worker.specs.Worker.{AreLater, IsDone, IsOn};
ghost use Rattle.tc_run.specs.Carried.{Carries};

use clock_board::Board;
use core_worker::{Waiting, Worker, run_all, run_some};
use global_step::Loaded;
use std::snapshot::Snapshot;
use std::sync::Wait;
use std::sync::atomic::{AtomicBool, Ordering};
use std::thread::{Promise, PromisedHandle, Scope, Threads};
use tc_io::Gate;

/// What the workers of a run have in common: the runtime, their board, what they share to wait for one another, and the
/// gate that is told each event. A closure captures these one by one: nothing is known of the result of one that
/// captures a record of references.
#[derive_where(Clone, Copy)]
pub(crate) struct Common<'s, R, G> {
    pub(crate) rt: &'s R,
    pub(crate) board: &'s Board<Loaded>,
    pub(crate) waiting: &'s Waiting,
    pub(crate) gate: &'s G,
}

/// That the workers that a thread gives back are those that moved into it, later.
#[derive(Drop)]
pub(crate) struct SameWorkers {
    pub(crate) was: Snapshot<Vec<Worker<Loaded>>>,
    pub(crate) board: Snapshot<Board<Loaded>>,
}

impl Promise<Vec<Worker<Loaded>>> for SameWorkers {
    ghost use Rattle.std.specs.List.{All};
    ghost use Rattle.core_worker.specs.Worker.{AreLater, IsOn};

    ghost kept_by = { λ p ws. All (IsOn p.board.value) ws.items × AreLater p.was.value.items ws.items };
}

/// What the thread of a group does: it runs the workers, unless its start was refused, until none of them has an event
/// left or all threads give theirs back, and gives them back.
pub(crate) fn run_group<R: Wait, G: Gate>(
    rt: &R,
    mut workers: Vec<Worker<Loaded>>,
    refused: &AtomicBool,
    board: &Board<Loaded>,
    waiting: &Waiting,
    gate: &G,
) -> Vec<Worker<Loaded>>
    requires on { All (IsOn board.now) workers.items }
    ensures on { All (IsOn board.now) result.items }
    ensures later { AreLater workers.items result.items }
{
    if !refused.load(Ordering::SeqCst) {
        run_some(rt, workers.as_mut_slice(), board, waiting, gate);
    }
    workers
}

/// Starts the thread of a group. Where that is refused, it gives the group's workers back unrun.
pub(crate) fn start_group<'s, E, R: Threads + Wait + Sync, G: Gate + Sync>(
    scope: &Scope<'s, E>,
    common: Common<'s, R, G>,
    workers: Vec<Worker<Loaded>>,
    refused: &'s AtomicBool,
) -> Result<PromisedHandle<Vec<Worker<Loaded>>, SameWorkers>, Vec<Worker<Loaded>>>
    requires on { All (IsOn common.board.now) workers.items }
    ensures started { IfOk result (λ h.
        (h.promise.was.value ≡ workers) × (h.promise.board.value ≡ common.entry.board.now)) }
    ensures on { IfErr result (λ ws. All (IsOn common.entry.board.now) ws.items) }
    ensures later { IfErr result (λ ws. AreLater workers.items ws.items) }
{
    let Common {
        rt,
        board,
        waiting,
        gate,
    } = common;
    let promise = SameWorkers {
        was: Snapshot::of(&workers),
        board: Snapshot::of(board),
    };
    match scope.spawn_with(
        promise,
        move || run_group(rt, workers, refused, board, waiting, gate),
    ) {
        Ok(handle) => Ok(handle),
        Err(back) => {
            refused.store(true, Ordering::SeqCst);
            Err((back.value)())
        }
    }
}

/// Puts a group's workers after others, for which there is room.
pub(crate) fn gather(all: &mut Vec<Worker<Loaded>>, mut group: Vec<Worker<Loaded>>)
    requires room { vec_len all.old + vec_len group ≤ vec_capacity all.old }
    ensures items { all.new.items ≡ all.old.items ++ group.items }
    ensures room { vec_capacity all.old ≤ vec_capacity all.new }
{
    if all.append(&mut group).is_err() {
        unreachable!()
    }
}

/// Runs workers until none of them has an event left, or the threads of the run give theirs back.
pub(crate) fn run_on<R: Wait, G: Gate>(common: Common<'_, R, G>, workers: &mut Vec<Worker<Loaded>>)
    requires on { All (IsOn common.board.now) workers.old.items }
    ensures carries { Carries common.entry.board.now workers.old.items workers.new.items }
    ensures room { vec_capacity workers.new ≡ vec_capacity workers.old }
{
    run_some(
        common.rt,
        workers.as_mut_slice(),
        common.board,
        common.waiting,
        common.gate,
    );
}

/// Runs workers until none of them has an event left.
pub(crate) fn run_through<R: Wait, G: Gate>(
    common: Common<'_, R, G>,
    workers: &mut Vec<Worker<Loaded>>,
)
    requires on { All (IsOn common.board.now) workers.old.items }
    ensures carries { Carries common.entry.board.now workers.old.items workers.new.items }
    ensures done { All IsDone workers.new.items }
    ensures room { vec_capacity workers.new ≡ vec_capacity workers.old }
{
    run_all(
        common.rt,
        workers.as_mut_slice(),
        common.board,
        common.waiting,
        common.gate,
    );
}
