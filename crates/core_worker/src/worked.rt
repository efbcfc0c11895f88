//! Worked examples: the workers of two cores without tasks, which share words and never use them. They show
//! how workers are made, run and taken apart, and how a thread that sleeps for a clock is woken.
ghost use Rattle.std.specs.Prelude.{◌≡◌, ℕ, ◌≤◌, ◌<◌, [], length, IfOk, slice_index};
ghost use Rattle.clock_board.specs.Record.{empty};
ghost use Rattle.clock_board.specs.View.{own, IsGiven, IsMaker};
ghost use Rattle.clock_board.specs.Board.{IsPassOf};
ghost use Rattle.core_worker.specs.Worker.{IsOn, IsDone};

use crate::rounds::run_all;
use crate::turn::Turn;
use crate::waiting::{Patience, Waiting};
use crate::worker::Worker;
use clock_board::{Board, Course, Pass};
use patmos_core::Core;
use slot_arbiter::{MOST_CYCLES, Place};
use std::alloc::Global;
use std::slice::from_mut;
use std::sync::Wait;
use std::thread::{Threads, join, yield_now};
use tc_io::FreeGate;
use tc_word::{List as Words, OutOfMemory};

/// The course of two cores that share words and use none of them.
pub struct NoOperations;

impl Course for NoOperations {
    ghost use Rattle.std.specs.Prelude.{[]};

    ghost cores = { λ _. 2 };

    ghost all = { λ _. [] };

    ghost asked = { λ _ _ _. [] };
}

/// The worker of core number `core` of two.
fn idle_worker(pass: Pass<NoOperations>, core: u32, limit: u64) -> Worker<NoOperations>
    requires two { core < 2 }
    requires given { IsGiven pass.view }
    requires fresh { own pass.view ≡ empty core }
    requires cores { pass.view.cores ≡ 2 }
    requires course { pass.view.course ≡ [] }
    requires most { limit ≤ MOST_CYCLES }
    ensures pass { result.pass ≡ pass }
{
    let Some(place) = Place::new(2, core, 6, 0) else {
        unreachable!()
    };
    Worker::new(Core::idle(place), pass, limit)
}

/// Runs a worker to its end and gives its pass back.
fn run_to_end<R: Wait>(
    rt: &R,
    board: &Board<NoOperations>,
    waiting: &Waiting,
    mut worker: Worker<NoOperations>,
) -> Pass<NoOperations>
    requires of { IsOn board.now worker }
    ensures of { IsPassOf board.now result }
    ensures given { IsGiven result.view }
{
    worker.run(rt, board, waiting, &FreeGate);
    let (_, pass) = worker.finish();
    pass
}

/// The workers of two cores without tasks run to a limit, one after the other, on a board of `words` words:
/// what the words are then.
pub fn two_idle_cores<R: Wait>(
    rt: &R,
    alloc: Global,
    words: u32,
    limit: u64,
) -> Result<Words<u32>, OutOfMemory>
    requires most { limit ≤ MOST_CYCLES }
    ensures { IfOk result (λ r. (length r ≡ words) × ((w : ℕ) → w < words → slice_index r w ≡ 0)) }
{
    let (board, mut maker) = Board::new(alloc, &NoOperations, 2, words)?;
    let zero = idle_worker(board.give(rt, &mut maker, 0), 0, limit);
    let mut one = idle_worker(board.give(rt, &mut maker, 1), 1, limit);
    let waiting = Waiting::new(false);
    let zero = run_to_end(rt, &board, &waiting, zero);
    run_all(rt, from_mut(&mut one), &board, &waiting, &FreeGate);
    let (_, one) = one.finish();
    board.take_back(&mut maker, zero);
    board.take_back(&mut maker, one);
    Ok(board.close(maker))
}

/// Runs two idle cores, each worker in a thread of its own.
pub fn two_idle_cores_at_once<R: Threads + Wait + Sync>(
    rt: &R,
    alloc: Global,
    words: u32,
    limit: u64,
) -> Result<Words<u32>, OutOfMemory>
    requires most { limit ≤ MOST_CYCLES }
    ensures { IfOk result (λ r. (length r ≡ words) × ((w : ℕ) → w < words → slice_index r w ≡ 0)) }
{
    let (board, mut maker) = Board::new(alloc, &NoOperations, 2, words)?;
    let zero = idle_worker(board.give(rt, &mut maker, 0), 0, limit);
    let one = idle_worker(board.give(rt, &mut maker, 1), 1, limit);
    let waiting = Waiting::new(false);
    let (shared, beside) = (&board, &waiting);
    let (zero, one) = join(
        rt,
        || run_to_end(rt, shared, beside, zero),
        || run_to_end(rt, shared, beside, one),
    );
    board.take_back(&mut maker, zero);
    board.take_back(&mut maker, one);
    Ok(board.close(maker))
}

/// Waits until core 1's clock is at or past a stamp.
fn wait_for_one<R: Wait>(rt: &R, board: &Board<NoOperations>, waiting: &Waiting, wanted: u64) {
    let turn = Turn::Blocked {
        core: 1,
        seen: 0,
        wanted,
    };
    turn.wait(rt, board, waiting, &mut Patience::new());
}

/// Runs core 1's worker to its end, but not before a thread sleeps for its clock.
fn run_once_awaited<R: Wait>(
    rt: &R,
    board: &Board<NoOperations>,
    waiting: &Waiting,
    mut worker: Worker<NoOperations>,
)
    requires of { IsOn board.now worker }
{
    for _ in rt.forever() {
        if waiting.is_awaited(1) {
            break;
        }
        yield_now();
    }
    worker.run(rt, board, waiting, &FreeGate);
}

/// Core 1's worker alone, run for 5,000 cycles once another thread sleeps for the end of its first piece of 1,024: the
/// board, and what the threads share to wait, when both are through.
pub fn one_core_awaited<R: Threads + Wait + Sync>(
    rt: &R,
    alloc: Global,
    peeks_first: bool,
) -> Result<(Board<NoOperations>, Waiting), OutOfMemory>
    ensures { IfOk result (λ r. r.0.cores ≡ 2) }
{
    let (board, mut maker) = Board::new(alloc, &NoOperations, 2, 6)?;
    let worker = idle_worker(board.give(rt, &mut maker, 1), 1, 5000);
    let waiting = Waiting::new(peeks_first);
    let (shared, beside) = (&board, &waiting);
    join(
        rt,
        || wait_for_one(rt, shared, beside, 4096),
        || run_once_awaited(rt, shared, beside, worker),
    );
    Ok((board, waiting))
}
