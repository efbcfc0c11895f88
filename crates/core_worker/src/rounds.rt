//! Several workers on one thread.
ghost use Rattle.std.specs.Prelude.{IsTrue};
ghost use Rattle.std.specs.List.{All};
ghost use Rattle.core_worker.specs.Worker.{AreLater, IsOn, IsDone, HasPieces};

use crate::turn::Turn;
use crate::waiting::{Patience, Waiting};
use crate::worker::Worker;
use clock_board::{Board, Course};
use std::sync::Wait;
use tc_io::Gate;

/// Each of the workers goes on as far as it can, in their order: whether none of them has an event left. Where
/// all others wait, it waits for the clock that the least of their events waits for: the later ones wait for it too.
fn round<R: Wait, C: Course, G: Gate>(
    rt: &R,
    workers: &mut [Worker<C>],
    board: &Board<C>,
    waiting: &Waiting,
    gate: &G,
    patience: &mut Patience,
) -> bool
    requires of { All (IsOn board.now) workers.old }
    ensures of { All (IsOn board.now) workers.new }
    ensures later { AreLater workers.old workers.new }
    ensures pieces { All HasPieces workers.new }
    ensures ended { IsTrue result → All IsDone workers.new }
{
    let mut ended = true;
    let mut moved = false;
    let mut least = Turn::Ended;
    for k in 0..workers.len() {
        let turn = workers[k].advance_on(board, waiting, gate);
        ended &= turn.has_ended();
        moved |= turn.has_moved();
        least = turn.sooner(least);
    }
    if !moved {
        least.wait(rt, board, waiting, patience);
    }
    ended
}

/// Takes turns of the workers as [`run_all`] does, but ends too where the threads of the run give their workers
/// back: then events may be left.
pub fn run_some<R: Wait, C: Course, G: Gate>(
    rt: &R,
    workers: &mut [Worker<C>],
    board: &Board<C>,
    waiting: &Waiting,
    gate: &G,
)
    requires of { All (IsOn board.now) workers.old }
    ensures of { All (IsOn board.now) workers.new }
    ensures later { AreLater workers.old workers.new }
{
    let mut patience = Patience::new();
    for _ in rt.forever() {
        if round(rt, workers, board, waiting, gate, &mut patience) || waiting.is_gathering() {
            break;
        }
    }
}

/// Takes turns of the workers, in their order, until no event is left for any of them below its limit. It may
/// wait for workers elsewhere, and wakes those that sleep for the clocks of these.
pub fn run_all<R: Wait, C: Course, G: Gate>(
    rt: &R,
    workers: &mut [Worker<C>],
    board: &Board<C>,
    waiting: &Waiting,
    gate: &G,
)
    requires of { All (IsOn board.now) workers.old }
    ensures of { All (IsOn board.now) workers.new }
    ensures later { AreLater workers.old workers.new }
    ensures pieces { All HasPieces workers.new }
    ensures ended { All IsDone workers.new }
{
    let mut patience = Patience::new();
    for _ in rt.forever() {
        if round(rt, workers, board, waiting, gate, &mut patience) {
            break;
        }
    }
}
