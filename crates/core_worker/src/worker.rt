//! A worker.
ghost use Rattle.std.specs.Prelude.{◌≡◌, ◌≤◌, [], None};
ghost use Rattle.clock_board.specs.Record.{empty};
ghost use Rattle.clock_board.specs.View.{own, IsGiven};
ghost use Rattle.patmos_model.specs.State as state;
ghost use Rattle.patmos_core.specs.Position.{StandsFor, waiting_of, limit_of, place_of};
ghost use Rattle.core_worker.specs.Runs.{listed, Makes};
ghost use Rattle.core_worker.specs.Worker.{face, HasTurned, IsLater, IsOn, IsDone, HasPieces};

use crate::progress::Progress;
use crate::turn::Turn;
use crate::waiting::{Patience, Waiting};
use clock_board::{Board, Course, Pass};
use patmos_core::Core;
use slot_arbiter::{MOST_CYCLES, Place};
use std::marker::Model;
use std::sync::Wait;
use tc_io::Gate;

/// How many turns a worker takes at most before it is the next one's turn, but for the first.
const MORE_TURNS: u32 = 63;

/// A core that is run against a board of published clocks, and the core's pass of that board.
///
/// Contracts see the core, the pass and the limit in cycles.
#[derive(Drop)]
pub struct Worker<C> {
    progress: Progress<C>,
}

impl<C> Model for Worker<C> {
    ghost use Rattle.std.specs.Coded.{codes};
    ghost use Rattle.patmos_core.specs.contracts.cpu.Core as core;
    ghost use Rattle.core_worker.specs.Kept.{IsKept};
    ghost use Rattle.core_worker.specs.Worker.{WorkerFace, face};

    ghost Value = { WorkerFace };

    ghost coded = { Prim.hlevel (codes, core.the_row.coded) };

    ghost view = { λ w. face w.progress.core w.progress.pass w.progress.limit };

    ghost invariant = { λ w. IsKept w.progress.limit w.progress.reached w.progress.ended
        w.progress.core w.progress.pass.view };
}

impl<C> Worker<C> {
    /// The worker of a core that was not stepped yet and of that core's new pass, on a board with as many
    /// cores as the core's platform has. What the core makes below the limit, at most [`MOST_CYCLES`], when
    /// its loads have the course's values, is the course's list of it.
    pub fn new(core: Core, pass: Pass<C>, limit: u64) -> Worker<C>
        requires waiting { waiting_of core ≡ None }
        requires unstepped { limit_of core ≡ 0 }
        requires given { IsGiven pass.view }
        requires fresh { own pass.view ≡ empty (place_of core).core }
        requires cores { pass.view.cores ≡ (place_of core).cores }
        requires most { limit ≤ MOST_CYCLES }
        requires course { (x : state.Core) × StandsFor core x [] × Makes x (listed pass.view) limit }
        ensures { result ≡ face core pass limit }
    {
        Worker {
            progress: Progress {
                core,
                pass,
                limit,
                reached: 0,
                ended: false,
            },
        }
    }

    /// The place of its core.
    pub fn place(&self) -> Place
        ensures { result ≡ place_of self.now.core }
    {
        self.progress.core.place()
    }

    /// Gives the core and the pass back.
    pub fn finish(self) -> (Core, Pass<C>)
        ensures core { result.0 ≡ self.core }
        ensures pass { result.1 ≡ self.pass }
        ensures given { IsGiven result.1.view }
    {
        let Worker { progress } = self;
        let Progress {
            core,
            pass,
            limit: _,
            reached: _,
            ended: _,
        } = progress;
        (core, pass)
    }
}

impl<C: Course> Worker<C> {
    /// One turn: finds the core's next event and publishes its stamp, looks at the clocks of the others that
    /// were not seen at or past it, and makes the event, unless one of them is before it. On the way to the
    /// event it runs the core by pieces and publishes each piece's end. The gate is told each event once. Nobody
    /// who sleeps for its clock is woken: a worker that others wait for is run by [`Worker::run`] or
    /// [`crate::run_all`].
    pub fn advance<G: Gate>(&mut self, board: &Board<C>, gate: &G) -> Turn
        requires of { IsOn board.now self.old }
        ensures of { IsOn board.now self.new }
        ensures later { IsLater self.old self.new }
        ensures turn { HasTurned result self.old self.new }
        ensures pieces { HasPieces self.new }
    {
        self.progress.turn(board, None, gate)
    }

    /// Advances the worker, and wakes those that wait at each stamp that it publishes.
    fn advance_telling<G: Gate>(&mut self, board: &Board<C>, waiting: &Waiting, gate: &G) -> Turn
        requires of { IsOn board.now self.old }
        ensures of { IsOn board.now self.new }
        ensures later { IsLater self.old self.new }
        ensures turn { HasTurned result self.old self.new }
        ensures pieces { HasPieces self.new }
    {
        self.progress.turn(board, Some(waiting), gate)
    }

    /// Takes turns as long as each makes an event, but not without end: the last of them.
    #[tactic(auto, using(crate::proofs::Several::done_at_end, crate::proofs::Several::later_both))]
    pub(crate) fn advance_on<G: Gate>(
        &mut self,
        board: &Board<C>,
        waiting: &Waiting,
        gate: &G,
    ) -> Turn
        requires of { IsOn board.now self.old }
        ensures of { IsOn board.now self.new }
        ensures later { IsLater self.old self.new }
        ensures ended { result ≡ Turn.Ended → IsDone self.new }
        ensures pieces { HasPieces self.new }
    {
        let mut turn = self.advance_telling(board, waiting, gate);
        for _ in 0..MORE_TURNS {
            if !turn.has_moved() {
                break;
            }
            turn = self.advance_telling(board, waiting, gate);
        }
        turn
    }

    /// Takes turns until no event is left below the limit. It may wait for workers elsewhere, and wakes those that
    /// sleep for its clock.
    pub fn run<R: Wait, G: Gate>(&mut self, rt: &R, board: &Board<C>, waiting: &Waiting, gate: &G)
        requires of { IsOn board.now self.old }
        ensures of { IsOn board.now self.new }
        ensures later { IsLater self.old self.new }
        ensures ended { IsDone self.new }
        ensures pieces { HasPieces self.new }
    {
        let mut patience = Patience::new();
        for _ in rt.forever() {
            match self.advance_telling(board, waiting, gate) {
                Turn::Moved => {}
                Turn::Ended => break,
                blocked => blocked.wait(rt, board, waiting, &mut patience),
            }
        }
    }
}
