//! How far a worker has come, and its steps from one event to the next.
ghost use Rattle.std.specs.Prelude.{◌≡◌, ℕ, ◌≤◌, ◌<◌, ◌++◌, List, false, IsNone, IsSome, IsTrue, IfSome, Some, None};
ghost use Rattle.shared_order.specs.Event.{asked_by};
ghost use Rattle.patmos_core.specs.Position.{waiting_of, stamp_of};
ghost use Rattle.clock_board.specs.View.{own, HasSeen};
ghost use Rattle.clock_board.specs.Board.{IsPassOf};
ghost use Rattle.core_worker.specs.Runs.{GoesOnAs, with_published, with_made};
ghost use Rattle.core_worker.specs.Kept.{IsKept};
ghost use Rattle.core_worker.specs.Worker.{face, HasTurned};

use crate::looking::look_around;
use crate::making::perform;
use crate::turn::Turn;
use crate::waiting::Waiting;
use clock_board::{Board, Course, Pass};
use patmos_core::Core;
use tc_io::Gate;

/// The most cycles of a piece.
const PIECE: u64 = 1024;

/// A core and its pass, and how far they have come.
#[derive(Drop)]
pub(crate) struct Progress<C> {
    pub(crate) core: Core,
    pub(crate) pass: Pass<C>,
    pub(crate) limit: u64,
    /// The end of the last piece that is done: a multiple of 1,024, or the limit.
    pub(crate) reached: u64,
    /// No event is left below the limit.
    pub(crate) ended: bool,
}

impl<C: Course> Progress<C> {
    /// Runs the core to its next event, or else to the end of the next piece, and publishes how far it came: the
    /// event's stamp.
    fn run_piece(&mut self, board: &Board<C>, waiting: Option<&Waiting>) -> Option<u64>
        requires of { IsPassOf board.now self.old.pass }
        requires kept { IsKept self.old.limit self.old.reached self.old.ended self.old.core self.old.pass.view }
        requires free { waiting_of self.old.core ≡ None }
        requires going { self.old.ended ≡ false }
        ensures of { IsPassOf board.now self.new.pass }
        ensures kept { IsKept self.new.limit self.new.reached self.new.ended self.new.core self.new.pass.view }
        ensures goes_on { GoesOnAs self.old.limit self.old.core self.old.pass.view self.new.core self.new.pass.view }
        ensures same { self.new.pass.view ≡ with_published self.old.pass.view (own self.new.pass.view).published }
        ensures limit { self.new.limit ≡ self.old.limit }
        ensures stamp { result ≡ stamp_of self.new.core }
        ensures further { IsNone result → self.new.ended ≡ false → self.old.reached < self.new.reached }
    {
        let cores = self.core.place().cores as u64;
        let end = self.limit.min(self.reached + PIECE);
        self.core.go_on(end);
        match self.core.waiting() {
            Some(event) => {
                board.publish(&mut self.pass, event.stamp);
                self.tell(waiting, event.stamp);
                Some(event.stamp)
            }
            None => {
                board.publish(&mut self.pass, 2 * end * cores);
                self.tell(waiting, 2 * end * cores);
                self.reached = end;
                self.ended = end == self.limit;
                None
            }
        }
    }

    /// Tells those that wait, if anybody may, of a stamp that was published.
    fn tell(&self, waiting: Option<&Waiting>, stamp: u64) {
        if let Some(waiting) = waiting {
            waiting.tell(self.core.place().core, stamp);
        }
    }

    /// Runs the core piece by piece to its next event, or to the limit where none is left: the event's stamp.
    fn find(&mut self, board: &Board<C>, waiting: Option<&Waiting>) -> Option<u64>
        requires of { IsPassOf board.now self.old.pass }
        requires kept { IsKept self.old.limit self.old.reached self.old.ended self.old.core self.old.pass.view }
        requires free { waiting_of self.old.core ≡ None }
        ensures of { IsPassOf board.now self.new.pass }
        ensures kept { IsKept self.new.limit self.new.reached self.new.ended self.new.core self.new.pass.view }
        ensures goes_on { GoesOnAs self.old.limit self.old.core self.old.pass.view self.new.core self.new.pass.view }
        ensures same { self.new.pass.view ≡ with_published self.old.pass.view (own self.new.pass.view).published }
        ensures limit { self.new.limit ≡ self.old.limit }
        ensures stamp { result ≡ stamp_of self.new.core }
        ensures ended { IsNone result → IsTrue self.new.ended }
    {
        while !self.ended {
            if let Some(stamp) = self.run_piece(board, waiting) {
                return Some(stamp);
            }
        }
        None
    }

    /// The stamp of the event that the core waits to be told, or else of its next one, which the gate is told once.
    fn next_event<G: Gate>(
        &mut self,
        board: &Board<C>,
        waiting: Option<&Waiting>,
        gate: &G,
    ) -> Option<u64>
        requires of { IsPassOf board.now self.old.pass }
        requires kept { IsKept self.old.limit self.old.reached self.old.ended self.old.core self.old.pass.view }
        ensures of { IsPassOf board.now self.new.pass }
        ensures kept { IsKept self.new.limit self.new.reached self.new.ended self.new.core self.new.pass.view }
        ensures goes_on { GoesOnAs self.old.limit self.old.core self.old.pass.view self.new.core self.new.pass.view }
        ensures same { self.new.pass.view ≡ with_published self.old.pass.view (own self.new.pass.view).published }
        ensures limit { self.new.limit ≡ self.old.limit }
        ensures stamp { result ≡ stamp_of self.new.core }
        ensures before { IfSome (waiting_of self.old.core) (λ e. waiting_of self.new.core ≡ Some e) }
        ensures ended { IsNone result → IsTrue self.new.ended }
    {
        if let Some(stamp) = self.core.stamp() {
            return Some(stamp);
        }
        let stamp = self.find(board, waiting)?;
        gate.at(self.core.place().core, stamp);
        Some(stamp)
    }

    /// Makes the event that the core waits to be told, and tells it what its loads gave.
    fn make(&mut self, board: &Board<C>)
        requires of { IsPassOf board.now self.old.pass }
        requires kept { IsKept self.old.limit self.old.reached self.old.ended self.old.core self.old.pass.view }
        requires waiting { IsSome (waiting_of self.old.core) }
        requires seen { IfSome (waiting_of self.old.core) (λ e. HasSeen self.old.pass.view e.stamp) }
        ensures of { IsPassOf board.now self.new.pass }
        ensures kept { IsKept self.new.limit self.new.reached self.new.ended self.new.core self.new.pass.view }
        ensures goes_on { GoesOnAs self.old.limit self.old.core self.old.pass.view self.new.core self.new.pass.view }
        ensures same { self.new.pass.view ≡ with_made self.old.pass.view (own self.new.pass.view).made }
        ensures made { IfSome (waiting_of self.old.core) (λ e. (values : List ℕ)
            × ((own self.new.pass.view).made ≡ (own self.old.pass.view).made ++ asked_by e values)) }
        ensures limit { self.new.limit ≡ self.old.limit }
    {
        let Some(event) = self.core.event() else {
            unreachable!()
        };
        let count = event.count;
        let values = perform(board, &mut self.pass, event);
        self.core.resume(values, count);
    }

    /// One turn. Those that wait, if anybody may, are told each stamp that it publishes.
    pub(crate) fn turn<G: Gate>(
        &mut self,
        board: &Board<C>,
        waiting: Option<&Waiting>,
        gate: &G,
    ) -> Turn
        requires of { IsPassOf board.now self.old.pass }
        requires kept { IsKept self.old.limit self.old.reached self.old.ended self.old.core self.old.pass.view }
        ensures of { IsPassOf board.now self.new.pass }
        ensures kept { IsKept self.new.limit self.new.reached self.new.ended self.new.core self.new.pass.view }
        ensures goes_on { GoesOnAs self.old.limit self.old.core self.old.pass.view self.new.core self.new.pass.view }
        ensures limit { self.new.limit ≡ self.old.limit }
        ensures turn { HasTurned result (face self.old.core self.old.pass self.old.limit)
            (face self.new.core self.new.pass self.new.limit) }
    {
        let Some(wanted) = self.next_event(board, waiting, gate) else {
            return Turn::Ended;
        };
        let place = self.core.place();
        match look_around(board, &mut self.pass, place.core, place.cores, wanted) {
            Some((core, seen)) => Turn::Blocked { core, seen, wanted },
            None => {
                self.make(board);
                Turn::Moved
            }
        }
    }
}
