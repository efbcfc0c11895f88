ghost use Rattle.std.specs.Prelude.{◌≡◌, ◌↔◌, IsTrue};

use crate::waiting::{Patience, Waiting};
use clock_board::{Board, Course};
use std::sync::Wait;

/// What came of one turn of a worker.
#[derive(Clone, Copy, Debug, PartialEq, Eq)]
pub enum Turn {
    /// It made its next event.
    Moved,
    /// It waits: a look at this core's clock showed a stamp below that of its next event.
    Blocked { core: u32, seen: u64, wanted: u64 },
    /// No event is left below the limit.
    Ended,
}

impl Turn {
    /// Whether it made its next event.
    pub fn has_moved(&self) -> bool
        ensures { IsTrue result ↔ (self.now ≡ Turn.Moved) }
    {
        matches!(self, Turn::Moved)
    }

    /// Whether no event is left below the limit.
    pub fn has_ended(&self) -> bool
        ensures { IsTrue result ↔ (self.now ≡ Turn.Ended) }
    {
        matches!(self, Turn::Ended)
    }

    /// Which of two turns that did not move waits with the event of the lesser stamp.
    pub(crate) fn sooner(self, other: Turn) -> Turn {
        match (self, other) {
            (Turn::Blocked { wanted, .. }, Turn::Blocked { wanted: stamp, .. }) if stamp < wanted =>
                other,
            (Turn::Blocked { .. }, _) => self,
            _ => other,
        }
    }

    /// Waits for the clock that was too low, if one was.
    pub(crate) fn wait<R: Wait, C: Course>(
        &self,
        rt: &R,
        board: &Board<C>,
        waiting: &Waiting,
        patience: &mut Patience,
    ) {
        if let Turn::Blocked { core, wanted, .. } = *self {
            waiting.wait_for(rt, board, patience, core, wanted);
        }
    }
}
