ghost use Rattle.patmos_core.specs.Events.{if_found};
ghost use Rattle.patmos_core.specs.Waiting.{WaitsAt, KeepsLimit, waits_once, limit_once};

use crate::kind::Kind;
use slot_arbiter::Event;

/// What a core does next.
#[derive(Clone, Copy, Debug, PartialEq, Eq)]
pub enum Next {
    /// It loads and stores these words of the board.
    Event(Event),
    /// No word of the board before the limit, and its task still runs there.
    Limit,
    /// No word of the board before the limit, and there is no task, or it has ended or was stopped.
    Ended,
}

/// A core of Patmos that is stepped by itself, from one use of the board's words to the next.
#[derive(Drop)]
pub struct Core {
    pub kind: Kind,
    /// The limit of the last call of `next`.
    pub limit: u64,
    /// Whether an event was asked for and not yet told.
    pub waits: bool,
    /// That event, or room for the next one.
    pub event: Event,
    ghost kept: { KeepsLimit kind limit (if_found waits event) } by { limit_once kind limit (if_found waits event) },
    ghost asked: { WaitsAt kind (if_found waits event) } by { waits_once kind (if_found waits event) },
}
