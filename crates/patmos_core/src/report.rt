ghost use Rattle.std.specs.Prelude.{◌≡◌, take, List, []};
ghost use Rattle.local_store.specs.Memory.{IsOwn};
ghost use Rattle.shared_order.specs.declared.operation.Operation.{Operation};
ghost use Rattle.shared_order.specs.Operation.{loads};
ghost use Rattle.patmos_model.specs.State as state;
ghost use Rattle.patmos_model.specs.Apart.{apart_from};
ghost use Rattle.patmos_model.specs.Outcome.{state_at, word_in};
ghost use Rattle.patmos_core.specs.Position.{StandsFor, limit_of, place_of, room_of, IsThrough};

use crate::cpu::Core;
use crate::kind::Kind;
use local_store::Cell;
use patmos_model::CoreState;
use slot_arbiter::{Access, Place};

impl Core {
    /// The place that the core is at.
    pub fn place(&self) -> Place
        ensures { result ≡ place_of self.now }
    {
        match &self.kind {
            Kind::Idle(place) => *place,
            Kind::Tasked(tasked) => tasked.body.place,
        }
    }

    /// How far the task has come at the limit.
    #[tactic(auto, using(crate::proofs::AtLimit::idle_state))]
    pub fn state(&self) -> CoreState
        ensures { IsThrough self.now → (x : state.Core) (made : List Operation) → StandsFor self.now x made
            → result ≡ state_at (limit_of self.now) (apart_from x (loads made) (limit_of self.now)).core.plain }
    {
        match &self.kind {
            Kind::Idle(_) => CoreState::Idle,
            Kind::Tasked(tasked) => tasked.body.outcome(self.limit),
        }
    }

    /// The first transactions with main memory before the limit.
    #[tactic(auto, using(crate::proofs::AtLimit::task_traces))]
    pub fn trace(&self) -> &[Access]
        ensures { IsThrough self.now → (x : state.Core) (made : List Operation) → StandsFor self.now x made
            → result.now ≡ take (room_of self.now) (apart_from x (loads made) (limit_of self.now)).core.seen.accesses }
    {
        match &self.kind {
            Kind::Idle(_) => &[],
            Kind::Tasked(tasked) => tasked.body.trace.as_slice(),
        }
    }

    /// How many starts of transfers over the network were dropped before the limit.
    #[tactic(auto, using(crate::proofs::AtLimit::idle_dropped))]
    pub fn dropped(&self) -> u32
        ensures { IsThrough self.now → (x : state.Core) (made : List Operation) → StandsFor self.now x made
            → result ≡ (apart_from x (loads made) (limit_of self.now)).core.plain.interface.dropped }
    {
        match &self.kind {
            Kind::Idle(_) => 0,
            Kind::Tasked(tasked) => tasked.body.ni.dropped(),
        }
    }

    /// The word of a cell of the scratchpad or of private memory at the limit.
    #[tactic(auto, using(crate::proofs::AtLimit::task_word, crate::proofs::AtLimit::idle_word))]
    pub fn word(&self, cell: Cell) -> u32
        requires own { IsOwn cell }
        ensures { IsThrough self.now → (x : state.Core) (made : List Operation) → StandsFor self.now x made
            → result ≡ word_in cell (apart_from x (loads made) (limit_of self.now)).core.plain }
    {
        match &self.kind {
            Kind::Idle(_) => 0,
            Kind::Tasked(tasked) => tasked.body.own_word(cell),
        }
    }
}
