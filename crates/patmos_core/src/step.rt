ghost use Rattle.std.specs.Prelude.{◌≡◌, ℕ, ◌≤◌, ◌<◌, ◌++◌, ◌*◌, List, Option, None, Some, IsNone, IsSome, IfSome, option_copied};
ghost use Rattle.slot_arbiter.specs.declared.event.Event.{Event};
ghost use Rattle.shared_order.specs.declared.operation.Operation.{Operation};
ghost use Rattle.shared_order.specs.Operation.{loads};
ghost use Rattle.shared_order.specs.Event.{asked_by};
ghost use Rattle.patmos_model.specs.State as state;
ghost use Rattle.patmos_model.specs.Apart.{apart_from};
ghost use Rattle.patmos_model.specs.Outcome.{state_at};
ghost use Rattle.patmos_core.specs.Position.{StandsFor, waiting_of, limit_of, place_of, room_of, event_of, rest_as, phases_of, stamp_of, IsThrough, IsNextOf, IsWholeOf, HasMadeAll, EventFits, ComesTo};

use crate::cpu::{Core, Next};
use patmos_model::CoreState;
use slot_arbiter::{Event, MOST_CYCLES};

impl Core {
    /// What the core does next, before the limit in cycles: what its loads will give is not known yet, and
    /// stands as 0 in the event. Where no event comes before the limit, the core then is what it is after
    /// the cycles below it.
    pub fn next(&mut self, limit: u64) -> Next
        requires free { waiting_of self.old ≡ None }
        requires most { limit ≤ MOST_CYCLES }
        requires later { limit_of self.old ≤ limit }
        ensures stands { (x : state.Core) (made : List Operation) → StandsFor self.old x made
            → StandsFor self.new x made }
        ensures waiting { waiting_of self.new ≡ event_of result }
        ensures limit { limit_of self.new ≡ limit }
        ensures place { place_of self.new ≡ place_of self.old }
        ensures room { room_of self.new ≡ room_of self.old }
        ensures event { IfSome (event_of result) (λ e. (x : state.Core) (made : List Operation)
            → StandsFor self.old x made
            → IsNextOf x made limit e) }
        ensures whole { IfSome (event_of result) (λ e. (x : state.Core) (made : List Operation)
            → StandsFor self.old x made
            → IsWholeOf x made limit e) }
        ensures fits { IfSome (event_of result) (EventFits (place_of self.old) limit) }
        ensures phases { phases_of self.old ≤ phases_of self.new }
        ensures below { IsSome (event_of result) → phases_of self.new < 3 * limit }
        ensures through { IsNone (event_of result) → IsThrough self.new }
        ensures all { IsNone (event_of result) → (x : state.Core) (made : List Operation) → StandsFor self.old x made
            → HasMadeAll x made limit }
        ensures rest { IsNone (event_of result) → (x : state.Core) (made : List Operation) → StandsFor self.old x made
            → result ≡ rest_as (state_at limit (apart_from x (loads made) limit).core.plain) }
    {
        self.go_on(limit);
        match self.waiting() {
            Some(event) => Next::Event(event),
            None => self.rest(),
        }
    }

    /// Goes on as [`Core::next`] does, and leaves the event that comes where [`Core::event`] shows it.
    pub fn go_on(&mut self, limit: u64)
        requires free { waiting_of self.old ≡ None }
        requires most { limit ≤ MOST_CYCLES }
        requires later { limit_of self.old ≤ limit }
        ensures { ComesTo self.old self.new limit }
    {
        self.waits = self.kind.run(limit, self.limit, &mut self.event);
        self.limit = limit;
    }

    // the answer where no event comes before the limit
    fn rest(&self) -> Next
        ensures rest { IsThrough self.now → (x : state.Core) (made : List Operation) → StandsFor self.now x made
            → result ≡ rest_as (state_at (limit_of self.now)
            (apart_from x (loads made) (limit_of self.now)).core.plain) }
        ensures none { event_of result ≡ None }
    {
        match self.state() {
            CoreState::Running => Next::Limit,
            CoreState::Idle | CoreState::Done { .. } | CoreState::Trapped { .. } => Next::Ended,
        }
    }

    /// Tells the core what the loads of its event gave, in their order.
    pub fn resume(&mut self, values: [u32; 8], count: u32)
        requires waiting { IsSome (waiting_of self.old) }
        requires count { IfSome (waiting_of self.old) (λ e. count ≡ e.count) }
        ensures stands { IfSome (waiting_of self.old) (λ e. (x : state.Core) (made : List Operation)
            → StandsFor self.old x made → StandsFor self.new x (made ++ asked_by e values)) }
        ensures waiting { waiting_of self.new ≡ None }
        ensures phases { phases_of self.old < phases_of self.new }
        ensures limit { limit_of self.new ≡ limit_of self.old }
        ensures place { place_of self.new ≡ place_of self.old }
        ensures room { room_of self.new ≡ room_of self.old }
    {
        let _ = count;
        self.kind.resume(&values);
        self.waits = false;
    }

    /// The event that the core asked for and was not yet told.
    pub fn waiting(&self) -> Option<Event>
        ensures { result ≡ waiting_of self.now }
    {
        if self.waits { Some(self.event) } else { None }
    }

    /// Lends the event that the core waits for, with no copy of it.
    pub fn event(&self) -> Option<&Event>
        ensures { option_copied result ≡ waiting_of self.now }
    {
        if self.waits { Some(&self.event) } else { None }
    }

    /// The stamp of that event.
    pub fn stamp(&self) -> Option<u64>
        ensures { result ≡ stamp_of self.now }
    {
        if self.waits {
            Some(self.event.stamp)
        } else {
            None
        }
    }
}
