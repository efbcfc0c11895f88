use crate::tasked::Tasked;
use slot_arbiter::{Event, MOST_CYCLES, Place};

/// A core at its place, by whether it has a task.
#[derive(Drop)]
pub enum Kind {
    /// It has none, and nothing happens.
    Idle(Place),
    /// It has one.
    Tasked(Tasked),
}

impl Kind {
    ghost use Rattle.std.specs.Prelude.{◌≡◌, ℕ, ◌*◌, ◌≤◌, ◌<◌, ◌++◌, List, None, Some, IsTrue, false};
    ghost use Rattle.slot_arbiter.specs.declared.event.Event as declared_event;
    ghost use Rattle.shared_order.specs.declared.operation.Operation.{Operation};
    ghost use Rattle.shared_order.specs.Event.{asked_by};
    ghost use Rattle.patmos_model.specs.State.{Core};
    ghost use Rattle.patmos_core.specs.Events.{if_found};
    ghost use Rattle.patmos_core.specs.Waiting.{WaitsAt, KeepsLimit};
    ghost use Rattle.patmos_core.specs.Position.{StandsAt, place_at, room_at, phases_at, IsThroughTo, IsNextOf, IsWholeOf, HasMadeAll, EventFits};

    /// Goes on from an earlier limit to the next event before this one, or else up to it, and whether an event comes.
    #[tactic(auto, using(crate::proofs::NextUp::next_of, crate::proofs::NextUp::fits_at, crate::proofs::NextUp::task_made_all, crate::proofs::NextUp::idle_made_all))]
    pub fn run(&mut self, limit: u64, earlier: u64, event: &mut Event) -> bool
        requires kept { KeepsLimit self.old earlier None }
        requires later { earlier ≤ limit }
        requires most { limit ≤ MOST_CYCLES }
        ensures stands { (x : Core) (made : List Operation) → StandsAt self.old x made → StandsAt self.new x made }
        ensures kept { KeepsLimit self.new limit (if_found result event.new) }
        ensures asked { WaitsAt self.new (if_found result event.new) }
        ensures place { place_at self.new ≡ place_at self.old }
        ensures room { room_at self.new ≡ room_at self.old }
        ensures next { IsTrue result → (x : Core) (made : List Operation) → StandsAt self.new x made
            → IsNextOf x made limit event.new }
        ensures whole { IsTrue result → (x : Core) (made : List Operation) → StandsAt self.new x made
            → IsWholeOf x made limit event.new }
        ensures fits { IsTrue result → EventFits (place_at self.new) limit event.new }
        ensures phases { phases_at self.old ≤ phases_at self.new }
        ensures below { IsTrue result → phases_at self.new < 3 * limit }
        ensures through { result ≡ false → IsThroughTo limit self.new }
        ensures all { result ≡ false → (x : Core) (made : List Operation) → StandsAt self.new x made
            → HasMadeAll x made limit }
    {
        match self {
            Kind::Idle(_) => false,
            Kind::Tasked(task) => task.run(limit, event),
        }
    }

    /// Tells what the loads of the event that is waited for gave.
    pub fn resume(&mut self, values: &[u32; 8])
        requires asked { (e : declared_event.Event) × WaitsAt self.old (Some e) }
        ensures stands { (e : declared_event.Event) → WaitsAt self.old (Some e) → (x : Core) (made : List Operation)
            → StandsAt self.old x made → StandsAt self.new x (made ++ asked_by e values.now) }
        ensures kept { (e : declared_event.Event) (limit : ℕ) → KeepsLimit self.old limit (Some e)
            → KeepsLimit self.new limit None }
        ensures place { place_at self.new ≡ place_at self.old }
        ensures room { room_at self.new ≡ room_at self.old }
        ensures phases { phases_at self.old < phases_at self.new }
    {
        match self {
            Kind::Idle(_) => {}
            Kind::Tasked(task) => task.resume(values),
        }
    }
}
