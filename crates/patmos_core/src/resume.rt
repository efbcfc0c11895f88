ghost use Rattle.std.specs.Prelude.{◌≡◌, ℕ, ◌+◌, ◌*◌, ◌<◌, ◌≤◌, drop};
ghost use Rattle.shared_order.specs.Program.{fed};
ghost use Rattle.argo_ni.specs.Turn.{injection};
ghost use Rattle.patmos_step.specs.Ready.{IsUpTo, IsReady};

use crate::phase::Phase;
use crate::second_phase::after_act;
use crate::tasked::Tasked;
use crate::window::{next_act, window_in};
use argo_ni::Ni;
use slot_arbiter::MOST_CYCLES;

impl Tasked {
    ghost use Rattle.std.specs.Prelude.{◌≡◌, ℕ, ◌+◌, ◌≤◌, ◌<◌, List, ◌++◌, IsTrue, false};
    ghost use Rattle.slot_arbiter.specs.declared.event.Event.{Event};
    ghost use Rattle.shared_order.specs.declared.operation.Operation.{Operation};
    ghost use Rattle.shared_order.specs.Event.{asked_by};
    ghost use Rattle.patmos_model.specs.declared.pending_store.PendingStore.{PendingStore};
    ghost use Rattle.patmos_core.specs.declared.phase.Phase.TheVariants.{Delivery, Act, Completion};
    ghost use Rattle.patmos_model.specs.State.{Core};
    ghost use Rattle.patmos_core.specs.Waiting.{IsAskedAt};
    ghost use Rattle.patmos_core.specs.Position.{IsOn, IsFurther};

    /// Tells the core what the loads of the event that it asked for gave, in their order.
    pub fn resume(&mut self, values: &[u32; 8])
        requires asked { (e : Event) × IsAskedAt self.old e }
        ensures stands { (e : Event) → IsAskedAt self.old e → (x : Core) (made : List Operation)
            → IsOn self.old x made → IsOn self.new x (made ++ asked_by e values.now) }
        ensures further { IsFurther self.old self.new }
    {
        match self.phase {
            Phase::Delivery => self.delivered(),
            Phase::Act if self.moves => self.moved(values),
            Phase::Act => self.acted(values),
            Phase::Completion(_) => self.stored(),
        }
    }

    // the packets that were due have come to their words: the second phase is next
    #[tactic(auto, using(crate::proofs::WordsMoving::none_before))]
    fn delivered(&mut self)
        requires delivery { self.old.phase ≡ Delivery }
        requires asked { (e : Event) × IsAskedAt self.old e }
        ensures stands { (values : List ℕ) (e : Event) → IsAskedAt self.old e → (x : Core) (made : List Operation)
            → IsOn self.old x made → IsOn self.new x (made ++ asked_by e values) }
        ensures further { IsFurther self.old self.new }
    {
        self.body.ni.deliver();
        self.phase = Phase::Act;
    }

    // the second phase is done with what its loads gave, but for a store that is then pending
    fn acted(&mut self, values: &[u32; 8])
        requires act { self.old.phase ≡ Act }
        requires still { self.old.moves ≡ false }
        requires asked { (e : Event) × IsAskedAt self.old e }
        ensures stands { (e : Event) → IsAskedAt self.old e → (x : Core) (made : List Operation)
            → IsOn self.old x made → IsOn self.new x (made ++ asked_by e values.now) }
        ensures further { IsFurther self.old self.new }
    {
        let taken = inject(&mut self.body.ni, self.cycle, values);
        let (_, rest) = values.split_at(taken);
        let pending_store = self.body.own(self.cycle, rest);
        let (cycle, phase) = after_act(self.cycle, pending_store);
        self.cycle = cycle;
        self.phase = phase;
    }

    // words have moved, with what their loads gave; but a store may then be pending
    fn moved(&mut self, values: &[u32; 8])
        requires moves { IsTrue self.old.moves }
        requires asked { (e : Event) × IsAskedAt self.old e }
        ensures stands { (e : Event) → IsAskedAt self.old e → (x : Core) (made : List Operation)
            → IsOn self.old x made → IsOn self.new x (made ++ asked_by e values.now) }
        ensures further { IsFurther self.old self.new }
    {
        let pending_store = self.body.transact(self.cycle, values);
        let (cycle, phase) = after_act(self.cycle, pending_store);
        self.cycle = cycle;
        self.phase = phase;
        self.moves = false;
    }

    // the pending store is made: the next cycle begins
    #[tactic(auto, using(crate::proofs::WordsMoving::none_after))]
    fn stored(&mut self)
        requires pending_store { (o : PendingStore) × (self.old.phase ≡ Completion o) }
        requires asked { (e : Event) × IsAskedAt self.old e }
        ensures stands { (values : List ℕ) (e : Event) → IsAskedAt self.old e → (x : Core) (made : List Operation)
            → IsOn self.old x made → IsOn self.new x (made ++ asked_by e values) }
        ensures further { IsFurther self.old self.new }
    {
        self.cycle += 1;
        self.phase = Phase::Delivery;
    }
}

// sends the packet of the window with the first of the values, if there is one in the cycle, and gives how
// many of them it took
fn inject(ni: &mut Ni, cycle: u64, values: &[u32; 8]) -> usize
    requires early { cycle < MOST_CYCLES }
    requires cores { 0 < ni.old.interface.cores }
    requires up_to { IsUpTo (2 * cycle + 1) ni.old }
    ensures sent { (s : ℕ) → (fed s (injection cycle ni.old.interface) values.now).core ≡ ni.new.interface }
    ensures left { (s : ℕ) → (fed s (injection cycle ni.old.interface) values.now).left ≡ drop result values.now }
    ensures few { result ≤ 2 }
    ensures ready { IsReady cycle ni.new }
    ensures cores { ni.new.interface.cores ≡ ni.old.interface.cores }
    ensures core { ni.new.interface.core ≡ ni.old.interface.core }
{
    let next = next_act(ni);
    let Some(window) = window_in(ni, next, cycle) else {
        return 0;
    };
    ni.inject([values[0], values[1]]);
    window.count as usize
}
