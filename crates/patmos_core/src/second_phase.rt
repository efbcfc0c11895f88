ghost use Rattle.std.specs.Prelude.{◌≡◌, ◌+◌, ◌<◌};
ghost use Rattle.patmos_core.specs.declared.phase.Phase.TheVariants.{Delivery};
ghost use Rattle.patmos_core.specs.Progress.{cycle_after, phase_after};

use crate::events::{ask_own, ask_packet, begin_at};
use crate::phase::Phase;
use crate::tasked::Tasked;
use crate::window::{Window, window_in};
use argo_ni::NiEvent;
use patmos_model::PendingStore;
use patmos_step::{Ask, Plan, comm_word};
use slot_arbiter::{Event, MOST_CYCLES, stamp_of};

impl Tasked {
    ghost use Rattle.std.specs.Prelude.{◌≡◌, ℕ, ◌+◌, ◌*◌, ◌≤◌, ◌<◌, ◌++◌, true, false, [], Option, None, IsNone, IsSome, IsTrue};
    ghost use Rattle.argo_ni.specs.Interface.{Interface};
    ghost use Rattle.argo_ni.specs.Packet as packets;
    ghost use Rattle.patmos_step.specs.declared.ask.Ask.TheVariants as asks;
    ghost use Rattle.patmos_core.specs.declared.phase.Phase.TheVariants.{Delivery, Act};
    ghost use Rattle.patmos_model.specs.State.{History, is_running};
    ghost use Rattle.patmos_step.specs.Asks.{FollowsAsk, AskFits};
    ghost use Rattle.patmos_core.specs.Events.{SendsIn, AllBelow, AllUnread, asked_of, window_asks};
    ghost use Rattle.patmos_model.specs.Cycle as cycles;
    ghost use Rattle.patmos_step.specs.Plan.{planned, IsSettled, PlanFits};
    ghost use Rattle.patmos_core.specs.Progress.{TellsNext, IsAloneAt};
    ghost use Rattle.patmos_step.specs.Moving.{MovesIn};
    ghost use Rattle.patmos_core.specs.Waiting.{IsAskedAt, IsOfPlace};
    ghost use Rattle.patmos_step.specs.Ready.{HasRegisters};
    ghost use Rattle.patmos_core.specs.Position.{GoesOnAs, phases_done};
    ghost use Rattle.patmos_step.specs.Shown.{Shows, core_of, plain_of};

    /// The second phase: what it asks for; or, where that is nothing, it is done. And whether it asks for something.
    pub fn act(&mut self, next: Option<NiEvent>, event: &mut Event) -> bool
        requires act { self.old.phase ≡ Act }
        requires next { TellsNext self.old.body.ni next }
        requires early { self.old.cycle < MOST_CYCLES }
        ensures goes_on { GoesOnAs self.old self.new }
        ensures asked { IsTrue result → IsAskedAt self.new event.new }
        ensures fits { IsTrue result → IsOfPlace self.new.body.place event.new }
        ensures further { result ≡ false
            → phases_done self.old.cycle self.old.phase < phases_done self.new.cycle self.new.phase }
        ensures cycle { self.new.cycle ≤ self.old.cycle + 1 }
        ensures whole { self.new.cycle ≡ self.old.cycle + 1 → self.new.phase ≡ Delivery }
        ensures same { IsTrue result → self.new.cycle ≡ self.old.cycle }
    {
        self.settle();
        let plan = self.body.plan(self.cycle);
        let ask = self.ask(&plan);
        let window = self.window(next);
        match (window, ask) {
            (None, Ask::Nothing) => {
                self.act_alone(&plan);
                false
            }
            (window, ask) => {
                self.act_event(window, ask, event);
                true
            }
        }
    }

    // a flow that is due takes effect; what is to be moved is not known any more
    fn settle(&mut self)
        requires act { self.old.phase ≡ Act }
        ensures goes_on { GoesOnAs self.old self.new }
        ensures still { self.new.moves ≡ false }
        ensures settled { is_running (plain_of self.new.body) ≡ true
            → IsSettled self.new.cycle (plain_of self.new.body) }
        ensures act { self.new.phase ≡ Act }
        ensures cycle { self.new.cycle ≡ self.old.cycle }
        ensures ni { self.new.body.ni ≡ self.old.body.ni }
    {
        self.moves = false;
        self.body.settle(self.cycle);
    }

    // what the core's own act in the cycle asks for
    fn ask(&self, plan: &Plan) -> Ask
        requires plan { plan.now ≡ planned self.now.cycle (plain_of self.now.body) }
        requires settled { is_running (plain_of self.now.body) ≡ true
            → IsSettled self.now.cycle (plain_of self.now.body) }
        ensures follows { (h : History) (i : Interface) → Shows self.now.body h
            → HasRegisters i self.now.body.ni.interface
            → FollowsAsk result (cycles.own self.now.cycle (cycles.with_interface (core_of self.now.body h) i)) }
        ensures within { AskFits (packets.comm_word self.now.body.place.cores 0) result }
    {
        self.body.ask(plan, self.cycle)
    }

    // the packet that the interface sends in this cycle
    fn window(&self, next: Option<NiEvent>) -> Option<Window>
        requires act { self.now.phase ≡ Act }
        requires next { TellsNext self.now.body.ni next }
        ensures sends { SendsIn self.now.body.ni.interface self.now.cycle result }
    {
        window_in(&self.body.ni, next, self.cycle)
    }

    // a second phase that asks for nothing is done
    fn act_alone(&mut self, plan: &Plan)
        requires act { self.old.phase ≡ Act }
        requires still { self.old.moves ≡ false }
        requires early { self.old.cycle < MOST_CYCLES }
        requires plan { plan.now ≡ planned self.old.cycle (plain_of self.old.body) }
        requires within { PlanFits self.old.body.offset self.old.body.size plan.now }
        requires settled { is_running (plain_of self.old.body) ≡ true
            → IsSettled self.old.cycle (plain_of self.old.body) }
        requires sends { SendsIn self.old.body.ni.interface self.old.cycle None }
        requires follows { (h : History) (i : Interface) → Shows self.old.body h
            → HasRegisters i self.old.body.ni.interface
            → FollowsAsk asks.Nothing (cycles.own self.old.cycle (cycles.with_interface (core_of self.old.body h) i)) }
        ensures goes_on { GoesOnAs self.old self.new }
        ensures further { phases_done self.old.cycle self.old.phase < phases_done self.new.cycle self.new.phase }
        ensures cycle { self.new.cycle ≤ self.old.cycle + 1 }
        ensures whole { self.new.cycle ≡ self.old.cycle + 1 → self.new.phase ≡ Delivery }
    {
        let pending_store = self.body.carry_out(plan, self.cycle, &[]);
        let (cycle, phase) = after_act(self.cycle, pending_store);
        self.cycle = cycle;
        self.phase = phase;
    }

    /// The event of words of the board that are to be moved.
    pub fn act_moving(&mut self, ask: Ask, event: &mut Event)
        requires act { self.old.phase ≡ Act }
        requires alone { IsAloneAt self.old.body self.old.cycle }
        requires moves { MovesIn self.old.cycle (plain_of self.old.body) }
        requires early { self.old.cycle < MOST_CYCLES }
        requires follows { (h : History) (i : Interface) → FollowsAsk ask (cycles.own self.old.cycle
            (cycles.with_interface (core_of self.old.body h) i)) }
        requires within { AskFits (packets.comm_word self.old.body.place.cores 0) ask }
        requires some { ask ≡ asks.Nothing → ⊥ }
        ensures goes_on { GoesOnAs self.old self.new }
        ensures asked { IsAskedAt self.new event.new }
        ensures fits { IsOfPlace self.new.body.place event.new }
        ensures cycle { self.new.cycle ≡ self.old.cycle }
    {
        self.act_event(None, ask, event);
        self.moves = true;
    }

    // the event of a second phase
    fn act_event(&self, window: Option<Window>, ask: Ask, event: &mut Event)
        requires act { self.now.phase ≡ Act }
        requires early { self.now.cycle < MOST_CYCLES }
        requires sends { SendsIn self.now.body.ni.interface self.now.cycle window }
        requires follows { (h : History) (i : Interface) → Shows self.now.body h
            → HasRegisters i self.now.body.ni.interface
            → FollowsAsk ask (cycles.own self.now.cycle (cycles.with_interface (core_of self.now.body h) i)) }
        requires within { AskFits (packets.comm_word self.now.body.place.cores 0) ask }
        requires some { IsNone window → ask ≡ asks.Nothing → ⊥ }
        ensures asked { IsAskedAt self.now event.new }
        ensures fits { IsOfPlace self.now.body.place event.new }
    {
        begin_at(event, stamp_of(&self.body.place, self.cycle, 1));
        self.ask_window(event, window);
        ask_own(event, ask);
    }

    // the event asks besides for the packet that is sent
    fn ask_window(&self, event: &mut Event, window: Option<Window>)
        requires room { event.old.count + 2 ≤ 8 }
        requires sends { SendsIn self.now.body.ni.interface self.now.cycle window }
        ensures asks { asked_of event.new ≡ asked_of event.old ++ window_asks self.now.body.place.core window }
        ensures below { AllBelow (packets.comm_word self.now.body.place.cores 0) (asked_of event.old)
            → AllBelow (packets.comm_word self.now.body.place.cores 0) (asked_of event.new) }
        ensures unread { AllUnread (asked_of event.old) → AllUnread (asked_of event.new) }
        ensures stamp { event.new.stamp ≡ event.old.stamp }
        ensures count { event.new.count ≤ event.old.count + 2 }
        ensures some { IsSome window → 1 ≤ event.new.count }
    {
        if let Some(sent) = window {
            let word = comm_word(self.body.place.core, sent.first);
            ask_packet(event, word, sent.count);
        }
    }
}

/// Where a second phase in a cycle leaves a core with this store pending: before the next cycle, if none.
pub fn after_act(cycle: u64, pending_store: Option<PendingStore>) -> (u64, Phase)
    requires early { cycle < MOST_CYCLES }
    ensures cycle { result.0 ≡ cycle_after cycle pending_store }
    ensures phase { result.1 ≡ phase_after pending_store }
    ensures whole { result.0 ≡ cycle + 1 → result.1 ≡ Delivery }
{
    match pending_store {
        None => (cycle + 1, Phase::Delivery),
        Some(pending_store) => (cycle, Phase::Completion(pending_store)),
    }
}
