use crate::events::{ask_delivery, ask_store, begin_at};
use crate::phase::Phase;
use crate::tasked::Tasked;
use crate::window::next_act;
use argo_ni::{NiEvent, NiKind};
use patmos_alone::run_alone;
use patmos_model::PendingStore;
use patmos_step::{Ask, comm_word};
use slot_arbiter::{Event, MOST_CYCLES, stamp_of};

impl Tasked {
    ghost use Rattle.std.specs.Prelude.{◌≡◌, ℕ, ◌+◌, ◌*◌, ◌≤◌, ◌<◌, true, false, IfSome, IsNone, IsTrue};
    ghost use Rattle.argo_ni.specs.Turn.{acts};
    ghost use Rattle.argo_ni.specs.Event.{half_of, IsNextAct, IsDelivery};
    ghost use Rattle.patmos_core.specs.declared.phase.Phase.TheVariants.{Delivery, Act};
    ghost use Rattle.patmos_core.specs.declared.phase.Phase.TheVariants as phase;
    ghost use Rattle.patmos_core.specs.Progress.{TellsNext, IsStillIn, IsAloneAt};
    ghost use Rattle.patmos_core.specs.Waiting.{IsAskedAt, IsOfPlace};
    ghost use Rattle.patmos_core.specs.Position.{GoesOnAs, phases_done};

    /// What the interface does next, if anything is left.
    fn next_act(&self) -> Option<NiEvent>
        ensures { TellsNext self.now.body.ni result }
    {
        next_act(&self.body.ni)
    }

    /// Goes on as long as the core does all by itself and the interface does nothing: whether it comes to a cycle in
    /// which the interface does nothing either.
    #[tactic(auto, using(crate::proofs::WordsMoving::none_before))]
    fn go_alone(&mut self, next: Option<NiEvent>, limit: u64) -> bool
        requires delivery { self.old.phase ≡ Delivery }
        requires next { TellsNext self.old.body.ni next }
        requires within { self.old.cycle ≤ limit }
        requires most { limit ≤ MOST_CYCLES }
        ensures goes_on { GoesOnAs self.old self.new }
        ensures delivery { self.new.phase ≡ Delivery }
        ensures within { self.new.cycle ≤ limit }
        ensures below { IsTrue result → self.new.cycle < limit }
        ensures alone { IsTrue result → IsAloneAt self.new.body self.new.cycle }
        ensures ni { self.new.body.ni ≡ self.old.body.ni }
    {
        let until = self.still_until(next, limit);
        self.cycle = run_alone(&mut self.body, self.cycle, until);
        self.cycle < until
    }

    // the cycle of the interface's next act, or the limit if that is earlier
    #[tactic(auto, using(crate::proofs::Stillness::still_before, crate::proofs::Stillness::nothing_before, crate::proofs::Stillness::comes_later))]
    fn still_until(&self, next: Option<NiEvent>, limit: u64) -> u64
        requires delivery { self.now.phase ≡ Delivery }
        requires next { TellsNext self.now.body.ni next }
        requires within { self.now.cycle ≤ limit }
        ensures from { self.now.cycle ≤ result }
        ensures most { result ≤ limit }
        ensures still { (u : ℕ) → self.now.cycle ≤ u → u < result → IsStillIn self.now.body.ni.interface u }
        ensures nothing { (half : ℕ) → self.now.body.ni.from ≤ half → acts self.now.body.ni.interface half ≡ true
            → 2 * result ≤ half }
    {
        match next {
            Some(act) => limit.min(act.cycle),
            None => limit,
        }
    }

    /// The packets that are due come to their words, and whether there is one; without one, the second phase is next.
    fn deliver(&mut self, next: Option<NiEvent>, event: &mut Event) -> bool
        requires delivery { self.old.phase ≡ Delivery }
        requires next { TellsNext self.old.body.ni next }
        requires early { self.old.cycle < MOST_CYCLES }
        ensures goes_on { GoesOnAs self.old self.new }
        ensures asked { IsTrue result → IsAskedAt self.new event.new }
        ensures fits { IsTrue result → IsOfPlace self.new.body.place event.new }
        ensures act { result ≡ false → self.new.phase ≡ Act }
        ensures cycle { self.new.cycle ≡ self.old.cycle }
        ensures ni { self.new.body.ni ≡ self.old.body.ni }
    {
        match self.due_packet(next) {
            Some(packet) => {
                self.delivery(&packet, event);
                true
            }
            None => {
                self.pass(next);
                false
            }
        }
    }

    // the packet that is due in this cycle
    #[tactic(auto, using(crate::proofs::Stillness::half_bounds, crate::proofs::Stillness::comes_later))]
    fn due_packet(&self, next: Option<NiEvent>) -> Option<Delivered>
        requires delivery { self.now.phase ≡ Delivery }
        requires next { TellsNext self.now.body.ni next }
        ensures due { IfSome result (λ packet. IsNextAct self.now.body.ni (2 * self.now.cycle)) }
        ensures packet { IfSome result (λ packet. IsDelivery self.now.body.ni.interface self.now.cycle
            packet.target packet.first packet.count packet.values) }
        ensures none { IsNone result → IfSome next (λ e. 2 * self.now.cycle < half_of e) }
    {
        let act = next?;
        let NiKind::Deliver {
            target,
            first,
            count,
            values,
        } = act.kind
        else {
            return None;
        };
        if act.cycle != self.cycle {
            return None;
        }
        Some(Delivered {
            target,
            first,
            count,
            values,
        })
    }

    // without a packet that is due, the second phase is next
    #[tactic(auto, using(crate::proofs::WordsMoving::none_before))]
    fn pass(&mut self, next: Option<NiEvent>)
        requires delivery { self.old.phase ≡ Delivery }
        requires next { TellsNext self.old.body.ni next }
        requires later { IfSome next (λ e. 2 * self.old.cycle < half_of e) }
        ensures goes_on { GoesOnAs self.old self.new }
        ensures act { self.new.phase ≡ Act }
        ensures cycle { self.new.cycle ≡ self.old.cycle }
        ensures body { self.new.body ≡ self.old.body }
    {
        self.phase = Phase::Act;
    }

    // the event of a packet that is due
    fn delivery(&self, packet: &Delivered, event: &mut Event)
        requires delivery { self.now.phase ≡ Delivery }
        requires due { IsNextAct self.now.body.ni (2 * self.now.cycle) }
        requires packet { IsDelivery self.now.body.ni.interface self.now.cycle
            packet.now.target packet.now.first packet.now.count packet.now.values }
        requires early { self.now.cycle < MOST_CYCLES }
        ensures asked { IsAskedAt self.now event.new }
        ensures fits { IsOfPlace self.now.body.place event.new }
    {
        begin_at(event, stamp_of(&self.body.place, self.cycle, 0));
        let word = comm_word(packet.target, packet.first);
        ask_delivery(event, word, packet.count, packet.values);
    }

    /// Goes on by a part of a cycle, or more where nothing is asked for: up to the limit, or to an event, and which.
    fn step(&mut self, limit: u64, event: &mut Event) -> bool
        requires below { self.old.cycle < limit }
        requires most { limit ≤ MOST_CYCLES }
        ensures goes_on { GoesOnAs self.old self.new }
        ensures asked { IsTrue result → IsAskedAt self.new event.new }
        ensures fits { IsTrue result → IsOfPlace self.new.body.place event.new }
        ensures below { IsTrue result → self.new.cycle < limit }
        ensures within { self.new.cycle ≤ limit }
        ensures whole { self.new.cycle ≡ limit → self.new.phase ≡ Delivery }
        ensures further { result ≡ false
            → phases_done self.old.cycle self.old.phase < phases_done self.new.cycle self.new.phase }
    {
        match self.phase {
            Phase::Delivery => self.begin(limit, event),
            Phase::Act => {
                let next = self.next_act();
                self.act(next, event)
            }
            Phase::Completion(pending_store) => {
                self.store(pending_store, event);
                true
            }
        }
    }

    // goes over the cycles which the core goes through by itself, and through the first one in which something else may
    // happen
    fn begin(&mut self, limit: u64, event: &mut Event) -> bool
        requires delivery { self.old.phase ≡ Delivery }
        requires below { self.old.cycle < limit }
        requires most { limit ≤ MOST_CYCLES }
        ensures goes_on { GoesOnAs self.old self.new }
        ensures asked { IsTrue result → IsAskedAt self.new event.new }
        ensures fits { IsTrue result → IsOfPlace self.new.body.place event.new }
        ensures below { IsTrue result → self.new.cycle < limit }
        ensures within { self.new.cycle ≤ limit }
        ensures whole { self.new.cycle ≡ limit → self.new.phase ≡ Delivery }
        ensures further { result ≡ false
            → phases_done self.old.cycle self.old.phase < phases_done self.new.cycle self.new.phase }
    {
        let next = self.next_act();
        if self.go_alone(next, limit) {
            return self.act_still(next, event);
        }
        if self.cycle == limit {
            return false;
        }
        if self.deliver(next, event) {
            return true;
        }
        self.act(next, event)
    }

    // goes through a cycle in which the interface does nothing: words are moved, or else the core has its second phase
    #[tactic(auto, using(crate::proofs::WordsMoving::next_later))]
    fn act_still(&mut self, next: Option<NiEvent>, event: &mut Event) -> bool
        requires delivery { self.old.phase ≡ Delivery }
        requires next { TellsNext self.old.body.ni next }
        requires alone { IsAloneAt self.old.body self.old.cycle }
        requires early { self.old.cycle < MOST_CYCLES }
        ensures goes_on { GoesOnAs self.old self.new }
        ensures asked { IsTrue result → IsAskedAt self.new event.new }
        ensures fits { IsTrue result → IsOfPlace self.new.body.place event.new }
        ensures further { result ≡ false
            → phases_done self.old.cycle self.old.phase < phases_done self.new.cycle self.new.phase }
        ensures cycle { self.new.cycle ≤ self.old.cycle + 1 }
        ensures whole { self.new.cycle ≡ self.old.cycle + 1 → self.new.phase ≡ Delivery }
        ensures same { IsTrue result → self.new.cycle ≡ self.old.cycle }
    {
        self.pass(next);
        match self.body.ask_of_moved() {
            Ask::Nothing => self.act(next, event),
            ask => {
                self.act_moving(ask, event);
                true
            }
        }
    }

    // the event of a pending store
    fn store(&self, pending_store: PendingStore, event: &mut Event)
        requires pending_store { self.now.phase ≡ phase.Completion pending_store }
        requires early { self.now.cycle < MOST_CYCLES }
        ensures asked { IsAskedAt self.now event.new }
        ensures fits { IsOfPlace self.now.body.place event.new }
    {
        begin_at(event, stamp_of(&self.body.place, self.cycle, 1));
        ask_store(event, pending_store.word, pending_store.value);
    }

    /// Goes on to the next event before the limit, or else up to the limit, and whether an event comes.
    pub fn run(&mut self, limit: u64, event: &mut Event) -> bool
        requires within { self.old.cycle ≤ limit }
        requires whole { self.old.cycle ≡ limit → self.old.phase ≡ Delivery }
        requires most { limit ≤ MOST_CYCLES }
        ensures goes_on { GoesOnAs self.old self.new }
        ensures asked { IsTrue result → IsAskedAt self.new event.new }
        ensures fits { IsTrue result → IsOfPlace self.new.body.place event.new }
        ensures below { IsTrue result → self.new.cycle < limit }
        ensures through { result ≡ false → self.new.cycle ≡ limit }
        ensures whole { self.new.cycle ≡ limit → self.new.phase ≡ Delivery }
    {
        while self.cycle < limit {
            if self.step(limit, event) {
                return true;
            }
        }
        false
    }
}

/// A packet that comes to words of a communication memory: the first `count` of the values, from word
/// `first` on.
#[derive(Clone, Copy)]
struct Delivered {
    target: u32,
    first: u32,
    count: u32,
    values: [u32; 2],
}
