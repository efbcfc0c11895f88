ghost use Rattle.std.specs.Prelude.{◌≡◌, ℕ, ◌+◌, ◌*◌, ◌/◌, ◌<◌, ◌≤◌, ◌↔◌, List, [], true, false, IsNone, IfSome};
ghost use Rattle.slot_arbiter.specs.Order.{IsNext};
ghost use Rattle.shared_order.specs.Program.{fed};
ghost use Rattle.argo_ni.specs.Interface.{Interface, Standing, IsTarget, new_interface, port_to};
ghost use Rattle.argo_ni.specs.Start.{with_source, with_target, is_in_range, answer_to, started, standing_by};
ghost use Rattle.argo_ni.specs.Sound.{IsFirstOf};
ghost use Rattle.argo_ni.specs.Turn.{sends, injection, injected, delivery, delivered, acts};
ghost use Rattle.argo_ni.specs.Event.{half_of, stamp_in, IsDone, IsQuiet, IsNextAct, IsClear, IsPast, IsIdle};

use crate::event::{NiEvent, NiKind, Started};
use crate::packet::{Packet, Payload};
use crate::port::{PACKET_WORDS, Port, UNUSED};
use crate::under_way::UnderWay;
use crate::window::{next_send, target_in};
use slot_arbiter::{MOST_CYCLES, Place};
use std::marker::Model;

/// The network interface of one core.
#[derive(Drop)]
pub struct Ni {
    cores: u32,
    core: u32,
    ports: [Port; 16],
    under_way: UnderWay,
    dropped: u32,
    from: u64,
    // the next cycle in which a packet is injected
    sending: Option<u64>,
}

impl Model for Ni {
    ghost use Rattle.argo_ni.specs.Interface.{Standing};

    ghost Value = { Standing };

    ghost use Rattle.argo_ni.specs.Seen.{seen};
    ghost use Rattle.argo_ni.specs.Sound.{IsKept};

    ghost view = { seen };

    ghost invariant = { λ a. IsKept (seen a) a.sending };
}

impl Ni {
    /// The interface of the core at that place, before the first cycle.
    #[tactic(auto, using(crate::proofs::Acts::new_sends_none))]
    pub fn new(place: &Place) -> Ni
        ensures state { result ≡ record { interface = new_interface place.now.cores place.now.core; from = 0 } }
        ensures quiet { (half : ℕ) → acts result.interface half ≡ false }
    {
        Ni {
            cores: place.cores,
            core: place.core,
            ports: [UNUSED; 16],
            under_way: UnderWay::new(),
            dropped: 0,
            from: 0,
            sending: None,
        }
    }

    /// Sets the source register for target `d` to a word of the own communication memory.
    #[tactic(auto, using(crate::proofs::Acts::same_acts))]
    pub fn set_source(&mut self, d: u32, word: u32)
        requires target { IsTarget self.old.interface d }
        ensures set { self.new ≡ record self.old { interface = with_source d word self.old.interface } }
        ensures same { (half : ℕ) → acts self.new.interface half ≡ acts self.old.interface half }
    {
        self.ports[d as usize].source = word;
    }

    /// Sets the target register for target `d` to a word of that core's communication memory.
    #[tactic(auto, using(crate::proofs::Acts::same_acts))]
    pub fn set_target(&mut self, d: u32, word: u32)
        requires target { IsTarget self.old.interface d }
        ensures set { self.new ≡ record self.old { interface = with_target d word self.old.interface } }
        ensures same { (half : ℕ) → acts self.new.interface half ≡ acts self.old.interface half }
    {
        self.ports[d as usize].target = word;
    }

    /// How many words the channel to target `d` still has to inject.
    pub fn remaining(&self, d: u32) -> u32
        requires target { IsTarget self.now.interface d }
        ensures left { result ≡ (port_to self.now.interface d).channel.left }
    {
        self.ports[d as usize].channel.left
    }

    /// Whether `count` words can be sent to target `d` by its registers: some, and none past the
    /// [`local_store::COMM_WORDS`] of a communication memory. A start of any other count is refused.
    pub fn accepts(&self, d: u32, count: u32) -> bool
        requires target { IsTarget self.now.interface d }
        ensures { result ≡ is_in_range (port_to self.now.interface d) count }
    {
        !matches!(self.ports[d as usize].answer_to(count), Started::Refused)
    }

    /// Starts a transfer of `count` words to target `d` in a cycle, from the word in the source
    /// register to the word in the target register.
    pub fn start(&mut self, d: u32, count: u32, cycle: u64) -> Started
        requires target { IsTarget self.old.interface d }
        requires most { cycle ≤ MOST_CYCLES }
        requires after { self.old.from ≤ 2 * cycle + 2 }
        requires none_left { IsPast self.old cycle }
        ensures answer { result ≡ answer_to (port_to self.old.interface d) count }
        ensures state { self.new ≡ standing_by result d count cycle self.old }
        ensures interface { self.new.interface ≡ started d count self.old.interface }
    {
        let answer = self.ports[d as usize].answer_to(count);
        match answer {
            Started::Begun => {
                self.ports[d as usize].begin(count);
                self.from = 2 * cycle + 2;
                self.sending = next_send(&self.ports, self.cores, self.core, self.from);
            }
            Started::Dropped => self.dropped = self.dropped.saturating_add(1),
            Started::Refused => {}
        }
        answer
    }

    /// The next injection or delivery, the one with the least stamp above `stamp`; or `None` where
    /// nothing is left to inject or deliver. It finds what is left, all of which is above `stamp`.
    #[tactic(auto, using(crate::proofs::Acts::quiet_for_ever))]
    pub fn next_after(&self, stamp: u64) -> Option<NiEvent>
        requires clear { IsClear self.now stamp }
        ensures next { IfSome result (λ e. IsNextAct self.now (half_of e)) }
        ensures above { IfSome result (λ e. stamp
            < stamp_in self.now.interface.cores self.now.interface.core (half_of e)) }
        ensures event { IfSome result (IsDone self.now.interface) }
        ensures between { IfSome result (λ e. IsQuiet self.now.interface self.now.from (half_of e)) }
        ensures bounded { IfSome result (λ e. e.cycle ≤ 2 * MOST_CYCLES) }
        ensures none { IsNone result ↔ IsIdle self.now.interface }
        ensures never { IsNone result → (half : ℕ) → acts self.now.interface half ≡ false }
        ensures quiet { IsNone result → (to : ℕ) → IsQuiet self.now.interface self.now.from to }
    {
        // All that is left is above the stamp.
        let _ = stamp;
        self.next()
    }

    /// Carries out the next event, which is an injection, with the values of the words read.
    pub fn inject(&mut self, values: [u32; 2])
        requires next { (cycle : ℕ) × IsNextAct self.old (2 * cycle + 1) }
        ensures state { (cycle : ℕ) → IsNextAct self.old (2 * cycle + 1)
            → self.new ≡ record { interface = injected cycle values self.old.interface; from = 2 * cycle + 2 } }
        ensures heard { (cycle stamp : ℕ) → IsNextAct self.old (2 * cycle + 1)
            → (fed stamp (injection cycle self.old.interface) values).core ≡ self.new.interface }
    {
        let Some(cycle) = self.next_send() else {
            unreachable!()
        };
        let target = target_in(self.cores, self.core, cycle / 3);
        let port = &mut self.ports[target as usize];
        self.under_way.send(port.packet(cycle, target, values));
        port.move_on();
        self.from = 2 * cycle + 2;
        self.sending = next_send(&self.ports, self.cores, self.core, self.from);
    }

    /// Carries out the next event, which is a delivery.
    pub fn deliver(&mut self)
        requires next { (cycle : ℕ) × IsNextAct self.old (2 * cycle) }
        ensures state { (cycle : ℕ) → IsNextAct self.old (2 * cycle)
            → self.new ≡ record { interface = delivered cycle self.old.interface; from = 2 * cycle + 1 } }
        ensures heard { (cycle stamp : ℕ) (values : List ℕ) → IsNextAct self.old (2 * cycle)
            → (fed stamp (delivery cycle self.old.interface) values).core ≡ self.new.interface }
    {
        let Some(packet) = self.under_way.first() else {
            unreachable!()
        };
        self.under_way.arrive();
        self.from = 2 * packet.due + 1;
    }

    /// How many starts were dropped; the count stands still at the greatest word.
    pub fn dropped(&self) -> u32
        ensures { result ≡ self.now.interface.dropped }
    {
        self.dropped
    }

    /// The next injection or delivery: of one cycle, the delivery comes first.
    #[tactic(auto, using(crate::proofs::Acts::sent_alone, crate::proofs::Acts::never_acts))]
    fn next(&self) -> Option<NiEvent>
        ensures next { IfSome result (λ e. IsNextAct self.now (half_of e)) }
        ensures event { IfSome result (IsDone self.now.interface) }
        ensures bounded { IfSome result (λ e. e.cycle ≤ 2 * MOST_CYCLES) }
        ensures none { IsNone result ↔ IsIdle self.now.interface }
        ensures never { IsNone result → (half : ℕ) → acts self.now.interface half ≡ false }
    {
        match (self.next_send(), self.first_packet()) {
            (None, None) => None,
            (Some(cycle), None) => Some(self.injection_in(cycle)),
            (None, Some(packet)) => Some(self.delivery_of(&packet)),
            (Some(cycle), Some(packet)) => {
                if cycle < packet.due {
                    Some(self.injection_in(cycle))
                } else {
                    Some(self.delivery_of(&packet))
                }
            }
        }
    }

    /// The next cycle in which a packet is injected.
    fn next_send(&self) -> Option<u64>
        ensures next { IfSome result (IsNext (sends self.now.interface) (self.now.from / 2)) }
        ensures near { IfSome result (λ cycle. 2 * cycle + 1 < self.now.from + 90) }
        ensures bounded { IfSome result (λ cycle. cycle ≤ 2 * MOST_CYCLES) }
        ensures none { IsNone result → (cycle : ℕ) → sends self.now.interface cycle ≡ false }
        ensures left { IsNone result → (d : ℕ) → IsTarget self.now.interface d
            → (port_to self.now.interface d).channel.left ≡ 0 }
    {
        self.sending
    }

    /// The packet under way that was sent first.
    #[tactic(auto, using(crate::proofs::Queue::is_first, crate::proofs::Queue::is_empty))]
    fn first_packet(&self) -> Option<Packet>
        ensures first { IfSome result (IsFirstOf self.now) }
        ensures bounded { IfSome result (λ packet. packet.due ≤ 2 * MOST_CYCLES) }
        ensures none { IsNone result → self.now.interface.under_way ≡ [] }
    {
        self.under_way.first()
    }

    /// The injection in a cycle in which there is one.
    fn injection_in(&self, cycle: u64) -> NiEvent
        requires sends { sends self.now.interface cycle ≡ true }
        ensures half { half_of result ≡ 2 * cycle + 1 }
        ensures cycle { result.cycle ≡ cycle }
        ensures event { IsDone self.now.interface result }
    {
        let target = target_in(self.cores, self.core, cycle / 3);
        let channel = self.ports[target as usize].channel;
        let kind = NiKind::Inject {
            target,
            first: channel.source,
            count: channel.left.min(PACKET_WORDS),
        };
        NiEvent { cycle, kind }
    }

    /// The delivery of the packet that was sent first.
    #[tactic(auto, using(crate::proofs::Acts::first_program))]
    fn delivery_of(&self, packet: &Packet) -> NiEvent
        requires first { IsFirstOf self.now packet.now }
        ensures half { half_of result ≡ 2 * packet.now.due }
        ensures cycle { result.cycle ≡ packet.now.due }
        ensures event { IsDone self.now.interface result }
    {
        let (count, values) = match packet.payload {
            Payload::One(word) => (1, [word, 0]),
            Payload::Two(word, next) => (2, [word, next]),
        };
        let kind = NiKind::Deliver {
            target: packet.target,
            first: packet.first,
            count,
            values,
        };
        NiEvent {
            cycle: packet.due,
            kind,
        }
    }
}
