ghost use Rattle.std.specs.Prelude.{◌≡◌, ◌<◌, List, [], ◌∷◌, ◌++◌, length, drop, slice_get};

use crate::packet::Packet;
use std::marker::Model;

/// At most three packets: one is sent every third cycle at the most, and each is under way for nine.
#[derive(Clone, Copy)]
enum Line {
    Empty,
    One(Packet),
    Two(Packet, Packet),
    Three(Packet, Packet, Packet),
}

/// The packets under way, in the order in which they were sent.
#[derive(Drop)]
pub struct UnderWay {
    line: Line,
}

impl Model for UnderWay {
    ghost use Rattle.std.specs.Prelude.{List};
    ghost use Rattle.argo_ni.specs.declared.packet.Packet.{Packet};

    ghost Value = { List Packet };

    ghost use Rattle.argo_ni.specs.Line.{listed};

    ghost view = { λ a. listed a.line };
}

impl UnderWay {
    /// No packet.
    pub fn new() -> UnderWay
        ensures { result ≡ [] }
    {
        UnderWay { line: Line::Empty }
    }

    /// The packet that was sent first.
    pub fn first(&self) -> Option<Packet>
        ensures { result ≡ slice_get self.now 0 }
    {
        match self.line {
            Line::Empty => None,
            Line::One(packet) | Line::Two(packet, _) | Line::Three(packet, _, _) => Some(packet),
        }
    }

    /// Sends one more packet.
    pub fn send(&mut self, packet: Packet)
        requires room { length self.old < 3 }
        ensures { self.new ≡ self.old ++ packet ∷ [] }
    {
        self.line = match self.line {
            Line::Empty => Line::One(packet),
            Line::One(one) => Line::Two(one, packet),
            Line::Two(one, two) => Line::Three(one, two, packet),
            Line::Three(..) => unreachable!(),
        };
    }

    /// Takes out the packet that was sent first.
    pub fn arrive(&mut self)
        requires some { 0 < length self.old }
        ensures { self.new ≡ drop 1 self.old }
    {
        self.line = match self.line {
            Line::Empty => unreachable!(),
            Line::One(_) => Line::Empty,
            Line::Two(_, two) => Line::One(two),
            Line::Three(_, two, three) => Line::Two(two, three),
        };
    }
}
