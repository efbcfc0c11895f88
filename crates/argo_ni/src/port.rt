ghost use Rattle.std.specs.Prelude.{◌≡◌, ◌+◌, ◌^◌, ◌<◌, ◌≤◌};
ghost use Rattle.argo_ni.specs.Port.{IsWithin};
ghost use Rattle.argo_ni.specs.Packet.{payload};
ghost use Rattle.argo_ni.specs.Start.{answer_to, begun};
ghost use Rattle.argo_ni.specs.Turn.{packet_of, moved_on};

use crate::event::Started;
use crate::packet::{Packet, Payload};
use local_store::COMM_WORDS;

/// How many words a packet carries at the most.
pub const PACKET_WORDS: u32 = 2;

/// A channel to one target: what a transfer still has to send.
#[derive(Clone, Copy, Debug, PartialEq, Eq)]
pub struct Channel {
    /// The next word to read, of the sender's communication memory.
    pub source: u32,
    /// The word that it comes to, of the target's communication memory.
    pub target: u32,
    /// How many words are left to inject.
    pub left: u32,
}

/// What an interface has for one target: two registers and the channel.
#[derive(Clone, Copy, Debug, PartialEq, Eq)]
pub struct Port {
    /// The source register: the first word of the next transfer, of the own communication memory.
    pub source: u32,
    /// The target register: the first word that it comes to, of the target's communication memory.
    pub target: u32,
    /// The transfer that is under way.
    pub channel: Channel,
}

/// A port that nothing was set in and nothing is sent through.
pub const UNUSED: Port = Port {
    source: 0,
    target: 0,
    channel: Channel {
        source: 0,
        target: 0,
        left: 0,
    },
};

impl Port {
    /// The answer to a start of that many words.
    pub fn answer_to(&self, count: u32) -> Started
        ensures { result ≡ answer_to self.now count }
    {
        let source_end = u64::from(self.source) + u64::from(count);
        let target_end = u64::from(self.target) + u64::from(count);
        let end = u64::from(COMM_WORDS);
        if count == 0 || source_end > end || target_end > end {
            return Started::Refused;
        }
        if self.channel.left > 0 {
            return Started::Dropped;
        }
        Started::Begun
    }

    /// Begins a transfer of that many words: the channel takes the registers over.
    pub fn begin(&mut self, count: u32)
        ensures { self.new ≡ begun self.old count }
    {
        self.channel = Channel {
            source: self.source,
            target: self.target,
            left: count,
        };
    }

    /// The packet that goes out to the target in the cycle, with the values read.
    pub fn packet(&self, cycle: u64, target: u32, values: [u32; 2]) -> Packet
        requires in_time { cycle < 2 ^ 62 }
        ensures { result ≡ packet_of cycle target (payload self.now.channel.left values) self.now }
    {
        let [first, second] = values;
        let payload = if self.channel.left == 1 {
            Payload::One(first)
        } else {
            Payload::Two(first, second)
        };
        Packet {
            due: cycle + 9,
            target,
            first: self.channel.target,
            payload,
        }
    }

    /// Takes a packet from the channel.
    pub fn move_on(&mut self)
        requires within { IsWithin self.old.channel }
        ensures { self.new ≡ moved_on self.old }
    {
        let count = self.channel.left.min(PACKET_WORDS);
        self.channel.source += count;
        self.channel.target += count;
        self.channel.left -= count;
    }
}
