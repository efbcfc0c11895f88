/// The words that a packet carries.
#[derive(Clone, Copy, Debug, PartialEq, Eq)]
pub enum Payload {
    /// One word, the last of its transfer.
    One(u32),
    /// Two words that follow one another.
    Two(u32, u32),
}

/// A packet under way.
#[derive(Clone, Copy, Debug, PartialEq, Eq)]
pub struct Packet {
    /// The cycle in which it is delivered.
    pub due: u64,
    /// The core that it goes to.
    pub target: u32,
    /// The first word that it comes to, of the target's communication memory.
    pub first: u32,
    /// What it carries.
    pub payload: Payload,
}
