/// What an interface does next.
#[derive(Clone, Copy, Debug, PartialEq, Eq)]
pub struct NiEvent {
    /// The cycle in which it does it.
    pub cycle: u64,
    /// What it does.
    pub kind: NiKind,
}

/// The kinds of an interface's events.
#[derive(Clone, Copy, Debug, PartialEq, Eq)]
pub enum NiKind {
    /// In the second phase of the cycle, words of the own communication memory are read and sent.
    Inject {
        /// The core that they go to.
        target: u32,
        /// The first word that is read, of the own communication memory.
        first: u32,
        /// How many words, 1 or 2.
        count: u32,
    },
    /// In the first phase of the cycle, a packet comes to its words.
    Deliver {
        /// The core whose communication memory it comes to.
        target: u32,
        /// The first word that it comes to there.
        first: u32,
        /// How many words, 1 or 2.
        count: u32,
        /// The words, the first `count` of them.
        values: [u32; 2],
    },
}

/// The answer to a start.
#[derive(Clone, Copy, Debug, PartialEq, Eq)]
pub enum Started {
    /// The transfer begins.
    Begun,
    /// The channel still has words to inject: the start is dropped and counted.
    Dropped,
    /// No words, or words past the end of a communication memory: nothing changes.
    Refused,
}
