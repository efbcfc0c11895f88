ghost use Rattle.std.specs.Prelude.{◌≤◌};

/// How many transactions of each core a report lists at most.
pub const MOST_TRACE: u32 = 65_536;

/// One transaction of a core with main memory.
#[derive(Clone, Copy, Debug, PartialEq, Eq)]
pub struct Access {
    /// The cycle at which the data moves.
    pub cycle: u64,
    /// Whether it is a write.
    pub write: bool,
    /// How many words it moves, 1 to 4.
    pub words: u32,
}

/// A load or a store of one shared or communication word.
#[derive(Clone, Copy, Debug, PartialEq, Eq)]
pub struct WordOp {
    /// The number of the word.
    pub word: u32,
    /// Whether it is a store.
    pub write: bool,
    /// The value that is loaded or stored.
    pub value: u32,
}

/// What one core does to shared and communication words at one stamp.
#[derive(Clone, Copy, Debug, PartialEq, Eq)]
pub struct Event {
    /// Where the event stands in the order of all cores' events.
    pub stamp: u64,
    /// The operations, the first `count` of them, in their order.
    pub ops: [WordOp; 8],
    /// How many operations there are, at most 8.
    pub count: u32,
    pub ghost few: { count ≤ 8 },
}
