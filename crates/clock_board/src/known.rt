//! What a pass knows. No value of these types is made: they exist in contracts alone.
use shared_order::Operation;
use std::collections::LinkedList;

/// One look at a clock: whose clock it was, and the stamp that it showed.
pub struct Look {
    pub core: u64,
    pub seen: u64,
}

/// What one core has made, published and seen, each in the order in which it came about.
pub struct Record {
    pub core: u64,
    pub made: LinkedList<Operation>,
    pub published: LinkedList<u64>,
    pub looks: LinkedList<Look>,
}

/// What a pass is for, and the records that it has.
pub enum Holding {
    /// The pass that the board was made with, and the records that came back to it.
    Maker(LinkedList<Record>),
    /// A pass that was split from it and has no core yet.
    Claiming,
    /// The pass of a core, and its record.
    Given(Record),
    /// A pass that was taken back.
    Spent,
}

/// What a pass knows: the number of cores, all operations of the course in their order, and its
/// records.
pub struct View {
    pub cores: u64,
    pub course: LinkedList<Operation>,
    pub holding: Holding,
}
