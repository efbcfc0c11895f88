use slot_arbiter::Access;
use tc_word::List;

/// What a report tells: the platform, and a row for each of its cores, in their order.
#[derive(Debug, Drop)]
pub struct Rows {
    /// How many cores the platform has.
    pub cores: u32,
    /// The length of a slot in cycles.
    pub slot: u32,
    /// The length of the slot table's period in cycles.
    pub period: u32,
    /// One row for each core.
    pub rows: List<Row>,
}

/// What a report tells of one core.
#[derive(Debug, Drop)]
pub struct Row {
    pub state: RowState,
    /// The bound of a C task in cycles; no other core has one.
    pub bound: Option<u64>,
    /// Whether the C task is alone with the shared data that it uses.
    pub alone: bool,
    /// Whether the C task set its flag that a loop ran past its count.
    pub overrun: bool,
    /// The words of the C task's global array `out`, none where it has no such array.
    pub outs: List<u32>,
    /// Whether the elements of that array are unsigned.
    pub outs_unsigned: bool,
    /// How many starts of a transfer were dropped.
    pub dropped: u32,
    /// The first transactions with main memory, as many as the job asks for.
    pub accesses: List<Access>,
}

/// What became of a core's task.
#[derive(Clone, Copy, Debug, PartialEq, Eq)]
pub enum RowState {
    /// The core has no task.
    Idle,
    /// The task still ran at the cycle limit.
    Limit,
    /// The task is done: its value, a word that is reported as signed, and how many cycles it took.
    Done { value: u32, cycles: u64 },
    /// The task trapped: the number of the trap, and its cycle.
    Trap { trap: u32, at: u64 },
}
