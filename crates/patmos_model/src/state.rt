use crate::trap::Trap;

/// Whether a core goes on.
#[derive(Clone, Copy, Debug, PartialEq, Eq)]
pub enum Status {
    /// It has no task.
    Idle,
    /// It has begun its task and was not stopped.
    Running,
    /// It stopped at a cycle.
    Trapped { trap: Trap, at: u64 },
}

/// How far a core has come with its task at a cycle limit.
#[derive(Clone, Copy, Debug, PartialEq, Eq)]
pub enum CoreState {
    /// The core has no task.
    Idle,
    /// The task has not ended by the limit.
    Running,
    /// The task has ended by the limit: what r1 and r2 hold, and how many cycles it took from its
    /// start on.
    Done { value: u32, flag: u32, cycles: u64 },
    /// The core was stopped before the limit, at this cycle.
    Trapped { trap: Trap, at: u64 },
}
