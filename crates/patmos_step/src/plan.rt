use crate::body::Body;
use patmos_model::{Fetched, Flow, Goal, Status};
use slot_arbiter::{MOST_CYCLES, start_of};

/// What a core does in its own act in a cycle, once a flow that was due has taken effect.
#[derive(Clone, Copy, Debug, PartialEq, Eq)]
pub enum Plan {
    /// Nothing: it has no task, or the task has ended or was stopped.
    Nothing,
    /// It waits for its next bundle, or for a slot in which words can move.
    Waits,
    /// It does what stands at its offset.
    Does(Fetched),
}

impl Body {
    ghost use Rattle.std.specs.Prelude.{◌≡◌, ◌↔◌, ◌≤◌, IsTrue};
    ghost use Rattle.patmos_model.specs.State.{is_running, has_ended, is_free};
    ghost use Rattle.patmos_model.specs.Transaction.{is_due};
    ghost use Rattle.patmos_step.specs.Moving.{HasToMove};
    ghost use Rattle.patmos_step.specs.Plan.{planned, PlanFits};
    ghost use Rattle.patmos_step.specs.Shown.{plain_of};
    ghost use Rattle.slot_arbiter.specs.Slot.{is_slot_start};

    /// What the core does in the cycle, in which no flow is due any more.
    pub fn plan(&self, cycle: u64) -> Plan
        ensures plan { result ≡ planned cycle (plain_of self.now) }
        ensures within { PlanFits self.now.offset self.now.size result }
    {
        if !self.is_running() {
            Plan::Nothing
        } else if self.is_free(cycle) {
            Plan::Does(self.fetch())
        } else {
            Plan::Waits
        }
    }

    /// Whether the core has a task which neither ended nor was stopped.
    pub fn is_running(&self) -> bool
        ensures { result ≡ is_running (plain_of self.now) }
    {
        match self.status {
            Status::Idle | Status::Trapped { .. } => false,
            Status::Running => !self.has_ended(),
        }
    }

    /// Whether the task has ended, if it was not stopped.
    pub fn has_ended(&self) -> bool
        ensures { result ≡ has_ended (plain_of self.now) }
    {
        match self.flow {
            Some(
                Flow {
                    goal: Goal::Return { base, .. },
                    slots,
                },
            ) => base == 0 && slots == 0 && self.transfer.words == 0,
            Some(_) | None => false,
        }
    }

    // whether the core is free in the cycle, and nothing is to be moved
    fn is_free(&self, cycle: u64) -> bool
        ensures { result ≡ is_free cycle (plain_of self.now) }
    {
        self.transfer.words == 0 && self.free == cycle
    }

    /// Whether words are to be moved.
    #[inline(always)]
    pub fn is_moving(&self) -> bool
        ensures { IsTrue result ↔ HasToMove (plain_of self.now) }
    {
        matches!(self.status, Status::Running) && 0 < self.transfer.words
    }

    /// Whether words are to be moved, and can be in this cycle.
    pub fn is_due(&self, cycle: u64) -> bool
        requires early { cycle ≤ MOST_CYCLES }
        ensures { result ≡ is_due cycle (plain_of self.now) }
    {
        0 < self.transfer.words && self.free <= cycle && self.is_slot_start(cycle)
    }

    /// Whether a slot of the core starts in this cycle.
    pub fn is_slot_start(&self, cycle: u64) -> bool
        requires early { cycle ≤ MOST_CYCLES }
        ensures { result ≡ is_slot_start self.now.place.table self.now.place.slot self.now.place.core cycle }
    {
        start_of(&self.place, cycle) == cycle
    }
}
