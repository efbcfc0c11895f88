use crate::body::Body;
use local_store::Cell;
use patmos_instr::Reg;
use patmos_model::{CoreState, Status};

impl Body {
    ghost use Rattle.std.specs.Prelude.{◌≡◌};
    ghost use Rattle.local_store.specs.Memory.{IsOwn};
    ghost use Rattle.patmos_model.specs.Outcome.{state_at, word_in};
    ghost use Rattle.patmos_step.specs.Shown.{plain_of};

    /// How far the task has come at a limit.
    pub fn outcome(&self, limit: u64) -> CoreState
        ensures { result ≡ state_at limit (plain_of self.now) }
    {
        match self.status {
            Status::Idle => CoreState::Idle,
            Status::Running => {
                if self.has_ended() && self.free <= limit {
                    CoreState::Done {
                        value: self.regs.general(Reg::low(1)),
                        flag: self.regs.general(Reg::low(2)),
                        cycles: self.free.saturating_sub(self.place.start),
                    }
                } else {
                    CoreState::Running
                }
            }
            Status::Trapped { trap, at } => CoreState::Trapped { trap, at },
        }
    }

    /// The word of a cell of the core's own memories.
    pub fn own_word(&self, cell: Cell) -> u32
        requires own { IsOwn cell }
        ensures { result ≡ word_in cell (plain_of self.now) }
    {
        self.store.read(cell)
    }
}
