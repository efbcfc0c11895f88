ghost use Rattle.std.specs.Prelude.{ℕ, ◌≡◌, take};
ghost use Rattle.local_store.specs.Memory.{IsOwn};
ghost use Rattle.patmos_model.specs.Outcome.{word_in};
ghost use Rattle.global_step.specs.Loaded.{Machine};
ghost use Rattle.global_step.specs.Machine as machine;
ghost use Rattle.global_step.specs.Machine.{at_limit};
ghost use Rattle.tc_run.specs.Final.{IsFinalCore};

use local_store::Cell;
use patmos_core::{Core, CoreState};
use slot_arbiter::Access;

/// How far a core's task has come in the machine at its limit.
pub fn outcome_of(core: &Core) -> CoreState
    ensures { (m : Machine) (k : ℕ) → IsFinalCore m k core.now → result ≡ machine.outcome_of m k }
{
    core.state()
}

/// Its first transactions with main memory, as many as are told.
pub fn accesses_of(core: &Core) -> &[Access]
    ensures { (m : Machine) (k : ℕ) → IsFinalCore m k core.now
        → result.now ≡ take m.trace ((at_limit m).cores k).seen.accesses }
{
    core.trace()
}

/// How many starts of transfers over the network were dropped.
pub fn dropped_of(core: &Core) -> u32
    ensures { (m : Machine) (k : ℕ) → IsFinalCore m k core.now
        → result ≡ ((at_limit m).cores k).plain.interface.dropped }
{
    core.dropped()
}

/// The word of a cell of its scratchpad or private memory.
pub fn own_word_of(core: &Core, cell: Cell) -> u32
    requires own { IsOwn cell }
    ensures { (m : Machine) (k : ℕ) → IsFinalCore m k core.now
        → result ≡ word_in cell ((at_limit m).cores k).plain }
{
    core.word(cell)
}
