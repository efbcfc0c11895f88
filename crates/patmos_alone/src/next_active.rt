ghost use Rattle.std.specs.Prelude.{◌≡◌, ℕ, ◌≤◌, ◌<◌};
ghost use Rattle.patmos_model.specs.State.{Core};
ghost use Rattle.patmos_model.specs.Cells.{now};
ghost use Rattle.patmos_model.specs.Cycle.{own};
ghost use Rattle.patmos_alone.specs.Alone.{IsDueBefore};
ghost use Rattle.patmos_step.specs.Ready.{CanGoOn};
ghost use Rattle.patmos_step.specs.Shown.{plain_of};

use patmos_step::Body;
use slot_arbiter::{MOST_CYCLES, start_of};

/// The first cycle from this one on in which the core may do something of its own, or else the limit. If words are
/// to be moved, they can be in that cycle, where it comes before the limit.
#[inline(always)]
#[tactic(auto, using(crate::proofs::Sleeping::sleeps_stopped, crate::proofs::Sleeping::sleeps_waiting, crate::proofs::Sleeping::sleeps_moving, crate::proofs::Sleeping::due_there))]
pub(crate) fn active(body: &Body, cycle: u64, limit: u64) -> u64
    requires can { CanGoOn body.now }
    requires within { cycle ≤ limit }
    requires most { limit ≤ MOST_CYCLES }
    ensures from { cycle ≤ result }
    ensures asleep { (c : Core) (u : ℕ) → c.plain ≡ plain_of body.now → cycle ≤ u → u < result → own u c ≡ now c }
    ensures due { IsDueBefore limit result (plain_of body.now) }
{
    if !body.is_running() {
        limit
    } else if body.transfer.words > 0 {
        start_of(&body.place, body.free.max(cycle))
    } else if body.free >= cycle {
        body.free
    } else {
        limit
    }
}
