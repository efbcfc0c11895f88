//! Looks at the clocks of the other cores.
ghost use Rattle.std.specs.Prelude.{◌≡◌, ◌≤◌, ◌<◌, MatchOption};
ghost use Rattle.clock_board.specs.View.{own, IsGiven, HasSeen};
ghost use Rattle.clock_board.specs.Board.{IsPassOf};
ghost use Rattle.core_worker.specs.Runs.{with_looks};
ghost use Rattle.core_worker.specs.Looked.{SawAll, SawOne};

use clock_board::{Board, Course, Pass};

/// Looks at each other clock that was not seen at or past the stamp before, until one shows less: which, and
/// what it shows.
pub(crate) fn look_around<C: Course>(
    board: &Board<C>,
    pass: &mut Pass<C>,
    core: u32,
    cores: u32,
    wanted: u64,
) -> Option<(u32, u64)>
    requires of { IsPassOf board.now pass.old }
    requires given { IsGiven pass.old.view }
    requires core { core ≡ (own pass.old.view).core }
    requires cores { cores ≡ pass.old.view.cores }
    ensures of { IsPassOf board.now pass.new }
    ensures given { IsGiven pass.new.view }
    ensures same { pass.new.view ≡ with_looks pass.old.view (own pass.new.view).looks }
    ensures looks { MatchOption result
        (SawAll wanted (own pass.old.view).looks (own pass.new.view).looks)
        (λ low. SawOne wanted low.0 low.1 (own pass.old.view).looks (own pass.new.view).looks) }
    ensures seen { MatchOption result (HasSeen pass.new.view wanted) (λ low. low.1 < wanted) }
{
    for d in 0..cores {
        if d != core && pass.seen(d) < wanted {
            let seen = board.look(pass, d);
            if seen < wanted {
                return Some((d, seen));
            }
        }
    }
    None
}
