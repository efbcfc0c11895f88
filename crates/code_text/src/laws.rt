//! The law of tallies.
ghost use Rattle.std.specs.Prelude.{◌≡◌, ℕ, ◌+◌, ◌*◌, length};
ghost use Rattle.cycle_bound.specs.Bound.{bounds, fill_bound};
ghost use Rattle.cycle_bound.specs.Gap.{place_bound};
ghost use Rattle.sp_shape.specs.Parts.{PlainShape};
ghost use Rattle.code_text.specs.Tally.{each_at, run_bundles, run_moves, task_bundles, task_moves};

use slot_arbiter::Place;

/// Bundles and transactions add up to the bound: a cycle for each bundle, and for each transaction the most that one
/// takes at the place, its gap and one slot less a cycle. So it is for each function, over the iterations of its loops and
/// the functions that it calls, and so for the task. A law: it does nothing.
pub fn tallies_add_up(place: &Place)
    ensures functions { (s : PlainShape) (k : ℕ)
        → bounds s.functions (each_at place.now) (fill_bound (each_at place.now) s.functions) (length s.functions) k
        ≡ run_bundles s.functions (length s.functions) k
        + each_at place.now * run_moves s.functions (length s.functions) k }
    ensures task { (s : PlainShape) → place_bound place.now.table place.now.slot place.now.core s
        ≡ task_bundles s + each_at place.now * task_moves s }
{}
